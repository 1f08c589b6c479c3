//! What the tests of all layers use: checks of a type, and fakes of sources and sinks.
#![tactic(auto)]

pub mod checks;
pub mod fakes;
