//! Why an input has no ranges of what is asked for.
#![tactic(auto)]

pub mod ranges;

pub use ranges::{Refusal, refusal_of};
