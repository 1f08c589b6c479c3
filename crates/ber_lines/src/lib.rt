//! The elements of an input in BER or DER, one after another, with those in them: of each where it is, its tag and length,
//! how deep it is, and what is in it. An input that ends too early or isn't BER has lines up to there.
#![tactic(auto)]

pub mod lines;
pub mod tags;
pub mod walk;
