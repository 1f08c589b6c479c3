//! Where the parts of an input are: walks over its headers, and what they find in the encodings of a type.
#![tactic(auto)]

pub mod walks;

pub use walks::{Place, Step, range_at, walk};
