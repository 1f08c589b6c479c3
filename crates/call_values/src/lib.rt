//! What calls from C are given and answer: ranges of an input, numbers, rows and statuses.
//! `der.h` declares the calls; the crate `der_c` exports them.
#![tactic(auto)]

pub mod built_lists;
pub mod elements;
pub mod further;
pub mod given;
pub mod not_built;
pub mod outputs;
pub mod ranges;
pub mod readings;
pub mod status;
