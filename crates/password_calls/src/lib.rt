//! How a password encrypts, for callers in C: found in an input, and built from parts.
//! `der.h` declares the calls; the crate `der_c` exports them.
#![tactic(auto)]

pub mod built;
pub mod others;
pub mod passwords;
