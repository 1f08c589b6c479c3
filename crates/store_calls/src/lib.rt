//! Key stores of PKCS #12 and their bags, for callers in C: found in an input, and built from parts.
//! `der.h` declares the calls; the crate `der_c` exports them.
#![tactic(auto)]

pub mod bags;
pub mod built_bags;
pub mod built_contents;
pub mod built_stores;
pub mod nested;
