//! Signers, certificates, MACs and other parts of an input, for callers in C.
//! `der.h` declares the calls; the crate `der_c` exports them.
#![tactic(auto)]

pub mod certificates;
pub mod lists;
pub mod macs;
pub mod parts;
pub mod signers;
