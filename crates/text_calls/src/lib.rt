//! Texts for people, for callers in C: names, object identifiers, numbers, UTF-16.
//! `der.h` declares the calls; the crate `der_c` exports them.
#![tactic(auto)]

pub mod texts;
