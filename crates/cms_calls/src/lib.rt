//! Signed and enveloped data of CMS and what they hold, for callers in C: found in an input, and built from parts.
//! `der.h` declares the calls; the crate `der_c` exports them.
#![tactic(auto)]

pub mod built_attributes;
pub mod built_enveloped;
pub mod built_indirect;
pub mod built_recipient;
pub mod built_signed;
pub mod contents;
pub mod trust_lists;
