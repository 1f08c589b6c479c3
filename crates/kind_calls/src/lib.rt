//! Checks and rewritings of inputs of all kinds, and conversions of BER to DER, for callers in C.
//! `der.h` declares the calls; the crate `der_c` exports them.
#![tactic(auto)]

pub mod kinds;
