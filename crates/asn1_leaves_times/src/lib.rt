//! The times of ASN.1 as DER writes them (ITU-T X.690, 11.7 and 11.8; RFC 5280, 4.1.2.5): UTCTime and
//! GeneralizedTime, both in whole seconds of Greenwich Mean Time, and the contents that spell them.
#![tactic(auto)]

mod after_year;
mod calendar;
mod digits;
mod generalized_time;
mod utc_time;
mod views;

pub use generalized_time::GeneralizedTime;
pub use utc_time::UTCTime;
