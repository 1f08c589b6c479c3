//! The library for C: the calls that `der.h` declares, which says what each does and what a caller has to keep to.
//! Each is a call of a crate whose name ends in `_calls`, by the same clause.
#![tactic(auto)]

pub mod kinds;
pub mod messages;
pub mod parts;
pub mod passwords;
pub mod stores;
pub mod texts;
