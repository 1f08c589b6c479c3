//! The bags of PKCS #12 (RFC 7292, 4.2), and what they hold.
#![tactic(auto)]

pub mod parts;
pub mod safe_bags;
