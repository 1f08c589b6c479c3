//! Object identifiers (ITU-T X.660), by the contents octets that DER gives them (X.690, 8.19).
#![tactic(auto)]

pub mod known;
mod oid;
mod oid_contents;
mod text;
mod views;

pub use known::is_oid_of;
pub use oid::ObjectIdentifier;
pub use oid_contents::is_oid;
