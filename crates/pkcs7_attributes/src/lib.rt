//! The attributes of a signer, those that it signs and those that it doesn't, and what a signature covers of them
//! (RFC 5652, 5.3, 5.4 and 11).
#![tactic(auto)]

pub mod attributes;
pub mod named_attributes;
pub mod signed_sets;
pub mod unsigned_attributes;

pub use attributes::Attributes;
pub use signed_sets::{AttributesAsSet, set_has_the_same_contents};
pub use unsigned_attributes::RawUnsignedAttributes;
