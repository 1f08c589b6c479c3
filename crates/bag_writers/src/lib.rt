//! Bags of PKCS #12 that aren't encrypted, written from parts that a caller has as octets (RFC 7292, 4.2).
#![tactic(auto)]

mod attributes;
pub mod bags;
pub mod held;
mod utf16;
mod write;

pub use bags::Bag;
pub use held::Held;
pub use utf16::is_utf16;
pub use write::write_safe_contents;
