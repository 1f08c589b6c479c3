//! What is around the bags of a PKCS #12 file, written from parts that a caller has as octets (RFC 7292, 4).
#![tactic(auto)]

pub mod content;
mod stores;
mod write;

pub use content::Content;
pub use write::{write_authenticated_safe, write_store};
