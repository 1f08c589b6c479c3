//! Signed data (RFC 5652, 5) and signed attributes, written from parts that a caller has.
#![tactic(auto)]

pub mod attributes;
pub mod checks;
pub mod content;
mod parts;
pub mod signers;
mod versions;
mod write;

pub use attributes::{SignedAttributes, write_attributes};
pub use checks::{NotSigned, SignedPart};
pub use content::{Content, ContentInfo};
pub use signers::{
    Identifier, NotRead, Signer, SignerPart, read_attributes, read_identifier, read_signer,
};
pub use versions::{any_tagged, is_tagged, signer_version};
pub use write::write_signed_data;
