//! What a verifier of signed data needs of its content and of its certificates: the octets that are hashed, certificates
//! as far as they name a signer, and which of them is a signer's (RFC 2315, 9.3; RFC 5652, 5.3 and 5.4; RFC 5280, 4.1).
#![tactic(auto)]

pub mod hashed;
pub mod heads;
pub mod key_identifiers;
pub mod matches;

pub use hashed::hashed_octets;
pub use heads::{CertificateHead, TbsCertificateHead};
pub use key_identifiers::first_extension;
pub use matches::{certificate_element, signer_certificate};
