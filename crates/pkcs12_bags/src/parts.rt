//! What the bags of PKCS #12 hold: attributes, certificates, revocation lists, secrets and encrypted keys; and
//! encrypted contents (RFC 7292, 4).

pub mod attributes;
pub mod bags;
pub mod encrypted_contents;
pub mod oids;
pub mod sets;

pub use attributes::{BagAttributes, BagAttributesRef, Pkcs12Attribute};
pub use bags::{CertificateBag, CrlBag, EncryptedKeyBag, KeyBag, SecretBag, X509Bag};
pub use encrypted_contents::EncryptedSafeContents;
pub use sets::SetRef;
