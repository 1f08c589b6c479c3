//! What a verifier or an inspector of signed data needs beside its types: the octets that are hashed, certificates as far
//! as they name a signer, and which certificate is a signer's (RFC 5652, 5.3 and 5.4; RFC 5280, 4.1); of Authenticode,
//! nested signatures and page hashes.

pub mod all_signers;
pub mod nested;
pub mod pages;
pub mod parts;
pub mod raw_attributes;
pub mod raw_hashed;
pub mod time_stamps;

pub use all_signers::{SignerCertificate, signer_certificates, signer_certificates_at};
pub use nested::nested_signatures;
pub use pages::{PageHashes, page_hash_octets};
pub use parts::{certificates, signers};
pub use pkcs7_verifier::{
    CertificateHead, TbsCertificateHead, certificate_element, first_extension, hashed,
    hashed_octets, heads, key_identifiers, matches, signer_certificate,
};
pub use raw_attributes::attribute_values;
pub use time_stamps::{Accuracy, GenTime, TimeStampAuthority, TimeStampExtensions, TstInfo};
