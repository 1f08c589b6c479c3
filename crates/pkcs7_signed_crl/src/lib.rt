//! The parts of signed data that hold none of it: revocation lists, certificates as they are, and the small types of
//! signers (RFC 5280, 5.1; RFC 5652, 5 and 10).
#![tactic(auto)]

pub mod algorithms;
pub mod certificate_lists;
pub mod certificates;
pub mod revocations;
pub mod revoked;
pub mod signers;

pub use algorithms::{
    DigestAlgorithmIdentifier, DigestAlgorithmIdentifiers, SignatureAlgorithmIdentifier,
};
pub use certificate_lists::{CertificateList, TbsCertList};
pub use certificates::{CertificateChoices, CertificateSet};
pub use pkcs7_attributes::Attributes;
pub use revocations::{OtherRevocationInfoFormat, RevocationInfoChoice, RevocationInfoChoices};
pub use revoked::{RevokedCertificate, RevokedCertificates};
pub use signers::{
    CertificateSerialNumber, IssuerAndSerialNumber, SignatureValue, SignerIdentifier,
};
