//! Signed data and signers, which hold one another (RFC 5652, 5), and their parts.
#![tactic(auto)]

mod boxed;
mod heads;
mod oids;
mod recursion;
pub mod signers;

pub use oids::SignedDataType;
pub use pkcs7_signed_crl::{
    Attributes, CertificateChoices, CertificateList, CertificateSerialNumber, CertificateSet,
    DigestAlgorithmIdentifier, DigestAlgorithmIdentifiers, IssuerAndSerialNumber,
    OtherRevocationInfoFormat, RevocationInfoChoice, RevocationInfoChoices, RevokedCertificate,
    RevokedCertificates, SignatureAlgorithmIdentifier, SignatureValue, SignerIdentifier,
    TbsCertList,
};
pub use signers::{
    Pkcs7Certificate, SignedData, SignerInfo, SignersInfos, UnsignedAttribute,
    UnsignedAttributeValue, UnsignedAttributes,
};
