//! What is found of a certificate.

use std::ops::Range;

/// Where the parts of a certificate's key are.
#[derive(Debug, Drop, PartialEq, Eq)]
pub struct KeyRanges {
    /// The contents octets of the algorithm's object identifier.
    pub algorithm: Range<usize>,
    /// The element of its parameters. `None` where it has none.
    pub parameters: Option<Range<usize>>,
    /// The octets of the key: those of the BIT STRING `subjectPublicKey` after the count of unused bits, which is the octet
    /// before them, and 0 in every key of RFC 3279, 5480 and 8410.
    pub public_key: Range<usize>,
}

/// Where the parts of a certificate are.
#[derive(Debug, Drop, PartialEq, Eq)]
pub struct CertificateRanges {
    /// The contents octets of `serialNumber`, an INTEGER.
    pub serial_number: Range<usize>,
    /// The element of the Name.
    pub issuer: Range<usize>,
    /// The element of `validity`, of any type.
    pub validity: Range<usize>,
    /// The element of the Name.
    pub subject: Range<usize>,
    /// The element of `subjectPublicKeyInfo`, of any type.
    pub subject_public_key_info: Range<usize>,
    /// Its parts. `None` where it doesn't read as a `SubjectPublicKeyInfo`.
    pub key: Option<KeyRanges>,
    /// What is in the first element under `[3]` after the key: the element of `Extensions`, where it is one. `None` where
    /// there is no such element.
    pub extensions: Option<Range<usize>>,
    /// The octets of the first `subjectKeyIdentifier` among these. `None` where there is none, or where extensions or
    /// identifier don't read as their types.
    pub key_identifier: Option<Range<usize>>,
}
