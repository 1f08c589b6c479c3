//! What is found of an algorithm that encrypts with a password.

use std::ops::Range;

/// `PBEParameter` (RFC 8018, appendix A.3) or `pkcs-12PbeParams` (RFC 7292, appendix C).
#[derive(Debug, Drop, PartialEq, Eq)]
pub struct SaltRanges {
    /// The octets of the salt.
    pub salt: Range<usize>,
    /// How often the key derivation hashes.
    pub iterations: u32,
}

/// `PBKDF2-params` (RFC 8018, appendix A.2).
#[derive(Debug, Drop, PartialEq, Eq)]
pub struct Pbkdf2Ranges {
    /// The octets of the salt. `None` where it comes from another source.
    pub salt: Option<Range<usize>>,
    /// How often the PRF is applied for each block of the key.
    pub iterations: u32,
    /// The length of the key, in octets.
    pub key_length: Option<u32>,
    /// The contents octets of the PRF's object identifier. `None` where it is left out: HMAC with SHA-1.
    pub prf: Option<Range<usize>>,
}

/// `PBES2-params` (RFC 8018, appendix A.4).
#[derive(Debug, Drop, PartialEq, Eq)]
pub struct Pbes2Ranges {
    /// The contents octets of the object identifier of `keyDerivationFunc`.
    pub derivation: Range<usize>,
    /// The element of its parameters. `None` where it has none.
    pub derivation_parameters: Option<Range<usize>>,
    /// Its parameters. `None` where it isn't PBKDF2, or they don't read as those of PBKDF2.
    pub pbkdf2: Option<Pbkdf2Ranges>,
    /// The contents octets of the object identifier of `encryptionScheme`.
    pub encryption: Range<usize>,
    /// The element of its parameters. `None` where it has none.
    pub encryption_parameters: Option<Range<usize>>,
    /// The octets of its initialization vector. `None` where its parameters don't read as an OCTET STRING.
    pub initialization_vector: Option<Range<usize>>,
}

/// An `AlgorithmIdentifier`, with its parameters where it encrypts with a password (RFC 8018, 6; RFC 7292, appendix C).
#[derive(Debug, Drop, PartialEq, Eq)]
pub struct PasswordRanges {
    /// The contents octets of the object identifier.
    pub algorithm: Range<usize>,
    /// The element of its parameters. `None` where it has none.
    pub parameters: Option<Range<usize>>,
    /// The parameters of PBES1, whose keys PBKDF1 derives (RFC 8018, 5.1 and 6.1). `None` where it is none of the algorithms
    /// of RFC 8018, appendix A.3, or they don't read as a salt and a count.
    pub pbes1: Option<SaltRanges>,
    /// The parameters of one of `pkcs-12PbeIds`, whose keys RFC 7292, appendix B.2, derives. `None` where it is none of these,
    /// or they don't read as a salt and a count.
    pub pkcs12: Option<SaltRanges>,
    /// The parameters of PBES2. `None` where it isn't PBES2, or they don't read as those of PBES2.
    pub pbes2: Option<Pbes2Ranges>,
}

/// What is encrypted, and by what.
#[derive(Debug, Drop, PartialEq, Eq)]
pub struct EncryptedRanges {
    pub algorithm: PasswordRanges,
    /// The octets that are encrypted. `None` where they are absent.
    pub encrypted: Option<Range<usize>>,
}
