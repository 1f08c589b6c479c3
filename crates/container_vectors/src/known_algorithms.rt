//! Known algorithms, by their object identifiers and by their words.

use std::alloc::Global;
use std::test::Fail;
use vector_checks::checks::expect;
use x509_containers::{
    Error, ObjectIdentifier, Pbes1AlgorithmKind, Pbes2AesCbcEncryption, Pbkdf2Prf,
    Pkcs12DigestAlgorithm, RawAlgorithmIdentifier,
};

fn identifier(alloc: Global, text: &str) -> Result<RawAlgorithmIdentifier, Error> {
    let algorithm = ObjectIdentifier::from_text(alloc, text)?;
    Ok(RawAlgorithmIdentifier::from_parts(algorithm, None))
}

fn is_spelled(alloc: Global, known: &ObjectIdentifier, text: &str) -> Result<(), Fail> {
    let found = ObjectIdentifier::to_text(known, alloc)?;
    expect(found.as_str() == text, "another object identifier")
}

/// Asks that the algorithm identifier of a known algorithm has this object identifier, and no parameters.
fn is_plain(alloc: Global, raw: &RawAlgorithmIdentifier, text: &str) -> Result<(), Fail> {
    is_spelled(alloc, RawAlgorithmIdentifier::algorithm(raw), text)?;
    let parameters = RawAlgorithmIdentifier::parameters(raw);
    expect(parameters.is_none(), "parameters")
}

/// Digests (RFC 8017, appendix B.1), by the words of `openssl list -digest-algorithms`.
const DIGESTS: [(&str, &str); 6] = [
    ("1.3.14.3.2.26", "SHA1"),
    ("2.16.840.1.101.3.4.2.4", "SHA224"),
    ("2.16.840.1.101.3.4.2.1", "SHA256"),
    ("2.16.840.1.101.3.4.2.2", "SHA384"),
    ("2.16.840.1.101.3.4.2.3", "SHA512"),
    ("1.2.3.4", "unknown"),
];

fn is_digest(alloc: Global, text: &str, word: &str) -> Result<(), Fail> {
    let digest = Pkcs12DigestAlgorithm::from_raw(identifier(alloc, text)?);
    let is_so = Pkcs12DigestAlgorithm::name(&digest) == word;
    is_plain(
        alloc,
        &Pkcs12DigestAlgorithm::into_raw(digest, alloc)?,
        text,
    )?;
    expect(is_so, "another digest")
}

#[test]
fn digests(rt: HostRuntime) -> Result<(), Fail> {
    for (text, word) in DIGESTS {
        is_digest(rt.alloc(), text, word)?;
    }
    Ok(())
}

/// Pseudorandom functions (RFC 8018, appendix B.1), by the words of `openssl asn1parse`.
const FUNCTIONS: [(&str, &str); 6] = [
    ("1.2.840.113549.2.7", "hmacWithSHA1"),
    ("1.2.840.113549.2.8", "hmacWithSHA224"),
    ("1.2.840.113549.2.9", "hmacWithSHA256"),
    ("1.2.840.113549.2.10", "hmacWithSHA384"),
    ("1.2.840.113549.2.11", "hmacWithSHA512"),
    ("1.2.3.4", "unknown"),
];

fn is_function(alloc: Global, text: &str, word: &str) -> Result<(), Fail> {
    let function = Pbkdf2Prf::from_raw(identifier(alloc, text)?);
    let is_so = Pbkdf2Prf::name(&function) == word;
    is_plain(alloc, &Pbkdf2Prf::into_raw(function, alloc)?, text)?;
    expect(is_so, "another function")
}

#[test]
fn functions(rt: HostRuntime) -> Result<(), Fail> {
    for (text, word) in FUNCTIONS {
        is_function(rt.alloc(), text, word)?;
    }
    Ok(())
}

fn is_encryption(
    alloc: Global,
    kind: &Pbes1AlgorithmKind,
    text: &str,
    word: &str,
) -> Result<(), Fail> {
    expect(Pbes1AlgorithmKind::name(kind) == word, "another encryption")?;
    is_spelled(alloc, &Pbes1AlgorithmKind::to_oid(kind, alloc)?, text)
}

/// Encryption by a password (RFC 7292, appendix C), by the words of `openssl pkcs12 -info`.
#[test]
fn encryptions(rt: HostRuntime) -> Result<(), Fail> {
    let (text, word) = (
        "1.2.840.113549.1.12.1.3",
        "pbeWithSHA1And3-KeyTripleDES-CBC",
    );
    is_encryption(
        rt.alloc(),
        &Pbes1AlgorithmKind::ShaAnd3Key3DesCbc,
        text,
        word,
    )?;
    let (text, word) = ("1.2.840.113549.1.12.1.6", "pbeWithSHA1And40BitRC2-CBC");
    is_encryption(
        rt.alloc(),
        &Pbes1AlgorithmKind::ShaAnd40BitRc2Cbc,
        text,
        word,
    )
}

fn is_cipher(
    alloc: Global,
    kind: &Pbes2AesCbcEncryption,
    text: &str,
    word: &str,
) -> Result<(), Fail> {
    expect(Pbes2AesCbcEncryption::name(kind) == word, "another cipher")?;
    is_spelled(alloc, &Pbes2AesCbcEncryption::to_oid(kind, alloc)?, text)
}

/// AES (RFC 8018, appendix B.2.5), by the same words.
#[test]
fn ciphers(rt: HostRuntime) -> Result<(), Fail> {
    let (text, word) = ("2.16.840.1.101.3.4.1.2", "AES-128-CBC");
    is_cipher(rt.alloc(), &Pbes2AesCbcEncryption::Aes128, text, word)?;
    let (text, word) = ("2.16.840.1.101.3.4.1.22", "AES-192-CBC");
    is_cipher(rt.alloc(), &Pbes2AesCbcEncryption::Aes192, text, word)?;
    let (text, word) = ("2.16.840.1.101.3.4.1.42", "AES-256-CBC");
    is_cipher(rt.alloc(), &Pbes2AesCbcEncryption::Aes256, text, word)
}
