//! The parts of signed data, as the tests have them.

use crate::parts::certificate_a;
use asn1_borrowed::ElementRef;
use signed_writers::{ContentInfo, Identifier, NotSigned, Signer, read_signer, write_signed_data};
use std::alloc::Global;
use std::test::Fail;
use x509_pkcs7::RawSignerInfo;

/// The contents octets of the object identifier id-data.
pub(crate) const DATA: &[u8] = b"\x2A\x86\x48\x86\xF7\x0D\x01\x07\x01";

/// The contents octets of 1.2.3.4.
pub(crate) const OTHER: &[u8] = b"\x2A\x03\x04";

/// The algorithm SHA-256.
pub(crate) const SHA_256: &[u8] = b"\x30\x0B\x06\x09\x60\x86\x48\x01\x65\x03\x04\x02\x01";

/// The algorithm ECDSA with SHA-256.
pub(crate) const ECDSA: &[u8] = b"\x30\x0A\x06\x08\x2A\x86\x48\xCE\x3D\x04\x03\x02";

/// The algorithm 1.2.3 without parameters.
pub(crate) const SHORT: &[u8] = b"\x30\x04\x06\x02\x2A\x03";

/// Content that is elsewhere.
pub(crate) fn detached<'a>(content_type: &'a [u8]) -> ContentInfo<'a> {
    ContentInfo {
        content_type,
        content: None,
    }
}

/// A signer by ECDSA with SHA-256.
pub(crate) fn by_ecdsa<'a>(
    identifier: Identifier<'a>,
    signed_attributes: Option<&'a [u8]>,
    signature: &'a [u8],
) -> Signer<'a> {
    Signer {
        identifier,
        digest_algorithm: SHA_256,
        signed_attributes,
        signature_algorithm: ECDSA,
        signature,
        unsigned_attributes: None,
    }
}

/// A signer without attributes, with short algorithms and the signature `s`.
pub(crate) fn short<'a>(identifier: Identifier<'a>) -> Signer<'a> {
    Signer {
        identifier,
        digest_algorithm: SHORT,
        signed_attributes: None,
        signature_algorithm: SHORT,
        signature: b"s",
        unsigned_attributes: None,
    }
}

/// The same with the issuer and the serial number of the certificate of A.
pub(crate) fn short_by_a() -> Signer<'static> {
    short(Identifier::Certificate(certificate_a()))
}

fn elements<'a>(alloc: Global, all: &[&'a [u8]]) -> Result<Vec<ElementRef<'a>>, Fail> {
    let mut elements = Vec::new(alloc);
    for octets in all {
        elements.push(ElementRef(octets))?;
    }
    Ok(elements)
}

pub(crate) fn signer(alloc: Global, given: &Signer<'_>) -> Result<RawSignerInfo, Fail> {
    match read_signer(alloc, given) {
        Ok(signer) => Ok(signer),
        Err(_) => Err(Fail::new("a signer is refused")),
    }
}

pub(crate) fn signers(alloc: Global, given: &[Signer<'_>]) -> Result<Vec<RawSignerInfo>, Fail> {
    let mut signers = Vec::new(alloc);
    for one in given {
        signers.push(signer(alloc, one)?)?;
    }
    Ok(signers)
}

/// What is written of these parts, or why nothing is.
pub(crate) fn outcome(
    alloc: Global,
    info: &ContentInfo<'_>,
    certificates: &[&[u8]],
    crls: &[&[u8]],
    given: &[Signer<'_>],
) -> Result<Result<Vec<u8>, NotSigned>, Fail> {
    let certificates = elements(alloc, certificates)?;
    let crls = elements(alloc, crls)?;
    let signers = signers(alloc, given)?;
    Ok(write_signed_data(
        alloc,
        info,
        certificates.as_slice(),
        crls.as_slice(),
        signers.as_slice(),
    ))
}

/// What is written of these parts.
pub(crate) fn written(
    alloc: Global,
    info: &ContentInfo<'_>,
    certificates: &[&[u8]],
    crls: &[&[u8]],
    signers: &[Signer<'_>],
) -> Result<Vec<u8>, Fail> {
    match outcome(alloc, info, certificates, crls, signers)? {
        Ok(text) => Ok(text),
        Err(_) => Err(Fail::new("it is refused")),
    }
}
