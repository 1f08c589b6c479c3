//! Signers that aren't read, and which of their parts is named.

use crate::given::{short, short_by_a, signer};
use crate::parts::certificate_a;
use asn1_core::Error;
use pkcs7_content::CmsVersion;
use signed_writers::{Identifier, NotRead, Signer, SignerPart, read_signer};
use std::alloc::Global;
use std::test::Fail;
use vector_checks::checks::expect;

/// Octets that are neither a certificate, nor an algorithm, nor a set of attributes that isn't empty: none; fewer than
/// their length says; a SEQUENCE, a SET and a `[0]` without contents; an INTEGER; a SEQUENCE of an INTEGER.
const WRONG: [&[u8]; 7] = [
    b"",
    b"\x30\x01",
    b"\x30\x00",
    b"\x31\x00",
    b"\xA0\x00",
    b"\x02\x01\x01",
    b"\x30\x03\x02\x01\x01",
];

/// The signer isn't read for that part.
fn is_unread(alloc: Global, given: &Signer<'_>, part: SignerPart) -> Result<(), Fail> {
    match read_signer(alloc, given) {
        Ok(_) => Err(Fail::new("it isn't refused")),
        Err(refusal) => expect(refusal.part == part, "another part is named"),
    }
}

/// A part that is replaced by these octets is named.
fn is_named(alloc: Global, octets: &'static [u8]) -> Result<(), Fail> {
    let mut given = short_by_a();
    given.unsigned_attributes = Some(octets);
    is_unread(alloc, &given, SignerPart::UnsignedAttributes)?;
    given.signature_algorithm = octets;
    is_unread(alloc, &given, SignerPart::SignatureAlgorithm)?;
    given.signed_attributes = Some(octets);
    is_unread(alloc, &given, SignerPart::SignedAttributes)?;
    given.digest_algorithm = octets;
    is_unread(alloc, &given, SignerPart::DigestAlgorithm)?;
    given.identifier = Identifier::Certificate(octets);
    is_unread(alloc, &given, SignerPart::Identifier)
}

/// One part, then the one before it too: the first is named.
#[test]
fn each_part(rt: HostRuntime) -> Result<(), Fail> {
    for octets in WRONG {
        is_named(rt.alloc(), octets)?;
    }
    Ok(())
}

/// A set of attributes that isn't there is `None`, not an empty one.
#[test]
fn empty_sets(rt: HostRuntime) -> Result<(), Fail> {
    let mut given = short_by_a();
    given.unsigned_attributes = Some(b"\x31\x00");
    is_missing(rt.alloc(), &given, SignerPart::UnsignedAttributes)?;
    given.signed_attributes = Some(b"\x31\x00");
    is_missing(rt.alloc(), &given, SignerPart::SignedAttributes)
}

fn is_missing(alloc: Global, given: &Signer<'_>, part: SignerPart) -> Result<(), Fail> {
    let wanted = NotRead {
        part,
        error: Error::Missing,
    };
    match read_signer(alloc, given) {
        Ok(_) => Err(Fail::new("it isn't refused")),
        Err(refusal) => expect(refusal == wanted, "it is refused otherwise"),
    }
}

/// The version is 1 with a certificate, and 3 with a key identifier (RFC 5652, 5.3).
#[test]
fn versions(rt: HostRuntime) -> Result<(), Fail> {
    let rows: [(Identifier<'static>, CmsVersion); 3] = [
        (Identifier::Certificate(certificate_a()), CmsVersion::V1),
        (Identifier::Key(b"k"), CmsVersion::V3),
        (Identifier::Key(b""), CmsVersion::V3),
    ];
    for (identifier, version) in rows {
        let read = signer(rt.alloc(), &short(identifier))?;
        expect(read.version == version, "another version")?;
    }
    Ok(())
}
