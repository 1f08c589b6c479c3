//! Parts that aren't written, and which of them is named.

use crate::attributes::broken;
use crate::given::{DATA, OTHER, detached, outcome, short, short_by_a, signer, signers};
use crate::parts::element_unsigned;
use asn1_core::{Error, Optional, from_bytes};
use pkcs7_attributes::RawUnsignedAttributes;
use signed_writers::{
    Content, ContentInfo, Identifier, NotSigned, SignedPart, Signer, write_signed_data,
};
use std::alloc::Global;
use std::test::Fail;
use vector_checks::checks::expect;
use x509_base::Attribute;
use x509_pkcs7::RawSignerInfo;

/// What is no element, or more than one.
const NO_ELEMENTS: [&[u8]; 5] = [
    b"",
    b"\x30",
    b"\x30\x01",
    b"\x30\x80\x00\x00",
    b"\x30\x00\x00",
];

/// The parts are refused as invalid, and that one is named.
fn is_refused(
    outcome: &Result<Vec<u8>, NotSigned>,
    part: SignedPart,
    index: usize,
) -> Result<(), Fail> {
    let wanted = NotSigned {
        part,
        index,
        error: Error::Invalid,
    };
    match outcome {
        Ok(_) => Err(Fail::new("it isn't refused")),
        Err(refusal) => expect(*refusal == wanted, "another part is named"),
    }
}

#[test]
fn content_types(rt: HostRuntime) -> Result<(), Fail> {
    for content_type in [b"".as_slice(), b"\x80\x03", b"\x2A\x80"] {
        let refused = outcome(rt.alloc(), &detached(content_type), &[], &[], &[])?;
        is_refused(&refused, SignedPart::ContentType, 0)?;
    }
    Ok(())
}

#[test]
fn contents(rt: HostRuntime) -> Result<(), Fail> {
    for octets in NO_ELEMENTS {
        let info = ContentInfo {
            content_type: DATA,
            content: Some(Content::Element(octets)),
        };
        let refused = outcome(rt.alloc(), &info, &[], &[], &[short_by_a()])?;
        is_refused(&refused, SignedPart::Content, 0)?;
    }
    Ok(())
}

/// Without signers the type is id-data, and there is no content (RFC 5652, 5.2).
#[test]
fn contents_without_signers(rt: HostRuntime) -> Result<(), Fail> {
    let rows: [(&[u8], Option<Content<'static>>); 4] = [
        (OTHER, None),
        (OTHER, Some(Content::Octets(b"o"))),
        (DATA, Some(Content::Octets(b""))),
        (DATA, Some(Content::Element(b"\x30\x00"))),
    ];
    for (content_type, content) in rows {
        let info = ContentInfo {
            content_type,
            content,
        };
        let refused = outcome(rt.alloc(), &info, &[], &[], &[])?;
        is_refused(&refused, SignedPart::Content, 0)?;
    }
    Ok(())
}

/// Certificates of which the second is refused: it is no element, or has another tag than those of RFC 5652, 10.2.2.
const NO_CERTIFICATES: [&[&[u8]]; 9] = [
    &[b"\x30\x00", b"", b""],
    &[b"\x30\x00", b"\x30", b"\x30\x00"],
    &[b"\xA0\x00", b"\x30\x01"],
    &[b"\xA1\x00", b"\x30\x80\x00\x00"],
    &[b"\xA2\x00", b"\x30\x00\x00"],
    &[b"\xA3\x00", b"\x31\x00"],
    &[b"\x30\x00", b"\xA4\x00"],
    &[b"\x30\x00", b"\x81\x00"],
    &[b"\x30\x00", b"\x04\x00"],
];

#[test]
fn certificates(rt: HostRuntime) -> Result<(), Fail> {
    for certificates in NO_CERTIFICATES {
        let refused = outcome(rt.alloc(), &detached(DATA), certificates, &[], &[])?;
        is_refused(&refused, SignedPart::Certificate, 1)?;
    }
    Ok(())
}

/// The same of revocation lists (RFC 5652, 10.2.1).
const NO_LISTS: [&[&[u8]]; 10] = [
    &[b"\x30\x00", b"", b""],
    &[b"\x30\x00", b"\x30", b"\x30\x00"],
    &[b"\xA1\x00", b"\x30\x01"],
    &[b"\x30\x00", b"\x30\x80\x00\x00"],
    &[b"\x30\x00", b"\x30\x00\x00"],
    &[b"\xA1\x00", b"\xA3\x00"],
    &[b"\x30\x00", b"\xA0\x00"],
    &[b"\x30\x00", b"\xA2\x00"],
    &[b"\x30\x00", b"\x81\x00"],
    &[b"\x30\x00", b"\x31\x00"],
];

#[test]
fn revocation_lists(rt: HostRuntime) -> Result<(), Fail> {
    for crls in NO_LISTS {
        let refused = outcome(rt.alloc(), &detached(DATA), &[], crls, &[])?;
        is_refused(&refused, SignedPart::RevocationList, 1)?;
    }
    Ok(())
}

/// A signer with such signed attributes.
fn with_attributes(signed_attributes: &'static [u8]) -> Signer<'static> {
    let mut signer = short(Identifier::Key(b"k"));
    signer.signed_attributes = Some(signed_attributes);
    signer
}

/// The second signer isn't one of content of that type, but the first is.
fn is_named(alloc: Global, content_type: &[u8], signers: &[Signer<'_>]) -> Result<(), Fail> {
    let refused = outcome(alloc, &detached(content_type), &[], &[], signers)?;
    is_refused(&refused, SignedPart::Signer, 1)
}

/// Attributes that RFC 5652, 11.1 to 11.3 forbid with content of the type 1.2.3.4.
#[test]
fn attributes(rt: HostRuntime) -> Result<(), Fail> {
    let rows = [
        of_data(),
        no_type(),
        no_digest(),
        type_twice(),
        digest_twice(),
        two_types(),
        two_digests(),
        type_of_octets(),
        digest_of_bits(),
        time_twice(),
        two_times(),
        time_of_octets(),
    ];
    let right = with_attributes(with_time());
    for signed_attributes in rows {
        let wrong = with_attributes(signed_attributes);
        is_named(rt.alloc(), OTHER, &[right, wrong, wrong])?;
    }
    Ok(())
}

/// With id-data there may be none, but not those of another type; with another type there have to be some.
#[test]
fn attributes_of_types(rt: HostRuntime) -> Result<(), Fail> {
    let alloc = rt.alloc();
    let other = with_attributes(right());
    let data = with_attributes(of_data());
    is_named(alloc, DATA, &[short_by_a(), other, other])?;
    is_named(alloc, DATA, &[data, other, short_by_a()])?;
    is_named(alloc, OTHER, &[other, short_by_a(), other])?;
    is_named(alloc, OTHER, &[other, data, other])
}

/// A content type, certificates, revocation lists, and which part of them, or the signer, is named.
type First = (
    &'static [u8],
    &'static [&'static [u8]],
    &'static [&'static [u8]],
    SignedPart,
    usize,
);

const FIRST: [First; 4] = [
    (
        b"",
        &[b"\x31\x00"],
        &[b"\x31\x00"],
        SignedPart::ContentType,
        0,
    ),
    (
        OTHER,
        &[b"\x30\x00", b"\x31\x00"],
        &[b"\x31\x00"],
        SignedPart::Certificate,
        1,
    ),
    (
        OTHER,
        &[b"\x30\x00"],
        &[b"\x31\x00"],
        SignedPart::RevocationList,
        0,
    ),
    (OTHER, &[], &[b"\x30\x00"], SignedPart::Signer, 0),
];

#[test]
fn the_first(rt: HostRuntime) -> Result<(), Fail> {
    let signers = [short_by_a()];
    for (content_type, certificates, crls, part, index) in FIRST {
        let info = detached(content_type);
        let refused = outcome(rt.alloc(), &info, certificates, crls, &signers)?;
        is_refused(&refused, part, index)?;
    }
    Ok(())
}

/// Content is named before a certificate.
#[test]
fn content_first(rt: HostRuntime) -> Result<(), Fail> {
    let refused = outcome(rt.alloc(), &detached(OTHER), &[b""], &[], &[])?;
    is_refused(&refused, SignedPart::Content, 0)
}

fn push_encoded(
    alloc: Global,
    octets: &[u8],
    signers: &mut Vec<RawSignerInfo>,
) -> Result<(), Fail> {
    match from_bytes(alloc, octets) {
        Ok(signer) => {
            signers.push(signer)?;
            Ok(())
        }
        Err(_) => Err(Fail::new("a signer is refused")),
    }
}

/// Whether two signers, of which this is the second, are written, or are refused for the second.
fn is_allowed(alloc: Global, octets: &[u8]) -> Result<bool, Fail> {
    let mut all = signers(alloc, &[short_by_a()])?;
    push_encoded(alloc, octets, &mut all)?;
    let outcome = write_signed_data(alloc, &detached(DATA), &[], &[], all.as_slice());
    if outcome.is_ok() {
        return Ok(true);
    }
    is_refused(&outcome, SignedPart::Signer, 1)?;
    Ok(false)
}

/// A signer of that version with an empty name and a serial number.
fn with_serial(version: u8) -> [u8; 27] {
    [
        0x30, 0x19, 0x02, 0x01, version, 0x30, 0x05, 0x30, 0x00, 0x02, 0x01, 0x01, 0x30, 0x04,
        0x06, 0x02, 0x2A, 0x03, 0x30, 0x04, 0x06, 0x02, 0x2A, 0x03, 0x04, 0x01, 0x73,
    ]
}

/// The same with a key identifier.
fn with_key(version: u8) -> [u8; 23] {
    [
        0x30, 0x15, 0x02, 0x01, version, 0x80, 0x01, 0x6B, 0x30, 0x04, 0x06, 0x02, 0x2A, 0x03,
        0x30, 0x04, 0x06, 0x02, 0x2A, 0x03, 0x04, 0x01, 0x73,
    ]
}

/// RFC 5652, 5.3 asks for 3 with a key identifier, and for 1 without.
#[test]
fn versions(rt: HostRuntime) -> Result<(), Fail> {
    for version in 0..6 {
        let allowed = is_allowed(rt.alloc(), &with_serial(version))?;
        expect(allowed == (version == 1), "otherwise with a serial number")?;
        let allowed = is_allowed(rt.alloc(), &with_key(version))?;
        expect(allowed == (version == 3), "otherwise with a key identifier")?;
    }
    Ok(())
}

/// The type 1.2.3.4 and a digest.
pub(crate) fn right() -> &'static [u8] {
    b"\
    \x31\x26\x30\x10\x06\x09\x2A\x86\x48\x86\xF7\x0D\x01\x09\x04\x31\x03\x04\x01\x64\x30\x12\x06\x09\x2A\
    \x86\x48\x86\xF7\x0D\x01\x09\x03\x31\x05\x06\x03\x2A\x03\x04"
}

/// The type id-data and a digest.
fn of_data() -> &'static [u8] {
    b"\
    \x31\x2C\x30\x10\x06\x09\x2A\x86\x48\x86\xF7\x0D\x01\x09\x04\x31\x03\x04\x01\x64\x30\x18\x06\x09\x2A\
    \x86\x48\x86\xF7\x0D\x01\x09\x03\x31\x0B\x06\x09\x2A\x86\x48\x86\xF7\x0D\x01\x07\x01"
}

/// A digest alone.
fn no_type() -> &'static [u8] {
    b"\x31\x12\x30\x10\x06\x09\x2A\x86\x48\x86\xF7\x0D\x01\x09\x04\x31\x03\x04\x01\x64"
}

/// The type 1.2.3.4 alone.
fn no_digest() -> &'static [u8] {
    b"\
    \x31\x14\x30\x12\x06\x09\x2A\x86\x48\x86\xF7\x0D\x01\x09\x03\x31\x05\x06\x03\x2A\x03\x04"
}

/// The type twice.
fn type_twice() -> &'static [u8] {
    b"\
    \x31\x3A\x30\x10\x06\x09\x2A\x86\x48\x86\xF7\x0D\x01\x09\x04\x31\x03\x04\x01\x64\x30\x12\x06\x09\x2A\
    \x86\x48\x86\xF7\x0D\x01\x09\x03\x31\x05\x06\x03\x2A\x03\x04\x30\x12\x06\x09\x2A\x86\x48\x86\xF7\x0D\
    \x01\x09\x03\x31\x05\x06\x03\x2A\x03\x04"
}

/// The digest twice.
fn digest_twice() -> &'static [u8] {
    b"\
    \x31\x38\x30\x10\x06\x09\x2A\x86\x48\x86\xF7\x0D\x01\x09\x04\x31\x03\x04\x01\x64\x30\x10\x06\x09\x2A\
    \x86\x48\x86\xF7\x0D\x01\x09\x04\x31\x03\x04\x01\x64\x30\x12\x06\x09\x2A\x86\x48\x86\xF7\x0D\x01\x09\
    \x03\x31\x05\x06\x03\x2A\x03\x04"
}

/// The types 1.2.3.4 and 1.2.3.5 in one attribute.
fn two_types() -> &'static [u8] {
    b"\
    \x31\x2B\x30\x10\x06\x09\x2A\x86\x48\x86\xF7\x0D\x01\x09\x04\x31\x03\x04\x01\x64\x30\x17\x06\x09\x2A\
    \x86\x48\x86\xF7\x0D\x01\x09\x03\x31\x0A\x06\x03\x2A\x03\x04\x06\x03\x2A\x03\x05"
}

/// Two digests in one attribute.
fn two_digests() -> &'static [u8] {
    b"\
    \x31\x29\x30\x12\x06\x09\x2A\x86\x48\x86\xF7\x0D\x01\x09\x03\x31\x05\x06\x03\x2A\x03\x04\x30\x13\x06\
    \x09\x2A\x86\x48\x86\xF7\x0D\x01\x09\x04\x31\x06\x04\x01\x64\x04\x01\x65"
}

/// A type that is an OCTET STRING.
fn type_of_octets() -> &'static [u8] {
    b"\
    \x31\x26\x30\x10\x06\x09\x2A\x86\x48\x86\xF7\x0D\x01\x09\x04\x31\x03\x04\x01\x64\x30\x12\x06\x09\x2A\
    \x86\x48\x86\xF7\x0D\x01\x09\x03\x31\x05\x04\x03\x2A\x03\x04"
}

/// A type, a digest and one signing time twice.
fn time_twice() -> &'static [u8] {
    b"\
    \x31\x62\x30\x10\x06\x09\x2A\x86\x48\x86\xF7\x0D\x01\x09\x04\x31\x03\x04\x01\x64\x30\x12\x06\x09\x2A\
    \x86\x48\x86\xF7\x0D\x01\x09\x03\x31\x05\x06\x03\x2A\x03\x04\x30\x1C\x06\x09\x2A\x86\x48\x86\xF7\x0D\
    \x01\x09\x05\x31\x0F\x17\x0D\x32\x36\x30\x31\x30\x32\x30\x33\x30\x34\x30\x35\x5A\x30\x1C\x06\x09\x2A\
    \x86\x48\x86\xF7\x0D\x01\x09\x05\x31\x0F\x17\x0D\x32\x36\x30\x31\x30\x32\x30\x33\x30\x34\x30\x35\x5A"
}

/// A type, a digest and two signing times in one attribute.
fn two_times() -> &'static [u8] {
    b"\
    \x31\x53\x30\x10\x06\x09\x2A\x86\x48\x86\xF7\x0D\x01\x09\x04\x31\x03\x04\x01\x64\x30\x12\x06\x09\x2A\
    \x86\x48\x86\xF7\x0D\x01\x09\x03\x31\x05\x06\x03\x2A\x03\x04\x30\x2B\x06\x09\x2A\x86\x48\x86\xF7\x0D\
    \x01\x09\x05\x31\x1E\x17\x0D\x32\x36\x30\x31\x30\x32\x30\x33\x30\x34\x30\x35\x5A\x17\x0D\x32\x36\x30\
    \x31\x30\x32\x30\x33\x30\x34\x30\x35\x5A"
}

/// A type, a digest and a signing time that is an OCTET STRING.
fn time_of_octets() -> &'static [u8] {
    b"\
    \x31\x38\x30\x10\x06\x09\x2A\x86\x48\x86\xF7\x0D\x01\x09\x04\x31\x03\x04\x01\x64\x30\x10\x06\x09\x2A\
    \x86\x48\x86\xF7\x0D\x01\x09\x05\x31\x03\x04\x01\x74\x30\x12\x06\x09\x2A\x86\x48\x86\xF7\x0D\x01\x09\
    \x03\x31\x05\x06\x03\x2A\x03\x04"
}

/// A type, a digest and one signing time.
fn with_time() -> &'static [u8] {
    b"\
    \x31\x44\x30\x10\x06\x09\x2A\x86\x48\x86\xF7\x0D\x01\x09\x04\x31\x03\x04\x01\x64\x30\x12\x06\x09\x2A\
    \x86\x48\x86\xF7\x0D\x01\x09\x03\x31\x05\x06\x03\x2A\x03\x04\x30\x1C\x06\x09\x2A\x86\x48\x86\xF7\x0D\
    \x01\x09\x05\x31\x0F\x17\x0D\x32\x36\x30\x31\x30\x32\x30\x33\x30\x34\x30\x35\x5A"
}

/// A digest that is a BIT STRING.
fn digest_of_bits() -> &'static [u8] {
    b"\
    \x31\x26\x30\x10\x06\x09\x2A\x86\x48\x86\xF7\x0D\x01\x09\x04\x31\x03\x03\x01\x00\x30\x12\x06\x09\x2A\
    \x86\x48\x86\xF7\x0D\x01\x09\x03\x31\x05\x06\x03\x2A\x03\x04"
}

fn with_unsigned(mut signer: RawSignerInfo, attributes: Vec<Attribute>) -> RawSignerInfo {
    signer.unsigned_attrs = Optional(RawUnsignedAttributes(attributes));
    signer
}

/// A signer, the second, with a value that is no element.
#[test]
fn an_ill_formed_signer(rt: HostRuntime) -> Result<(), Fail> {
    let alloc = rt.alloc();
    let attributes = broken(alloc, element_unsigned())?;
    let signer = signer(alloc, &short_by_a())?;
    let mut all = signers(alloc, &[short_by_a()])?;
    all.push(with_unsigned(signer, attributes))?;
    let outcome = write_signed_data(alloc, &detached(DATA), &[], &[], all.as_slice());
    is_refused(&outcome, SignedPart::Signer, 1)
}
