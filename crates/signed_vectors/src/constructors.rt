//! Values that are made of parts, and their parts.

use std::alloc::Global;
use std::test::Fail;
use vector_checks::checks::{expect, is_written};
use x509_containers::{
    AlgorithmIdentifier, Asn1RawDer, Attributes, BitString, BitStringAsn1, CertificateSet,
    CmsVersion, ContentValue, EncapsulatedContentInfo, Error, ExplicitContextTag0, File,
    ObjectIdentifier, RawAlgorithmIdentifier, RevocationInfoChoices, SpcUuid, UnsignedAttributes,
    from_bytes,
};

/// Asks for the bytes and the count of unused bits (X.690, 8.6.2).
fn has_bits(bits: &BitString, unused: u8, bytes: &[u8]) -> Result<(), Fail> {
    expect(bits.num_unused_bits() == unused, "other unused bits")?;
    expect(bits.payload() == bytes, "other bytes")
}

#[test]
fn bits_of_bytes(rt: HostRuntime) -> Result<(), Fail> {
    let bytes = Vec::from_slice(rt.alloc(), b"\x0A\x3B")?;
    let bits = BitString::with_bytes(bytes);
    has_bits(&bits, 0, b"\x0A\x3B")?;
    is_written(rt.alloc(), &BitStringAsn1(bits), b"\x03\x03\x00\x0A\x3B")
}

/// As many bits as asked for, and as few bytes as hold them.
#[test]
fn bits_of_a_number(rt: HostRuntime) -> Result<(), Fail> {
    let lens: [(usize, u8, &[u8]); 5] = [
        (0, 0, b""),
        (1, 7, b"\x00"),
        (8, 0, b"\x00"),
        (9, 7, b"\x00\x00"),
        (12, 4, b"\x00\x00"),
    ];
    for (len, unused, bytes) in lens {
        has_bits(&BitString::with_len(rt.alloc(), len)?, unused, bytes)?;
    }
    Ok(())
}

fn is_made_of(alloc: Global, unused: u8, bytes: &[u8]) -> Result<bool, Fail> {
    match BitString::from_parts(unused, Vec::from_slice(alloc, bytes)?) {
        Some(bits) => has_bits(&bits, unused, bytes).map(|_| true),
        None => Ok(false),
    }
}

/// At most seven bits are unused, and none where there are no bytes.
#[test]
fn bits_of_parts(rt: HostRuntime) -> Result<(), Fail> {
    let parts: [(u8, &[u8], bool); 5] = [
        (0, b"", true),
        (7, b"\x80", true),
        (4, b"\x0A\x3F", true),
        (8, b"\x80", false),
        (1, b"", false),
    ];
    for (unused, bytes, is_one) in parts {
        let made = is_made_of(rt.alloc(), unused, bytes)?;
        assert_eq!(rt; made, is_one, "{unused} {bytes:?}");
    }
    Ok(())
}

/// Bit 0 is the highest of the first byte. The others stay as they are.
#[test]
fn one_bit_of_ten(rt: HostRuntime) -> Result<(), Fail> {
    let mut bits = BitString::with_len(rt.alloc(), 10)?;
    BitString::set(&mut bits, 0, true);
    BitString::set(&mut bits, 9, true);
    has_bits(&bits, 6, b"\x80\x40")?;
    expect(bits.is_set(0) && bits.is_set(9), "a bit is 0")?;
    BitString::set(&mut bits, 0, false);
    has_bits(&bits, 6, b"\x00\x40")?;
    expect(!bits.is_set(0) && !bits.is_set(8), "a bit is 1")
}

/// `id-sha1`.
const SHA_1: &[u8] = b"\x2B\x0E\x03\x02\x1A";

fn sha_1(alloc: Global) -> Result<ObjectIdentifier, Error> {
    ObjectIdentifier::from_octets(alloc, SHA_1)
}

fn null(alloc: Global) -> Result<Option<Asn1RawDer>, Fail> {
    Ok(Some(Asn1RawDer(Vec::from_slice(alloc, b"\x05\x00")?)))
}

fn is_null(parameters: Option<&Asn1RawDer>) -> bool {
    parameters.is_some_and(|element| element.0.as_slice() == b"\x05\x00".as_slice())
}

/// Absent parameters stay absent.
#[test]
fn algorithms(rt: HostRuntime) -> Result<(), Fail> {
    let without = AlgorithmIdentifier::from_parts(sha_1(rt.alloc())?, None);
    is_sha_1(rt.alloc(), &without)
}

fn is_sha_1(alloc: Global, without: &AlgorithmIdentifier) -> Result<(), Fail> {
    let algorithm = AlgorithmIdentifier::algorithm(without);
    expect(algorithm.octets() == SHA_1, "another algorithm")?;
    let parameters = AlgorithmIdentifier::parameters(without);
    expect(parameters.is_none(), "parameters")?;
    is_written(alloc, without, b"\x30\x07\x06\x05\x2B\x0E\x03\x02\x1A")
}

#[test]
fn algorithms_with_parameters(rt: HostRuntime) -> Result<(), Fail> {
    let alloc = rt.alloc();
    let with = AlgorithmIdentifier::from_parts(sha_1(alloc)?, null(alloc)?);
    let parameters = AlgorithmIdentifier::parameters(&with);
    expect(is_null(parameters), "other parameters")?;
    is_written(
        alloc,
        &with,
        b"\x30\x09\x06\x05\x2B\x0E\x03\x02\x1A\x05\x00",
    )
}

/// Absent parameters are written as NULL.
#[test]
fn raw_algorithms(rt: HostRuntime) -> Result<(), Fail> {
    let without = RawAlgorithmIdentifier::from_parts(sha_1(rt.alloc())?, None);
    is_raw_sha_1(rt.alloc(), &without)
}

fn is_raw_sha_1(alloc: Global, without: &RawAlgorithmIdentifier) -> Result<(), Fail> {
    let algorithm = RawAlgorithmIdentifier::algorithm(without);
    expect(algorithm.octets() == SHA_1, "another algorithm")?;
    let parameters = RawAlgorithmIdentifier::parameters(without);
    expect(parameters.is_none(), "parameters")?;
    is_written(
        alloc,
        without,
        b"\x30\x09\x06\x05\x2B\x0E\x03\x02\x1A\x05\x00",
    )
}

#[test]
fn raw_algorithms_with_parameters(rt: HostRuntime) -> Result<(), Fail> {
    let alloc = rt.alloc();
    let with = RawAlgorithmIdentifier::from_parts(sha_1(alloc)?, null(alloc)?);
    let parameters = RawAlgorithmIdentifier::parameters(&with);
    expect(is_null(parameters), "other parameters")
}

/// Each empty set has the tag of its type, and no contents.
#[test]
fn empty_sets(rt: HostRuntime) -> Result<(), Fail> {
    let alloc = rt.alloc();
    is_written(alloc, &Attributes::empty(alloc), b"\xA0\x00")?;
    is_written(alloc, &CertificateSet::empty(alloc), b"\xA0\x00")?;
    is_written(alloc, &RevocationInfoChoices::empty(alloc), b"\xA1\x00")?;
    is_written(alloc, &UnsignedAttributes::empty(alloc), b"\xA1\x00")
}

/// The versions 0 to 5 (RFC 5652, 10.2.5), and no others.
#[test]
fn versions(rt: HostRuntime) -> Result<(), Fail> {
    for (number, version) in [
        (0, CmsVersion::V0),
        (1, CmsVersion::V1),
        (2, CmsVersion::V2),
        (3, CmsVersion::V3),
        (4, CmsVersion::V4),
        (5, CmsVersion::V5),
    ] {
        assert_eq!(rt; CmsVersion::from_u8(number), Some(version));
    }
    for number in 6..=255 {
        assert_eq!(rt; CmsVersion::from_u8(number), None);
    }
    Ok(())
}

/// Octets under a content type of one's own, as they are made and as they are read again.
const FOREIGN: &[u8] = b"\x30\x0A\x06\x03\x2A\x03\x04\xA0\x03\x04\x01\x01";

#[test]
fn contents_of_a_foreign_type(rt: HostRuntime) -> Result<(), Fail> {
    let alloc = rt.alloc();
    let content_type = ObjectIdentifier::from_text(alloc, "1.2.3.4")?;
    let octets = Vec::from_slice(alloc, b"\x01")?;
    let made = EncapsulatedContentInfo::new(content_type, Some(octets));
    is_foreign(alloc, &made)
}

fn is_foreign(alloc: Global, made: &EncapsulatedContentInfo) -> Result<(), Fail> {
    expect(
        matches!(
            &made.content,
            Some(ExplicitContextTag0(ContentValue::Data(_)))
        ),
        "another alternative is made",
    )?;
    is_written(alloc, made, FOREIGN)
}

#[test]
fn contents_of_a_foreign_type_again(rt: HostRuntime) -> Result<(), Fail> {
    let read: EncapsulatedContentInfo = from_bytes(rt.alloc(), FOREIGN)?;
    holds_octet(&read)
}

fn holds_octet(read: &EncapsulatedContentInfo) -> Result<(), Fail> {
    match &read.content {
        Some(ExplicitContextTag0(ContentValue::OctetString(octets))) => {
            expect(octets.0.as_slice() == b"\x01".as_slice(), "other octets")
        }
        _ => Err(Fail::new("another alternative is read")),
    }
}

/// `<<<Obsolete>>>` in UTF-16, and the class of page hashes.
#[test]
fn defaults(rt: HostRuntime) -> Result<(), Fail> {
    let alloc = rt.alloc();
    let file = b"\
        \xA2\x1E\x80\x1C\x00<\x00<\x00<\x00O\x00b\x00s\x00o\x00l\x00e\x00t\x00e\x00>\x00>\x00>";
    is_written(alloc, &File::default_in(alloc)?, file)?;
    let class = b"\x04\x10\xA6\xB5\x86\xD5\xB4\xA1\x24\x66\xAE\x05\xA2\x17\xDA\x8E\x60\xD6";
    is_written(alloc, &SpcUuid::default_in(alloc)?, class)
}
