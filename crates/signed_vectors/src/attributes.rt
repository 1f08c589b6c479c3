//! Attributes by their object identifier, with ample memory.

use std::alloc::Global;
use std::test::Fail;
use vector_checks::checks::expect;
use x509_containers::{
    Attribute, Attributes, DerSerialize, IntegerAsn1, OctetStringAsn1, from_bytes, only_value_as,
    to_vec,
};

/// An INTEGER under 1.2.3.4; nothing, and then two INTEGERs under 1.2.3.5; an OCTET STRING under 1.2.3.6.
const ATTRIBUTES: &[u8] = b"\
    \xA0\x31\x30\x0A\x06\x03\x2A\x03\x04\x31\x03\x02\x01\x05\
    \x30\x07\x06\x03\x2A\x03\x05\x31\x00\
    \x30\x0D\x06\x03\x2A\x03\x05\x31\x06\x02\x01\x06\x02\x01\x07\
    \x30\x0B\x06\x03\x2A\x03\x06\x31\x04\x04\x02AB";

fn has_octets(alloc: Global, all: &[Attribute]) -> Result<(), Fail> {
    match only_value_as::<OctetStringAsn1>(alloc, all, b"\x2A\x03\x06")? {
        Some(octets) => expect(octets.0.as_slice() == b"AB".as_slice(), "other octets"),
        None => Err(Fail::new("nothing")),
    }
}

fn has_no_number(alloc: Global, all: &[Attribute]) -> Result<(), Fail> {
    let refused = only_value_as::<IntegerAsn1>(alloc, all, b"\x2A\x03\x06");
    expect(refused.is_err(), "octets as a number")?;
    let none = only_value_as::<IntegerAsn1>(alloc, all, b"\x2A\x03\x07")?;
    expect(none.is_none(), "a number")
}

#[test]
fn read_as_a_type(rt: HostRuntime) -> Result<(), Fail> {
    let attributes: Attributes = from_bytes(rt.alloc(), ATTRIBUTES)?;
    has_octets(rt.alloc(), attributes.0.0.as_slice())?;
    has_no_number(rt.alloc(), attributes.0.0.as_slice())
}

/// Signed attributes of a signer: `id-data` as the content type, a digest of two octets, a signing time.
const SIGNED: &[u8] = b"\
    \xA0\x4B\x30\x18\x06\x09\x2A\x86\x48\x86\xF7\x0D\x01\x09\x03\x31\x0B\x06\x09\x2A\x86\x48\x86\xF7\x0D\x01\x07\x01\
    \x30\x11\x06\x09\x2A\x86\x48\x86\xF7\x0D\x01\x09\x04\x31\x04\x04\x02AB\
    \x30\x1C\x06\x09\x2A\x86\x48\x86\xF7\x0D\x01\x09\x05\x31\x0F\x17\x0D210420065224Z";

/// What the signature covers.
const COVERED: &[u8] = b"\
    \x31\x4B\x30\x18\x06\x09\x2A\x86\x48\x86\xF7\x0D\x01\x09\x03\x31\x0B\x06\x09\x2A\x86\x48\x86\xF7\x0D\x01\x07\x01\
    \x30\x11\x06\x09\x2A\x86\x48\x86\xF7\x0D\x01\x09\x04\x31\x04\x04\x02AB\
    \x30\x1C\x06\x09\x2A\x86\x48\x86\xF7\x0D\x01\x09\x05\x31\x0F\x17\x0D210420065224Z";

const ID_DATA: &[u8] = b"\x06\x09\x2A\x86\x48\x86\xF7\x0D\x01\x07\x01";

const MESSAGE_DIGEST: &[u8] = b"\x2A\x86\x48\x86\xF7\x0D\x01\x09\x04";

const TIME: &[u8] = b"\x17\x0D210420065224Z";

fn is_written_as<T: DerSerialize>(alloc: Global, value: &T, text: &[u8]) -> Result<(), Fail> {
    let octets = to_vec(alloc, value)?;
    expect(octets.as_slice() == text, "another encoding")
}

/// Asks that a value is found, with this encoding.
fn is_found<T: DerSerialize + Drop>(
    alloc: Global,
    found: Option<T>,
    text: &[u8],
) -> Result<(), Fail> {
    match found {
        Some(value) => is_written_as(alloc, &value, text),
        None => Err(Fail::new("nothing is found")),
    }
}

/// Each by its name, and all as the signature covers them.
#[test]
fn of_a_signer(rt: HostRuntime) -> Result<(), Fail> {
    let attributes: Attributes = from_bytes(rt.alloc(), SIGNED)?;
    are_found(rt.alloc(), &attributes)
}

fn are_found(alloc: Global, attributes: &Attributes) -> Result<(), Fail> {
    is_found(alloc, attributes.content_type(alloc)?, ID_DATA)?;
    is_found(alloc, attributes.message_digest(alloc)?, b"\x04\x02AB")?;
    is_found(alloc, attributes.signing_time(alloc)?, TIME)?;
    is_found(alloc, attributes.as_set(), COVERED)?;
    let first = attributes.attribute(MESSAGE_DIGEST);
    expect(first.is_some_and(|first| first.is_only), "another digest")
}

#[test]
fn of_a_signer_without_any(rt: HostRuntime) -> Result<(), Fail> {
    let none: Attributes = from_bytes(rt.alloc(), b"\xA0\x00")?;
    expect(none.as_set().is_none(), "a set")?;
    let content_type = none.content_type(rt.alloc())?;
    expect(content_type.is_none(), "a content type")
}
