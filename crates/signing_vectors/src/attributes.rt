//! Signed attributes, as they are in the files, and with times as `openssl asn1parse -genconf` writes them.

use crate::given::{DATA, OTHER};
use crate::parts::{
    attached_attributes, digest, element_attributes, element_digest, keyed_attributes,
    two_attributes,
};
use asn1_core::{Asn1RawDer, Asn1SetOf, Error, from_bytes};
use asn1_leaves::GeneralizedTime;
use signed_writers::{SignedAttributes, write_attributes};
use std::alloc::Global;
use std::test::Fail;
use vector_checks::checks::expect;
use x509_base::Attribute;

/// No attributes.
fn none<'a>() -> SignedAttributes<'a> {
    SignedAttributes {
        content_type: None,
        message_digest: None,
        signing_time: None,
        attributes: &[],
    }
}

/// The attributes of a set, in its order.
pub(crate) fn read_set(alloc: Global, octets: &[u8]) -> Result<Vec<Attribute>, Fail> {
    match from_bytes::<Asn1SetOf<Attribute>>(alloc, octets) {
        Ok(set) => Ok(set.0),
        Err(_) => Err(Fail::new("a set is refused")),
    }
}

fn is_written(alloc: Global, given: &SignedAttributes<'_>, wanted: &[u8]) -> Result<(), Fail> {
    match write_attributes(alloc, given) {
        Ok(text) => expect(text.as_slice() == wanted, "it is written otherwise"),
        Err(_) => Err(Fail::new("it is refused")),
    }
}

fn is_refused(alloc: Global, given: &SignedAttributes<'_>) -> Result<(), Fail> {
    match write_attributes(alloc, given) {
        Err(Error::Invalid) => Ok(()),
        _ => Err(Fail::new("it isn't refused as invalid")),
    }
}

fn time(
    year: u16,
    month: u8,
    day: u8,
    hour: u8,
    minute: u8,
    second: u8,
) -> Option<GeneralizedTime> {
    GeneralizedTime::new(year, month, day, hour, minute, second)
}

/// The set is written of what its three attributes say and of all its attributes, in its order and in the other.
fn is_set(
    alloc: Global,
    set: &[u8],
    content_type: &[u8],
    message_digest: &[u8],
    signing_time: Option<GeneralizedTime>,
) -> Result<(), Fail> {
    let mut attributes = read_set(alloc, set)?;
    for _ in 0..2 {
        let given = SignedAttributes {
            content_type: Some(content_type),
            message_digest: Some(message_digest),
            signing_time,
            attributes: attributes.as_slice(),
        };
        is_written(alloc, &given, set)?;
        attributes.as_mut_slice().reverse();
    }
    Ok(())
}

/// The set that a signature covers, the type and the digest.
type SetOfFile = (&'static [u8], &'static [u8], &'static [u8]);

#[test]
fn with_times(rt: HostRuntime) -> Result<(), Fail> {
    let rows: [SetOfFile; 3] = [
        (attached_attributes(), DATA, digest()),
        (keyed_attributes(), OTHER, digest()),
        (two_attributes(), DATA, digest()),
    ];
    for (set, content_type, message_digest) in rows {
        let signing_time = time(2026, 11, 30, 14, 45, 4);
        is_set(rt.alloc(), set, content_type, message_digest, signing_time)?;
    }
    Ok(())
}

#[test]
fn without_a_time(rt: HostRuntime) -> Result<(), Fail> {
    is_set(
        rt.alloc(),
        element_attributes(),
        OTHER,
        element_digest(),
        None,
    )
}

/// UTCTime in the years 1950 to 2049 (RFC 5652, 11.3).
#[test]
fn times(rt: HostRuntime) -> Result<(), Fail> {
    let rows: [(Option<GeneralizedTime>, &[u8]); 6] = [
        (time(0, 1, 1, 0, 0, 0), b"\x18\x0F00000101000000Z"),
        (time(1949, 12, 31, 23, 59, 59), b"\x18\x0F19491231235959Z"),
        (time(1950, 1, 1, 0, 0, 0), b"\x17\x0D500101000000Z"),
        (time(2049, 12, 31, 23, 59, 59), b"\x17\x0D491231235959Z"),
        (time(2050, 1, 1, 0, 0, 0), b"\x18\x0F20500101000000Z"),
        (time(9999, 12, 31, 23, 59, 59), b"\x18\x0F99991231235959Z"),
    ];
    for (signing_time, wanted) in rows {
        is_at(rt.alloc(), signing_time, wanted)?;
    }
    Ok(())
}

/// Of a time alone the attribute with this element is written.
fn is_at(alloc: Global, signing_time: Option<GeneralizedTime>, wanted: &[u8]) -> Result<(), Fail> {
    let mut given = none();
    given.signing_time = signing_time;
    let Ok(text) = write_attributes(alloc, &given) else {
        return Err(Fail::new("it is refused"));
    };
    let head: &[u8] = match wanted.len() {
        17 => b"\x31\x20\x30\x1E\x06\x09\x2A\x86\x48\x86\xF7\x0D\x01\x09\x05\x31\x11",
        _ => b"\x31\x1E\x30\x1C\x06\x09\x2A\x86\x48\x86\xF7\x0D\x01\x09\x05\x31\x0F",
    };
    expect(
        text.as_slice().strip_prefix(head) == Some(wanted),
        "it is written otherwise",
    )
}

/// A messageDigest with an INTEGER, a signingTime with two values, and the contentType 1.2.3.4.
fn known_otherwise() -> &'static [u8] {
    b"\
    \x31\x39\x30\x10\x06\x09\x2A\x86\x48\x86\xF7\x0D\x01\x09\x04\x31\x03\x02\x01\x05\x30\x11\x06\x09\x2A\
    \x86\x48\x86\xF7\x0D\x01\x09\x05\x31\x04\x05\x00\x05\x00\x30\x12\x06\x09\x2A\x86\x48\x86\xF7\x0D\x01\
    \x09\x03\x31\x05\x06\x03\x2A\x03\x04"
}

/// Further attributes of the three types aren't written.
#[test]
fn left_out(rt: HostRuntime) -> Result<(), Fail> {
    let attributes = read_set(rt.alloc(), known_otherwise())?;
    let mut given = none();
    given.attributes = attributes.as_slice();
    is_written(rt.alloc(), &given, b"\x31\x00")?;
    given.content_type = Some(b"\x2A\x03");
    is_written(rt.alloc(), &given, with_a_short_type())
}

fn with_a_short_type() -> &'static [u8] {
    b"\x31\x13\x30\x11\x06\x09\x2A\x86\x48\x86\xF7\x0D\x01\x09\x03\x31\x04\x06\x02\x2A\x03"
}

#[test]
fn nothing_given(rt: HostRuntime) -> Result<(), Fail> {
    is_written(rt.alloc(), &none(), b"\x31\x00")
}

/// The attribute 1.2.3 with the INTEGER 5, twice.
fn two_equal() -> &'static [u8] {
    b"\x31\x16\x30\x09\x06\x02\x2A\x03\x31\x03\x02\x01\x05\x30\x09\x06\x02\x2A\x03\x31\x03\x02\x01\x05"
}

/// One attribute twice, and an empty digest.
#[test]
fn twice(rt: HostRuntime) -> Result<(), Fail> {
    let attributes = read_set(rt.alloc(), two_equal())?;
    let mut given = none();
    given.message_digest = Some(b"");
    given.attributes = attributes.as_slice();
    is_written(rt.alloc(), &given, with_an_empty_digest())
}

fn with_an_empty_digest() -> &'static [u8] {
    b"\
    \x31\x27\x30\x09\x06\x02\x2A\x03\x31\x03\x02\x01\x05\x30\x09\x06\x02\x2A\x03\x31\x03\x02\x01\x05\x30\
    \x0F\x06\x09\x2A\x86\x48\x86\xF7\x0D\x01\x09\x04\x31\x02\x04\x00"
}

#[test]
fn what_is_no_type(rt: HostRuntime) -> Result<(), Fail> {
    for content_type in [b"".as_slice(), b"\x80\x03", b"\x2A\x80"] {
        let mut given = none();
        given.content_type = Some(content_type);
        is_refused(rt.alloc(), &given)?;
    }
    Ok(())
}

/// The attributes of a set, the first of them with a further value that is no element.
pub(crate) fn broken(alloc: Global, set: &[u8]) -> Result<Vec<Attribute>, Fail> {
    let mut attributes = read_set(alloc, set)?;
    add_value(alloc, attributes.as_mut_slice())?;
    Ok(attributes)
}

fn add_value(alloc: Global, attributes: &mut [Attribute]) -> Result<(), Fail> {
    let Some(attribute) = attributes.first_mut() else {
        return Err(Fail::new("no attribute"));
    };
    let value = Asn1RawDer(Vec::from_array(alloc, [0x02, 0x01])?);
    attribute.value.0.push(value)?;
    Ok(())
}

#[test]
fn what_is_no_attribute(rt: HostRuntime) -> Result<(), Fail> {
    let attributes = broken(rt.alloc(), two_equal())?;
    let mut given = none();
    given.attributes = attributes.as_slice();
    is_refused(rt.alloc(), &given)
}

/// What isn't written isn't refused.
#[test]
fn what_is_left_out(rt: HostRuntime) -> Result<(), Fail> {
    let attributes = broken(rt.alloc(), known_otherwise())?;
    let mut given = none();
    given.attributes = attributes.as_slice();
    is_written(rt.alloc(), &given, b"\x31\x00")
}
