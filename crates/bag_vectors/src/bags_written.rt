//! Bags that are written from their parts, as `openssl asn1parse -genconf` writes them, which puts a SET in order.

use asn1_core::{Asn1RawDer, Error, from_bytes};
use bag_writers::{Bag, Held, write_safe_contents};
use std::alloc::Global;
use std::test::Fail;
use vector_checks::checks::expect;
use x509_base::Attribute;

/// The attribute 1.2.3 with the INTEGER 5.
const FURTHER: &[u8] = b"\x30\x09\x06\x02\x2A\x03\x31\x03\x02\x01\x05";

/// The attribute 1.2.3 with an OCTET STRING of 128 zeros.
fn long() -> &'static [u8] {
    b"\x30\x81\x8A\x06\x02\x2A\x03\x31\x81\x83\x04\x81\x80\
    \x00\x00\x00\x00\x00\x00\x00\x00\x00\x00\x00\x00\x00\x00\x00\x00\x00\x00\x00\x00\x00\x00\x00\x00\x00\
    \x00\x00\x00\x00\x00\x00\x00\x00\x00\x00\x00\x00\x00\x00\x00\x00\x00\x00\x00\x00\x00\x00\x00\x00\x00\
    \x00\x00\x00\x00\x00\x00\x00\x00\x00\x00\x00\x00\x00\x00\x00\x00\x00\x00\x00\x00\x00\x00\x00\x00\x00\
    \x00\x00\x00\x00\x00\x00\x00\x00\x00\x00\x00\x00\x00\x00\x00\x00\x00\x00\x00\x00\x00\x00\x00\x00\x00\
    \x00\x00\x00\x00\x00\x00\x00\x00\x00\x00\x00\x00\x00\x00\x00\x00\x00\x00\x00\x00\x00\x00\x00\x00\x00\
    \x00\x00\x00"
}

/// An attribute with the local key identifier 03.
const ANOTHER_ID: &[u8] =
    b"\x30\x10\x06\x09\x2A\x86\x48\x86\xF7\x0D\x01\x09\x15\x31\x03\x04\x01\x03";

/// An attribute of the type of a friendly name, with an INTEGER.
const NO_NAME: &[u8] = b"\x30\x10\x06\x09\x2A\x86\x48\x86\xF7\x0D\x01\x09\x14\x31\x03\x02\x01\x05";

/// "name" in UTF-16.
const NAME: &[u8] = b"\0n\0a\0m\0e";

/// A bag without a name, a local key identifier and attributes.
pub(crate) fn plain<'a>(held: Held<'a>) -> Bag<'a> {
    Bag {
        held,
        friendly_name: None,
        local_key_id: None,
        attributes: &[],
    }
}

/// A bag with such a name.
fn named<'a>(name: &'a [u8]) -> Bag<'a> {
    Bag {
        held: Held::Key(b"\x30\x00"),
        friendly_name: Some(name),
        local_key_id: None,
        attributes: &[],
    }
}

/// A certificate with a name and a local key identifier.
pub(crate) fn certificate<'a>(attributes: &'a [Attribute]) -> Bag<'a> {
    Bag {
        held: Held::Certificate(b"\x30\x00"),
        friendly_name: Some(NAME),
        local_key_id: Some(b"\x01\x02"),
        attributes,
    }
}

fn read(alloc: Global, octets: &[u8]) -> Result<Attribute, Fail> {
    match from_bytes::<Attribute>(alloc, octets) {
        Ok(attribute) => Ok(attribute),
        Err(_) => Err(Fail::new("an attribute is refused")),
    }
}

pub(crate) fn is_written(written: Result<Vec<u8>, Error>, wanted: &[u8]) -> Result<(), Fail> {
    match written {
        Ok(text) => expect(text.as_slice() == wanted, "it is written otherwise"),
        Err(_) => Err(Fail::new("it is refused")),
    }
}

fn is_refused(alloc: Global, bag: Bag<'_>) -> Result<(), Fail> {
    match write_safe_contents(alloc, &[bag]) {
        Err(Error::Invalid) => Ok(()),
        _ => Err(Fail::new("it isn't refused as invalid")),
    }
}

/// A certificate whose attributes are given in another order, with a name and an identifier that aren't written; and one
/// bag of each other kind.
#[test]
fn each_kind(rt: HostRuntime) -> Result<(), Fail> {
    let alloc = rt.alloc();
    let attributes = [
        read(alloc, NO_NAME)?,
        read(alloc, FURTHER)?,
        read(alloc, ANOTHER_ID)?,
    ];
    let shrouded = Bag {
        held: Held::ShroudedKey(b"\x30\x03\x02\x01\x01"),
        friendly_name: None,
        local_key_id: Some(b"\x01\x02"),
        attributes: &[],
    };
    let other = Held::Other {
        id: b"\x2A\x03\x04",
        element: b"\x02\x01\x07",
    };
    let bags = [
        certificate(&attributes),
        plain(Held::Key(b"\x30\x00")),
        shrouded,
        plain(Held::Crl(b"\x30\x00")),
        plain(Held::Secret(b"\x05\x00")),
        plain(Held::SafeContents(b"\x30\x00")),
        plain(other),
    ];
    is_written(write_safe_contents(alloc, &bags), all_kinds())
}

fn all_kinds() -> &'static [u8] {
    b"\
    \x30\x81\xF3\x30\x5C\x06\x0B\x2A\x86\x48\x86\xF7\x0D\x01\x0C\x0A\x01\x03\xA0\x14\x30\x12\x06\x0A\x2A\
    \x86\x48\x86\xF7\x0D\x01\x09\x16\x01\xA0\x04\x04\x02\x30\x00\x31\x37\x30\x09\x06\x02\x2A\x03\x31\x03\
    \x02\x01\x05\x30\x11\x06\x09\x2A\x86\x48\x86\xF7\x0D\x01\x09\x15\x31\x04\x04\x02\x01\x02\x30\x17\x06\
    \x09\x2A\x86\x48\x86\xF7\x0D\x01\x09\x14\x31\x0A\x1E\x08\x00\x6E\x00\x61\x00\x6D\x00\x65\x30\x11\x06\
    \x0B\x2A\x86\x48\x86\xF7\x0D\x01\x0C\x0A\x01\x01\xA0\x02\x30\x00\x30\x29\x06\x0B\x2A\x86\x48\x86\xF7\
    \x0D\x01\x0C\x0A\x01\x02\xA0\x05\x30\x03\x02\x01\x01\x31\x13\x30\x11\x06\x09\x2A\x86\x48\x86\xF7\x0D\
    \x01\x09\x15\x31\x04\x04\x02\x01\x02\x30\x23\x06\x0B\x2A\x86\x48\x86\xF7\x0D\x01\x0C\x0A\x01\x04\xA0\
    \x14\x30\x12\x06\x0A\x2A\x86\x48\x86\xF7\x0D\x01\x09\x17\x01\xA0\x04\x04\x02\x30\x00\x30\x11\x06\x0B\
    \x2A\x86\x48\x86\xF7\x0D\x01\x0C\x0A\x01\x05\xA0\x02\x05\x00\x30\x11\x06\x0B\x2A\x86\x48\x86\xF7\x0D\
    \x01\x0C\x0A\x01\x06\xA0\x02\x30\x00\x30\x0A\x06\x03\x2A\x03\x04\xA0\x03\x02\x01\x07"
}

#[test]
fn no_bags(rt: HostRuntime) -> Result<(), Fail> {
    is_written(write_safe_contents(rt.alloc(), &[]), b"\x30\x00")
}

/// One attribute twice, and one whose length takes two octets.
#[test]
fn attributes_in_order(rt: HostRuntime) -> Result<(), Fail> {
    let alloc = rt.alloc();
    let attributes = [
        read(alloc, long())?,
        read(alloc, FURTHER)?,
        read(alloc, FURTHER)?,
    ];
    let bag = Bag {
        held: Held::Key(b"\x30\x00"),
        friendly_name: None,
        local_key_id: Some(b"\x01\x02"),
        attributes: &attributes,
    };
    is_written(write_safe_contents(alloc, &[bag]), in_order())
}

fn in_order() -> &'static [u8] {
    b"\
    \x30\x81\xCD\x30\x81\xCA\x06\x0B\x2A\x86\x48\x86\xF7\x0D\x01\x0C\x0A\x01\x01\xA0\x02\x30\x00\x31\x81\
    \xB6\x30\x09\x06\x02\x2A\x03\x31\x03\x02\x01\x05\x30\x09\x06\x02\x2A\x03\x31\x03\x02\x01\x05\x30\x11\
    \x06\x09\x2A\x86\x48\x86\xF7\x0D\x01\x09\x15\x31\x04\x04\x02\x01\x02\x30\x81\x8A\x06\x02\x2A\x03\x31\
    \x81\x83\x04\x81\x80\x00\x00\x00\x00\x00\x00\x00\x00\x00\x00\x00\x00\x00\x00\x00\x00\x00\x00\x00\x00\
    \x00\x00\x00\x00\x00\x00\x00\x00\x00\x00\x00\x00\x00\x00\x00\x00\x00\x00\x00\x00\x00\x00\x00\x00\x00\
    \x00\x00\x00\x00\x00\x00\x00\x00\x00\x00\x00\x00\x00\x00\x00\x00\x00\x00\x00\x00\x00\x00\x00\x00\x00\
    \x00\x00\x00\x00\x00\x00\x00\x00\x00\x00\x00\x00\x00\x00\x00\x00\x00\x00\x00\x00\x00\x00\x00\x00\x00\
    \x00\x00\x00\x00\x00\x00\x00\x00\x00\x00\x00\x00\x00\x00\x00\x00\x00\x00\x00\x00\x00\x00\x00\x00\x00\
    \x00\x00\x00\x00\x00\x00\x00\x00"
}

/// A bag whose attributes aren't written has no set of them.
#[test]
fn no_attributes(rt: HostRuntime) -> Result<(), Fail> {
    let alloc = rt.alloc();
    let attributes = [read(alloc, NO_NAME)?, read(alloc, ANOTHER_ID)?];
    let mut bag = plain(Held::Secret(b"\x05\x00"));
    bag.attributes = &attributes;
    is_written(
        write_safe_contents(alloc, &[bag]),
        b"\x30\x13\x30\x11\x06\x0B\x2A\x86\x48\x86\xF7\x0D\x01\x0C\x0A\x01\x05\xA0\x02\x05\x00",
    )
}

/// A name with a character past U+FFFF, which is a pair of surrogates, and an empty one.
#[test]
fn names(rt: HostRuntime) -> Result<(), Fail> {
    let bags = [named(b"\xD8\x3D\xDE\x00"), named(b"")];
    is_written(write_safe_contents(rt.alloc(), &bags), with_names())
}

fn with_names() -> &'static [u8] {
    b"\
    \x30\x50\x30\x28\x06\x0B\x2A\x86\x48\x86\xF7\x0D\x01\x0C\x0A\x01\x01\xA0\x02\x30\x00\x31\x15\x30\x13\
    \x06\x09\x2A\x86\x48\x86\xF7\x0D\x01\x09\x14\x31\x06\x1E\x04\xD8\x3D\xDE\x00\x30\x24\x06\x0B\x2A\x86\
    \x48\x86\xF7\x0D\x01\x0C\x0A\x01\x01\xA0\x02\x30\x00\x31\x11\x30\x0F\x06\x09\x2A\x86\x48\x86\xF7\x0D\
    \x01\x09\x14\x31\x02\x1E\x00"
}

#[test]
fn what_is_no_name(rt: HostRuntime) -> Result<(), Fail> {
    let alloc = rt.alloc();
    is_refused(alloc, named(b"\0a\0"))?;
    is_refused(alloc, named(b"\xD8\x3D"))?;
    is_refused(alloc, named(b"\xDE\x00\xD8\x3D"))
}

#[test]
fn what_is_no_element(rt: HostRuntime) -> Result<(), Fail> {
    let alloc = rt.alloc();
    is_refused(alloc, plain(Held::Key(b"")))?;
    is_refused(alloc, plain(Held::ShroudedKey(b"\x30\x01")))?;
    is_refused(alloc, plain(Held::Secret(b"\x05\x00\x00")))?;
    is_refused(alloc, plain(Held::SafeContents(b"\x30\x80\x00\x00")))?;
    let other = Held::Other {
        id: b"\x2A\x03",
        element: b"\x1F\x01\x00",
    };
    is_refused(alloc, plain(other))
}

#[test]
fn what_is_no_identifier(rt: HostRuntime) -> Result<(), Fail> {
    let alloc = rt.alloc();
    let element: &[u8] = b"\x05\x00";
    is_refused(
        alloc,
        plain(Held::Other {
            id: b"\x80\x03",
            element,
        }),
    )?;
    is_refused(alloc, plain(Held::Other { id: b"", element }))
}

/// An attribute whose value is no element, and one that isn't written.
#[test]
fn what_is_no_attribute(rt: HostRuntime) -> Result<(), Fail> {
    let alloc = rt.alloc();
    let mut broken = read(alloc, FURTHER)?;
    broken
        .value
        .0
        .push(Asn1RawDer(Vec::from_array(alloc, [0x02, 0x01])?))?;
    is_refused(alloc, certificate(&[broken]))?;
    let mut unwritten = read(alloc, NO_NAME)?;
    unwritten
        .value
        .0
        .push(Asn1RawDer(Vec::from_array(alloc, [0x02, 0x01])?))?;
    let attributes = [unwritten];
    let mut bag = named(b"");
    bag.attributes = &attributes;
    let written = write_safe_contents(alloc, &[bag]);
    expect(written.is_ok(), "what isn't written is refused")
}
