//! Object identifiers, from octets and text and to text (X.660; X.690, 8.19).

use std::alloc::Global;
use std::test::Fail;
use vector_checks::checks::expect;
use x509_containers::{Error, ObjectIdentifier};

/// Texts, with the contents octets of their object identifiers.
const TEXTS: [(&str, &[u8]); 6] = [
    ("2.999", b"\x88\x37"),
    ("2.999.3", b"\x88\x37\x03"),
    ("0.0", b"\x00"),
    ("0.39", b"\x27"),
    ("1.39.0", b"\x4F\x00"),
    (
        "1.2.840.113549.1.7.2",
        b"\x2A\x86\x48\x86\xF7\x0D\x01\x07\x02",
    ),
];

fn has_text(alloc: Global, identifier: &ObjectIdentifier, text: &str) -> Result<(), Fail> {
    let again = ObjectIdentifier::to_text(identifier, alloc)?;
    expect(again.as_str() == text, "another text")
}

/// Asks that the octets are those of the object identifier.
fn are_octets_of(alloc: Global, octets: &[u8], identifier: &ObjectIdentifier) -> Result<(), Fail> {
    expect(identifier.octets() == octets, "other octets of a text")?;
    let of_octets = ObjectIdentifier::from_octets(alloc, octets)?;
    expect(of_octets == *identifier, "another one of the octets")
}

fn has_both(alloc: Global, text: &str, octets: &[u8]) -> Result<(), Fail> {
    let of_text = ObjectIdentifier::from_text(alloc, text)?;
    are_octets_of(alloc, octets, &of_text)?;
    has_text(alloc, &of_text, text)
}

#[test]
fn texts_and_octets(rt: HostRuntime) -> Result<(), Fail> {
    for (text, octets) in TEXTS {
        has_both(rt.alloc(), text, octets)?;
    }
    Ok(())
}

/// One arc alone, a second arc above 39 under 0 and 1, leading zeros, a first arc above 2, an arc that is empty or has a
/// sign, and no arc at all.
const NO_TEXTS: [&str; 10] = [
    "1", "1.40", "0.40", "01.2", "1.02", "3.1", "1.", "1..2", "1.+2", "",
];

#[test]
fn texts_of_none(rt: HostRuntime) -> Result<(), Fail> {
    for text in NO_TEXTS {
        let refused = ObjectIdentifier::from_text(rt.alloc(), text).err();
        assert_eq!(rt; refused, Some(Error::Invalid), "{text}");
    }
    Ok(())
}

/// No octets, a group that begins with a zero digit, at the front and after another, and one that doesn't end.
const NO_OCTETS: [&[u8]; 4] = [b"", b"\x80\x01", b"\x2A\x80\x01", b"\x2A\x80"];

#[test]
fn octets_of_none(rt: HostRuntime) -> Result<(), Fail> {
    for octets in NO_OCTETS {
        let refused = ObjectIdentifier::from_octets(rt.alloc(), octets).err();
        assert_eq!(rt; refused, Some(Error::Invalid), "{octets:?}");
    }
    Ok(())
}

/// An arc of 2^64, and one of 2^64 - 1.
#[test]
fn arcs_of_65_bits(rt: HostRuntime) -> Result<(), Fail> {
    let long = b"\x2A\x82\x80\x80\x80\x80\x80\x80\x80\x80\x00";
    let long = ObjectIdentifier::from_octets(rt.alloc(), long)?;
    let refused = ObjectIdentifier::to_text(&long, rt.alloc()).err();
    assert_eq!(rt; refused, Some(Error::Invalid));
    let greatest = b"\x2A\x81\xFF\xFF\xFF\xFF\xFF\xFF\xFF\xFF\x7F";
    has_both(rt.alloc(), "1.2.18446744073709551615", greatest)
}

/// Octets that are an object identifier's are taken as they are.
#[test]
fn checked_octets(rt: HostRuntime) -> Result<(), Fail> {
    let known = ObjectIdentifier::from_text(rt.alloc(), "2.999")?;
    let octets = Vec::from_slice(rt.alloc(), known.octets())?;
    let taken = ObjectIdentifier::from_checked(octets);
    expect(taken.octets() == b"\x88\x37".as_slice(), "other octets")
}
