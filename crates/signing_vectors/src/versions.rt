//! The version of signed data (RFC 5652, 5.1).

use crate::given::{DATA, OTHER, detached, short, short_by_a, written};
use crate::refused_parts::right;
use signed_writers::{Content, ContentInfo, Identifier, Signer};
use std::alloc::Global;
use std::test::Fail;
use vector_checks::checks::expect;

/// Certificates, revocation lists and the version.
type Sets = (&'static [&'static [u8]], &'static [&'static [u8]], u8);

/// An X.509 certificate or list is `30`, an attribute certificate of version 1 `A1`, one of version 2 `A2`, another
/// certificate `A3` and another list `A1`.
const OF_DATA: [Sets; 14] = [
    (&[], &[], 1),
    (&[b"\x30\x00"], &[], 1),
    (&[b"\xA0\x00"], &[], 1),
    (&[b"\xA1\x00"], &[], 3),
    (&[b"\xA2\x00"], &[], 4),
    (&[b"\xA3\x00"], &[], 5),
    (&[b"\xA1\x00", b"\x30\x00"], &[], 3),
    (&[b"\xA1\x00", b"\xA2\x00"], &[], 4),
    (&[b"\xA2\x00", b"\xA1\x00", b"\x30\x00"], &[], 4),
    (&[b"\xA1\x00", b"\xA2\x00", b"\xA3\x00"], &[], 5),
    (&[], &[b"\x30\x00"], 1),
    (&[], &[b"\x30\x00", b"\xA1\x00"], 5),
    (&[b"\xA2\x00"], &[b"\x30\x00"], 4),
    (&[b"\xA1\x00"], &[b"\xA1\x00"], 5),
];

/// The same where something else asks for 3.
const AT_LEAST_3: [Sets; 6] = [
    (&[], &[], 3),
    (&[b"\x30\x00"], &[b"\x30\x00"], 3),
    (&[b"\xA1\x00"], &[], 3),
    (&[b"\xA2\x00"], &[], 4),
    (&[b"\xA3\x00"], &[], 5),
    (&[], &[b"\xA1\x00"], 5),
];

/// The contents octets of an element, of fewer than 256.
fn contents(element: &[u8]) -> &[u8] {
    match element {
        [_, 0x81, _, contents @ ..] => contents,
        [_, _, contents @ ..] => contents,
        _ => b"",
    }
}

/// What is written has that version, which comes first in what the tag `[0]` is around, after an object identifier.
fn has_version(
    alloc: Global,
    info: ContentInfo<'_>,
    sets: Sets,
    signers: &[Signer<'_>],
) -> Result<(), Fail> {
    let (certificates, crls, version) = sets;
    let text = written(alloc, &info, certificates, crls, signers)?;
    let Some(explicit) = contents(&text).get(11..) else {
        return Err(Fail::new("it is short"));
    };
    expect(
        contents(contents(explicit)).starts_with(&[0x02, 0x01, version]),
        "another version",
    )
}

#[test]
fn of_data(rt: HostRuntime) -> Result<(), Fail> {
    for sets in OF_DATA {
        has_version(rt.alloc(), detached(DATA), sets, &[])?;
    }
    Ok(())
}

#[test]
fn of_a_signer_with_a_certificate(rt: HostRuntime) -> Result<(), Fail> {
    for sets in OF_DATA {
        has_version(rt.alloc(), detached(DATA), sets, &[short_by_a()])?;
    }
    Ok(())
}

/// The second of two signers has a key identifier.
#[test]
fn of_a_key_identifier(rt: HostRuntime) -> Result<(), Fail> {
    let signers = [short_by_a(), short(Identifier::Key(b"k"))];
    for sets in AT_LEAST_3 {
        has_version(rt.alloc(), detached(DATA), sets, &signers)?;
    }
    Ok(())
}

/// A signer of version 1, with attributes for content of the type 1.2.3.4.
fn of_other() -> Signer<'static> {
    let mut signer = short_by_a();
    signer.signed_attributes = Some(right());
    signer
}

/// Content of another type than id-data: elsewhere, and as an OCTET STRING.
#[test]
fn of_another_type(rt: HostRuntime) -> Result<(), Fail> {
    let rows: [Option<Content<'static>>; 3] = [
        None,
        Some(Content::Octets(b"o")),
        Some(Content::Element(b"\x04\x01o")),
    ];
    for content in rows {
        let info = ContentInfo {
            content_type: OTHER,
            content,
        };
        for sets in AT_LEAST_3 {
            has_version(rt.alloc(), info, sets, &[of_other()])?;
        }
    }
    Ok(())
}

/// Another element is content of RFC 2315, 9.1, where the version is 1.
#[test]
fn of_an_element(rt: HostRuntime) -> Result<(), Fail> {
    let info = ContentInfo {
        content_type: OTHER,
        content: Some(Content::Element(b"\x30\x00")),
    };
    for sets in OF_DATA {
        has_version(rt.alloc(), info, sets, &[of_other()])?;
    }
    Ok(())
}
