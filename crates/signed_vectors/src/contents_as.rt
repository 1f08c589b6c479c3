//! Contents and data as a type, and the data of `authSafe` in its representation.

use asn1_core_writers::Compare;
use std::alloc::Global;
use std::test::Fail;
use vector_checks::checks::expect;
use vector_checks::fakes::Narrow;
use x509_containers::{
    AuthenticatedSafeDataRepr, ContentInfo, Error, OctetStringAsn1,
    ParsedAuthenticatedSafeDataRepr, RawEncapsulatedContentInfo, SafeContents,
    SafeContentsContentInfo, SpcPeImageData, from_bytes, page_hash_octets,
};

/// Data: the octets of an empty SEQUENCE.
const DATA: &[u8] = b"\
    \x30\x11\x06\x09\x2A\x86\x48\x86\xF7\x0D\x01\x07\x01\xA0\x04\x04\x02\x30\x00";

/// The element in `[0]`, and its octets.
const OCTETS: &[u8] = b"\x04\x02\x30\x00";

fn is_sequence(octets: &OctetStringAsn1) -> Result<(), Fail> {
    expect(
        octets.0.as_slice() == b"\x30\x00".as_slice(),
        "other octets",
    )
}

fn holds_sequence(alloc: Global, info: &ContentInfo) -> Result<(), Fail> {
    expect(ContentInfo::content(info) == OCTETS, "another content")?;
    let refused = ContentInfo::content_typed::<SafeContents>(info, alloc).err();
    expect(refused == Some(Error::Invalid), "octets as bags")?;
    is_sequence(&ContentInfo::content_typed(info, alloc)?)
}

#[test]
fn of_a_file(rt: HostRuntime) -> Result<(), Fail> {
    let info: ContentInfo = from_bytes(rt.alloc(), DATA)?;
    holds_sequence(rt.alloc(), &info)
}

#[test]
fn of_raw_signed_data(rt: HostRuntime) -> Result<(), Fail> {
    let info: RawEncapsulatedContentInfo = from_bytes(rt.alloc(), DATA)?;
    let content = RawEncapsulatedContentInfo::content(&info);
    expect(content == Some(OCTETS), "another content")?;
    let typed = RawEncapsulatedContentInfo::content_typed(&info, rt.alloc());
    is_sequence(&typed.ok_or("no content")??)
}

#[test]
fn of_detached_data(rt: HostRuntime) -> Result<(), Fail> {
    let info: RawEncapsulatedContentInfo = from_bytes(rt.alloc(), b"\x30\x05\x06\x03\x2A\x03\x04")?;
    let content = RawEncapsulatedContentInfo::content(&info);
    expect(content.is_none(), "a content")?;
    let typed = RawEncapsulatedContentInfo::content_typed::<OctetStringAsn1>(&info, rt.alloc());
    expect(typed.is_none(), "a content as a type")
}

type Contents = Vec<SafeContentsContentInfo>;

/// Asks that it is written as an empty SEQUENCE, and is well-formed.
fn is_empty_sequence(alloc: Global, repr: &Contents) -> Result<(), Fail> {
    type Repr = ParsedAuthenticatedSafeDataRepr;
    expect(Repr::repr_len(repr) == Ok(2), "another length")?;
    expect(Repr::repr_well_formed_at(repr, 0), "ill-formed")?;
    let mut compare = Compare::new(b"\x30\x00");
    expect(Repr::put_repr(repr, &mut compare).is_ok(), "a refusal")?;
    expect(compare.is_same(), "another encoding")?;
    is_sent(alloc, repr)
}

fn is_sent(alloc: Global, repr: &Contents) -> Result<(), Fail> {
    let mut sink = Narrow::new(alloc, 1, 2);
    let sent = ParsedAuthenticatedSafeDataRepr::emit_repr(repr, &mut sink);
    let is_all = sent.is_ok() && sink.taken.as_slice() == b"\x30\x00".as_slice();
    expect(is_all, "a failure, or other bytes")
}

#[test]
fn of_an_authenticated_safe(rt: HostRuntime) -> Result<(), Fail> {
    let made = ParsedAuthenticatedSafeDataRepr::from_repr(Vec::new(rt.alloc()));
    let read: ParsedAuthenticatedSafeDataRepr = from_bytes(rt.alloc(), b"\x30\x00")?;
    expect(made == read, "another value")?;
    is_empty_sequence(rt.alloc(), &made.into_repr())
}

/// An image by osslsigncode 2.9, cut: the class of page hashes, and the octets AB in place of them.
const IMAGE: &[u8] = b"\
    \x30\x1E\x03\x02\x05\x80\xA0\x18\xA1\x16\x04\x10\xA6\xB5\x86\xD5\xB4\xA1\x24\x66\xAE\x05\xA2\x17\xDA\
    \x8E\x60\xD6\x04\x02AB";

/// An image with a file name.
const NAMED: &[u8] = b"\x30\x0A\x03\x02\x05\x80\xA0\x04\xA2\x02\x80\x00";

#[test]
fn of_an_image(rt: HostRuntime) -> Result<(), Fail> {
    let image: SpcPeImageData = from_bytes(rt.alloc(), IMAGE)?;
    expect(page_hash_octets(&image) == Some(b"AB"), "other page hashes")
}

#[test]
fn of_a_named_image(rt: HostRuntime) -> Result<(), Fail> {
    let image: SpcPeImageData = from_bytes(rt.alloc(), NAMED)?;
    expect(page_hash_octets(&image).is_none(), "page hashes")
}
