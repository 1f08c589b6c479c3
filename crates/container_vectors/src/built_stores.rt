//! Values of PKCS #12 that are built and not well-formed: a field of a value that was read is changed.

use crate::values::{is_ill_formed, is_refused};
use asn1_core::{Asn1RawDer, Error, ObjectIdentifier, from_bytes};
use std::alloc::Global;
use std::test::Fail;
use vector_checks::checks::expect;
use x509_containers::{
    ParsedAuthenticatedSafeDataRepr, Pfx, Pkcs12DigestAlgorithm, Pkcs12DigestInfo, SafeBag,
    SafeBagKind,
};

/// A PFX whose data is an empty list.
const EMPTY_PFX: &[u8] = b"\
    \x30\x16\x02\x01\x03\x30\x11\x06\x09\x2A\x86\x48\x86\xF7\x0D\x01\x07\x01\xA0\x04\x04\x02\x30\x00";

/// The same of version 2.
const VERSION_2: &[u8] = b"\
    \x30\x16\x02\x01\x02\x30\x11\x06\x09\x2A\x86\x48\x86\xF7\x0D\x01\x07\x01\xA0\x04\x04\x02\x30\x00";

fn with_version_2(
    mut pfx: Pfx<ParsedAuthenticatedSafeDataRepr>,
) -> Pfx<ParsedAuthenticatedSafeDataRepr> {
    pfx.version = 2;
    pfx
}

#[test]
fn a_file_of_version_2(rt: HostRuntime) -> Result<(), Fail> {
    let pfx = with_version_2(from_bytes(rt.alloc(), EMPTY_PFX)?);
    is_refused(rt.alloc(), &pfx, VERSION_2, Error::Invalid)
}

/// A bag whose key is a BOOLEAN.
const KEY_BAG: &[u8] = b"\
    \x30\x12\x06\x0B\x2A\x86\x48\x86\xF7\x0D\x01\x0C\x0A\x01\x01\xA0\x03\x01\x01\xFF";

/// A bag whose key is two elements.
const TWO_KEYS: &[u8] = b"\
    \x30\x13\x06\x0B\x2A\x86\x48\x86\xF7\x0D\x01\x0C\x0A\x01\x01\xA0\x04\x05\x00\x05\x00";

#[test]
fn a_key_of_two_elements(rt: HostRuntime) -> Result<(), Fail> {
    let two = Vec::from_slice(rt.alloc(), b"\x05\x00\x05\x00")?;
    let bag = SafeBag {
        kind: SafeBagKind::Key(Asn1RawDer(two)),
        attributes: None,
    };
    is_refused(rt.alloc(), &bag, TWO_KEYS, Error::Malformed)
}

/// The object identifier of key bags (RFC 7292, appendix D).
const KEY_BAG_OID: &[u8] = b"\x2A\x86\x48\x86\xF7\x0D\x01\x0C\x0A\x01\x01";

fn holds_a_key(bag: &SafeBag) -> bool {
    match &bag.kind {
        SafeBagKind::Key(key) => key.0.as_slice() == b"\x01\x01\xFF".as_slice(),
        _ => false,
    }
}

/// A bag of that kind as one that isn't known.
fn unknown_bag(alloc: Global) -> Result<SafeBag, Error> {
    let type_id = ObjectIdentifier::from_octets(alloc, KEY_BAG_OID)?;
    let value = Asn1RawDer(Vec::from_slice(alloc, b"\x01\x01\xFF")?);
    Ok(SafeBag {
        kind: SafeBagKind::Unknown { type_id, value },
        attributes: None,
    })
}

/// `Unknown` with the object identifier of key bags is read as `Key`.
#[test]
fn an_unknown_bag_of_a_known_kind(rt: HostRuntime) -> Result<(), Fail> {
    is_ill_formed(rt.alloc(), &unknown_bag(rt.alloc())?, KEY_BAG)?;
    let again: SafeBag = from_bytes(rt.alloc(), KEY_BAG)?;
    expect(holds_a_key(&again), "another kind of bag")
}

/// A digest by SHA-1, with NULL as parameters and without any.
const BY_SHA1: &[u8] = b"\
    \x30\x21\x30\x09\x06\x05\x2B\x0E\x03\x02\x1A\x05\x00\x04\x14\x9B\x9F\x55\x86\xD8\x5A\x38\x61\xA2\
    \x2D\x40\x2F\xE7\x89\x66\x9C\x64\x02\x76\x81";

/// The identifier of SHA-1 in it.
const SHA1: &[u8] = b"\x30\x09\x06\x05\x2B\x0E\x03\x02\x1A\x05\x00";

fn is_sha1(info: &Pkcs12DigestInfo) -> bool {
    matches!(&info.digest_algorithm, Pkcs12DigestAlgorithm::Sha1)
}

fn with_algorithm(mut info: Pkcs12DigestInfo, raw: Pkcs12DigestAlgorithm) -> Pkcs12DigestInfo {
    info.digest_algorithm = raw;
    info
}

/// `Unknown` with the object identifier of SHA-1 is read as `Sha1`.
#[test]
fn an_unknown_digest_of_a_known_kind(rt: HostRuntime) -> Result<(), Fail> {
    let known: Pkcs12DigestInfo = from_bytes(rt.alloc(), BY_SHA1)?;
    expect(is_sha1(&known), "another digest is read")?;
    let raw = Pkcs12DigestAlgorithm::Unknown(from_bytes(rt.alloc(), SHA1)?);
    is_ill_formed(rt.alloc(), &with_algorithm(known, raw), BY_SHA1)
}
