//! What bags of PKCS #12 hold, asked by name.

use std::alloc::Global;
use std::test::Fail;
use vector_checks::checks::expect;
use x509_containers::{
    FirstAttribute, IntegerAsn1, ParsedAuthenticatedSafeDataRepr, Pfx, RawPfx, RawSafeBag, SafeBag,
    SafeContents, from_bytes,
};

/// A bag of a key, with the friendly name AB and the local key identifier 42. The key is a BOOLEAN.
const KEY: &[u8] = b"\
    \x30\x3B\x06\x0B\x2A\x86\x48\x86\xF7\x0D\x01\x0C\x0A\x01\x01\xA0\x03\x01\x01\xFF\x31\x27\x30\x13\x06\
    \x09\x2A\x86\x48\x86\xF7\x0D\x01\x09\x14\x31\x06\x1E\x04\x00\x41\x00\x42\x30\x10\x06\x09\x2A\x86\x48\
    \x86\xF7\x0D\x01\x09\x15\x31\x03\x04\x01\x42";

/// That bag, and a bag with a bag in it, which holds the octet 43 as certificate.
const BAGS: &[u8] = b"\
    \x30\x74\x30\x3B\x06\x0B\x2A\x86\x48\x86\xF7\x0D\x01\x0C\x0A\x01\x01\xA0\x03\x01\x01\xFF\x31\x27\x30\
    \x13\x06\x09\x2A\x86\x48\x86\xF7\x0D\x01\x09\x14\x31\x06\x1E\x04\x00\x41\x00\x42\x30\x10\x06\x09\x2A\
    \x86\x48\x86\xF7\x0D\x01\x09\x15\x31\x03\x04\x01\x42\x30\x35\x06\x0B\x2A\x86\x48\x86\xF7\x0D\x01\x0C\
    \x0A\x01\x06\xA0\x26\x30\x24\x30\x22\x06\x0B\x2A\x86\x48\x86\xF7\x0D\x01\x0C\x0A\x01\x03\xA0\x13\x30\
    \x11\x06\x0A\x2A\x86\x48\x86\xF7\x0D\x01\x09\x16\x01\xA0\x03\x04\x01\x43";

/// A file with these bags.
const STORE: &[u8] = b"\
    \x30\x81\xA2\x02\x01\x03\x30\x81\x9C\x06\x09\x2A\x86\x48\x86\xF7\x0D\x01\x07\x01\xA0\x81\x8E\x04\x81\
    \x8B\x30\x81\x88\x30\x81\x85\x06\x09\x2A\x86\x48\x86\xF7\x0D\x01\x07\x01\xA0\x78\x04\x76\x30\x74\x30\
    \x3B\x06\x0B\x2A\x86\x48\x86\xF7\x0D\x01\x0C\x0A\x01\x01\xA0\x03\x01\x01\xFF\x31\x27\x30\x13\x06\x09\
    \x2A\x86\x48\x86\xF7\x0D\x01\x09\x14\x31\x06\x1E\x04\x00\x41\x00\x42\x30\x10\x06\x09\x2A\x86\x48\x86\
    \xF7\x0D\x01\x09\x15\x31\x03\x04\x01\x42\x30\x35\x06\x0B\x2A\x86\x48\x86\xF7\x0D\x01\x0C\x0A\x01\x06\
    \xA0\x26\x30\x24\x30\x22\x06\x0B\x2A\x86\x48\x86\xF7\x0D\x01\x0C\x0A\x01\x03\xA0\x13\x30\x11\x06\x0A\
    \x2A\x86\x48\x86\xF7\x0D\x01\x09\x16\x01\xA0\x03\x04\x01\x43";

fn has_name(bag: &SafeBag) -> Result<(), Fail> {
    match SafeBag::friendly_name(bag) {
        Some(name) => expect(name.as_bytes() == b"\x00A\x00B".as_slice(), "another name"),
        None => Err(Fail::new("no name")),
    }
}

fn has_identifier(bag: &SafeBag) -> Result<(), Fail> {
    let found = SafeBag::local_key_id(bag);
    expect(found == Some(b"\x42"), "another identifier")?;
    expect(bag.has_local_key_id(b"\x42"), "it hasn't its identifier")?;
    expect(!bag.has_local_key_id(b"\x43"), "it has another identifier")
}

fn is_named_key(bag: &SafeBag) -> Result<(), Fail> {
    has_name(bag)?;
    has_identifier(bag)?;
    expect(bag.is_key() && !bag.is_certificate(), "another kind")
}

#[test]
fn a_key(rt: HostRuntime) -> Result<(), Fail> {
    let bag: SafeBag = from_bytes(rt.alloc(), KEY)?;
    is_named_key(&bag)
}

fn has_raw_name(alloc: Global, bag: &RawSafeBag) -> Result<(), Fail> {
    let name = RawSafeBag::friendly_name(bag, alloc)?.ok_or("no name")?;
    expect(name.as_bytes() == b"\x00A\x00B".as_slice(), "another name")
}

fn has_raw_identifier(alloc: Global, bag: &RawSafeBag) -> Result<(), Fail> {
    let id = RawSafeBag::local_key_id(bag, alloc)?.ok_or("no identifier")?;
    expect(id.0.as_slice() == b"\x42".as_slice(), "another identifier")
}

/// The object identifier of local key identifiers (RFC 2985, 5.5.2).
const LOCAL_KEY_ID: &[u8] = b"\x2A\x86\x48\x86\xF7\x0D\x01\x09\x15";

fn is_local_key_id(found: &FirstAttribute<'_>) -> Result<(), Fail> {
    expect(found.is_only, "another one after it")?;
    let octets = found.attribute.ty.0.octets();
    expect(octets == LOCAL_KEY_ID, "another attribute")
}

/// The local key identifier by its object identifier, and one that it hasn't.
fn has_attributes(bag: &RawSafeBag) -> Result<(), Fail> {
    expect(RawSafeBag::attributes(bag).len() == 2, "other attributes")?;
    let none = RawSafeBag::attribute(bag, b"\x2A\x03\x04");
    expect(none.is_none(), "an attribute that it hasn't")?;
    match RawSafeBag::attribute(bag, LOCAL_KEY_ID) {
        Some(found) => is_local_key_id(&found),
        None => Err(Fail::new("no attribute")),
    }
}

fn has_value(alloc: Global, bag: &RawSafeBag) -> Result<(), Fail> {
    let value = RawSafeBag::value(bag);
    expect(value == b"\x01\x01\xFF".as_slice(), "another value")?;
    let typed = bag.value_typed::<IntegerAsn1>(alloc);
    expect(typed.is_err(), "a BOOLEAN as INTEGER")
}

#[test]
fn a_raw_key(rt: HostRuntime) -> Result<(), Fail> {
    let bag: RawSafeBag = from_bytes(rt.alloc(), KEY)?;
    has_value(rt.alloc(), &bag)?;
    has_raw_name(rt.alloc(), &bag)?;
    has_raw_identifier(rt.alloc(), &bag)?;
    has_attributes(&bag)
}

fn holds_key(bag: Option<&&SafeBag>) -> bool {
    bag.is_some_and(|bag| bag.is_key())
}

fn holds_certificate(bag: Option<&&SafeBag>) -> bool {
    bag.and_then(|bag| bag.x509_certificate()) == Some(b"\x43")
}

/// Asks for three bags, of which the first holds a key, and the last, which is in the second, a certificate.
fn are_all(bags: &[&SafeBag]) -> Result<(), Fail> {
    expect(bags.len() == 3, "other bags")?;
    expect(holds_key(bags.first()), "another first bag")?;
    expect(holds_certificate(bags.last()), "another last bag")
}

fn are_keys(bags: &[&SafeBag]) -> bool {
    bags.len() == 1 && holds_key(bags.first())
}

fn are_certificates(bags: &[&SafeBag]) -> bool {
    bags.len() == 1 && holds_certificate(bags.first())
}

fn has_bags(alloc: Global, contents: &SafeContents) -> Result<(), Fail> {
    are_all(&SafeContents::all_bags(contents, alloc)?)?;
    let keys = SafeContents::keys(contents, alloc)?;
    expect(are_keys(&keys), "other keys")?;
    let certificates = SafeContents::certificates(contents, alloc)?;
    expect(are_certificates(&certificates), "other certificates")
}

#[test]
fn bags_of_contents(rt: HostRuntime) -> Result<(), Fail> {
    let contents: SafeContents = from_bytes(rt.alloc(), BAGS)?;
    has_bags(rt.alloc(), &contents)
}

/// A file whose bags are read.
type Store = Pfx<ParsedAuthenticatedSafeDataRepr>;

fn has_bags_too(alloc: Global, store: &Store) -> Result<(), Fail> {
    are_all(&Pfx::all_bags(store, alloc)?)?;
    let keys = Pfx::keys(store, alloc)?;
    expect(are_keys(&keys), "other keys")?;
    let certificates = Pfx::certificates(store, alloc)?;
    expect(are_certificates(&certificates), "other certificates")
}

#[test]
fn bags_of_a_store(rt: HostRuntime) -> Result<(), Fail> {
    let store: Store = from_bytes(rt.alloc(), STORE)?;
    has_bags_too(rt.alloc(), &store)
}

/// What a MAC would cover are the contents of the OCTET STRING in `authSafe`.
#[test]
fn octets_of_a_store(rt: HostRuntime) -> Result<(), Fail> {
    let store: RawPfx = from_bytes(rt.alloc(), STORE)?;
    expect(
        RawPfx::mac_octets(&store) == STORE.get(26..),
        "other octets",
    )
}
