//! What a certificate and attributes are asked by name.

use std::alloc::Global;
use std::test::Fail;
use vector_checks::checks::expect;
use x509_containers::{
    Asn1RawDer, Attribute, Attributes, CertificateHead, Error, Extensions, SignerIdentifier,
    first_attribute, first_extension, from_bytes, only_value, set_has_the_same_contents, to_vec,
};

/// A certificate by hand, with an empty issuer, the serial number 7 and the key identifier AB CD.
const CERTIFICATE: &[u8] = b"\
    \x30\x34\x30\x28\xA0\x03\x02\x01\x02\x02\x01\x07\x30\x05\x06\x03\x2A\x03\x04\x30\x00\x30\x00\x30\x00\
    \x30\x00\xA3\x0F\x30\x0D\x30\x0B\x06\x03\x55\x1D\x0E\x04\x04\x04\x02\xAB\xCD\x30\x05\x06\x03\x2A\x03\
    \x04\x03\x01\x00";

/// The object identifier of the extension `subjectKeyIdentifier` (RFC 5280, 4.2.1.2).
const KEY_IDENTIFIER: &[u8] = b"\x55\x1D\x0E";

fn holds_key(extensions: &Extensions) -> Result<(), Fail> {
    let all = extensions.0.as_slice();
    let found = first_extension(all, KEY_IDENTIFIER).ok_or("no extension")?;
    let octets = found.extn_value.0.as_slice();
    expect(octets == b"\x04\x02\xAB\xCD".as_slice(), "another value")?;
    let none = first_extension(all, b"\x55\x1D\x0F");
    expect(none.is_none(), "an extension that isn't there")
}

#[test]
fn extensions(rt: HostRuntime) -> Result<(), Fail> {
    let head: CertificateHead = from_bytes(rt.alloc(), CERTIFICATE)?;
    let extensions = head.extensions(rt.alloc())?.ok_or("no extensions")?;
    expect(extensions.0.len() == 1, "other extensions")?;
    holds_key(&extensions)
}

#[test]
fn key_identifier(rt: HostRuntime) -> Result<(), Fail> {
    let head: CertificateHead = from_bytes(rt.alloc(), CERTIFICATE)?;
    let key = head
        .subject_key_identifier(rt.alloc())?
        .ok_or("no identifier")?;
    expect(
        key.0.0.as_slice() == b"\xAB\xCD".as_slice(),
        "another identifier",
    )
}

fn names(alloc: Global, head: &CertificateHead, signer: &[u8]) -> Result<bool, Error> {
    let signer: SignerIdentifier = from_bytes(alloc, signer)?;
    head.is_named_by(alloc, &signer)
}

/// By issuer and serial number, and by the key identifier.
#[test]
fn names_of_signers(rt: HostRuntime) -> Result<(), Fail> {
    let head: CertificateHead = from_bytes(rt.alloc(), CERTIFICATE)?;
    let signers: [(&[u8], bool); 4] = [
        (b"\x30\x05\x30\x00\x02\x01\x07", true),
        (b"\x30\x05\x30\x00\x02\x01\x08", false),
        (b"\x80\x02\xAB\xCD", true),
        (b"\x80\x02\xAB\xCE", false),
    ];
    for (signer, is_named) in signers {
        is_named_so(rt.alloc(), &head, signer, is_named)?;
    }
    Ok(())
}

fn is_named_so(
    alloc: Global,
    head: &CertificateHead,
    signer: &[u8],
    is_named: bool,
) -> Result<(), Fail> {
    if names(alloc, head, signer)? == is_named {
        return Ok(());
    }
    Err(Fail::new(format_args!("another signer: {signer:?}")))
}

/// A NULL under 1.2.3.5, and nothing under 1.2.3.4, twice.
const ATTRIBUTES: &[u8] = b"\
    \xA0\x1D\x30\x09\x06\x03\x2A\x03\x05\x31\x02\x05\x00\x30\x07\x06\x03\x2A\x03\x04\x31\x00\
    \x30\x07\x06\x03\x2A\x03\x04\x31\x00";

fn has_null(found: Option<&Asn1RawDer>) -> bool {
    found.is_some_and(|value| value.0.as_slice() == b"\x05\x00".as_slice())
}

fn have_firsts(attributes: &Attributes) -> Result<(), Fail> {
    let first = Attributes::attribute(attributes, b"\x2A\x03\x04").ok_or("nothing")?;
    expect(!first.is_only, "the only one")?;
    let all = attributes.0.0.as_slice();
    let first = first_attribute(all, b"\x2A\x03\x05").ok_or("nothing")?;
    expect(first.is_only, "another one after it")
}

#[test]
fn attributes(rt: HostRuntime) -> Result<(), Fail> {
    let attributes: Attributes = from_bytes(rt.alloc(), ATTRIBUTES)?;
    have_firsts(&attributes)?;
    have_values(attributes.0.0.as_slice())
}

fn have_values(all: &[Attribute]) -> Result<(), Fail> {
    expect(has_null(only_value(all, b"\x2A\x03\x05")?), "another value")?;
    let refused = only_value(all, b"\x2A\x03\x04").err();
    expect(refused == Some(Error::Invalid), "a value of two attributes")?;
    expect(
        only_value(all, b"\x2A\x03\x06")?.is_none(),
        "a value of none",
    )
}

/// A set that is signed has its attributes' contents under another tag, as the law says of all.
#[test]
fn a_set_of_attributes(rt: HostRuntime) -> Result<(), Fail> {
    set_has_the_same_contents();
    let attributes: Attributes = from_bytes(rt.alloc(), ATTRIBUTES)?;
    is_written_as_a_set(rt.alloc(), &attributes)
}

fn is_written_as_a_set(alloc: Global, attributes: &Attributes) -> Result<(), Fail> {
    let set = attributes.as_set().ok_or("no set")?;
    let octets = to_vec(alloc, &set)?;
    expect(octets.get(1..) == ATTRIBUTES.get(1..), "other contents")?;
    expect(octets.first() == Some(&0x31), "another tag")
}
