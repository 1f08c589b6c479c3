//! Key stores of PKCS #12 (RFC 7292).

use crate::{ExampleError, send};
use std::alloc::Global;
use std::fs;
use x509_containers::{
    Asn1RawDer, AuthenticatedSafeContentInfo, BmpString, CertificateBag, Error, MacData,
    OctetStringAsn1, ParsedAuthenticatedSafeDataRepr, Pfx, Pkcs12Attribute, Pkcs12DigestAlgorithm,
    Pkcs12DigestInfo, RawPfx, SafeBag, SafeBagKind, SafeContents, SafeContentsContentInfo, StdSink,
    TryClone, from_bytes, send as send_octets, to_vec,
};

/// How often the key derivation of the MAC hashes.
const ITERATIONS: u32 = 2048;

/// Whether the encoding of an attribute is less than that of another.
fn is_first(
    alloc: Global,
    attribute: &Pkcs12Attribute,
    other: &Pkcs12Attribute,
) -> Result<bool, Error> {
    let is_less = to_vec(alloc, attribute)? < to_vec(alloc, other)?;
    Ok(is_less)
}

/// Both attributes, sorted as DER has a SET OF: by their encodings.
fn in_order(
    alloc: Global,
    name: Pkcs12Attribute,
    key_id: Pkcs12Attribute,
) -> Result<Vec<Pkcs12Attribute>, Error> {
    let is_name_first = is_first(alloc, &name, &key_id)?;
    let sorted = if is_name_first {
        [name, key_id]
    } else {
        [key_id, name]
    };
    Ok(Vec::from_array(alloc, sorted)?)
}

/// A friendly name and a local key identifier, in order.
fn attributes(
    alloc: Global,
    name: &BmpString,
    key_id: &[u8],
) -> Result<Vec<Pkcs12Attribute>, Error> {
    let name = name.try_clone(alloc)?;
    let key_id = OctetStringAsn1(Vec::from_slice(alloc, key_id)?);
    in_order(
        alloc,
        Pkcs12Attribute::FriendlyName(name),
        Pkcs12Attribute::LocalKeyId(key_id),
    )
}

fn content_of(
    alloc: Global,
    kind: SafeBagKind,
    attributes: Vec<Pkcs12Attribute>,
) -> Result<SafeContentsContentInfo, Error> {
    let bag = SafeBag {
        kind,
        attributes: Some(attributes),
    };
    Ok(SafeContentsContentInfo::Data(SafeContents(Vec::from_array(alloc, [bag])?)))
}

/// A store of a key, a `PrivateKeyInfo`, and its certificate, both with the attributes, and without a MAC.
fn store(
    alloc: Global,
    key: Vec<u8>,
    certificate: Vec<u8>,
    attributes: Vec<Pkcs12Attribute>,
) -> Result<Pfx<ParsedAuthenticatedSafeDataRepr>, Error> {
    let certificate = SafeBagKind::Certificate(CertificateBag::X509(OctetStringAsn1(certificate)));
    let certificate = content_of(alloc, certificate, attributes.try_clone(alloc)?)?;
    let key = content_of(alloc, SafeBagKind::Key(Asn1RawDer(key)), attributes)?;
    Ok(Pfx {
        version: 3,
        auth_safe: AuthenticatedSafeContentInfo::Data(Vec::from_array(alloc, [certificate, key])?),
        mac_data: None,
    })
}

/// Writes the octets that the MAC of a store covers.
pub fn send_covered(rt: &HostRuntime, store: &[u8]) -> Result<(), ExampleError> {
    let pfx: RawPfx = from_bytes(rt.alloc(), store)?;
    let octets = pfx.mac_octets().ok_or(ExampleError::NothingCovered)?;
    send_octets(&mut StdSink::new(rt.stdout()), octets).map_err(|_| ExampleError::Output)
}

/// The store with a MAC by HMAC with SHA-256, which the caller has made. The octets that it covers stay as they are.
fn with_mac(alloc: Global, store: &[u8], digest: Vec<u8>, salt: Vec<u8>) -> Result<RawPfx, Error> {
    let mut pfx: RawPfx = from_bytes(alloc, store)?;
    pfx.mac_data = Some(MacData {
        mac: Pkcs12DigestInfo {
            digest_algorithm: Pkcs12DigestAlgorithm::Sha256,
            digest: OctetStringAsn1(digest),
        },
        salt: OctetStringAsn1(salt),
        iterations: Some(ITERATIONS),
    });
    Ok(pfx)
}

/// Writes a store of the files of a key, of its certificate and of a key identifier, with a friendly name.
pub fn send_store(
    rt: &HostRuntime,
    key: &str,
    certificate: &str,
    key_id: &str,
    name: &str,
) -> Result<(), ExampleError> {
    let name = BmpString::from_text(rt.alloc(), name)?;
    let attributes = attributes(rt.alloc(), &name, &fs::read(rt, key_id)?)?;
    let (key, certificate) = (fs::read(rt, key)?, fs::read(rt, certificate)?);
    send(rt, &store(rt.alloc(), key, certificate, attributes)?)
}

/// Writes the file of a store with a MAC, of which the digest and the salt are files too.
pub fn send_with_mac(
    rt: &HostRuntime,
    store: &str,
    digest: &str,
    salt: &str,
) -> Result<(), ExampleError> {
    let (digest, salt) = (fs::read(rt, digest)?, fs::read(rt, salt)?);
    send(
        rt,
        &with_mac(rt.alloc(), &fs::read(rt, store)?, digest, salt)?,
    )
}
