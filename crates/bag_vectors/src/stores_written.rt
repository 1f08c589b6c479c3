//! What is around bags, written from its parts, as `openssl asn1parse -genconf` writes it.

use crate::bags_written::{certificate, is_written, plain};
use asn1_core::{Asn1RawDer, Error, ExplicitContextTag0, OctetStringAsn1, from_bytes};
use bag_ranges::{BagKind, RawContentInfo, bag_ranges};
use bag_writers::{Held, write_safe_contents};
use pkcs12_algs::{MacData, Pkcs12DigestAlgorithm, Pkcs12DigestInfo};
use std::alloc::Global;
use std::test::Fail;
use store_writers::{Content, write_authenticated_safe, write_store};
use vector_checks::checks::expect;
use x509_base::RawAlgorithmIdentifier;

fn read<T: asn1_core::DerDeserialize>(alloc: Global, octets: &[u8]) -> Result<T, Fail> {
    match from_bytes::<T>(alloc, octets) {
        Ok(value) => Ok(value),
        Err(_) => Err(Fail::new("a part is refused")),
    }
}

fn is_refused(written: Result<Vec<u8>, Error>) -> Result<(), Fail> {
    match written {
        Err(Error::Invalid) => Ok(()),
        _ => Err(Fail::new("it isn't refused as invalid")),
    }
}

/// Data, an encrypted content, and one without content.
#[test]
fn contents(rt: HostRuntime) -> Result<(), Fail> {
    let alloc = rt.alloc();
    let encrypted: &[u8] = b"\x30\x0F\x06\x09\x2A\x86\x48\x86\xF7\x0D\x01\x07\x06\xA0\x02\x05\x00";
    let all = vec![in alloc;
        Content::Data(b"\x30\x00"),
        Content::Info(read(alloc, encrypted)?),
        Content::Info(read(alloc, b"\x30\x04\x06\x02\x2A\x03")?),
    ]?;
    is_written(write_authenticated_safe(alloc, all), three_contents())
}

fn three_contents() -> &'static [u8] {
    b"\
    \x30\x2A\x30\x11\x06\x09\x2A\x86\x48\x86\xF7\x0D\x01\x07\x01\xA0\x04\x04\x02\x30\x00\x30\x0F\x06\x09\
    \x2A\x86\x48\x86\xF7\x0D\x01\x07\x06\xA0\x02\x05\x00\x30\x04\x06\x02\x2A\x03"
}

#[test]
fn no_contents(rt: HostRuntime) -> Result<(), Fail> {
    let none = Vec::new(rt.alloc());
    is_written(write_authenticated_safe(rt.alloc(), none), b"\x30\x00")
}

/// A content that is no element.
#[test]
fn an_ill_formed_content(rt: HostRuntime) -> Result<(), Fail> {
    let alloc = rt.alloc();
    let mut info: RawContentInfo = read(alloc, b"\x30\x04\x06\x02\x2A\x03")?;
    info.content = Some(ExplicitContextTag0(Asn1RawDer(Vec::from_array(alloc, [0x05, 0x01])?)));
    let contents = vec![in alloc; Content::Info(info)]?;
    is_refused(write_authenticated_safe(alloc, contents))
}

fn mac(
    alloc: Global,
    digest_algorithm: Pkcs12DigestAlgorithm,
    iterations: Option<u32>,
) -> Result<MacData, Fail> {
    Ok(MacData {
        mac: Pkcs12DigestInfo {
            digest_algorithm,
            digest: OctetStringAsn1(Vec::from_slice(alloc, b"mac")?),
        },
        salt: OctetStringAsn1(Vec::from_slice(alloc, b"salt")?),
        iterations,
    })
}

#[test]
fn with_a_mac(rt: HostRuntime) -> Result<(), Fail> {
    let alloc = rt.alloc();
    let counted = mac(alloc, Pkcs12DigestAlgorithm::Sha256, Some(2048))?;
    is_written(write_store(alloc, b"\x30\x00", Some(&counted)), with_mac())?;
    let once = mac(alloc, Pkcs12DigestAlgorithm::Sha256, None)?;
    is_written(
        write_store(alloc, b"\x30\x00", Some(&once)),
        without_count(),
    )
}

fn with_mac() -> &'static [u8] {
    b"\
    \x30\x38\x02\x01\x03\x30\x11\x06\x09\x2A\x86\x48\x86\xF7\x0D\x01\x07\x01\xA0\x04\x04\x02\x30\x00\x30\
    \x20\x30\x14\x30\x0D\x06\x09\x60\x86\x48\x01\x65\x03\x04\x02\x01\x05\x00\x04\x03\x6D\x61\x63\x04\x04\
    \x73\x61\x6C\x74\x02\x02\x08\x00"
}

fn without_count() -> &'static [u8] {
    b"\
    \x30\x34\x02\x01\x03\x30\x11\x06\x09\x2A\x86\x48\x86\xF7\x0D\x01\x07\x01\xA0\x04\x04\x02\x30\x00\x30\
    \x1C\x30\x14\x30\x0D\x06\x09\x60\x86\x48\x01\x65\x03\x04\x02\x01\x05\x00\x04\x03\x6D\x61\x63\x04\x04\
    \x73\x61\x6C\x74"
}

/// An algorithm that isn't known has no identifier of a known one.
#[test]
fn an_ill_formed_mac(rt: HostRuntime) -> Result<(), Fail> {
    let alloc = rt.alloc();
    let sha1: RawAlgorithmIdentifier = read(alloc, b"\x30\x07\x06\x05\x2B\x0E\x03\x02\x1A")?;
    let mac = mac(alloc, Pkcs12DigestAlgorithm::Unknown(sha1), None)?;
    is_refused(write_store(alloc, b"\x30\x00", Some(&mac)))
}

#[test]
fn without_a_mac(rt: HostRuntime) -> Result<(), Fail> {
    let wanted: &[u8] = b"\
    \x30\x16\x02\x01\x03\x30\x11\x06\x09\x2A\x86\x48\x86\xF7\x0D\x01\x07\x01\xA0\x04\x04\x02\x30\x00";
    is_written(write_store(rt.alloc(), b"\x30\x00", None), wanted)
}

#[test]
fn no_element(rt: HostRuntime) -> Result<(), Fail> {
    for octets in [b"".as_slice(), b"\x30\x01", b"\x30\x00\x00"] {
        is_refused(write_store(rt.alloc(), octets, None))?;
    }
    Ok(())
}

/// Bags are found in the file that is written of them.
#[test]
fn a_whole_store(rt: HostRuntime) -> Result<(), Fail> {
    let alloc = rt.alloc();
    let bags = [certificate(&[]), plain(Held::Secret(b"\x05\x00"))];
    let Ok(bags) = write_safe_contents(alloc, &bags) else {
        return Err(Fail::new("the bags are refused"));
    };
    let contents = vec![in alloc; Content::Data(bags.as_slice())]?;
    let Ok(safe) = write_authenticated_safe(alloc, contents) else {
        return Err(Fail::new("the contents are refused"));
    };
    let Ok(file) = write_store(alloc, safe.as_slice(), None) else {
        return Err(Fail::new("the store is refused"));
    };
    let Ok(rows) = bag_ranges(alloc, file.as_slice()) else {
        return Err(Fail::new("the file is refused"));
    };
    let [first, second] = rows.as_slice() else {
        return Err(Fail::new("another number of bags"));
    };
    let Some(name) = &first.friendly_name else {
        return Err(Fail::new("no name"));
    };
    let Some(id) = &first.local_key_id else {
        return Err(Fail::new("no local key identifier"));
    };
    let octets = file.as_slice();
    expect(first.kind == BagKind::Certificate, "another kind")?;
    expect(
        octets.get(first.value.start..first.value.end) == Some(b"\x30\x00"),
        "another certificate",
    )?;
    expect(
        octets.get(name.start..name.end) == Some(b"\0n\0a\0m\0e"),
        "another name",
    )?;
    expect(
        octets.get(id.start..id.end) == Some(b"\x01\x02"),
        "another identifier",
    )?;
    expect(second.kind == BagKind::Secret, "another second kind")
}
