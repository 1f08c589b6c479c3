//! A representation of a caller's own in a PKCS #12 file.

use crate::octets_repr::OctetsRepr;
use asn1_core::{Error, from_bytes};
use std::alloc::Global;
use std::test::Fail;
use vector_checks::checks::{expect, is_rewritten};
use x509_containers::{AuthenticatedSafeContentInfo, AuthenticatedSafeDataRepr, Pfx};

/// A PFX whose data is an OCTET STRING of one octet.
const OCTETS_PFX: &[u8] = b"\
    \x30\x17\x02\x01\x03\x30\x12\x06\x09\x2A\x86\x48\x86\xF7\x0D\x01\x07\x01\xA0\x05\x04\x03\x04\x01\
    \x07";

/// A PFX whose data is an empty SEQUENCE.
const SEQUENCE_PFX: &[u8] = b"\
    \x30\x16\x02\x01\x03\x30\x11\x06\x09\x2A\x86\x48\x86\xF7\x0D\x01\x07\x01\xA0\x04\x04\x02\x30\x00";

fn is_appended(alloc: Global, data: &Vec<u8>) -> Result<(), Fail> {
    expect(data.as_slice() == b"\x07".as_slice(), "other data")?;
    let mut out = Vec::from_slice(alloc, b"ab")?;
    OctetsRepr::write_repr(alloc, data, &mut out)?;
    expect(
        out.as_slice() == b"ab\x04\x01\x07".as_slice(),
        "another encoding",
    )
}

fn holds_octets(alloc: Global, pfx: &Pfx<OctetsRepr>) -> Result<(), Fail> {
    match &pfx.auth_safe {
        AuthenticatedSafeContentInfo::Data(data) => is_appended(alloc, data),
        _ => Err(Fail::new("no data")),
    }
}

#[test]
fn octets_as_data(rt: HostRuntime) -> Result<(), Fail> {
    let pfx: Pfx<OctetsRepr> = is_rewritten(rt.alloc(), OCTETS_PFX, OCTETS_PFX)?;
    holds_octets(rt.alloc(), &pfx)
}

#[test]
fn a_sequence_as_data(rt: HostRuntime) -> Result<(), Fail> {
    let refused = from_bytes::<Pfx<OctetsRepr>>(rt.alloc(), SEQUENCE_PFX).err();
    expect(refused == Some(Error::Invalid), "another refusal")
}
