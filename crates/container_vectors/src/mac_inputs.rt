//! The octets that the MAC of a file covers: the contents of the OCTET STRING in `authSafe`, where it is data
//! (RFC 7292, 5.1).

use asn1_core::from_bytes;
use std::alloc::Global;
use std::test::Fail;
use vector_checks::checks::expect;
use x509_containers::RawPfx;

/// Data that is an empty SEQUENCE.
const EMPTY: &[u8] = b"\
    \x30\x16\x02\x01\x03\x30\x11\x06\x09\x2A\x86\x48\x86\xF7\x0D\x01\x07\x01\xA0\x04\x04\x02\x30\x00";

/// Data that is an empty SET.
const SET: &[u8] = b"\
    \x30\x16\x02\x01\x03\x30\x11\x06\x09\x2A\x86\x48\x86\xF7\x0D\x01\x07\x01\xA0\x04\x04\x02\x31\x00";

/// Signed data, without content and with an empty SEQUENCE.
const SIGNED: &[u8] = b"\
    \x30\x10\x02\x01\x03\x30\x0B\x06\x09\x2A\x86\x48\x86\xF7\x0D\x01\x07\x02";

const SIGNED_CONTENT: &[u8] = b"\
    \x30\x14\x02\x01\x03\x30\x0F\x06\x09\x2A\x86\x48\x86\xF7\x0D\x01\x07\x02\xA0\x02\x30\x00";

fn covers(alloc: Global, file: &[u8], octets: Option<&[u8]>) -> Result<(), Fail> {
    let pfx: RawPfx = from_bytes(alloc, file)?;
    expect(pfx.mac_octets() == octets, "a MAC covers other octets")
}

#[test]
fn octets_of_a_mac(rt: HostRuntime) -> Result<(), Fail> {
    covers(rt.alloc(), EMPTY, Some(b"\x30\x00"))?;
    covers(rt.alloc(), SET, Some(b"\x31\x00"))?;
    covers(rt.alloc(), SIGNED, None)?;
    covers(rt.alloc(), SIGNED_CONTENT, None)
}
