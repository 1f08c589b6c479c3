//! Values that are built and not well-formed: they are written all the same.

use asn1_core::{Asn1RawDer, Error, KnownOid};
use asn1_core_format::{DerDeserialize, DerSerialize, from_bytes};
use std::alloc::Global;
use std::test::Fail;
use vector_checks::checks::is_written;
use x509_containers::{CertificateSerialNumber, IntegerAsn1};

/// Asks that a built value isn't well-formed, and is written as these bytes all the same.
pub fn is_ill_formed<T: DerSerialize>(alloc: Global, value: &T, text: &[u8]) -> Result<(), Fail> {
    if value.well_formed() {
        return Err(Fail::new(format_args!("well-formed: {text:?}")));
    }
    is_written(alloc, value, text)
}

/// Asks besides that what is written is refused when it is read.
pub fn is_refused<T: DerDeserialize>(
    alloc: Global,
    value: &T,
    text: &[u8],
    why: Error,
) -> Result<(), Fail> {
    is_ill_formed(alloc, value, text)?;
    let refused = from_bytes::<T>(alloc, text).err();
    if refused == Some(why) {
        return Ok(());
    }
    Err(Fail::new(format_args!("it is read as {refused:?}: {text:?}")))
}

/// Raw elements that are none: of no bytes, of two elements, and of a length that is spelled in another way.
#[test]
fn elements(rt: HostRuntime) -> Result<(), Fail> {
    let alloc = rt.alloc();
    for (text, why) in [
        (&[][..], Error::Missing),
        (&[0x05, 0x00, 0x05, 0x00], Error::Malformed),
        (&[0x05, 0x81, 0x00], Error::Malformed),
    ] {
        is_refused(alloc, &Asn1RawDer(Vec::from_slice(alloc, text)?), text, why)?;
    }
    Ok(())
}

/// Object identifiers of no group, of a group that begins with a zero digit and of one that doesn't end.
#[test]
fn object_identifiers(rt: HostRuntime) -> Result<(), Fail> {
    for text in [
        &[0x06, 0x00][..],
        &[0x06, 0x02, 0x80, 0x01],
        &[0x06, 0x02, 0x2A, 0x80],
    ] {
        is_ill_formed(rt.alloc(), &KnownOid(text.get(2..).ok_or("octets")?), text)?;
    }
    Ok(())
}

/// A serial number of no octets.
#[test]
fn serial_numbers(rt: HostRuntime) -> Result<(), Fail> {
    let none = CertificateSerialNumber(IntegerAsn1(Vec::new(rt.alloc())));
    is_refused(rt.alloc(), &none, b"\x02\x00", Error::Invalid)
}
