//! Files in BER, with ample memory. `openssl asn1parse` shows them as they are told here.

use asn1_core::prelude::*;
use asn1_core::{from_bytes, to_vec};
use ber_der::to_der;
use pkcs12_ber::{BerPfx, BufferOffset, ber_mac_range, read_ber_pfx};
use std::alloc::Global;
use std::test::Fail;
use vector_checks::checks::expect;
use x509_pkcs12::{NoMac, RawAuthenticatedSafeDataRepr};

/// A file without contents, of indefinite lengths: the octets that a MAC would cover are in two segments.
const NO_CONTENTS: &[u8] =
    b"\x30\x80\x02\x01\x03\x30\x80\x06\x09\x2A\x86\x48\x86\xF7\x0D\x01\x07\x01\xA0\x80\x24\x80\x04\x02\x30\x80\x04\x02\
\x00\x00\x00\x00\x00\x00\x00\x00\x00\x00";

const NO_CONTENTS_OCTETS: &[u8] = b"\x30\x80\x00\x00";

const NO_CONTENTS_DER: &[u8] =
    b"\x30\x16\x02\x01\x03\x30\x11\x06\x09\x2A\x86\x48\x86\xF7\x0D\x01\x07\x01\xA0\x04\x04\x02\x30\x00";

/// A file with one content, data without bags, whose octets are BER too.
const ONE_CONTENT: &[u8] =
    b"\x30\x80\x02\x01\x03\x30\x80\x06\x09\x2A\x86\x48\x86\xF7\x0D\x01\x07\x01\xA0\x80\x24\x80\x04\x10\x30\x80\x30\x80\
\x06\x09\x2A\x86\x48\x86\xF7\x0D\x01\x07\x01\xA0\x04\x10\x80\x24\x80\x04\x02\x30\x80\x04\x02\x00\x00\x00\x00\x00\x00\x00\
\x04\x03\x00\x00\x00\x00\x00\x00\x00\x00\x00\x00\x00";

const ONE_CONTENT_OCTETS: &[u8] =
    b"\x30\x80\x30\x80\x06\x09\x2A\x86\x48\x86\xF7\x0D\x01\x07\x01\xA0\x80\x24\x80\x04\x02\x30\x80\x04\x02\x00\x00\
\x00\x00\x00\x00\x00\x00\x00\x00";

const ONE_CONTENT_DER: &[u8] =
    b"\x30\x29\x02\x01\x03\x30\x24\x06\x09\x2A\x86\x48\x86\xF7\x0D\x01\x07\x01\xA0\x17\x04\x15\x30\x13\x30\x11\x06\x09\
\x2A\x86\x48\x86\xF7\x0D\x01\x07\x01\xA0\x04\x04\x02\x30\x00";

/// A PFX whose authSafe is of the type 1.2.3, without a content.
const OTHER: &[u8] = b"\x30\x09\x02\x01\x03\x30\x04\x06\x02\x2A\x03";

/// The same with NULL as its content.
const OTHER_CONTENT: &[u8] = b"\x30\x0D\x02\x01\x03\x30\x08\x06\x02\x2A\x03\xA0\x02\x05\x00";

#[test]
fn the_octets_are_those_of_the_file(rt: HostRuntime) -> Result<(), Fail> {
    covers(rt.alloc(), NO_CONTENTS, NO_CONTENTS_OCTETS)?;
    covers(rt.alloc(), ONE_CONTENT, ONE_CONTENT_OCTETS)
}

/// Asks that these are the octets of the file that a MAC would cover.
fn covers(alloc: Global, file: &[u8], octets: &[u8]) -> Result<(), Fail> {
    match read_ber_pfx::<RawAuthenticatedSafeDataRepr>(alloc, file) {
        Ok((read, _)) => expect(read.mac_octets() == Some(octets), "other octets"),
        Err(_) => Err(Fail::new("it is refused")),
    }
}

#[test]
fn the_octets_are_in_the_der(rt: HostRuntime) -> Result<(), Fail> {
    for (file, ends) in [
        (NO_CONTENTS, Some((22, 26))),
        (ONE_CONTENT, Some((22, 57))),
        (OTHER_CONTENT, None),
    ] {
        let der = to_der(rt.alloc(), file)?;
        let range = ber_mac_range(rt.alloc(), &der)?;
        let found = range.map(|range| (range.start, range.end));
        expect(found == ends, "another range")?;
    }
    Ok(())
}

#[test]
fn the_contents_are_read_of_their_der(rt: HostRuntime) -> Result<(), Fail> {
    for (file, der) in [
        (NO_CONTENTS, NO_CONTENTS_DER),
        (ONE_CONTENT, ONE_CONTENT_DER),
        (NO_CONTENTS_DER, NO_CONTENTS_DER),
        (OTHER, OTHER),
    ] {
        is_read_of(rt.alloc(), file, der)?;
    }
    Ok(())
}

/// Asks that what is read of the file is written as this DER.
fn is_read_of(alloc: Global, file: &[u8], der: &[u8]) -> Result<(), Fail> {
    match read_ber_pfx::<RawAuthenticatedSafeDataRepr>(alloc, file) {
        Ok((_, read)) => has_text(alloc, &read, der),
        Err(_) => Err(Fail::new("it is refused")),
    }
}

fn has_text<T: DerSerialize>(alloc: Global, value: &T, text: &[u8]) -> Result<(), Fail> {
    expect(to_vec(alloc, value)?.as_slice() == text, "another text")
}

#[test]
fn places_say_in_which_bytes(rt: HostRuntime) -> Result<(), Fail> {
    for (file, error, place) in [
        (
            b"\x30\x80\x00".as_slice(),
            Error::Malformed,
            BufferOffset::File(2),
        ),
        (
            b"\x05\x00".as_slice(),
            Error::Invalid,
            BufferOffset::FileDer(0),
        ),
    ] {
        let refused = read_ber_pfx::<RawAuthenticatedSafeDataRepr>(rt.alloc(), file).err();
        expect(refused == Some((error, place)), "another place")?;
    }
    Ok(())
}

#[test]
fn each_alternative_is_cloned(rt: HostRuntime) -> Result<(), Fail> {
    for (file, refused) in [
        (NO_CONTENTS_DER, NoMac::NoMacData),
        (OTHER, NoMac::NoData),
        (OTHER_CONTENT, NoMac::NoData),
    ] {
        let pfx: BerPfx = from_bytes(rt.alloc(), file)?;
        expect(pfx.mac_input().err() == Some(refused), "another MAC")?;
        is_cloned(rt.alloc(), &pfx, file)?;
    }
    Ok(())
}

/// Asks for the clone of a file, and that it is written as the file is.
fn is_cloned(alloc: Global, pfx: &BerPfx, text: &[u8]) -> Result<(), Fail> {
    let copy = pfx.try_clone(alloc)?;
    expect(copy.auth_safe == pfx.auth_safe, "another content")?;
    has_text(alloc, &copy, text)
}
