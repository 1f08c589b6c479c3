//! What Authenticode signs: an image's, as osslsigncode writes it, and parts that may be left out, by hand.

use asn1_core::{Error, from_bytes};
use indirect_writers::{
    ImageData, IndirectData, PE_IMAGE, is_bits, write_image_data, write_indirect_data,
};
use std::alloc::Global;
use std::test::Fail;
use vector_checks::checks::expect;
use x509_base::AlgorithmIdentifier;

/// SHA-256, with NULL.
const SHA256: &[u8] = b"\x30\x0D\x06\x09\x60\x86\x48\x01\x65\x03\x04\x02\x01\x05\x00";

/// A link to a file, of the name that means that there is none.
const LINK: &[u8] = b"\
    \xA2\x1E\x80\x1C\x00\x3C\x00\x3C\x00\x3C\x00\x4F\x00\x62\x00\x73\x00\x6F\x00\x6C\x00\x65\x00\x74\x00\
    \x65\x00\x3E\x00\x3E\x00\x3E";

const DIGEST: &[u8] = b"\
    \x56\xE7\x0E\x93\xA7\x16\x09\xBF\x69\x26\x2A\xDF\xF6\x19\x07\x57\x3A\x19\x54\x41\xE1\x66\x86\x54\x76\
    \x88\x63\x0E\xE8\xD1\xA8\x10";

/// The image data of the signed image.
const IMAGE: &[u8] = b"\
    \x30\x26\x03\x02\x07\x80\xA0\x20\xA2\x1E\x80\x1C\x00\x3C\x00\x3C\x00\x3C\x00\x4F\x00\x62\x00\x73\x00\
    \x6F\x00\x6C\x00\x65\x00\x74\x00\x65\x00\x3E\x00\x3E\x00\x3E";

/// All of it.
const INDIRECT: &[u8] = b"\
    \x30\x69\x30\x34\x06\x0A\x2B\x06\x01\x04\x01\x82\x37\x02\x01\x0F\x30\x26\x03\x02\x07\x80\xA0\x20\xA2\
    \x1E\x80\x1C\x00\x3C\x00\x3C\x00\x3C\x00\x4F\x00\x62\x00\x73\x00\x6F\x00\x6C\x00\x65\x00\x74\x00\x65\
    \x00\x3E\x00\x3E\x00\x3E\x30\x31\x30\x0D\x06\x09\x60\x86\x48\x01\x65\x03\x04\x02\x01\x05\x00\x04\x20\
    \x56\xE7\x0E\x93\xA7\x16\x09\xBF\x69\x26\x2A\xDF\xF6\x19\x07\x57\x3A\x19\x54\x41\xE1\x66\x86\x54\x76\
    \x88\x63\x0E\xE8\xD1\xA8\x10";

fn sha256(alloc: Global) -> Result<AlgorithmIdentifier, Fail> {
    match from_bytes(alloc, SHA256) {
        Ok(algorithm) => Ok(algorithm),
        Err(_) => Err(Fail::new("the algorithm is refused")),
    }
}

fn image_is(
    alloc: Global,
    flags: Option<&[u8]>,
    link: Option<&[u8]>,
    wanted: &[u8],
) -> Result<(), Fail> {
    match write_image_data(alloc, &ImageData { flags, link }) {
        Ok(text) => expect(text.as_slice() == wanted, "it is written otherwise"),
        Err(_) => Err(Fail::new("it is refused")),
    }
}

fn outcome(
    alloc: Global,
    attribute_type: &[u8],
    attribute_value: Option<&[u8]>,
    digest: &[u8],
) -> Result<Result<Vec<u8>, Error>, Fail> {
    let digest_algorithm = sha256(alloc)?;
    Ok(write_indirect_data(
        alloc,
        &IndirectData {
            attribute_type,
            attribute_value,
            digest_algorithm: &digest_algorithm,
            digest,
        },
    ))
}

fn is_written(outcome: &Result<Vec<u8>, Error>, wanted: &[u8]) -> Result<(), Fail> {
    match outcome {
        Ok(text) => expect(text.as_slice() == wanted, "it is written otherwise"),
        Err(_) => Err(Fail::new("it is refused")),
    }
}

fn is_refused(outcome: &Result<Vec<u8>, Error>) -> Result<(), Fail> {
    match outcome {
        Err(Error::Invalid) => Ok(()),
        _ => Err(Fail::new("it isn't refused as invalid")),
    }
}

#[test]
fn images(rt: HostRuntime) -> Result<(), Fail> {
    let alloc = rt.alloc();
    image_is(alloc, Some(b"\x07\x80"), Some(LINK), IMAGE)?;
    image_is(alloc, Some(b"\x00"), None, b"\x30\x03\x03\x01\x00")?;
    image_is(alloc, None, Some(b"\x05\x00"), b"\x30\x04\xA0\x02\x05\x00")?;
    image_is(alloc, None, None, b"\x30\x00")
}

#[test]
fn an_image_that_is_signed(rt: HostRuntime) -> Result<(), Fail> {
    let written = outcome(rt.alloc(), &PE_IMAGE, Some(IMAGE), DIGEST)?;
    is_written(&written, INDIRECT)
}

#[test]
fn another_type_without_a_value(rt: HostRuntime) -> Result<(), Fail> {
    let written = outcome(rt.alloc(), b"\x2A\x03", None, b"")?;
    is_written(
        &written,
        b"\x30\x19\x30\x04\x06\x02\x2A\x03\x30\x11\x30\x0D\x06\x09\x60\x86\x48\x01\x65\x03\x04\x02\x01\x05\x00\x04\x00",
    )
}

#[test]
fn bits(_rt: HostRuntime) -> Result<(), Fail> {
    for octets in [
        b"\x00".as_slice(),
        b"\x00\x80",
        b"\x07\xFF",
        b"\x05\x80\x00",
    ] {
        expect(is_bits(octets), "they aren't those of a BIT STRING")?;
    }
    for octets in [b"".as_slice(), b"\x01", b"\x08\x00", b"\xFF\x00"] {
        expect(!is_bits(octets), "they are those of a BIT STRING")?;
    }
    Ok(())
}

#[test]
fn refused(rt: HostRuntime) -> Result<(), Fail> {
    let alloc = rt.alloc();
    for flags in [b"".as_slice(), b"\x01", b"\x08\x00"] {
        let image = ImageData {
            flags: Some(flags),
            link: None,
        };
        is_refused(&write_image_data(alloc, &image))?;
    }
    for octets in [b"".as_slice(), b"\x30", b"\x30\x01", b"\x30\x00\x00"] {
        let image = ImageData {
            flags: None,
            link: Some(octets),
        };
        is_refused(&write_image_data(alloc, &image))?;
        is_refused(&outcome(alloc, &PE_IMAGE, Some(octets), DIGEST)?)?;
    }
    for octets in [b"".as_slice(), b"\x80\x03", b"\x2A\x80"] {
        is_refused(&outcome(alloc, octets, Some(IMAGE), DIGEST)?)?;
    }
    Ok(())
}
