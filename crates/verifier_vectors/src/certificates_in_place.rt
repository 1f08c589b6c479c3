//! Where the parts of certificates are. The places are those that `openssl asn1parse` shows.

use crate::raw_signers::signed_file;
use certificate_ranges::{CertificateRanges, KeyRanges, Refusal, certificate_ranges};
use std::alloc::Global;
use std::test::Fail;
use vector_checks::checks::expect;
use x509_containers::Error;

/// A certificate of openssl (`openssl req -x509`), with a key on the curve P-256. Issuer and subject are equal.
fn certificate() -> &'static [u8] {
    b"\
    \x30\x82\x01\x17\x30\x81\xBF\xA0\x03\x02\x01\x02\x02\x01\x02\x30\x0A\x06\x08\x2A\x86\x48\xCE\x3D\x04\
    \x03\x02\x30\x0C\x31\x0A\x30\x08\x06\x03\x55\x04\x03\x0C\x01\x41\x30\x20\x17\x0D\x32\x36\x31\x31\x32\
    \x36\x30\x34\x32\x31\x34\x39\x5A\x18\x0F\x32\x31\x32\x36\x31\x31\x30\x32\x30\x34\x32\x31\x34\x39\x5A\
    \x30\x0C\x31\x0A\x30\x08\x06\x03\x55\x04\x03\x0C\x01\x41\x30\x59\x30\x13\x06\x07\x2A\x86\x48\xCE\x3D\
    \x02\x01\x06\x08\x2A\x86\x48\xCE\x3D\x03\x01\x07\x03\x42\x00\x04\xDE\x40\xCC\xF7\xE1\xAE\xDC\x2C\xC8\
    \x6B\xD1\x6E\x4A\x86\xED\x2D\x3C\x08\x04\x86\xD2\xC7\x2C\xF0\x39\x99\xFB\xA1\x0B\x13\x4D\xCD\xED\x68\
    \xF0\x9D\xED\x90\xF9\x0D\xF2\x89\x01\x87\xBC\x2D\xBE\xD0\xF4\xA5\xDC\xA3\x55\x5D\x89\x4C\xAA\x95\xA4\
    \x3B\x4B\x21\x09\x37\xA3\x10\x30\x0E\x30\x0C\x06\x03\x55\x1D\x0E\x04\x05\x04\x03\x06\x07\x08\x30\x0A\
    \x06\x08\x2A\x86\x48\xCE\x3D\x04\x03\x02\x03\x47\x00\x30\x44\x02\x20\x31\x51\x29\x28\x76\x75\x54\xEE\
    \x44\xED\x00\x38\xDD\x85\x25\xF8\x2C\x88\x50\x65\xBC\xFE\xA9\x2A\xA2\x7C\x66\x1C\x9A\x07\xA8\x87\x02\
    \x20\x3A\xB8\x2B\x45\x74\xCF\xA2\x70\xEC\x84\x04\xBC\x97\x31\x30\x61\xEB\xCB\x58\x63\xAB\xBC\x9F\xE1\
    \x2E\xFF\x81\x89\x4C\x76\xD8\xCC"
}

/// By hand: issuer and subject are equal, so are validity and key, which are no times and no key, and what is under `[3]`
/// are no extensions. No version, but an issuerUniqueID.
fn plain() -> &'static [u8] {
    b"\
    \x30\x23\x30\x18\x02\x01\x07\x30\x04\x06\x02\x2A\x03\x30\x00\x05\x00\x30\x00\x05\x00\x81\x01\x00\xA3\
    \x02\x05\x00\x30\x04\x06\x02\x2A\x03\x03\x01\x00"
}

/// By hand: no parameters, two elements under `[3]`, and in the first of them two identifiers, the first after an explicit
/// FALSE.
fn twice() -> &'static [u8] {
    b"\
    \x30\x54\x30\x49\x02\x01\x07\x30\x04\x06\x02\x2A\x03\x30\x00\x30\x00\x30\x00\x30\x0A\x30\x04\x06\x02\
    \x2A\x03\x03\x02\x00\x07\x81\x01\x00\xA3\x25\x30\x23\x30\x06\x06\x02\x2A\x03\x04\x00\x30\x0D\x06\x03\
    \x55\x1D\x0E\x01\x01\x00\x04\x03\x04\x01\x07\x30\x0A\x06\x03\x55\x1D\x0E\x04\x03\x04\x01\x08\xA3\x02\
    \x30\x00\x30\x04\x06\x02\x2A\x03\x03\x01\x00"
}

/// By hand: parameters, a key with four unused bits, and an identifier that is no OCTET STRING.
fn wrong() -> &'static [u8] {
    b"\
    \x30\x3B\x30\x30\xA0\x03\x02\x01\x02\x02\x01\x07\x30\x04\x06\x02\x2A\x03\x30\x00\x30\x00\x30\x00\x30\
    \x0C\x30\x06\x06\x02\x2A\x03\x05\x00\x03\x02\x04\xF0\xA3\x0C\x30\x0A\x30\x08\x06\x03\x55\x1D\x0E\x04\
    \x01\x07\x30\x04\x06\x02\x2A\x03\x03\x01\x00"
}

/// The parts of a certificate are there.
fn are_at(alloc: Global, input: &[u8], wanted: &CertificateRanges) -> Result<(), Fail> {
    match certificate_ranges(alloc, input) {
        Ok(found) => expect(found == *wanted, "they are elsewhere"),
        Err(_) => Err(Fail::new("it is refused")),
    }
}

#[test]
fn parts_of_a_certificate(rt: HostRuntime) -> Result<(), Fail> {
    let wanted = CertificateRanges {
        serial_number: 14..15,
        issuer: 27..41,
        validity: 41..75,
        subject: 75..89,
        subject_public_key_info: 89..180,
        key: Some(KeyRanges {
            algorithm: 95..102,
            parameters: Some(102..112),
            public_key: 115..180,
        }),
        extensions: Some(182..198),
        key_identifier: Some(195..198),
    };
    are_at(rt.alloc(), certificate(), &wanted)
}

#[test]
fn parts_that_are_no_key_and_no_extensions(rt: HostRuntime) -> Result<(), Fail> {
    let wanted = CertificateRanges {
        serial_number: 6..7,
        issuer: 13..15,
        validity: 15..17,
        subject: 17..19,
        subject_public_key_info: 19..21,
        key: None,
        extensions: Some(26..28),
        key_identifier: None,
    };
    are_at(rt.alloc(), plain(), &wanted)
}

#[test]
fn the_first_of_two(rt: HostRuntime) -> Result<(), Fail> {
    let wanted = CertificateRanges {
        serial_number: 6..7,
        issuer: 13..15,
        validity: 15..17,
        subject: 17..19,
        subject_public_key_info: 19..31,
        key: Some(KeyRanges {
            algorithm: 25..27,
            parameters: None,
            public_key: 30..31,
        }),
        extensions: Some(36..73),
        key_identifier: Some(60..61),
    };
    are_at(rt.alloc(), twice(), &wanted)
}

#[test]
fn an_identifier_that_is_none(rt: HostRuntime) -> Result<(), Fail> {
    let wanted = CertificateRanges {
        serial_number: 11..12,
        issuer: 18..20,
        validity: 20..22,
        subject: 22..24,
        subject_public_key_info: 24..38,
        key: Some(KeyRanges {
            algorithm: 30..32,
            parameters: Some(32..34),
            public_key: 37..38,
        }),
        extensions: Some(40..52),
        key_identifier: None,
    };
    are_at(rt.alloc(), wrong(), &wanted)
}

/// Signed data, nothing, and a certificate whose last octet is missing.
#[test]
fn what_is_no_certificate(rt: HostRuntime) -> Result<(), Fail> {
    let alloc = rt.alloc();
    let refused = certificate_ranges(alloc, signed_file()).err();
    expect(
        refused == Some(Refusal::Refused(Error::Invalid, 4)),
        "not refused",
    )?;
    let refused = certificate_ranges(alloc, b"").err();
    expect(
        refused == Some(Refusal::Refused(Error::Missing, 0)),
        "not refused",
    )?;
    let Some(cut) = certificate().get(..282) else {
        return Err(Fail::new("the certificate is short"));
    };
    let refused = certificate_ranges(alloc, cut).err();
    expect(
        refused == Some(Refusal::Refused(Error::Malformed, 0)),
        "not refused",
    )
}
