//! Where the parts of signers are in a file. The places are those that `openssl asn1parse` shows, or are counted in files
//! by hand.

use crate::raw_signers::signed_file;
use signer_ranges::{Refusal, SignedRanges, SignerRanges, Signers, signer_ranges};
use std::alloc::Global;
use std::test::Fail;
use vector_checks::checks::expect;
use x509_containers::Error;

/// Signers in a file, which isn't refused.
fn found_in(alloc: Global, file: &[u8], first: usize, most: usize) -> Result<Signers, Fail> {
    match signer_ranges(alloc, file, first, most) {
        Ok(signers) => Ok(signers),
        Err(_) => Err(Fail::new("it is refused")),
    }
}

/// The first signer, who is named by a key.
fn first_signer() -> SignerRanges {
    SignerRanges {
        signed: Some(SignedRanges {
            attributes: 673..780,
            message_digest: 748..780,
        }),
        content: Some(58..70),
        digest_algorithm: 660..673,
        signature_algorithm: 780..792,
        signature: 794..865,
        certificate: Some(74..359),
    }
}

/// The second one, of version 1, with the same digest.
fn second_signer() -> SignerRanges {
    SignerRanges {
        signed: Some(SignedRanges {
            attributes: 903..1010,
            message_digest: 978..1010,
        }),
        content: Some(58..70),
        digest_algorithm: 890..903,
        signature_algorithm: 1010..1022,
        signature: 1024..1096,
        certificate: Some(359..645),
    }
}

#[test]
fn both(rt: HostRuntime) -> Result<(), Fail> {
    let signers = found_in(rt.alloc(), signed_file(), 0, 3)?;
    expect(signers.count == 2, "another number of signers")?;
    match signers.found.as_slice() {
        [Some(first), Some(second)] => {
            expect(*first == first_signer(), "the first is elsewhere")?;
            expect(*second == second_signer(), "the second is elsewhere")
        }
        _ => Err(Fail::new("other signers")),
    }
}

/// From the second on, and past the last.
#[test]
fn some_of_them(rt: HostRuntime) -> Result<(), Fail> {
    let signers = found_in(rt.alloc(), signed_file(), 1, 1)?;
    expect(signers.count == 2, "another number of signers")?;
    match signers.found.as_slice() {
        [Some(second)] => expect(*second == second_signer(), "the second is elsewhere")?,
        _ => return Err(Fail::new("other signers")),
    }
    for (first, most) in [(2, 1), (usize::MAX, usize::MAX), (0, 0)] {
        let signers = found_in(rt.alloc(), signed_file(), first, most)?;
        expect(signers.count == 2, "another number of signers")?;
        expect(signers.found.is_empty(), "signers where there are none")?;
    }
    Ok(())
}

/// The file's last byte is missing, and it has one more.
#[test]
fn refused(rt: HostRuntime) -> Result<(), Fail> {
    let Some(cut) = signed_file().get(..1095) else {
        return Err(Fail::new("the file is short"));
    };
    let refused = signer_ranges(rt.alloc(), cut, 0, 1).err();
    expect(
        refused == Some(Refusal::Refused(Error::Malformed, 0)),
        "not refused",
    )?;
    let refused = signer_ranges(rt.alloc(), b"\x30\x00", 0, 1).err();
    expect(
        refused == Some(Refusal::Refused(Error::Missing, 2)),
        "not refused",
    )
}

/// One element around the others, which have less than 128 bytes.
fn element(alloc: Global, tag: u8, contents: &[&[u8]]) -> Result<Vec<u8>, Error> {
    let mut octets = Vec::new(alloc);
    for part in contents {
        octets.extend_from_slice(part)?;
    }
    let Ok(len) = u8::try_from(octets.len()) else {
        return Err(Error::TooLong);
    };
    let mut whole = Vec::new(alloc);
    whole.push(tag)?;
    whole.push(len)?;
    whole.extend_from_slice(&octets)?;
    Ok(whole)
}

/// `id-data`, and a type of one's own.
const DATA: &[u8] = b"\x06\x09\x2A\x86\x48\x86\xF7\x0D\x01\x07\x01";

const FOREIGN: &[u8] = b"\x06\x03\x2A\x03\x04";

/// A detached signature over content of a type without certificates, by a signer with these signed attributes. Those
/// begin at the place 46 where the type is of one's own.
fn file_with(alloc: Global, content_type: &[u8], attributes: &[u8]) -> Result<Vec<u8>, Error> {
    let algorithm: &[u8] = b"\x30\x05\x06\x03\x2A\x03\x04";
    let head: &[u8] = b"\x02\x01\x03\x80\x01\x07";
    let signer = element(
        alloc,
        0x30,
        &[head, algorithm, attributes, algorithm, b"\x04\x01\x09"],
    )?;
    let signers = element(alloc, 0x31, &[signer.as_slice()])?;
    let info = element(alloc, 0x30, &[content_type])?;
    let head: &[u8] = b"\x02\x01\x01\x31\x00";
    let signed = element(alloc, 0x30, &[head, info.as_slice(), signers.as_slice()])?;
    let content = element(alloc, 0xA0, &[signed.as_slice()])?;
    let oid: &[u8] = b"\x06\x09\x2A\x86\x48\x86\xF7\x0D\x01\x07\x02";
    element(alloc, 0x30, &[oid, content.as_slice()])
}

/// Without attributes the signature covers the content, which is elsewhere.
#[test]
fn detached(rt: HostRuntime) -> Result<(), Fail> {
    let file = file_with(rt.alloc(), DATA, b"")?;
    let signers = found_in(rt.alloc(), &file, 0, 1)?;
    let wanted = SignerRanges {
        signed: None,
        content: None,
        digest_algorithm: 45..52,
        signature_algorithm: 52..59,
        signature: 61..62,
        certificate: None,
    };
    match signers.found.as_slice() {
        [Some(found)] => expect(*found == wanted, "it is elsewhere"),
        _ => Err(Fail::new("other signers")),
    }
}

/// contentType, with the content's type
const TYPE: &[u8] =
    b"\x30\x12\x06\x09\x2A\x86\x48\x86\xF7\x0D\x01\x09\x03\x31\x05\x06\x03\x2A\x03\x04";

/// messageDigest
const DIGEST: &[u8] = b"\x30\x10\x06\x09\x2A\x86\x48\x86\xF7\x0D\x01\x09\x04\x31\x03\x04\x01\x07";

/// An attribute of another type, with the same digest.
const OTHER: &[u8] = b"\x30\x0A\x06\x03\x2A\x03\x05\x31\x03\x04\x01\x07";

/// The digest is that of messageDigest, and not an equal one before it.
#[test]
fn equal_octets(rt: HostRuntime) -> Result<(), Fail> {
    let attributes = element(rt.alloc(), 0xA0, &[OTHER, TYPE, DIGEST])?;
    let file = file_with(rt.alloc(), FOREIGN, &attributes)?;
    let signers = found_in(rt.alloc(), &file, 0, 1)?;
    match signers.found.as_slice() {
        [Some(found)] => {
            let wanted = Some(SignedRanges {
                attributes: 46..98,
                message_digest: 97..98,
            });
            expect(found.signed == wanted, "it is elsewhere")
        }
        _ => Err(Fail::new("other signers")),
    }
}

/// Attributes, or their absence, that RFC 5652 forbids over content of a type.
fn is_broken_over(alloc: Global, content_type: &[u8], attributes: &[u8]) -> Result<(), Fail> {
    let file = file_with(alloc, content_type, attributes)?;
    let signers = found_in(alloc, &file, 0, 1)?;
    match signers.found.as_slice() {
        [None] => Ok(()),
        _ => Err(Fail::new("not refused")),
    }
}

fn is_broken(alloc: Global, attributes: &[&[u8]]) -> Result<(), Fail> {
    let attributes = element(alloc, 0xA0, attributes)?;
    is_broken_over(alloc, FOREIGN, &attributes)
}

/// An empty set over data, and none over other content.
#[test]
fn absent(rt: HostRuntime) -> Result<(), Fail> {
    is_broken_over(rt.alloc(), DATA, b"\xA0\x00")?;
    is_broken_over(rt.alloc(), FOREIGN, b"")
}

#[test]
fn broken(rt: HostRuntime) -> Result<(), Fail> {
    let alloc = rt.alloc();
    // an empty set
    is_broken(alloc, &[])?;
    // one of the two is missing
    is_broken(alloc, &[TYPE])?;
    is_broken(alloc, &[DIGEST])?;
    is_broken(alloc, &[OTHER])?;
    // twice
    is_broken(alloc, &[TYPE, DIGEST, DIGEST])?;
    is_broken(alloc, &[TYPE, TYPE, DIGEST])?;
    // no value, two, and one of another type
    is_broken(
        alloc,
        &[
            TYPE,
            b"\x30\x0D\x06\x09\x2A\x86\x48\x86\xF7\x0D\x01\x09\x04\x31\x00",
        ],
    )?;
    is_broken(
        alloc,
        &[
            TYPE,
            b"\x30\x11\x06\x09\x2A\x86\x48\x86\xF7\x0D\x01\x09\x04\x31\x04\x04\x00\x04\x00",
        ],
    )?;
    is_broken(
        alloc,
        &[
            TYPE,
            b"\x30\x0F\x06\x09\x2A\x86\x48\x86\xF7\x0D\x01\x09\x04\x31\x02\x05\x00",
        ],
    )?;
    // another content's type, and no type
    is_broken(
        alloc,
        &[
            DIGEST,
            b"\x30\x12\x06\x09\x2A\x86\x48\x86\xF7\x0D\x01\x09\x03\x31\x05\x06\x03\x2A\x03\x05",
        ],
    )?;
    is_broken(
        alloc,
        &[
            DIGEST,
            b"\x30\x0D\x06\x09\x2A\x86\x48\x86\xF7\x0D\x01\x09\x03\x31\x00",
        ],
    )
}
