//! Parts of signed data, as octets. Where they are in the files is what `openssl asn1parse` shows.

use crate::parts::found;
use container_parts::{SignedPart, SignerPart, signed_part};
use std::alloc::Global;
use std::test::Fail;
use vector_checks::checks::expect;

/// Signed data with an empty SEQUENCE as certificate, and two signers: the first has the key identifier 4B, the second
/// an empty issuer, the serial number 7 and a signed attribute. The content is elsewhere.
pub(crate) const SIGNED: &[u8] = b"\
    \x30\x72\x06\x09\x2A\x86\x48\x86\xF7\x0D\x01\x07\x02\xA0\x65\x30\x63\x02\x01\x01\x31\x00\x30\x0B\x06\
    \x09\x2A\x86\x48\x86\xF7\x0D\x01\x07\x01\xA0\x02\x30\x00\x31\x4B\x30\x1B\x02\x01\x01\x80\x01\x4B\x30\
    \x07\x06\x05\x2B\x0E\x03\x02\x1A\x30\x07\x06\x05\x2B\x0E\x03\x02\x1A\x04\x01\x51\x30\x2C\x02\x01\x01\
    \x30\x05\x30\x00\x02\x01\x07\x30\x07\x06\x05\x2B\x0E\x03\x02\x1A\xA0\x0B\x30\x09\x06\x03\x2A\x03\x04\
    \x31\x02\x05\x00\x30\x07\x06\x05\x2B\x0E\x03\x02\x1A\x04\x01\x52";

/// `id-sha1`, and as algorithm identifier.
pub(crate) const SHA_1: &[u8] = b"\x2B\x0E\x03\x02\x1A";

const BY_SHA_1: &[u8] = b"\x30\x07\x06\x05\x2B\x0E\x03\x02\x1A";

/// The signed attribute under the tag of a SET OF.
const ATTRIBUTES: &[u8] = b"\x31\x0B\x30\x09\x06\x03\x2A\x03\x04\x31\x02\x05\x00";

/// A part of a signer, and what it is of the first and of the second.
type OfSigners = (SignerPart, Option<&'static [u8]>, Option<&'static [u8]>);

const OF_SIGNERS: [OfSigners; 7] = [
    (SignerPart::SignedAttributes, None, Some(ATTRIBUTES)),
    (SignerPart::Issuer, None, Some(b"\x30\x00")),
    (SignerPart::SerialNumber, None, Some(b"\x07")),
    (SignerPart::KeyIdentifier, Some(b"\x4B"), None),
    (SignerPart::DigestAlgorithm, Some(SHA_1), Some(SHA_1)),
    (
        SignerPart::SignatureAlgorithm,
        Some(BY_SHA_1),
        Some(BY_SHA_1),
    ),
    (SignerPart::Signature, Some(b"\x51"), Some(b"\x52")),
];

fn has_part(
    alloc: Global,
    file: &[u8],
    part: SignedPart,
    index: usize,
    wanted: Option<&[u8]>,
) -> Result<(), Fail> {
    let given = found(signed_part(alloc, part, index, file))?;
    expect(given.as_deref() == wanted, "another part of signed data")
}

#[test]
fn of_signers(rt: HostRuntime) -> Result<(), Fail> {
    let alloc = rt.alloc();
    for (part, first, second) in OF_SIGNERS {
        has_part(alloc, SIGNED, SignedPart::OfSigner(part), 0, first)?;
        has_part(alloc, SIGNED, SignedPart::OfSigner(part), 1, second)?;
        has_part(alloc, SIGNED, SignedPart::OfSigner(part), 2, None)?;
    }
    Ok(())
}

/// The word hashed, by `openssl cms -sign -nodetach`.
const ATTACHED: &[u8] = b"\
    \x30\x81\xAE\x06\x09\x2A\x86\x48\x86\xF7\x0D\x01\x07\x02\xA0\x81\xA0\x30\x81\x9D\x02\x01\x01\x31\x09\
    \x30\x07\x06\x05\x2B\x0E\x03\x02\x1A\x30\x15\x06\x09\x2A\x86\x48\x86\xF7\x0D\x01\x07\x01\xA0\x08\x04\
    \x06\x68\x61\x73\x68\x65\x64\x31\x76\x30\x74\x02\x01\x01\x30\x11\x30\x0C\x31\x0A\x30\x08\x06\x03\x55\
    \x04\x03\x0C\x01\x54\x02\x01\x07\x30\x07\x06\x05\x2B\x0E\x03\x02\x1A\x30\x09\x06\x07\x2A\x86\x48\xCE\
    \x3D\x04\x01\x04\x48\x30\x46\x02\x21\x00\xAC\x68\xC9\xD3\x0A\xB6\x10\x57\xF2\x2B\x3D\x17\x17\x45\x85\
    \x6A\xBB\x9C\x3A\xAA\xFF\xDA\x94\x66\x52\x0D\x81\x76\xA7\x7C\x15\x5C\x02\x21\x00\xD4\xD3\xB5\x36\x04\
    \x8F\x49\x92\x88\xB9\xCD\x53\xFE\xFF\x1B\x03\x7A\x00\xE9\x5D\x45\x09\x8A\xEA\x66\x19\x79\xD6\xCA\x09\
    \x0F\x6D";

#[test]
fn of_signed_data(rt: HostRuntime) -> Result<(), Fail> {
    let alloc = rt.alloc();
    has_part(alloc, SIGNED, SignedPart::Certificate, 0, Some(b"\x30\x00"))?;
    has_part(alloc, SIGNED, SignedPart::Certificate, 1, None)?;
    has_part(alloc, SIGNED, SignedPart::HashedContent, 0, None)?;
    has_part(
        alloc,
        ATTACHED,
        SignedPart::HashedContent,
        0,
        Some(b"hashed"),
    )?;
    has_part(
        alloc,
        ATTACHED,
        SignedPart::HashedContent,
        1,
        Some(b"hashed"),
    )?;
    has_part(alloc, ATTACHED, SignedPart::Certificate, 0, None)
}

/// A SEQUENCE of the INTEGER 5 as content of the type 1.2.3.4; a signer of version 3 with the key identifier 4B 4C, and
/// one of version 1 with the serial number 9.
const VERSION_3: &[u8] = b"\
    \x30\x63\x06\x09\x2A\x86\x48\x86\xF7\x0D\x01\x07\x02\xA0\x56\x30\x54\x02\x01\x03\x31\x00\x30\x0C\x06\
    \x03\x2A\x03\x04\xA0\x05\x30\x03\x02\x01\x05\x31\x3F\x30\x1C\x02\x01\x03\x80\x02\x4B\x4C\x30\x07\x06\
    \x05\x2B\x0E\x03\x02\x1A\x30\x07\x06\x05\x2B\x0E\x03\x02\x1A\x04\x01\x54\x30\x1F\x02\x01\x01\x30\x05\
    \x30\x00\x02\x01\x09\x30\x07\x06\x05\x2B\x0E\x03\x02\x1A\x30\x07\x06\x05\x2B\x0E\x03\x02\x1A\x04\x01\
    \x53";

const OF_VERSIONS: [OfSigners; 4] = [
    (SignerPart::KeyIdentifier, Some(b"\x4B\x4C"), None),
    (SignerPart::Issuer, None, Some(b"\x30\x00")),
    (SignerPart::SerialNumber, None, Some(b"\x09")),
    (SignerPart::Signature, Some(b"\x54"), Some(b"\x53")),
];

#[test]
fn of_every_version(rt: HostRuntime) -> Result<(), Fail> {
    let alloc = rt.alloc();
    for (part, first, second) in OF_VERSIONS {
        has_part(alloc, VERSION_3, SignedPart::OfSigner(part), 0, first)?;
        has_part(alloc, VERSION_3, SignedPart::OfSigner(part), 1, second)?;
    }
    let content: &[u8] = b"\x02\x01\x05";
    has_part(
        alloc,
        VERSION_3,
        SignedPart::HashedContent,
        0,
        Some(content),
    )
}
