//! Parts of any container and of MACs, as octets, and where a file is refused.

use crate::signed_parts::{SHA_1, SIGNED};
use crate::store_parts::{CERTIFICATE, KEYS};
use container_parts::{
    ContainerPart, MacPart, Refusal, SignedPart, SignerPart, StorePart, container_part,
    mac_iterations, mac_part,
};
use std::alloc::Global;
use std::test::Fail;
use vector_checks::checks::expect;
use x509_containers::Error;

/// What isn't refused.
pub(crate) fn found<T: Drop>(answer: Result<T, Refusal>) -> Result<T, Fail> {
    match answer {
        Ok(found) => Ok(found),
        Err(_) => Err(Fail::new("it is refused")),
    }
}

/// A file is refused so.
pub(crate) fn is_refused(
    alloc: Global,
    part: ContainerPart,
    file: &[u8],
    wanted: Refusal,
) -> Result<(), Fail> {
    match container_part(alloc, part, 0, file) {
        Ok(_) => Err(Fail::new("not refused")),
        Err(refusal) => expect(refusal == wanted, "refused otherwise"),
    }
}

/// A MAC by SHA-1 with the digest AA BB, the salt 5A and 2048 iterations.
const WITH_MAC: &[u8] = b"\
    \x30\x30\x02\x01\x03\x30\x11\x06\x09\x2A\x86\x48\x86\xF7\x0D\x01\x07\x01\xA0\x04\x04\x02\x30\x00\x30\
    \x18\x30\x0F\x30\x09\x06\x05\x2B\x0E\x03\x02\x1A\x05\x00\x04\x02\xAA\xBB\x04\x01\x5A\x02\x02\x08\x00";

#[test]
fn of_macs(rt: HostRuntime) -> Result<(), Fail> {
    let parts: [(MacPart, &[u8]); 3] = [
        (MacPart::DigestAlgorithm, SHA_1),
        (MacPart::Digest, b"\xAA\xBB"),
        (MacPart::Salt, b"\x5A"),
    ];
    for (part, octets) in parts {
        let given = found(mac_part(rt.alloc(), part, WITH_MAC))?;
        expect(given.as_deref() == Some(octets), "another part of a MAC")?;
        let given = found(mac_part(rt.alloc(), part, KEYS))?;
        expect(given.is_none(), "a part of no MAC")?;
    }
    Ok(())
}

#[test]
fn iterations(rt: HostRuntime) -> Result<(), Fail> {
    assert_eq!(rt; found(mac_iterations(rt.alloc(), WITH_MAC))?, Some(2048));
    assert_eq!(rt; found(mac_iterations(rt.alloc(), KEYS))?, None);
    let refused = mac_iterations(rt.alloc(), SIGNED).err();
    assert_eq!(rt; refused, Some(Refusal::Refused(Error::Invalid, 2)));
    Ok(())
}

/// A part of any container, with an index, the file and the octets.
type PartOfContainer = (ContainerPart, usize, &'static [u8], &'static [u8]);

const OF_CONTAINERS: [PartOfContainer; 4] = [
    (
        ContainerPart::Signed(SignedPart::Certificate),
        0,
        SIGNED,
        b"\x30\x00",
    ),
    (
        ContainerPart::Signed(SignedPart::OfSigner(SignerPart::Signature)),
        1,
        SIGNED,
        b"\x52",
    ),
    (
        ContainerPart::Store(StorePart::Certificate),
        0,
        CERTIFICATE,
        b"\x43",
    ),
    (ContainerPart::Mac(MacPart::Salt), 3, WITH_MAC, b"\x5A"),
];

#[test]
fn of_containers(rt: HostRuntime) -> Result<(), Fail> {
    for (part, index, file, octets) in OF_CONTAINERS {
        let given = found(container_part(rt.alloc(), part, index, file))?;
        expect(
            given.as_deref() == Some(octets),
            "another part of a container",
        )?;
    }
    Ok(())
}

/// The order of their numbers in `der.h`, which begin at 0.
#[test]
fn all_parts(rt: HostRuntime) -> Result<(), Fail> {
    let parts = ContainerPart::all();
    assert_eq!(rt; parts.len(), 16);
    for (number, part) in [
        (0, ContainerPart::Signed(SignedPart::HashedContent)),
        (
            8,
            ContainerPart::Signed(SignedPart::OfSigner(SignerPart::Signature)),
        ),
        (9, ContainerPart::Store(StorePart::Certificate)),
        (15, ContainerPart::Mac(MacPart::Salt)),
    ] {
        expect(parts.get(number) == Some(&part), "another order")?;
    }
    Ok(())
}

/// The first component is the first that is of another type, and the last octet is missing.
#[test]
fn of_other_files(rt: HostRuntime) -> Result<(), Fail> {
    let alloc = rt.alloc();
    let certificate = ContainerPart::Signed(SignedPart::Certificate);
    is_refused(
        alloc,
        certificate,
        KEYS,
        Refusal::Refused(Error::Invalid, 4),
    )?;
    let key = ContainerPart::Store(StorePart::Key);
    is_refused(alloc, key, SIGNED, Refusal::Refused(Error::Invalid, 2))?;
    let salt = ContainerPart::Mac(MacPart::Salt);
    is_refused(alloc, salt, SIGNED, Refusal::Refused(Error::Invalid, 2))?;
    let cut = SIGNED.get(..115).ok_or("no octets")?;
    is_refused(
        alloc,
        certificate,
        cut,
        Refusal::Refused(Error::Malformed, 0),
    )
}
