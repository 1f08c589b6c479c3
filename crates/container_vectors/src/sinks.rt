//! Values that are sent into sinks that take one byte a call, or all of them, and fail at each call in turn.

use asn1_core::{DerDeserialize, from_bytes};
use std::alloc::Global;
use std::test::Fail;
use vector_checks::checks::is_sent;
use x509_containers::{ParsedAuthenticatedSafeDataRepr, Pfx, RawPfx, SignedData, SpcPeImageData};

/// Asks that the value of the input is sent as this encoding.
fn is_sent_as<T: DerDeserialize>(alloc: Global, input: &[u8], text: &[u8]) -> Result<(), Fail> {
    let value: T = from_bytes(alloc, input)?;
    is_sent(alloc, &value, text, 1)?;
    is_sent(alloc, &value, text, usize::MAX)
}

/// A PFX whose data is an empty SEQUENCE.
const EMPTY_PFX: &[u8] = b"\
    \x30\x16\x02\x01\x03\x30\x11\x06\x09\x2A\x86\x48\x86\xF7\x0D\x01\x07\x01\xA0\x04\x04\x02\x30\x00";

#[test]
fn files(rt: HostRuntime) -> Result<(), Fail> {
    is_sent_as::<Pfx<ParsedAuthenticatedSafeDataRepr>>(rt.alloc(), EMPTY_PFX, EMPTY_PFX)?;
    is_sent_as::<RawPfx>(rt.alloc(), EMPTY_PFX, EMPTY_PFX)
}

/// Signed data of nobody: without certificates, with an empty set of them, and with no revocation lists.
const SIGNED: &[u8] = b"\
    \x30\x14\x02\x01\x01\x31\x00\x30\x0B\x06\x09\x2A\x86\x48\x86\xF7\x0D\x01\x07\x01\x31\x00";

const NO_CERTIFICATES: &[u8] = b"\
    \x30\x16\x02\x01\x01\x31\x00\x30\x0B\x06\x09\x2A\x86\x48\x86\xF7\x0D\x01\x07\x01\xA0\x00\x31\x00";

const NO_LISTS: &[u8] = b"\
    \x30\x16\x02\x01\x01\x31\x00\x30\x0B\x06\x09\x2A\x86\x48\x86\xF7\x0D\x01\x07\x01\xA1\x00\x31\x00";

#[test]
fn signed_data(rt: HostRuntime) -> Result<(), Fail> {
    is_sent_as::<SignedData>(rt.alloc(), SIGNED, SIGNED)?;
    is_sent_as::<SignedData>(rt.alloc(), NO_CERTIFICATES, SIGNED)?;
    is_sent_as::<SignedData>(rt.alloc(), NO_LISTS, NO_LISTS)
}

/// An image with default flags, as they are read and as they are written, and with no flags.
const DEFAULT_FLAGS: &[u8] = b"\x30\x06\xA0\x04\xA2\x02\x80\x00";

const WRITTEN_FLAGS: &[u8] = b"\x30\x0A\x03\x02\x05\x80\xA0\x04\xA2\x02\x80\x00";

const NO_FLAGS: &[u8] = b"\x30\x09\x03\x01\x00\xA0\x04\xA2\x02\x80\x00";

#[test]
fn images(rt: HostRuntime) -> Result<(), Fail> {
    is_sent_as::<SpcPeImageData>(rt.alloc(), DEFAULT_FLAGS, WRITTEN_FLAGS)?;
    is_sent_as::<SpcPeImageData>(rt.alloc(), NO_FLAGS, NO_FLAGS)
}
