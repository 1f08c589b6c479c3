//! Conversions by the calls that `ber_trial` doesn't make, with ample memory, of the example of X.690, 8.7.3 and 10.2, a
//! string in segments.

use asn1_core::{Error, OctetStringAsn1};
use ber_der::{from_ber, to_der, to_der_limited};
use std::test::Fail;
use vector_checks::checks::expect;

const SEGMENTS: &[u8] = b"\x24\x80\x04\x02AB\x04\x01C\x00\x00";

const STRING: &[u8] = b"\x04\x03ABC";

#[test]
fn levels_are_limited(rt: HostRuntime) -> Result<(), Fail> {
    for (limit, refused) in [(0, Some(Error::TooDeep)), (1, None)] {
        let outcome = to_der_limited(rt.alloc(), limit, SEGMENTS);
        expect(outcome.err() == refused, "another limit")?;
    }
    Ok(())
}

#[test]
fn segments_are_joined(rt: HostRuntime) -> Result<(), Fail> {
    let der = to_der(rt.alloc(), SEGMENTS)?;
    expect(der.as_slice() == STRING, "another string")
}

#[test]
fn values_are_read(rt: HostRuntime) -> Result<(), Fail> {
    for input in [SEGMENTS, STRING] {
        let string: OctetStringAsn1 = from_ber(rt.alloc(), input)?;
        expect(string.0.as_slice() == b"ABC".as_slice(), "another string")?;
    }
    Ok(())
}

/// Where BER has no DER, and where its DER has no value.
#[test]
fn values_are_refused(rt: HostRuntime) -> Result<(), Fail> {
    for (input, error) in [
        (b"\x24\x80\x04\x01A".as_slice(), Error::Missing),
        (b"\x30\x80\x00\x00".as_slice(), Error::Invalid),
    ] {
        let refused = from_ber::<OctetStringAsn1>(rt.alloc(), input).err();
        expect(refused == Some(error), "another refusal")?;
    }
    Ok(())
}
