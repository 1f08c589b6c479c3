//! Where inputs are refused, as an offset from 0.

use asn1_core::{
    Asn1SequenceOf, Error, ExplicitContextTag0, FixedVersion, from_bytes_located,
    from_bytes_located_limited,
};
use asn1_core_format::OneLevelDown;
use std::alloc::Global;
use std::test::Fail;

/// `SEQUENCE OF [0] EXPLICIT INTEGER (3)`, of which one item is `A0 03 02 01 03`.
type Versions = Asn1SequenceOf<ExplicitContextTag0<FixedVersion<3>>>;

/// An input without a value, why it is refused, and where.
type Refused = (&'static [u8], Error, usize);

/// Elements that are none (X.690, 8.1): a header that is cut short, an indefinite length, of the value and inside of it, a
/// tag of several bytes, and lengths past the end of the input and of the contents. The place is where the header begins.
const NO_ELEMENTS: [Refused; 7] = [
    (b"\x30", Error::Malformed, 0),
    (b"\x30\x06\xA0\x03\x02\x01\x03\xA0", Error::Malformed, 7),
    (b"\x30\x80\xA0\x03\x02\x01\x03\x00\x00", Error::Malformed, 0),
    (b"\x30\x06\xA0\x04\x22\x80\x00\x00", Error::Malformed, 4),
    (b"\x30\x05\xBF\x03\x02\x01\x03", Error::Malformed, 2),
    (b"\x30\x06\xA0\x03\x02\x01\x03", Error::Malformed, 0),
    (b"\x30\x05\xA0\x04\x02\x01\x03\x00", Error::Malformed, 2),
];

/// No byte where an element is required: of the input, and of contents in the middle and at the end.
const MISSING: [Refused; 3] = [
    (b"", Error::Missing, 0),
    (b"\x30\x07\xA0\x00\xA0\x03\x02\x01\x03", Error::Missing, 4),
    (b"\x30\x07\xA0\x03\x02\x01\x03\xA0\x00", Error::Missing, 9),
];

/// Bytes that are left over, after the value and inside of it.
const LEFT_OVER: [Refused; 2] = [
    (b"\x30\x05\xA0\x03\x02\x01\x03\x05\x00", Error::Malformed, 7),
    (
        b"\x30\x0C\xA0\x05\x02\x01\x03\x05\x00\xA0\x03\x02\x01\x03",
        Error::Malformed,
        7,
    ),
];

/// A tag that can't stand there, at each depth, and versions that aren't 3. The place is where the header begins.
const INVALID: [Refused; 5] = [
    (b"\x31\x05\xA0\x03\x02\x01\x03", Error::Invalid, 0),
    (
        b"\x30\x0A\xA0\x03\x02\x01\x03\xA1\x03\x02\x01\x03",
        Error::Invalid,
        7,
    ),
    (
        b"\x30\x0A\xA0\x03\x02\x01\x03\xA0\x03\x04\x01\x03",
        Error::Invalid,
        9,
    ),
    (
        b"\x30\x0A\xA0\x03\x02\x01\x02\xA0\x03\x02\x01\x03",
        Error::Invalid,
        4,
    ),
    (
        b"\x30\x0B\xA0\x03\x02\x01\x03\xA0\x04\x02\x02\x00\x03",
        Error::Invalid,
        9,
    ),
];

fn is_refused(alloc: Global, input: &[u8], why: Option<(Error, usize)>) -> Result<(), Fail> {
    let refused = from_bytes_located::<Versions>(alloc, input).err();
    if refused == why {
        return Ok(());
    }
    Err(Fail::new(format_args!("it is refused by {refused:?}: {input:?}")))
}

#[test]
fn refusals_have_places(rt: HostRuntime) -> Result<(), Fail> {
    for rows in [&NO_ELEMENTS[..], &MISSING, &LEFT_OVER, &INVALID] {
        for (input, error, place) in rows {
            is_refused(rt.alloc(), input, Some((*error, *place)))?;
        }
    }
    Ok(())
}

/// An item that is one level too deep: the place is where it begins.
#[test]
fn levels_have_places(rt: HostRuntime) -> Result<(), Fail> {
    type Deep = Asn1SequenceOf<OneLevelDown<FixedVersion<3>>>;
    let input = b"\x30\x03\x02\x01\x03";
    for (limit, refused) in [(0, Some((Error::TooDeep, 2))), (1, None)] {
        let outcome = from_bytes_located_limited::<Deep>(rt.alloc(), limit, input);
        assert_eq!(rt; outcome.err(), refused, "{limit}");
    }
    Ok(())
}
