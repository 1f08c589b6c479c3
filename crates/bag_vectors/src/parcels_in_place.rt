//! Where parts of a parcel are. The offsets are those that `openssl asn1parse` shows.

use asn1_located::{Place, Step, range_at, walk};
use example_places::{data_of_stamp, note};
use std::ops::Range;
use std::test::Fail;
use vector_checks::checks::expect;

/// Of 1.2.3, fragile, with the note "now" and two stamps, of AA BB and of 01 02 03.
const PARCEL: &[u8] =
    b"\x30\x28\x06\x02\x2A\x03\x01\x01\xFF\xBE\x05\x04\x03now\xA5\x18\x30\x08\x06\x02\x2A\x03\x04\x02\xAA\xBB\x30\x0C\x06\x02\x2A\x03\x04\x03\x01\x02\x03\x02\x01\x07";

fn is_at(place: Option<Place<'_>>, start: usize, octets: &[u8]) -> Result<(), Fail> {
    let Some(place) = place else {
        return Err(Fail::new("there is no place"));
    };
    expect(place.start == start, "it begins elsewhere")?;
    expect(place.octets == octets, "it has other octets")
}

#[test]
fn parts_of_a_parcel(_rt: HostRuntime) -> Result<(), Fail> {
    is_at(note(PARCEL), 13, b"now")?;
    is_at(data_of_stamp(PARCEL, 0), 26, b"\xAA\xBB")?;
    is_at(data_of_stamp(PARCEL, 1), 36, b"\x01\x02\x03")?;
    expect(data_of_stamp(PARCEL, 2).is_none(), "a third stamp")
}

#[test]
fn each_step(_rt: HostRuntime) -> Result<(), Fail> {
    let inside: &[u8] = b"\x04\x02\x30\x00\x05\x00";
    is_at(walk(7, inside, &[]), 7, inside)?;
    is_at(walk(7, inside, &[Step::Inside]), 9, b"\x30\x00")?;
    is_at(walk(7, inside, &[Step::Element]), 7, b"\x04\x02\x30\x00")?;
    is_at(walk(7, inside, &[Step::After]), 11, b"\x05\x00")?;
    is_at(walk(7, inside, &[Step::Past(0x04)]), 11, b"\x05\x00")?;
    is_at(walk(7, inside, &[Step::Past(0x05)]), 7, inside)?;
    is_at(walk(7, inside, &[Step::Nth(2)]), 13, b"")?;
    expect(
        walk(7, inside, &[Step::Nth(3)]).is_none(),
        "a third element",
    )?;
    expect(
        walk(7, inside, &[Step::Nth(2), Step::Element]).is_none(),
        "an element of nothing",
    )
}

/// The octets of a range, or nowhere.
fn found(input: &[u8], steps: &[Step], wanted: Option<Range<usize>>) -> Result<(), Fail> {
    expect(range_at(input, steps) == wanted, "another range")
}

/// Two components with equal octets, an empty one, and one that is cut short.
#[test]
fn equal_octets(_rt: HostRuntime) -> Result<(), Fail> {
    let twice: &[u8] = b"\x30\x08\x04\x01\x07\x04\x01\x07\x04\x00";
    found(twice, &[Step::Inside, Step::Inside], Some(4..5))?;
    found(
        twice,
        &[Step::Inside, Step::After, Step::Inside],
        Some(7..8),
    )?;
    found(
        twice,
        &[Step::Inside, Step::Nth(2), Step::Inside],
        Some(10..10),
    )?;
    found(b"\x30\x02\x04\x01", &[Step::Inside, Step::Inside], None)
}
