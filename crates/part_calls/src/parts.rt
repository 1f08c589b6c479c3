//! Parts of containers, as octets, for callers in C.

ghost use Rattle.std.specs.Prelude.{◌≤◌, length, MatchOption};
ghost use Rattle.container_parts.specs.Parts.{parts};
ghost use Rattle.part_calls.specs.Parts.{CopiesPart, IsPartAt};
ghost use Rattle.call_values.specs.Statuses.{PutsSome};

use call_values::outputs::{place_of, put_octets, status_of_refusal};
use call_values::status;
use container_parts::{ContainerPart, container_part};
use input_ranges::Refusal;
use std::alloc::Global;

pub fn part_at(number: usize) -> Option<ContainerPart>
    ensures { MatchOption result (length parts ≤ number) (λ part. IsPartAt number part) }
{
    match ContainerPart::all().get(number) {
        Some(part) => Some(*part),
        None => None,
    }
}

/// Writes the octets of a part that was found, or says why there are none.
fn put_part(
    found: Result<Option<Vec<u8>>, Refusal>,
    out: &mut [u8],
    written: &mut usize,
    place: &mut usize,
) -> u32
    ensures { PutsSome (λ octets. octets.items) found out.old out.new written.new place.new result }
{
    *written = 0;
    *place = 0;
    match found {
        Ok(Some(octets)) => put_octets(&octets, out, written),
        Ok(None) => status::NO_PART,
        Err(refusal) => {
            *place = place_of(refusal);
            status_of_refusal(refusal)
        }
    }
}

/// Writes the part with that number and index to the front of `out`, as octets. At `NORMAL` `written` is their count,
/// at `NO_ROOM`, where `out` is too short, the count that it needs, and otherwise 0. At `UNKNOWN_KIND` no part has the
/// number, and at `NO_PART` the container has no such part. From `MALFORMED` to `TOO_DEEP` the input is no container
/// that has it, and `place` is where; at `NO_MEMORY` it is an offset without use, and otherwise 0. At `TOO_LONG` the
/// part is too long. `NO_RANGE` is never answered. Unless at `NORMAL` `out` is as it was.
pub fn der_part_octets(
    alloc: Global,
    number: usize,
    index: usize,
    input: &[u8],
    out: &mut [u8],
    written: &mut usize,
    place: &mut usize,
) -> u32
    ensures { CopiesPart number index input.now out.old out.new written.new place.new result }
{
    *written = 0;
    *place = 0;
    let Some(part) = part_at(number) else {
        return status::UNKNOWN_KIND;
    };
    put_part(
        container_part(alloc, part, index, input),
        out,
        written,
        place,
    )
}
