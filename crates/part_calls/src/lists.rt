//! Where an input has all items of a part, or a signer's attributes, in one reading, for callers in C.

ghost use Rattle.std.specs.Prelude.{◌≡◌, ◌≢◌, MatchOption};
ghost use Rattle.part_calls.specs.Lists.{number_of, set_of, ListsAttributes, ListsRanges};

use call_values::outputs::{put_found, put_some};
use call_values::ranges::Octets;
use call_values::status;
use part_ranges::{
    AttributeSet, EnvelopePart, attribute_ranges, certificate_ranges, envelope_ranges,
};
use std::alloc::Global;

/// `DER_PART_CERTIFICATE` of der.h.
const CERTIFICATES: usize = 1;

/// The part of enveloped data with that number in der.h.
#[tactic(auto, using(crate::proofs::Listed::no_envelope_part))]
fn envelope_part(number: usize) -> Option<EnvelopePart>
    ensures { MatchOption result ((part : EnvelopePart) → number ≢ number_of part) (λ part. number ≡ number_of part) }
{
    match number {
        16 => Some(EnvelopePart::Recipients),
        17 => Some(EnvelopePart::EncryptionAlgorithm),
        18 => Some(EnvelopePart::EncryptedContent),
        _ => None,
    }
}

/// Writes where the input has each item of the part with that number to the front of `out`: of the certificates of
/// signed data, or of the recipients, the algorithm or the octets of enveloped data. At `NORMAL` `count` is how many
/// items there are, at `NO_ROOM`, where `out` has room for fewer, too, and otherwise 0. At `UNKNOWN_KIND` the items of
/// the part with that number aren't listed, or no part has it. From `MALFORMED` to `TOO_DEEP` the input isn't what has
/// the part, and `place` is where; at `NO_MEMORY` it is an offset without use, and otherwise 0. `NO_RANGE` is never
/// answered. Unless at `NORMAL` `out` is as it was.
pub fn der_part_ranges(
    alloc: Global,
    number: usize,
    input: &[u8],
    out: &mut [Octets],
    count: &mut usize,
    place: &mut usize,
) -> u32
    ensures { ListsRanges number input.now out.old out.new count.new place.new result }
{
    *count = 0;
    *place = 0;
    if number == CERTIFICATES {
        return put_found(certificate_ranges(alloc, input), out, count, place);
    }
    let Some(part) = envelope_part(number) else {
        return status::UNKNOWN_KIND;
    };
    put_found(envelope_ranges(alloc, part, input), out, count, place)
}

fn set_of(signed: usize) -> AttributeSet
    ensures { result ≡ set_of signed }
{
    match signed {
        0 => AttributeSet::Unsigned,
        _ => AttributeSet::Signed,
    }
}

/// Writes where the input has each attribute of the signer with that index to the front of `out`: each unsigned one
/// where `signed` is 0, otherwise each signed one. At `NO_PART` there are fewer signers. Any other status is as of
/// `der_part_ranges`, but never `UNKNOWN_KIND`.
pub fn der_attribute_ranges(
    alloc: Global,
    signed: usize,
    index: usize,
    input: &[u8],
    out: &mut [Octets],
    count: &mut usize,
    place: &mut usize,
) -> u32
    ensures { ListsAttributes signed index input.now out.old out.new count.new place.new result }
{
    let found = attribute_ranges(alloc, set_of(signed), index, input);
    put_some(found, out, count, place)
}
