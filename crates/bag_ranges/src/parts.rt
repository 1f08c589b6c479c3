//! Reading a part of a store.

ghost use Rattle.std.specs.Prelude.{◌≢◌, MatchResult};
ghost use Rattle.asn1_core.specs.Der.{IsValueOf};
ghost use Rattle.asn1_core_element.specs.declared.error.Error.TheVariants.{Memory};
ghost use Rattle.bag_ranges.specs.Failures.{HasNone};
ghost use Rattle.input_ranges.specs.declared.ranges.Refusal.TheVariants.{Refused};

use asn1_core::{DerDeserialize, Error, from_bytes_located};
use input_ranges::Refusal;
use std::alloc::Global;

/// The refusal of a part that was read from `start` on, and refused `place` octets later.
pub(crate) fn refused(error: Error, start: usize, place: usize) -> Refusal
    ensures { (result ≢ Refused Memory 0) → error ≢ Memory }
{
    match error {
        Error::Memory => Refusal::Refused(Error::Memory, 0),
        _ => Refusal::Part(error, start.saturating_add(place)),
    }
}

/// The value of some octets, which begin there in the input.
#[tactic(auto, using(crate::proofs::Failures::not_read))]
pub(crate) fn read_at<T: DerDeserialize>(
    alloc: Global,
    octets: &[u8],
    start: usize,
) -> Result<T, Refusal>
    ensures { MatchResult result
        (λ x. IsValueOf T.format 64 octets.now (T.value x))
        (λ e. HasNone (T.format.Reads 64 octets.now) e) }
{
    match from_bytes_located::<T>(alloc, octets) {
        Ok(value) => Ok(value),
        Err((error, place)) => Err(refused(error, start, place)),
    }
}
