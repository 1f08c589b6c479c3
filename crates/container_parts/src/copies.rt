//! Files that are read, and octets that are copied out of them.

ghost use Rattle.std.specs.Prelude.{◌≡◌, ◌≤◌, length, MatchResult, Some};
ghost use Rattle.asn1_core.specs.Der.{option_value, IsValueOf};
ghost use Rattle.container_parts.specs.Copies.{Copies};
ghost use Rattle.container_parts.specs.Inputs.{with_refusal};
ghost use Rattle.input_ranges.specs.Failures.{IsRefusalOf};

use asn1_core::{DerDeserialize, DerSerialize, Error, from_bytes_located, to_vec};
use input_ranges::Refusal;
use std::alloc::Global;

/// The value of an input, with the refusals of `from_bytes_located`.
pub fn read_file<T: DerDeserialize>(alloc: Global, input: &[u8]) -> Result<T, Refusal>
    ensures { MatchResult result
        (λ file. IsValueOf T.format 64 input.now (T.value file))
        (λ refusal. IsRefusalOf T.format input.now ⊥ refusal) }
{
    match from_bytes_located(alloc, input) {
        Ok(file) => Ok(file),
        Err((error, place)) => Err(Refusal::Refused(error, place)),
    }
}

/// What was copied out of a file, or why nothing was, which is said of no place in it.
pub fn of_file(found: Result<Option<Vec<u8>>, Error>) -> Result<Option<Vec<u8>>, Refusal>
    ensures { result ≡ with_refusal found }
{
    match found {
        Ok(octets) => Ok(octets),
        Err(error) => Err(Refusal::Refused(error, 0)),
    }
}

/// A copy of octets, where there are any. Refuses by `Memory` alone.
pub(crate) fn copy(alloc: Global, octets: Option<&[u8]>) -> Result<Option<Vec<u8>>, Error>
    ensures { Copies (option_value (λ o. o.now) octets.entry) result }
{
    match octets {
        Some(octets) => Ok(Some(Vec::from_slice(alloc, octets)?)),
        None => Ok(None),
    }
}

/// The encoding of a value. Refuses by `TooLong` or `Memory` alone.
pub(crate) fn encoding<T: DerSerialize>(alloc: Global, value: &T) -> Result<Option<Vec<u8>>, Error>
    ensures { Copies (Some (T.format.text (T.value value.now))) result }
{
    Ok(Some(to_vec(alloc, value)?))
}
