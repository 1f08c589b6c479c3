//! What the encoding of an input's value is, over bytes in memory.

ghost use Rattle.std.specs.Prelude.{◌≤◌};
ghost use Rattle.der_engine.specs.Engine.{rewriting_at, rewriting_of};
ghost use Rattle.der_engine.specs.Steps.{Checks, RewritesAfter};
ghost use Rattle.der_engine.specs.Verdicts.{FindsEnd, Locates};

use crate::verdict::{Verdict, check_of, end_of};
use asn1_core_element::Error;
use asn1_core_format::{
    DerDeserialize, MAX_NESTING, from_bytes_limited, from_bytes_located_limited,
};
use asn1_core_writers::Compare;
use std::alloc::Global;

/// What an input of a type is, with at most `limit` levels of nesting, or why and where it is refused: the places are
/// those of `from_bytes_located`. An encoding that is too long, `TooLong`, has the place 0. The encoding of the value is
/// made for that alone, and compared with the input piece by piece.
pub fn check_located_as<T: DerDeserialize>(
    alloc: Global,
    limit: u8,
    input: &[u8],
) -> Result<Verdict, (Error, usize)>
    requires { limit ≤ 64 }
    ensures { Locates (rewriting_at T.format limit) input.now result }
{
    let value: T = from_bytes_located_limited(alloc, limit, input)?;
    let mut w = Compare::new(input);
    match value.put(&mut w) {
        Ok(()) if w.is_same() => Ok(Verdict {
            loose_end: None,
            encoding_len: w.total(),
        }),
        Ok(()) => Ok(Verdict {
            loose_end: Some(w.place()),
            encoding_len: w.total(),
        }),
        Err(_) => Err((Error::TooLong, 0)),
    }
}

/// Where an input of a type is loose; `None` where it is normal. The input from the place on is what the encoding of its
/// value ends in too, and no longer end is, so that the last difference is right before the place, in the input or in
/// the encoding. Refuses as `check_as` does.
pub fn loose_end_as<T: DerDeserialize>(alloc: Global, input: &[u8]) -> Result<Option<usize>, Error>
    ensures { FindsEnd (rewriting_of T.format) input.now result }
{
    end_of(check_located_as::<T>(alloc, MAX_NESTING, input))
}

/// Whether an input of a type is normal, and how many bytes its encoding has. That is made for this alone, and compared
/// with the input piece by piece. Refuses as `from_bytes` does, and by `TooLong`.
pub fn check_as<T: DerDeserialize>(alloc: Global, input: &[u8]) -> Result<(bool, usize), Error>
    ensures { Checks (rewriting_of T.format) input.now result }
{
    check_as_limited::<T>(alloc, MAX_NESTING, input)
}

/// What `check_as` says, with at most `limit` levels of nesting: an input with more is refused by `TooDeep`. What is
/// accepted at one limit gets the same answer at every larger one.
pub fn check_as_limited<T: DerDeserialize>(
    alloc: Global,
    limit: u8,
    input: &[u8],
) -> Result<(bool, usize), Error>
    requires { limit ≤ 64 }
    ensures { Checks (rewriting_at T.format limit) input.now result }
{
    check_of(check_located_as::<T>(alloc, limit, input))
}

/// Appends the encoding of the value of an input of a type. A refusal leaves what the vector holds as it was.
pub fn rewrite_as<T: DerDeserialize>(
    alloc: Global,
    input: &[u8],
    out: &mut Vec<u8>,
) -> Result<(), Error>
    ensures { RewritesAfter (rewriting_of T.format) input.now out.old.items out.new.items result }
{
    rewrite_as_limited::<T>(alloc, MAX_NESTING, input, out)
}

/// What `rewrite_as` does, with at most `limit` levels of nesting: an input with more is refused by `TooDeep`.
pub fn rewrite_as_limited<T: DerDeserialize>(
    alloc: Global,
    limit: u8,
    input: &[u8],
    out: &mut Vec<u8>,
) -> Result<(), Error>
    requires { limit ≤ 64 }
    ensures { RewritesAfter (rewriting_at T.format limit) input.now out.old.items out.new.items result }
{
    let value = from_bytes_limited::<T>(alloc, limit, input)?;
    value.write(alloc, out)
}
