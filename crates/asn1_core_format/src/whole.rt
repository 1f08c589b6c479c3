//! Whole inputs and whole encodings.

ghost use Rattle.std.specs.Prelude.{◌≡◌, ◌<◌, ◌≤◌, ℕ, false, length, IfOk};
ghost use Rattle.asn1_core_format.specs.Format.{IsLawful};
ghost use Rattle.asn1_core_format.specs.Whole.{AnswersInput, LocatesInput, HeadersOfInput, Written, IsRewriting};
ghost use Rattle.asn1_core_writers.specs.Sinks.{Emits};

use crate::traits::{DerDeserialize, DerSerialize, MAX_NESTING};
use asn1_core_element::{Error, Reader};
use asn1_core_streams::Sink;
use asn1_core_writers::WriteError;
use std::alloc::Global;

/// The value of the whole input, with at most `MAX_NESTING` levels of nesting.
pub fn from_bytes<T: DerDeserialize>(alloc: Global, bytes: &[u8]) -> Result<T, Error>
    ensures { AnswersInput T.value T.format 64 bytes.now result }
{
    from_bytes_limited(alloc, MAX_NESTING, bytes)
}

/// The value of the whole input, with at most `limit` levels of nesting. Whatever is read at one limit is read as the
/// same value at every larger one.
pub fn from_bytes_limited<T: DerDeserialize>(
    alloc: Global,
    limit: u8,
    bytes: &[u8],
) -> Result<T, Error>
    requires { limit ≤ 64 }
    ensures { AnswersInput T.value T.format limit bytes.now result }
{
    whole(alloc, limit, &mut Reader::new(bytes))
}

/// The value of the whole input, and how many headers were read, on both outcomes.
pub fn from_bytes_counted<T: DerDeserialize>(
    alloc: Global,
    bytes: &[u8],
) -> (Result<T, Error>, usize)
    ensures answer { AnswersInput T.value T.format 64 bytes.now result.0 }
    ensures headers { HeadersOfInput T.value T.format 64 bytes.now result.0 result.1 }
{
    let mut r = Reader::new(bytes);
    let outcome = whole(alloc, MAX_NESTING, &mut r);
    (outcome, r.headers_read())
}

/// The value of the whole input, with at most `MAX_NESTING` levels of nesting, or why it has none and the place where it
/// was refused: an offset in the input, counted from 0.
///
/// - `Malformed`: where an element should begin and none does, or where the bytes begin that are left over.
/// - `Missing`: the end of the contents, or of the input, in which an element is missing.
/// - `Invalid`: where the header begins that was read last: that of the element whose tag or contents are refused. Of an
///   element that holds too few or too many others, as a set of one value that has two, it is the header of the last of
///   them that was read, which may be right itself.
/// - `TooDeep`: where the element begins that is nested too deep.
/// - `Memory`: how far the input was read.
///
/// Proved is that the place is at most the input's length.
pub fn from_bytes_located<T: DerDeserialize>(
    alloc: Global,
    bytes: &[u8],
) -> Result<T, (Error, usize)>
    ensures { LocatesInput T.value T.format 64 bytes.now result }
{
    from_bytes_located_limited(alloc, MAX_NESTING, bytes)
}

/// As `from_bytes_located`, with at most `limit` levels of nesting.
pub fn from_bytes_located_limited<T: DerDeserialize>(
    alloc: Global,
    limit: u8,
    bytes: &[u8],
) -> Result<T, (Error, usize)>
    requires { limit ≤ 64 }
    ensures { LocatesInput T.value T.format limit bytes.now result }
{
    let mut r = Reader::new(bytes);
    match whole(alloc, limit, &mut r) {
        Ok(value) => Ok(value),
        Err(error) => Err((error, place_of(bytes, &r, error))),
    }
}

/// Where in an input its reader was when it refused. Readers promise nothing of their position then, so the difference
/// ends at 0.
fn place_of(input: &[u8], r: &Reader<'_>, error: Error) -> usize
    ensures { result ≤ length input.now }
{
    let from_there = match error {
        Error::Invalid => r.from_header(),
        _ => r.unread(),
    };
    input.len().saturating_sub(from_there)
}

fn whole<T: DerDeserialize>(alloc: Global, limit: u8, r: &mut Reader<'_>) -> Result<T, Error>
    requires sound { r.old.refused ≡ false }
    requires start { r.old.headers ≡ 0 }
    ensures answer { AnswersInput T.value T.format limit r.old.left result }
    ensures headers { HeadersOfInput T.value T.format limit r.old.left result r.new.headers }
{
    let value = T::read(alloc, r, limit)?;
    if r.left() > 0 {
        return Err(Error::Malformed);
    }
    Ok(value)
}

/// The encoding of a value, of an ill-formed one too. Refuses by `TooLong` or `Memory` alone.
pub fn to_vec<T: DerSerialize>(alloc: Global, value: &T) -> Result<Vec<u8>, Error>
    ensures text { Written (λ v. v.items) (T.format.text (T.value value.now)) result }
    ensures rewriting { IsLawful T.format → (k : ℕ) → IfOk result (λ v. IsRewriting T.format k (T.value value.now) v.items) }
{
    let mut out = Vec::new(alloc);
    value.write(alloc, &mut out)?;
    Ok(out)
}

/// Sends the encoding of a value to a sink, of an ill-formed one too. Takes no memory. One that is too long is not begun.
pub fn write_to<T: DerSerialize, W: Sink>(value: &T, w: &mut W) -> Result<(), WriteError>
    requires { W.failed w.old < u64.MAX }
    ensures { Emits (T.format.text (T.value value.now)) w.old w.new (W.received w.old) (W.received w.new) (W.failed w.old) (W.failed w.new) result }
{
    value.emit(w)
}
