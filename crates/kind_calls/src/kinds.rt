//! Checks and rewritings of inputs of all kinds, and conversions of BER to DER, for callers in C.

ghost use Rattle.std.specs.Prelude.{◌≤◌, length, MatchOption};
ghost use Rattle.x509_containers.specs.Kinds.{kinds};
ghost use Rattle.kind_calls.specs.Kinds.{ChecksWord, IsKindAt, NamesKind, RewritesWord};
ghost use Rattle.kind_calls.specs.Conversions.{ConvertsBer};

use ber_der::to_der_located;
use call_values::outputs::{place_where, put_octets};
use call_values::status;
use call_values::status::status_of;
use std::alloc::Global;
use x509_containers::{Kind, KindOfInput, MAX_NESTING, check_located, rewrite_limited};

fn kind_at(index: usize) -> Option<Kind>
    ensures { MatchOption result (length kinds ≤ index) (λ kind. IsKindAt index kind) }
{
    match Kind::all().get(index) {
        Some(kind) => Some(*kind),
        None => None,
    }
}

/// Checks the input as the kind that the word names, with at most `limit` levels of nesting; a limit above 64 counts as
/// 64. `NORMAL` where it is normal, `LOOSE` where it is loose, `UNKNOWN_KIND` where the word is no kind's, `MALFORMED`
/// to `TOO_DEEP` where it isn't in the grammar or has more levels, `TOO_LONG` where its encoding is too long,
/// `NO_MEMORY` for want of memory. At the first two `normal_len` is the length of its encoding, and otherwise 0.
/// `place` is at `LOOSE` where the end begins that the input and its encoding have in common, from `MALFORMED` to
/// `TOO_DEEP` where the input is refused, at `NO_MEMORY` an offset without use, and otherwise 0.
pub fn der_check_word_limited(
    alloc: Global,
    word: &[u8],
    limit: u8,
    input: &[u8],
    normal_len: &mut usize,
    place: &mut usize,
) -> u32
    ensures { ChecksWord word.now limit input.now normal_len.new place.new result }
{
    *normal_len = 0;
    *place = 0;
    let Some(kind) = Kind::from_octets(word) else {
        return status::UNKNOWN_KIND;
    };
    match check_located(alloc, kind, limit.min(MAX_NESTING), input) {
        Ok(verdict) => {
            *normal_len = verdict.encoding_len;
            let Some(end) = verdict.loose_end else {
                return status::NORMAL;
            };
            *place = end;
            status::LOOSE
        }
        Err((error, at)) => {
            *place = at;
            status_of(error)
        }
    }
}

/// Writes the normal encoding of the input to the front of `out`. At `NORMAL` `written` is its length, at `NO_ROOM`,
/// where `out` is too short, the length that it needs, and otherwise 0. Any other status is as of
/// `der_check_word_limited`, and `out` is as it was.
pub fn der_rewrite_word_limited(
    alloc: Global,
    word: &[u8],
    limit: u8,
    input: &[u8],
    out: &mut [u8],
    written: &mut usize,
) -> u32
    ensures { RewritesWord word.now limit input.now out.old out.new written.new result }
{
    *written = 0;
    let Some(kind) = Kind::from_octets(word) else {
        return status::UNKNOWN_KIND;
    };
    let mut text = Vec::new(alloc);
    match rewrite_limited(alloc, kind, limit.min(MAX_NESTING), input, &mut text) {
        Ok(()) => put_octets(&text, out, written),
        Err(error) => status_of(error),
    }
}

/// Writes the DER of an input in BER to the front of `out`, as `to_der` of `ber_der` converts it, with at most 64
/// levels of nesting. At `NORMAL` `written` is its length, at `NO_ROOM`, where `out` is too short, the length that it
/// needs, and otherwise 0. From `MALFORMED` to `TOO_DEEP` the input isn't BER, or what is refused of it, and `place` is
/// where; at `NO_MEMORY` it is an offset without use, and otherwise 0. Unless at `NORMAL` `out` is as it was.
#[tactic(auto, using(crate::proofs::Conversions::is_der_of, crate::proofs::Conversions::not_converted))]
pub fn der_from_ber(
    alloc: Global,
    input: &[u8],
    out: &mut [u8],
    written: &mut usize,
    place: &mut usize,
) -> u32
    ensures { ConvertsBer input.now out.old out.new written.new place.new result }
{
    *written = 0;
    *place = 0;
    match to_der_located(alloc, input) {
        Ok(der) => put_octets(&der, out, written),
        Err((error, offset)) => {
            *place = place_where(error, offset);
            status_of(error)
        }
    }
}

/// Writes the word of the kind with that index to the front of `out`. At `NORMAL` `written` is its length, at
/// `NO_ROOM`, where `out` is too short, the length that it needs, and at `UNKNOWN_KIND`, where there are no more kinds,
/// 0. Unless at `NORMAL` `out` is as it was.
pub fn der_kind_word(index: usize, out: &mut [u8], written: &mut usize) -> u32
    ensures { NamesKind index out.old out.new written.new result }
{
    *written = 0;
    let Some(kind) = kind_at(index) else {
        return status::UNKNOWN_KIND;
    };
    put_octets(kind.word().as_bytes(), out, written)
}
