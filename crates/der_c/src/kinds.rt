//! Checks and rewritings of inputs of all kinds, and conversions of BER.

ghost use Rattle.kind_calls.specs.Kinds.{ChecksWord, RewritesWord, NamesKind};
ghost use Rattle.kind_calls.specs.Conversions.{ConvertsBer};

use kind_calls::kinds;
use std::alloc::Global;

/// As `kinds::der_check_word_limited` of `kind_calls`.
#[unsafe(no_mangle)]
pub extern "C" fn der_check_word_limited(
    alloc: Global,
    word: &[u8],
    limit: u8,
    input: &[u8],
    normal_len: &mut usize,
    place: &mut usize,
) -> u32
    ensures { ChecksWord word.now limit input.now normal_len.new place.new result }
{
    kinds::der_check_word_limited(alloc, word, limit, input, normal_len, place)
}

/// As `kinds::der_rewrite_word_limited` of `kind_calls`.
#[unsafe(no_mangle)]
pub extern "C" fn der_rewrite_word_limited(
    alloc: Global,
    word: &[u8],
    limit: u8,
    input: &[u8],
    out: &mut [u8],
    written: &mut usize,
) -> u32
    ensures { RewritesWord word.now limit input.now out.old out.new written.new result }
{
    kinds::der_rewrite_word_limited(alloc, word, limit, input, out, written)
}

/// As `kinds::der_from_ber` of `kind_calls`.
#[unsafe(no_mangle)]
pub extern "C" fn der_from_ber(
    alloc: Global,
    input: &[u8],
    out: &mut [u8],
    written: &mut usize,
    place: &mut usize,
) -> u32
    ensures { ConvertsBer input.now out.old out.new written.new place.new result }
{
    kinds::der_from_ber(alloc, input, out, written, place)
}

/// As `kinds::der_kind_word` of `kind_calls`.
#[unsafe(no_mangle)]
pub extern "C" fn der_kind_word(index: usize, out: &mut [u8], written: &mut usize) -> u32
    ensures { NamesKind index out.old out.new written.new result }
{
    kinds::der_kind_word(index, out, written)
}
