//! What a verifier needs of signers, as ranges of the input, for callers in C.

ghost use Rattle.std.specs.Prelude.{◌≡◌};
ghost use Rattle.part_calls.specs.Signers.{covered_by, digest_in, signer_row, FindsSigners};

use call_values::outputs::{Row, place_of, status_of_refusal, write_rows};
use call_values::ranges::{NOTHING, Octets, is_there, octets_of, octets_or_none};
use call_values::status;
use signer_ranges::{SignedRanges, SignerRanges, signer_ranges};
use std::alloc::Global;
use std::ops::Range;

/// What a verifier needs of a signer: `der_signer_parts` of der.h, which says more of its fields.
#[repr(C)]
#[derive(Clone, Copy)]
pub struct Signer {
    /// `NORMAL`, or `BAD_ATTRIBUTES` where the signed attributes, or their absence, break RFC 5652; then all else is 0.
    pub status: usize,
    /// 1 where the signature covers signed attributes, otherwise 0.
    pub over_attributes: usize,
    /// 1 where the content is in the input, otherwise 0.
    pub has_content: usize,
    /// 1 where the signer's certificate is in the input, otherwise 0.
    pub has_certificate: usize,
    pub covered: Octets,
    pub digest: Octets,
    pub content: Octets,
    pub digest_algorithm: Octets,
    pub signature_algorithm: Octets,
    pub signature: Octets,
    pub certificate: Octets,
}

/// What the signature covers.
fn covered_by(signed: &Option<SignedRanges>, content: &Option<Range<usize>>) -> Octets
    ensures { result ≡ covered_by signed.now content.now }
{
    match signed {
        Some(signed) => octets_of(&signed.attributes),
        None => octets_or_none(content),
    }
}

/// The digest that the content has to have.
fn digest_in(signed: &Option<SignedRanges>) -> Octets
    ensures { result ≡ digest_in signed.now }
{
    match signed {
        Some(signed) => octets_of(&signed.message_digest),
        None => NOTHING,
    }
}

impl Row for Signer {
    type Found = Option<SignerRanges>;

    ghost row_of = { signer_row };

    fn of(ranges: &Option<SignerRanges>) -> Signer {
        match ranges {
            Some(ranges) => Signer {
                status: status::NORMAL as usize,
                over_attributes: is_there(&ranges.signed),
                has_content: is_there(&ranges.content),
                has_certificate: is_there(&ranges.certificate),
                covered: covered_by(&ranges.signed, &ranges.content),
                digest: digest_in(&ranges.signed),
                content: octets_or_none(&ranges.content),
                digest_algorithm: octets_of(&ranges.digest_algorithm),
                signature_algorithm: octets_of(&ranges.signature_algorithm),
                signature: octets_of(&ranges.signature),
                certificate: octets_or_none(&ranges.certificate),
            },
            None => Signer {
                status: status::BAD_ATTRIBUTES as usize,
                over_attributes: 0,
                has_content: 0,
                has_certificate: 0,
                covered: NOTHING,
                digest: NOTHING,
                content: NOTHING,
                digest_algorithm: NOTHING,
                signature_algorithm: NOTHING,
                signature: NOTHING,
                certificate: NOTHING,
            },
        }
    }
}

/// What a verifier needs of the signers of signed data, from the one with the index `first` on, as many as `out` has
/// room for: at `NORMAL` their rows are at the front of `out`, and `count` is how many signers there are in all,
/// otherwise 0. From `MALFORMED` to `TOO_DEEP` the input is no signed data, and `place` is where; at `NO_MEMORY` it is
/// an offset without use, and otherwise 0. `NO_RANGE` is never answered. Unless at `NORMAL` `out` is as it was.
#[tactic(auto, using(crate::proofs::SignerRows::rows_found, crate::proofs::SignerRows::rows_fit))]
pub fn der_signer_rows(
    alloc: Global,
    input: &[u8],
    first: usize,
    out: &mut [Signer],
    count: &mut usize,
    place: &mut usize,
) -> u32
    ensures { FindsSigners input.now first out.old out.new count.new place.new result }
{
    *count = 0;
    *place = 0;
    match signer_ranges(alloc, input, first, out.len()) {
        Ok(signers) => {
            write_rows(&signers.found, out);
            *count = signers.count;
            status::NORMAL
        }
        Err(refusal) => {
            *place = place_of(refusal);
            status_of_refusal(refusal)
        }
    }
}
