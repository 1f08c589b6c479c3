//! Where signed data has the parts of its trust list, for callers in C.

ghost use Rattle.std.specs.Prelude.{◌≡◌};
ghost use Rattle.cms_calls.specs.TrustLists.{FindsTrustList, ListsEntries, entry_row, trust_list_row};

use call_values::outputs::{Row, place_of, put_some, status_of_refusal};
use call_values::ranges::{NOTHING, Octets, is_there, octets_of, octets_or_none};
use call_values::status;
use content_ranges::{EntryRanges, TrustListRanges, trust_list_ranges, trust_rows};
use std::alloc::Global;

/// Where the parts of a trust list are: `der_trust_list_parts` of der.h, which says more of its fields.
#[repr(C)]
#[derive(Clone, Copy)]
pub struct TrustList {
    /// 1 where it has one, otherwise 0, as the next ones.
    pub has_version: usize,
    pub has_list_identifier: usize,
    pub has_sequence_number: usize,
    pub has_next_update: usize,
    pub has_extensions: usize,
    pub version: Octets,
    pub usages: Octets,
    pub list_identifier: Octets,
    pub sequence_number: Octets,
    pub this_update: Octets,
    pub next_update: Octets,
    pub algorithm: Octets,
    pub extensions: Octets,
}

/// What is there of no list.
pub const NO_TRUST_LIST: TrustList = TrustList {
    has_version: 0,
    has_list_identifier: 0,
    has_sequence_number: 0,
    has_next_update: 0,
    has_extensions: 0,
    version: NOTHING,
    usages: NOTHING,
    list_identifier: NOTHING,
    sequence_number: NOTHING,
    this_update: NOTHING,
    next_update: NOTHING,
    algorithm: NOTHING,
    extensions: NOTHING,
};

fn row_of(ranges: &TrustListRanges) -> TrustList
    ensures { result ≡ trust_list_row ranges.now }
{
    TrustList {
        has_version: is_there(&ranges.version),
        has_list_identifier: is_there(&ranges.list_identifier),
        has_sequence_number: is_there(&ranges.sequence_number),
        has_next_update: is_there(&ranges.next_update),
        has_extensions: is_there(&ranges.extensions),
        version: octets_or_none(&ranges.version),
        usages: octets_of(&ranges.usages),
        list_identifier: octets_or_none(&ranges.list_identifier),
        sequence_number: octets_or_none(&ranges.sequence_number),
        this_update: octets_of(&ranges.this_update),
        next_update: octets_or_none(&ranges.next_update),
        algorithm: octets_of(&ranges.algorithm),
        extensions: octets_or_none(&ranges.extensions),
    }
}

/// Writes where the input, signed data, has the parts of its trust list to `out`, as `trust_list_ranges` finds them. From
/// `MALFORMED` to `TOO_DEEP` the input is no signed data, or its list doesn't read, and `place` is where; at `NO_PART` the
/// content is of another type, or there is none; at `NO_MEMORY` `place` is an offset without use, and otherwise 0. Unless at
/// `NORMAL` all of `out` is 0.
#[tactic(auto, using(crate::proofs::TrustRows::list_found, crate::proofs::TrustRows::no_list_found))]
pub fn der_trust_list(alloc: Global, input: &[u8], out: &mut TrustList, place: &mut usize) -> u32
    ensures { FindsTrustList input.now out.new place.new result }
{
    *out = NO_TRUST_LIST;
    *place = 0;
    match trust_list_ranges(alloc, input) {
        Ok(Some(ranges)) => {
            *out = row_of(&ranges);
            status::NORMAL
        }
        Ok(None) => status::NO_PART,
        Err(refusal) => {
            *place = place_of(refusal);
            status_of_refusal(refusal)
        }
    }
}

/// Where the parts of an entry of a trust list are: `der_trust_entry_parts` of der.h.
#[repr(C)]
#[derive(Clone, Copy)]
pub struct TrustEntry {
    /// 1 where it has attributes, otherwise 0.
    pub has_attributes: usize,
    pub identifier: Octets,
    pub attributes: Octets,
}

impl Row for TrustEntry {
    type Found = EntryRanges;

    ghost row_of = { entry_row };

    fn of(ranges: &EntryRanges) -> TrustEntry {
        TrustEntry {
            has_attributes: is_there(&ranges.attributes),
            identifier: octets_of(&ranges.identifier),
            attributes: octets_or_none(&ranges.attributes),
        }
    }
}

/// Writes where the input, signed data, has each entry of its trust list to the front of `out`, as `trust_rows` finds them.
/// At `NORMAL` `count` is how many there are, at `NO_ROOM`, where `out` has room for fewer, too, and otherwise 0. Any other
/// status and its place are as of `der_trust_list`. Unless at `NORMAL` `out` is as it was.
pub fn der_trust_rows(
    alloc: Global,
    input: &[u8],
    out: &mut [TrustEntry],
    count: &mut usize,
    place: &mut usize,
) -> u32
    ensures { ListsEntries input.now out.old out.new count.new place.new result }
{
    put_some(trust_rows(alloc, input), out, count, place)
}
