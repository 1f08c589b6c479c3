//! Where signed data has the parts of its trust list.

ghost use Rattle.std.specs.Prelude.{◌+◌, ◌<◌, ◌^◌, length, MatchResult};
ghost use Rattle.content_ranges.specs.Contents.{LeadsOrNone};
ghost use Rattle.content_ranges.specs.TrustHeads.{trust_list_head_value};
ghost use Rattle.content_ranges.specs.TrustLists.{AreTrustListOrNone, IsTrustListRefusal, extensions_of, list_identifier_of, next_update_of, sequence_number_of, version_of};
ghost use Rattle.content_ranges.specs.TrustRoutes.{algorithm, extensions, list_identifier, next_update, sequence_number, this_update, usages, version};
ghost use Rattle.located_rows.specs.Rows.{LeadsTo};

use crate::contents::{content_of, content_place};
use crate::ranges::TrustListRanges;
use crate::steps::steps;
use crate::trust_heads::TrustListHead;
use asn1_located::{Place, Step};
use input_ranges::Refusal;
use located_rows::range_from;
use std::alloc::Global;
use std::ops::Range;

/// `szOID_CTL`
pub(crate) const TRUST_LIST: [u8; 9] = [0x2B, 0x06, 0x01, 0x04, 0x01, 0x82, 0x37, 0x0A, 0x01];

/// The contents octets of the version, if there is one.
fn version(start: usize, octets: &[u8], head: &TrustListHead) -> Option<Range<usize>>
    requires { start + length octets.now < 2 ^ 64 }
    ensures { LeadsOrNone version.steps start octets.now (version_of (trust_list_head_value head.now)) result }
{
    match &head.version {
        Some(_number) => Some(range_from(start, octets, &steps![Inside Element Inside])),
        None => None,
    }
}

/// The element of the usages.
fn usages(start: usize, octets: &[u8]) -> Range<usize>
    requires { start + length octets.now < 2 ^ 64 }
    ensures { LeadsTo usages.steps start octets.now result.start result.end }
{
    range_from(start, octets, &steps![Inside Past(0x02) Element])
}

/// The octets of the identifier of the list, if there is one.
fn list_identifier(start: usize, octets: &[u8], head: &TrustListHead) -> Option<Range<usize>>
    requires { start + length octets.now < 2 ^ 64 }
    ensures { LeadsOrNone list_identifier.steps start octets.now (list_identifier_of (trust_list_head_value head.now)) result }
{
    match &head.list_identifier {
        Some(_identifier) => Some(range_from(
            start,
            octets,
            &steps![Inside Past(0x02) After Element Inside],
        )),
        None => None,
    }
}

/// The contents octets of the sequence number, if there is one.
fn sequence_number(start: usize, octets: &[u8], head: &TrustListHead) -> Option<Range<usize>>
    requires { start + length octets.now < 2 ^ 64 }
    ensures { LeadsOrNone sequence_number.steps start octets.now (sequence_number_of (trust_list_head_value head.now)) result }
{
    match &head.sequence_number {
        Some(_number) => Some(range_from(
            start,
            octets,
            &steps![Inside Past(0x02) After Past(0x04) Element Inside],
        )),
        None => None,
    }
}

/// The element of the time from which the list is in force.
fn this_update(start: usize, octets: &[u8]) -> Range<usize>
    requires { start + length octets.now < 2 ^ 64 }
    ensures { LeadsTo this_update.steps start octets.now result.start result.end }
{
    range_from(
        start,
        octets,
        &steps![Inside Past(0x02) After Past(0x04) Past(0x02) Element],
    )
}

/// The element of the time of the next list, if it is there.
fn next_update(start: usize, octets: &[u8], head: &TrustListHead) -> Option<Range<usize>>
    requires { start + length octets.now < 2 ^ 64 }
    ensures { LeadsOrNone next_update.steps start octets.now (next_update_of (trust_list_head_value head.now)) result }
{
    match &head.next_update {
        Some(_time) => Some(range_from(
            start,
            octets,
            &steps![Inside Past(0x02) After Past(0x04) Past(0x02) After Element],
        )),
        None => None,
    }
}

/// The element of the algorithm.
fn algorithm(start: usize, octets: &[u8]) -> Range<usize>
    requires { start + length octets.now < 2 ^ 64 }
    ensures { LeadsTo algorithm.steps start octets.now result.start result.end }
{
    range_from(
        start,
        octets,
        &steps![Inside Past(0x02) After Past(0x04) Past(0x02) After Past(0x17) Past(0x18) Element],
    )
}

/// The element of the extensions, if there are some.
fn extensions(start: usize, octets: &[u8], head: &TrustListHead) -> Option<Range<usize>>
    requires { start + length octets.now < 2 ^ 64 }
    ensures { LeadsOrNone extensions.steps start octets.now (extensions_of (trust_list_head_value head.now)) result }
{
    match &head.extensions {
        Some(_extensions) => Some(range_from(
            start,
            octets,
            &steps![
                Inside Past(0x02) After Past(0x04) Past(0x02) After Past(0x17) Past(0x18) After
                Past(0x30) Element Inside
            ],
        )),
        None => None,
    }
}

/// Where an input that is signed data has the parts of its trust list but the entries, each in its own place. Signed data is
/// read with signers of every version. `None` where the content is of another type, or there is none. Refused by `Refused`
/// is what is no signed data, and by `Part` a list that doesn't read, each with its place in the input. `NoRange` is never
/// answered.
pub fn trust_list_ranges(alloc: Global, input: &[u8]) -> Result<Option<TrustListRanges>, Refusal>
    ensures { MatchResult result
        (λ r. AreTrustListOrNone input.now r)
        (λ e. IsTrustListRefusal input.now e) }
{
    let Some(head) = content_of::<TrustListHead>(alloc, input, &TRUST_LIST)? else {
        return Ok(None);
    };
    let Place { start, octets } = content_place(input);
    Ok(Some(TrustListRanges {
        version: version(start, octets, &head),
        usages: usages(start, octets),
        list_identifier: list_identifier(start, octets, &head),
        sequence_number: sequence_number(start, octets, &head),
        this_update: this_update(start, octets),
        next_update: next_update(start, octets, &head),
        algorithm: algorithm(start, octets),
        extensions: extensions(start, octets, &head),
    }))
}
