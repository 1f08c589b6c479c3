//! Where signed data has the entries of its trust list.

ghost use Rattle.std.specs.Prelude.{◌≡◌, ◌≢◌, ◌∷◌, ◌+◌, ◌<◌, ◌^◌, length, MatchResult};
ghost use Rattle.asn1_core.specs.Der.{option_value};
ghost use Rattle.asn1_core_element.specs.declared.error.Error.TheVariants.{Memory};
ghost use Rattle.asn1_located.specs.declared.walks.Step.TheVariants.{Element};
ghost use Rattle.content_ranges.specs.Contents.{HasContent, in_content};
ghost use Rattle.content_ranges.specs.TrustHeads.{trust_list_head_value};
ghost use Rattle.content_ranges.specs.TrustLists.{AreEntriesOf, AreTrustRowsOrNone, IsTrustListRefusal};
ghost use Rattle.content_ranges.specs.TrustParts.{IsEntryRow, LeadsOrNowhere};
ghost use Rattle.content_ranges.specs.TrustRoutes.{attributes, identifier, subjects, trust_list};
ghost use Rattle.located_rows.specs.Rows.{AreRows, HasNoList, LeadsTo};
ghost use Rattle.pkcs7_content.specs.Oids.{trust_list_oid};
ghost use Rattle.signer_ranges.specs.Signers.{FileValue};

use crate::contents::content_of;
use crate::ranges::EntryRanges;
use crate::steps::steps;
use crate::trust_heads::TrustListHead;
use crate::trust_lists::TRUST_LIST;
use asn1_core::Error;
use asn1_located::{Step, walk};
use input_ranges::{Refusal, refusal_of};
use located_rows::{Row, range_from, rows_by};
use std::alloc::Global;
use std::ops::Range;

/// The octets of the identifier of the entry with which the octets begin.
fn identifier(start: usize, octets: &[u8]) -> Range<usize>
    requires { start + length octets.now < 2 ^ 64 }
    ensures { LeadsTo (Element ∷ identifier.steps) start octets.now result.start result.end }
{
    range_from(start, octets, &steps![Element Inside Element Inside])
}

/// The element of its attributes. `None` where they are absent.
fn attributes(start: usize, octets: &[u8]) -> Option<Range<usize>>
    requires { start + length octets.now < 2 ^ 64 }
    ensures { LeadsOrNowhere (Element ∷ attributes.steps) start octets.now result }
{
    match walk(start, octets, &steps![Element Inside After Element]) {
        Some(place) => Some(place.start..place.start + place.octets.len()),
        None => None,
    }
}

impl Row for EntryRanges {
    ghost is_row = { IsEntryRow };

    fn of(start: usize, octets: &[u8]) -> Self {
        EntryRanges {
            identifier: identifier(start, octets),
            attributes: attributes(start, octets),
        }
    }
}

/// The rows of the entries of a list that has some.
fn rows_of(alloc: Global, input: &[u8]) -> Result<Vec<EntryRanges>, Error>
    ensures { MatchResult result
        (λ rows. AreRows IsEntryRow (in_content trust_list subjects).steps 0 input.now rows.items)
        (λ e. e ≢ Memory → HasNoList (in_content trust_list subjects).steps 0 input.now) }
{
    rows_by::<EntryRanges>(
        alloc,
        0,
        input,
        &steps![
            Inside After Element Inside Inside After After Element Inside After Element Inside
            Inside Past(0x02) After Past(0x04) Past(0x02) After Past(0x17) Past(0x18) After Element Inside
        ],
    )
}

/// The rows of the entries of a list that was read. Refuses by `Memory` alone.
fn rows_in(alloc: Global, input: &[u8], list: &TrustListHead) -> Result<Vec<EntryRanges>, Error>
    ensures { (v : FileValue) → HasContent trust_list_oid trust_list input.now v (trust_list_head_value list.now) → MatchResult result
        (λ rows. AreEntriesOf input.now v (trust_list_head_value list.now) rows.items)
        (λ e. e ≡ Memory) }
{
    match &list.subjects {
        Some(_subjects) => rows_of(alloc, input),
        None => Ok(Vec::new(alloc)),
    }
}

/// Where an input that is signed data has each entry of its trust list: its identifier and its attributes, each in its own
/// place, in the order of the list. It is `None`, and refused, as `trust_list_ranges` is, and for want of memory.
pub fn trust_rows(alloc: Global, input: &[u8]) -> Result<Option<Vec<EntryRanges>>, Refusal>
    ensures { MatchResult result
        (λ rows. AreTrustRowsOrNone input.now (option_value (λ r. r.items) rows))
        (λ e. IsTrustListRefusal input.now e) }
{
    let Some(list) = content_of::<TrustListHead>(alloc, input, &TRUST_LIST)? else {
        return Ok(None);
    };
    match rows_in(alloc, input, &list) {
        Ok(rows) => Ok(Some(rows)),
        Err(error) => Err(refusal_of(error)),
    }
}
