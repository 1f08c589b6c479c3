//! The ranges of all bags of a store.

ghost use Rattle.std.specs.Prelude.{◌≡◌, length, map, MatchResult, Option, Some};
ghost use Rattle.asn1_core.specs.Der.{each, IsValueOf, option_value, raw};
ghost use Rattle.asn1_core_element.specs.declared.error.Error.TheVariants.{Memory};
ghost use Rattle.bag_ranges.specs.BagRoutes.{CONTENT};
ghost use Rattle.bag_ranges.specs.Bags.{InOrder, IsIn};
ghost use Rattle.bag_ranges.specs.RawContentInfos.{raw_content_info_value};
ghost use Rattle.bag_ranges.specs.Failures.{Adds, HasNone, HasNoRows, in_input, Pushes, PushesSome};
ghost use Rattle.bag_ranges.specs.Stores.{AreBagsOf, AreOfContent, AreOfData, AreOfSafe, AreOfStore, AreUnread, IsRefusal};
ghost use Rattle.input_ranges.specs.declared.ranges.Refusal.TheVariants.{Refused};
ghost use Rattle.x509_pkcs12.specs.MacOctets.{mac_octets};
ghost use Rattle.x509_pkcs12.specs.Pfxs.{pfx};

use crate::bags::{LEVELS, push_bags};
use crate::parts::read_at;
use crate::places::{
    auth_safe, element_of_content, first_element, safe_in_data, safe_octets, store_contents,
};
use crate::ranges::{BagKind, BagRanges};
use crate::raw_content_infos::RawContentInfo;
use asn1_core::{
    Asn1SequenceOf, DerSerialize, Error, OctetStringAsn1Container, from_bytes_located,
};
use input_ranges::Refusal;
use pkcs12_bags::parts::oids::{DATA, is_oid_of};
use std::alloc::Global;
use std::ops::Range;
use x509_pkcs12::{RawPfx, RawSafeContents};

/// Adds the row of an element that isn't read.
fn push_unread(place: &Range<usize>, rows: &mut Vec<BagRanges>) -> Result<(), Refusal>
    ensures { MatchResult result
        (λ _. Adds (AreUnread place.now.start place.now.end) rows.old.items rows.new.items)
        (λ e. e ≡ Refused Memory 0) }
{
    rows.push(BagRanges {
        kind: BagKind::Unread,
        level: 0,
        element: place.start..place.end,
        value: place.start..place.end,
        friendly_name: None,
        local_key_id: None,
    })?;
    Ok(())
}

/// Adds the rows of data in a `ContentInfo`, which is there in the input.
#[tactic(auto, using(crate::proofs::InStores::are_of_data, crate::proofs::InStores::not_safe_contents, crate::proofs::InStores::no_bags_in_data, crate::proofs::InStores::no_data))]
fn push_data(
    alloc: Global,
    input: &[u8],
    place: &Range<usize>,
    content: &RawContentInfo,
    rows: &mut Vec<BagRanges>,
) -> Result<(), Refusal>
    requires { IsIn CONTENT.format.Reads input.now place.now.start place.now.end (raw_content_info_value content.now) }
    ensures { Pushes (AreOfData input.now (raw_content_info_value content.now)) place.now.start place.now.end rows.old.items rows.new.items result }
{
    match &content.content {
        Some(data) => {
            let start = element_of_content(input, place).start;
            let bags: OctetStringAsn1Container<RawSafeContents> = read_at(
                alloc,
                data.0.0.as_slice(),
                start,
            )?;
            let safe = safe_in_data(input, place);
            push_bags(alloc, input, &safe, bags.0.0.as_slice(), LEVELS, rows)?;
            Ok(())
        }
        None => Err(Refusal::Part(Error::Missing, place.end)),
    }
}

/// Adds the rows of a content, which is there in the input.
#[tactic(auto, using(crate::proofs::InStores::are_data, crate::proofs::InStores::are_other, crate::proofs::InStores::no_rows_of_data))]
fn push_content(
    alloc: Global,
    input: &[u8],
    place: &Range<usize>,
    content: &RawContentInfo,
    rows: &mut Vec<BagRanges>,
) -> Result<(), Refusal>
    requires { IsIn CONTENT.format.Reads input.now place.now.start place.now.end (raw_content_info_value content.now) }
    ensures { Pushes (AreOfContent input.now (raw_content_info_value content.now)) place.now.start place.now.end rows.old.items rows.new.items result }
{
    if is_oid_of(&content.content_type.0, &DATA) {
        push_data(alloc, input, place, content, rows)?;
        Ok(())
    } else {
        push_unread(place, rows)?;
        Ok(())
    }
}

/// Adds the rows of contents that follow one another in a range of the input.
#[tactic(auto, using(crate::proofs::Rows::none_yet, crate::proofs::Rows::one_more, crate::proofs::Rows::all_of_them, crate::proofs::Rows::none_of_one))]
fn push_contents(
    alloc: Global,
    input: &[u8],
    list: &Range<usize>,
    contents: &[RawContentInfo],
    rows: &mut Vec<BagRanges>,
) -> Result<(), Refusal>
    requires { IsIn (each CONTENT.format).Reads input.now list.now.start list.now.end (map raw_content_info_value contents.now) }
    ensures { Pushes (InOrder (AreOfContent input.now) (map raw_content_info_value contents.now)) list.now.start list.now.end rows.old.items rows.new.items result }
{
    let mut start = list.start;
    for content in contents {
        let rest = start..list.end;
        let place = first_element(input, &rest);
        push_content(alloc, input, &place, content, rows)?;
        start = place.end;
    }
    Ok(())
}

/// Adds the rows of an `AuthenticatedSafe`, whose octets the store has.
#[tactic(auto, using(crate::proofs::InStores::are_of_safe, crate::proofs::InStores::not_safe, crate::proofs::InStores::no_contents))]
fn push_safe(
    alloc: Global,
    input: &[u8],
    file: &RawPfx,
    octets: &[u8],
    rows: &mut Vec<BagRanges>,
) -> Result<(), Refusal>
    requires file { IsValueOf (pfx raw) 64 input.now (⟦<RawPfx as DerSerialize>⟧.value file.now) }
    requires octets { mac_octets (⟦<RawPfx as DerSerialize>⟧.value file.now) ≡ Some octets.now }
    ensures { PushesSome (AreOfSafe input.now (⟦<RawPfx as DerSerialize>⟧.value file.now)) rows.old.items rows.new.items result }
{
    let start = safe_octets(input).start;
    let contents: Asn1SequenceOf<RawContentInfo> = read_at(alloc, octets, start)?;
    let list = store_contents(input);
    push_contents(alloc, input, &list, contents.0.as_slice(), rows)?;
    Ok(())
}

/// Adds the rows of a store, by the octets of its data, where its `authSafe` is data.
#[tactic(auto, using(crate::proofs::InStores::is_unread))]
fn push_by_octets(
    alloc: Global,
    input: &[u8],
    file: &RawPfx,
    octets: Option<&[u8]>,
    rows: &mut Vec<BagRanges>,
) -> Result<(), Refusal>
    requires file { IsValueOf (pfx raw) 64 input.now (⟦<RawPfx as DerSerialize>⟧.value file.now) }
    requires octets { mac_octets (⟦<RawPfx as DerSerialize>⟧.value file.now) ≡ option_value (λ s. s.now) octets }
    ensures { PushesSome (AreOfStore input.now (⟦<RawPfx as DerSerialize>⟧.value file.now) (option_value (λ s. s.now) octets.entry)) rows.old.items rows.new.items result }
{
    match octets {
        Some(octets) => {
            push_safe(alloc, input, file, octets, rows)?;
            Ok(())
        }
        None => {
            let place = auth_safe(input);
            push_unread(&place, rows)?;
            Ok(())
        }
    }
}

/// The rows of a store that was read.
#[tactic(auto, using(crate::proofs::InStores::are_bags, crate::proofs::InStores::no_bags))]
fn rows_of_store(alloc: Global, input: &[u8], file: &RawPfx) -> Result<Vec<BagRanges>, Refusal>
    requires { IsValueOf (pfx raw) 64 input.now (⟦<RawPfx as DerSerialize>⟧.value file.now) }
    ensures { MatchResult result (λ rows. AreBagsOf input.now rows.items) (λ e. HasNone (AreBagsOf input.now) e) }
{
    let mut rows = Vec::new(alloc);
    push_by_octets(alloc, input, file, file.mac_octets(), &mut rows)?;
    Ok(rows)
}

/// The refusal of a store, with a place in the input. No part of a store lacks a range.
fn in_input(refusal: Refusal, input: &[u8]) -> Refusal
    ensures { result ≡ in_input (length input.now) refusal }
{
    match refusal {
        Refusal::Refused(..) => Refusal::Refused(Error::Memory, 0),
        Refusal::Part(error, place) => Refusal::Part(error, place.min(input.len())),
        Refusal::NoRange => Refusal::Part(Error::Malformed, 0),
    }
}

/// Where an input has each bag of a PKCS #12 store that isn't encrypted, in their order, those in bags after them, at most
/// 64 levels of them, with friendly names of any characters. Contents that are encrypted, or of another type, are rows of
/// kind `Unread`. A certificate, revocation list, encrypted key or `SafeContents` that doesn't read as its type, a name or
/// local key identifier that doesn't, or a second one, refuses all. Reads the input once, and walks over its headers: proved
/// is that each range is the place of the part itself, and that a store is refused only where no rows fit it, or memory
/// lacks. The places of refusals are tested. `NoRange` is never answered.
#[tactic(auto, using(crate::proofs::InStores::is_refused))]
pub fn bag_ranges(alloc: Global, input: &[u8]) -> Result<Vec<BagRanges>, Refusal>
    ensures { MatchResult result (λ rows. AreBagsOf input.now rows.items) (λ e. IsRefusal input.now e) }
{
    match from_bytes_located::<RawPfx>(alloc, input) {
        Ok(file) => match rows_of_store(alloc, input, &file) {
            Ok(rows) => Ok(rows),
            Err(refusal) => Err(in_input(refusal, input)),
        },
        Err((error, place)) => Err(Refusal::Refused(error, place)),
    }
}
