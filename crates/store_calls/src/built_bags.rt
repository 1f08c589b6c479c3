//! Bags of a PKCS #12 store, built from what a caller in C gives.

ghost use Rattle.std.specs.Prelude.{◌≡◌, ◌≤◌, ◌↔◌, IsTrue, MatchResult, map};
ghost use Rattle.std.specs.List.{AllZip};
ghost use Rattle.store_calls.specs.BuiltBags.{AreTooLong, BuildsBags, GivesBag, HasBuiltBags, IsAsItsKind, IsBagBy, IsHeldBy, IsHeldOf, IsNameOf, IsOfNoKind, IsWrongBag, IsOtherId};
ghost use Rattle.call_values.specs.Given.{HasNone, IfGiven, IsPartOf};
ghost use Rattle.store_calls.specs.GivenBags.{HasParts, IsChecked, IsHeldAs, IsIdIf};
ghost use Rattle.call_values.specs.BuiltLists.{IsNoList, IsNoText};
ghost use Rattle.call_values.specs.Read.{HasOne, IsUnreadAt, IsUnreadOf};
ghost use Rattle.x509_base.specs.Names.{attribute_value};
ghost use Rattle.x509_pkcs12.specs.Utf16.{IsUtf16};

use crate::nested::{LEVELS, check_levels};
use asn1_core::prelude::*;
use bag_writers::{Bag, Held, is_utf16, write_safe_contents};
use call_values::built_lists::{NoList, at};
use call_values::further::further_if;
use call_values::given::{element_of, oid_of, part_if, part_of};
use call_values::not_built::NotBuilt;
use call_values::outputs::put_octets;
use call_values::ranges::Octets;
use call_values::readings::check_as;
use call_values::status;
use call_values::status::status_of;
use pkcs12_bags::parts::oids::{
    CERTIFICATE_BAG, CRL_BAG, KEY_BAG, SAFE_CONTENTS_BAG, SECRET_BAG, SHROUDED_KEY_BAG,
    octets_of_known,
};
use pkcs12_bags::parts::{EncryptedKeyBag, SecretBag};
use std::alloc::Global;
use x509_base::Attribute;

// Those of `der_bag_part` in der.h, which says more of each.
const KIND: usize = 1;

const IDENTIFIER: usize = 2;

const VALUE: usize = 3;

const FRIENDLY_NAME: usize = 4;

const LOCAL_KEY_ID: usize = 5;

const ATTRIBUTES: usize = 6;

/// A bag, as numbers and ranges of an input: `der_bag_given` of der.h, which says more of its fields.
#[repr(C)]
#[derive(Clone, Copy)]
pub struct BagGiven {
    /// A `der_bag_kind` of der.h, up to that of SafeContents.
    pub kind: usize,
    /// 0 where it has no friendly name.
    pub has_friendly_name: usize,
    /// 0 where it has no local key identifier.
    pub has_local_key_id: usize,
    /// 0 where it has no further attributes.
    pub has_attributes: usize,
    pub identifier: Octets,
    pub value: Octets,
    pub friendly_name: Octets,
    pub local_key_id: Octets,
    pub attributes: Octets,
}

/// Whether none of the six kinds of bags has an object identifier.
fn is_of_no_kind(id: &[u8]) -> bool
    ensures { IsTrue result ↔ IsOfNoKind id.now }
{
    id != octets_of_known(KEY_BAG)
        && id != octets_of_known(SHROUDED_KEY_BAG)
        && id != octets_of_known(CERTIFICATE_BAG)
        && id != octets_of_known(CRL_BAG)
        && id != octets_of_known(SECRET_BAG)
        && id != octets_of_known(SAFE_CONTENTS_BAG)
}

/// The object identifier of a bag of another kind, and nothing of one whose kind says it.
fn identifier_if<'a>(input: &'a [u8], row: &BagGiven) -> Result<&'a [u8], usize>
    ensures { MatchResult result (λ id. IsIdIf input.now row.now id.now) (λ n. (n ≡ 2) × (row.now.kind ≡ 0) × HasNone (IsOtherId input.now row.now)) }
{
    if row.kind != 0 {
        return Ok(&[]);
    }
    let id = oid_of(input, row.identifier, IDENTIFIER)?;
    if is_of_no_kind(id) {
        Ok(id)
    } else {
        Err(IDENTIFIER)
    }
}

/// What a bag of the kind with that number holds.
fn held_as<'a>(kind: usize, id: &'a [u8], octets: &'a [u8]) -> Held<'a>
    requires { kind ≤ 6 }
    ensures { IsHeldAs kind id.now octets.now result }
{
    match kind {
        1 => Held::Key(octets),
        2 => Held::ShroudedKey(octets),
        3 => Held::Certificate(octets),
        4 => Held::Crl(octets),
        5 => Held::Secret(octets),
        6 => Held::SafeContents(octets),
        _ => Held::Other {
            id,
            element: octets,
        },
    }
}

/// What a bag holds.
fn held_of<'a>(input: &'a [u8], row: &BagGiven) -> Result<Held<'a>, usize>
    ensures { MatchResult result (λ held. IsHeldBy input.now row.now held) (λ n. IsWrongBag input.now row.now n × HasNone (IsHeldBy input.now row.now)) }
{
    if row.kind > 6 {
        return Err(KIND);
    }
    let id = identifier_if(input, row)?;
    let element = element_of(input, row.value, VALUE)?;
    Ok(held_as(row.kind, id, element))
}

/// Whether what is held reads as its kind says.
fn check_held(alloc: Global, held: &Held<'_>) -> Result<(), NotBuilt>
    ensures { MatchResult result (λ _. IsAsItsKind held.now) (λ wrong. IsUnreadAt 3 (IsAsItsKind held.now) wrong) }
{
    match held {
        Held::ShroudedKey(element) => check_as::<EncryptedKeyBag>(alloc, element, VALUE),
        Held::Secret(element) => check_as::<SecretBag>(alloc, element, VALUE),
        Held::SafeContents(element) => check_levels(alloc, element, LEVELS - 1, VALUE),
        _ => Ok(()),
    }
}

/// Whether what a bag holds can be written.
fn check_value(alloc: Global, input: &[u8], row: &BagGiven) -> Result<(), NotBuilt>
    ensures { MatchResult result
        (λ _. HasOne (IsHeldOf input.now row.now))
        (λ wrong. IsUnreadOf (IsWrongBag input.now row.now) (HasOne (IsHeldOf input.now row.now)) wrong) }
{
    match held_of(input, row) {
        Ok(held) => check_held(alloc, &held),
        Err(part) => Err(NotBuilt::Part(part)),
    }
}

/// Whether octets are UTF-16.
fn check_name(octets: &[u8]) -> Result<(), NotBuilt>
    ensures { MatchResult result (λ _. IsUtf16 octets.now) (λ wrong. IsUnreadAt 4 (IsUtf16 octets.now) wrong) }
{
    if is_utf16(octets) {
        return Ok(());
    }
    Err(NotBuilt::Part(FRIENDLY_NAME))
}

/// Whether a bag's friendly name, unless it has none, can be written.
fn check_name_if(input: &[u8], row: &BagGiven) -> Result<(), NotBuilt>
    ensures { MatchResult result
        (λ _. HasOne (IfGiven row.now.has_friendly_name (IsNameOf input.now row.now.friendly_name)))
        (λ wrong. IsUnreadOf (IsWrongBag input.now row.now) (HasOne (IfGiven row.now.has_friendly_name (IsNameOf input.now row.now.friendly_name))) wrong) }
{
    if row.has_friendly_name == 0 {
        return Ok(());
    }
    match part_of(input, row.friendly_name, FRIENDLY_NAME) {
        Ok(octets) => check_name(octets),
        Err(part) => Err(NotBuilt::Part(part)),
    }
}

/// Whether a bag's local key identifier, unless it has none, can be written.
fn check_key_id_if(input: &[u8], row: &BagGiven) -> Result<(), NotBuilt>
    ensures { MatchResult result
        (λ _. HasOne (IfGiven row.now.has_local_key_id (IsPartOf input.now row.now.local_key_id)))
        (λ wrong. IsUnreadOf (IsWrongBag input.now row.now) (HasOne (IfGiven row.now.has_local_key_id (IsPartOf input.now row.now.local_key_id))) wrong) }
{
    match part_if(input, row.has_local_key_id, row.local_key_id, LOCAL_KEY_ID) {
        Ok(_octets) => Ok(()),
        Err(part) => Err(NotBuilt::Part(part)),
    }
}

/// Whether the bag that a row gives can be written, and its further attributes.
fn checked(alloc: Global, input: &[u8], row: &BagGiven) -> Result<Vec<Attribute>, NotBuilt>
    ensures { MatchResult result
        (λ set. IsChecked input.now row.now (map attribute_value set.items))
        (λ wrong. IsUnreadOf (IsWrongBag input.now row.now) (GivesBag input.now row.now) wrong) }
{
    check_value(alloc, input, row)?;
    check_name_if(input, row)?;
    check_key_id_if(input, row)?;
    further_if(
        alloc,
        input,
        row.has_attributes,
        (row.attributes, ATTRIBUTES),
    )
}

/// The same of each row. The bags are made afterwards, since they borrow these attributes.
fn all_checked(
    alloc: Global,
    input: &[u8],
    rows: &[BagGiven],
) -> Result<Vec<Vec<Attribute>>, NoList>
    ensures { MatchResult result
        (λ sets. AllZip (IsChecked input.now) rows.now (map (λ set. map attribute_value set.items) sets.items))
        (λ wrong. IsNoList (GivesBag input.now) (IsWrongBag input.now) rows.now wrong) }
{
    let mut sets = Vec::new(alloc);
    for (index, row) in rows.iter().enumerate() {
        match checked(alloc, input, row) {
            Ok(set) => sets.push(set)?,
            Err(wrong) => return Err(at(index, wrong)),
        }
    }
    Ok(sets)
}

/// The bag of the parts that a row gives, with these further attributes.
fn bag_of<'a>(
    input: &'a [u8],
    row: &BagGiven,
    attributes: &'a [Attribute],
) -> Result<Bag<'a>, usize>
    ensures { MatchResult result
        (λ bag. HasParts input.now row.now (map attribute_value attributes.now) bag)
        (λ _. GivesBag input.now row.now → ⊥) }
{
    let held = held_of(input, row)?;
    let friendly_name = part_if(
        input,
        row.has_friendly_name,
        row.friendly_name,
        FRIENDLY_NAME,
    )?;
    let local_key_id = part_if(input, row.has_local_key_id, row.local_key_id, LOCAL_KEY_ID)?;
    Ok(Bag {
        held,
        friendly_name,
        local_key_id,
        attributes,
    })
}

/// The bags that all rows give.
fn bags_of<'a>(
    alloc: Global,
    input: &'a [u8],
    rows: &[BagGiven],
    sets: &'a [Vec<Attribute>],
) -> Result<Vec<Bag<'a>>, NoList>
    requires { AllZip (IsChecked input.now) rows.now (map (λ set. map attribute_value set.items) sets.now) }
    ensures { MatchResult result
        (λ bags. AllZip (IsBagBy input.now) rows.now bags.items)
        (λ wrong. IsNoList (GivesBag input.now) (IsWrongBag input.now) rows.now wrong) }
{
    let mut bags = Vec::new(alloc);
    for (index, row) in rows.iter().enumerate() {
        match bag_of(input, row, sets[index].as_slice()) {
            Ok(bag) => bags.push(bag)?,
            Err(part) => return Err(NoList::Item(index, part)),
        }
    }
    Ok(bags)
}

fn bags_text(alloc: Global, input: &[u8], rows: &[BagGiven]) -> Result<Vec<u8>, NoList>
    ensures { MatchResult result
        (λ text. HasBuiltBags input.now rows.now text.items)
        (λ wrong. IsNoText (GivesBag input.now) (IsWrongBag input.now) (AreTooLong input.now rows.now) rows.now wrong) }
{
    let sets = all_checked(alloc, input, rows)?;
    let bags = bags_of(alloc, input, rows, sets.as_slice())?;
    match write_safe_contents(alloc, bags.as_slice()) {
        Ok(text) => Ok(text),
        Err(error) => Err(NoList::NotWritten(error)),
    }
}

/// Builds a SafeContents of the bags that are given, as numbers and octets of the input, and writes it to the front of `out`.
/// At `NORMAL` `written` is its length, at `NO_ROOM`, where `out` is too short, the length that it needs, and otherwise 0. At
/// `INVALID` a part of the bag with the index `bag` can't be written, the first such, and `part` is its number in der.h;
/// otherwise both are 0. At `TOO_LONG` the encoding is too long, and `NO_MEMORY` is answered for want of memory. Unless at
/// `NORMAL` `out` is as it was.
pub fn der_build_bags(
    alloc: Global,
    input: &[u8],
    bags: &[BagGiven],
    out: &mut [u8],
    written: &mut usize,
    bag: &mut usize,
    part: &mut usize,
) -> u32
    ensures { BuildsBags input.now bags.now out.old out.new written.new bag.new part.new result }
{
    *written = 0;
    *bag = 0;
    *part = 0;
    match bags_text(alloc, input, bags) {
        Ok(text) => put_octets(&text, out, written),
        Err(NoList::Item(index, number)) => {
            *bag = index;
            *part = number;
            status::INVALID
        }
        Err(NoList::NotWritten(error)) => status_of(error),
    }
}
