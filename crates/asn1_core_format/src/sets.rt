//! Sets: read by a closure, a level down, left out where they are empty.

ghost use Rattle.std.specs.Prelude.{◌≡◌, ◌↔◌, ◌≤◌, ℕ, List, [], IsTrue, map, false};
ghost use Rattle.asn1_core_element.specs.Element.{IsTagByte, element};
ghost use Rattle.asn1_core_format.specs.Calls.{MayBelow, GivesBelow};
ghost use Rattle.asn1_core_format.specs.EmptySets.{set_or_none};
ghost use Rattle.asn1_core_format.specs.Format.{Gives, IsLawful};
ghost use Rattle.asn1_core_format.specs.Nexts.{NextIs};
ghost use Rattle.asn1_core_format.specs.Levels.{less, less_if};
ghost use Rattle.asn1_core_format.specs.Lists.{each};
ghost use Rattle.asn1_core_format.specs.Omitted.{is_default};
ghost use Rattle.asn1_core_format.specs.Components.{GivesComponents, within};
ghost use Rattle.asn1_core_format.specs.Sequences.{set_of};

use crate::components::WriteComponents;
use crate::recursive::{ItemLevel, LevelBelow, SameLevel, read_below, read_list_with};
use crate::traits::DerSerialize;
use crate::within::put_within;
use asn1_core_element::element::open_element;
use asn1_core_element::{Error, Reader};
use asn1_core_writers::{WriteError, Writer};
use std::alloc::Global;

/// Reads a SET OF items to the end of the open contents, each item by `by`, at the level `L`.
pub fn read_set_with<
    L: ItemLevel,
    T: DerSerialize + Drop,
    F: Fn(&mut Reader<'_>) -> Result<T, Error>,
>(alloc: Global, r: &mut Reader<'_>, nest: u8, by: &F) -> Result<Vec<T>, Error>
    requires sound { r.old.refused ≡ false }
    requires lawful { IsLawful (less_if L.below T.format) }
    requires called { (s : _) → s.now.refused ≡ false → F.pre by.now s }
    requires gives { (s : _) (x : _) (t : _) → F.post by.now s x t → Gives T.value (less_if L.below T.format) nest s.now t.now x }
    ensures { GivesComponents (λ v. map T.value v.items) (set_of (less_if L.below T.format)) nest r.old r.new result }
{
    let items = read_list_with::<L, T, F>(alloc, r, nest, 0x31, by)?;
    if r.left() > 0 {
        return Err(Error::Malformed);
    }
    Ok(items)
}

/// Reads a SET OF items to the end of the open contents, each item a level down by `by`, which is told the levels that
/// are left there.
pub fn read_set_below_with<T: DerSerialize + Drop, F: Fn(&mut Reader<'_>, u8) -> Result<T, Error>>(
    alloc: Global,
    r: &mut Reader<'_>,
    nest: u8,
    by: &F,
) -> Result<Vec<T>, Error>
    requires sound { r.old.refused ≡ false }
    requires lawful { IsLawful T.format }
    requires called { MayBelow (F.pre by.now) nest }
    requires gives { GivesBelow (F.post by.now) T.value T.format nest }
    ensures { GivesComponents (λ v. map T.value v.items) (set_of (less T.format)) nest r.old r.new result }
{
    read_set_with::<LevelBelow, T, _>(
        alloc,
        r,
        nest,
        &|s: &mut Reader<'_>|
            requires sound { s.old.refused ≡ false }
            requires called { MayBelow (F.pre by.now) nest }
            requires gives { GivesBelow (F.post by.now) T.value T.format nest }
            ensures { Gives T.value (less T.format) nest s.old s.new result }
        { read_below(s, nest, by) },
    )
}

/// `[1] IMPLICIT SET OF T` at the end of contents. Absence is the empty set.
#[derive(Drop)]
pub struct SetOrNone<T>(pub Vec<T>);

impl<T: DerSerialize> WriteComponents for SetOrNone<T> {
    ghost Value = { List T.Value × Unit {0} };

    ghost value = { λ x. (map T.value x.0.items, tt) };

    ghost format = { set_or_none 0xA1 T.format };

    fn put_components<W: Writer>(&self, w: &mut W) -> Result<(), WriteError> {
        if self.0.is_empty() {
            return Ok(());
        }
        put_within(0xA1, &self.0, w)
    }

    fn components_well_formed_at(&self, limit: u8) -> bool {
        self.0.components_well_formed_at(limit)
    }
}

/// Reads such a set, or none, with items each read by `by`.
pub fn read_set_or_none_with<T: DerSerialize + Drop, F: Fn(&mut Reader<'_>) -> Result<T, Error>>(
    alloc: Global,
    r: &mut Reader<'_>,
    nest: u8,
    by: &F,
) -> Result<SetOrNone<T>, Error>
    requires sound { r.old.refused ≡ false }
    requires lawful { IsLawful T.format }
    requires called { (s : _) → s.now.refused ≡ false → F.pre by.now s }
    requires gives { (s : _) (x : _) (t : _) → F.post by.now s x t → Gives T.value T.format nest s.now t.now x }
    ensures { GivesComponents (λ x. (map T.value x.0.items, tt)) (set_or_none 0xA1 T.format) nest r.old r.new result }
{
    if next_is_tag(r, 0xA1) {
        let items = read_list_with::<SameLevel, T, F>(alloc, r, nest, 0xA1, by)?;
        if r.left() > 0 {
            return Err(Error::Malformed);
        }
        return Ok(SetOrNone(items));
    }
    if r.left() > 0 {
        return Err(Error::Malformed);
    }
    Ok(SetOrNone(Vec::new(alloc)))
}

/// Whether the next tag is this one.
fn next_is_tag(r: &Reader<'_>, tag: u8) -> bool
    requires { r.now.refused ≡ false }
    ensures { IsTrue result ↔ NextIs (λ t. t ≡ tag) r.now.left }
{
    match r.peek() {
        Some(next) => next == tag,
        None => false,
    }
}

/// Whether a set has no items.
fn is_empty<T: DerSerialize>(items: &Vec<T>) -> bool
    ensures { IsTrue result ↔ (map T.value items.now.items ≡ []) }
{
    items.is_empty()
}

/// Whether a set under that tag is left out, as the empty one is.
pub fn is_left_out<T: DerSerialize>(_tag: u8, items: &Vec<T>) -> bool
    requires some { (v : _) → 1 ≤ T.format.least v }
    ensures { result ≡ is_default (within _tag (each T.format)) (element _tag []) (map T.value items.now.items) }
{
    is_empty(items)
}
