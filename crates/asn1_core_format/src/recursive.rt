//! Reading types that hold themselves. What is inside is read by a closure, so that these functions are outside of
//! the recursion: in a type's own cycle of calls are only those that come back to it.

ghost use Rattle.std.specs.Prelude.{◌≡◌, ◌<◌, Bool, true, false, map};
ghost use Rattle.asn1_core_element.specs.Element.{IsTagByte};
ghost use Rattle.asn1_core_format.specs.Calls.{MayBelow, GivesBelow};
ghost use Rattle.asn1_core_format.specs.Format.{Gives, IsLawful};
ghost use Rattle.asn1_core_format.specs.Levels.{less, less_if};
ghost use Rattle.asn1_core_format.specs.Lists.{each};
ghost use Rattle.asn1_core_format.specs.Components.{GivesComponents, within};

use crate::components::WriteComponents;
use crate::lists::{NESTED_STEP, push_item};
use crate::traits::DerSerialize;
use asn1_core_element::element::open_element;
use asn1_core_element::{Error, Reader};
use std::alloc::Global;

/// Where the items of a list are.
pub trait ItemLevel {
    /// Whether they are a level below the list.
    ghost below: { Bool };
}

/// Items at the level of their list.
pub struct SameLevel;

impl ItemLevel for SameLevel {
    ghost below = { false };
}

/// Items a level below their list.
pub struct LevelBelow;

impl ItemLevel for LevelBelow {
    ghost below = { true };
}

/// Reads a body by `by`.
pub(crate) fn read_components_by<R: WriteComponents, F: Fn(&mut Reader<'_>) -> Result<R, Error>>(
    r: &mut Reader<'_>,
    _nest: u8,
    by: &F,
) -> Result<R, Error>
    requires sound { r.old.refused ≡ false }
    requires called { (s : _) → s.now.refused ≡ false → F.pre by.now s }
    requires gives { (s : _) (x : _) (t : _) → F.post by.now s x t → GivesComponents R.value R.format _nest s.now t.now x }
    ensures { GivesComponents R.value R.format _nest r.old r.new result }
{
    by(r)
}

/// Reads an item by `by`.
fn read_item<L: ItemLevel, T: DerSerialize, F: Fn(&mut Reader<'_>) -> Result<T, Error>>(
    r: &mut Reader<'_>,
    _nest: u8,
    by: &F,
) -> Result<T, Error>
    requires sound { r.old.refused ≡ false }
    requires called { (s : _) → s.now.refused ≡ false → F.pre by.now s }
    requires gives { (s : _) (x : _) (t : _) → F.post by.now s x t → Gives T.value (less_if L.below T.format) _nest s.now t.now x }
    ensures { Gives T.value (less_if L.below T.format) _nest r.old r.new result }
{
    by(r)
}

/// Reads items to the end of the open contents, each by `by`, and makes room for at most `most` times as many at once.
/// Items are at the level `L`. The law of the items is a premise, not a bound, since `DerDeserialize` would bring their
/// `read` into the caller's cycle.
pub(crate) fn read_items<
    L: ItemLevel,
    T: DerSerialize + Drop,
    F: Fn(&mut Reader<'_>) -> Result<T, Error>,
>(alloc: Global, r: &mut Reader<'_>, nest: u8, most: usize, by: &F) -> Result<Vec<T>, Error>
    requires sound { r.old.refused ≡ false }
    requires some { 0 < most }
    requires lawful { IsLawful (less_if L.below T.format) }
    requires called { (s : _) → s.now.refused ≡ false → F.pre by.now s }
    requires gives { (s : _) (x : _) (t : _) → F.post by.now s x t → Gives T.value (less_if L.below T.format) nest s.now t.now x }
    ensures { GivesComponents (λ v. map T.value v.items) (each (less_if L.below T.format)) nest r.old r.new result }
{
    let mut items = Vec::new(alloc);
    let whole = r.left();
    'items: while r.left() > 0 {
        let item = read_item::<L, T, F>(r, nest, by)?;
        let taken = whole.saturating_sub(r.left());
        push_item(&mut items, item, taken, r.left(), most)?;
    }
    Ok(items)
}

/// Reads an element with that tag that holds items, each read by `by`, at the level `L`.
pub fn read_list_with<
    L: ItemLevel,
    T: DerSerialize + Drop,
    F: Fn(&mut Reader<'_>) -> Result<T, Error>,
>(alloc: Global, r: &mut Reader<'_>, nest: u8, tag: u8, by: &F) -> Result<Vec<T>, Error>
    requires sound { r.old.refused ≡ false }
    requires tag { IsTagByte tag }
    requires lawful { IsLawful (less_if L.below T.format) }
    requires called { (s : _) → s.now.refused ≡ false → F.pre by.now s }
    requires gives { (s : _) (x : _) (t : _) → F.post by.now s x t → Gives T.value (less_if L.below T.format) nest s.now t.now x }
    ensures { Gives (λ v. map T.value v.items) (within tag (each (less_if L.below T.format))) nest r.old r.new result }
{
    let outer = open_element(r, tag)?;
    let items = read_items::<L, T, F>(alloc, r, nest, NESTED_STEP, by)?;
    r.close(outer);
    Ok(items)
}

/// Reads a `T` a level down, by `by`, which is told the levels that are left there.
pub(crate) fn read_below<T: DerSerialize, F: Fn(&mut Reader<'_>, u8) -> Result<T, Error>>(
    r: &mut Reader<'_>,
    nest: u8,
    by: &F,
) -> Result<T, Error>
    requires sound { r.old.refused ≡ false }
    requires called { MayBelow (F.pre by.now) nest }
    requires gives { GivesBelow (F.post by.now) T.value T.format nest }
    ensures { Gives T.value (less T.format) nest r.old r.new result }
{
    if nest == 0 {
        return Err(Error::TooDeep);
    }
    by(r, nest - 1)
}

/// Reads an element with that tag that holds a `T` a level down, read by `by`.
pub fn read_below_within<T: DerSerialize + Drop, F: Fn(&mut Reader<'_>, u8) -> Result<T, Error>>(
    r: &mut Reader<'_>,
    nest: u8,
    tag: u8,
    by: &F,
) -> Result<T, Error>
    requires sound { r.old.refused ≡ false }
    requires tag { IsTagByte tag }
    requires lawful { IsLawful T.format }
    requires called { MayBelow (F.pre by.now) nest }
    requires gives { GivesBelow (F.post by.now) T.value T.format nest }
    ensures { Gives T.value (within tag (less T.format)) nest r.old r.new result }
{
    let outer = open_element(r, tag)?;
    let value = read_below(r, nest, by)?;
    if r.left() > 0 {
        return Err(Error::Malformed);
    }
    r.close(outer);
    Ok(value)
}
