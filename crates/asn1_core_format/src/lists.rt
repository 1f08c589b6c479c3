//! Items, one after another to the end of the contents.

ghost use Rattle.std.specs.Prelude.{◌≡◌, ◌<◌, List, [], ◌∷◌, ◌++◌, map, true, false, MatchResult};
ghost use Rattle.std.specs.List.{flat_map};
ghost use Rattle.asn1_core_element.specs.declared.error.Error.TheVariants.{Memory};
ghost use Rattle.asn1_core_format.specs.Format.{Gives};
ghost use Rattle.asn1_core_format.specs.Lists.{each};
ghost use Rattle.asn1_core_format.specs.laws.ListLaws.{lawful_each};

use crate::components::{ReadComponents, WriteComponents};
use crate::recursive::{SameLevel, read_items};
use crate::traits::{DerDeserialize, DerSerialize};
use asn1_core_element::{Error, Reader};
use asn1_core_writers::{WriteError, Writer};
use std::alloc::Global;

/// Writes the items from the first to the last.
fn put_items<T: DerSerialize, W: Writer>(items: &[T], w: &mut W) -> Result<(), WriteError>
    requires may { W.MayTake w.old }
    requires forward { W.BACKWARD ≡ false }
    ensures { W.Takes (flat_map T.format.text (map T.value items.now)) w.old w.new result }
{
    for item in items {
        item.put(w)?;
    }
    Ok(())
}

/// Writes the items from the last to the first.
fn put_items_back<T: DerSerialize, W: Writer>(items: &[T], w: &mut W) -> Result<(), WriteError>
    requires may { W.MayTake w.old }
    requires backward { W.BACKWARD ≡ true }
    ensures { W.Takes (flat_map T.format.text (map T.value items.now)) w.old w.new result }
{
    let mut left = items.len();
    while left > 0 {
        left -= 1;
        items[left].put(w)?;
    }
    Ok(())
}

/// How many times the items that are there a list makes room for, at most.
pub(crate) const STEP: usize = 5;

/// The same of a list whose items may hold such lists. The bytes that are left may be those of a list in the next item,
/// which makes room for them again, and so on at each level.
pub(crate) const NESTED_STEP: usize = 2;

/// Puts an item after the others, where the items with this one took so many bytes and so many are left. A full vector
/// grows by what these bytes come to in items, so that a long list seldom moves, with little room to spare at its end.
/// Refuses by `Memory` alone.
pub(crate) fn push_item<T: Drop>(
    items: &mut Vec<T>,
    item: T,
    taken: usize,
    left: usize,
    most: usize,
) -> Result<(), Error>
    requires { 0 < most }
    ensures { MatchResult result (λ _. items.new.items ≡ items.old.items ++ item ∷ []) (λ e. e ≡ Memory) }
{
    if items.len() == items.capacity() {
        items.reserve_exact(room_for(items.len(), taken, left, most))?;
    }
    items.push(item)?;
    Ok(())
}

/// How many items a full list of that length makes room for: one, and those that come if all take as many bytes as those
/// so far, with a thirty-second to spare. With the items that are there, these are at most `most` times as many, since the
/// bytes that are left may be anything. A list that moves is there twice meanwhile, so the last move is the longest: of
/// two moves that are left, the first is to a `most`th of all. At least an eighth more, since a list whose items become
/// smaller would grow by one item each time.
fn room_for(len: usize, taken: usize, left: usize, most: usize) -> usize
    requires { 0 < most }
{
    if left == 0 {
        return 1;
    }
    let there = len.saturating_add(1);
    let coming = left.saturating_mul(there) / taken.max(1);
    let all = there.saturating_add(coming).saturating_add(coming / 32);
    let times = all / there;
    let room = if times < most {
        all
    } else if times / most < most {
        all / most
    } else {
        there.saturating_mul(most)
    };
    room.saturating_sub(len).max((len / 8).saturating_add(1))
}

/// Items, one after another.
impl<T: DerSerialize> WriteComponents for Vec<T> {
    ghost Value = { List T.Value };

    ghost value = { λ items. map T.value items.items };

    ghost format = { each T.format };

    fn put_components<W: Writer>(&self, w: &mut W) -> Result<(), WriteError> {
        if W::is_backward() {
            put_items_back(self.as_slice(), w)
        } else {
            put_items(self.as_slice(), w)
        }
    }

    fn components_well_formed_at(&self, limit: u8) -> bool {
        for item in self {
            if !item.well_formed_at(limit) {
                return false;
            }
        }
        true
    }
}

impl<T: DerDeserialize> ReadComponents for Vec<T> {
    fn read_components(alloc: Global, r: &mut Reader<'_>, nest: u8) -> Result<Self, Error> {
        read_items::<SameLevel, T, _>(
            alloc,
            r,
            nest,
            STEP,
            &|s: &mut Reader<'_>|
                requires { s.old.refused ≡ false }
                ensures { Gives T.value T.format nest s.old s.new result }
            { T::read(alloc, s, nest) },
        )
    }

    ghost lawful = { λ _. lawful_each T.DerSerialize.format T.lawful };
}
