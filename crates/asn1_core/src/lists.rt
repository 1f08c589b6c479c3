//! SEQUENCE OF and SET OF. Lists keep their order, both ways.

ghost use Rattle.std.specs.Prelude.{◌≡◌, List, map, slice_get};
ghost use Rattle.std.proofs.Common.{arith};
ghost use Rattle.asn1_core_format.specs.Lists.{each};
ghost use Rattle.asn1_core_format.specs.laws.ListLaws.{lawful_each};
ghost use Rattle.asn1_core_format.specs.Components.{option_value, within};
ghost use Rattle.asn1_core_format.specs.laws.ComponentLaws.{lawful_within};
ghost use Rattle.asn1_core_format.specs.Sequences.{set_of};
ghost use Rattle.asn1_core_format.specs.laws.Sequences.{lawful_set};
ghost use Rattle.asn1_core_format.specs.laws.TaggedLaws.{within_tagged};
ghost use Rattle.asn1_core_format.specs.laws.Views.{list_equal};

use asn1_core_element::{Error, Reader};
use asn1_core_format::{
    DerDeserialize, DerSerialize, DerTagged, EqualByText, TryClone, WriteComponents, put_within,
    read_inside, read_within,
};
use asn1_core_writers::{WriteError, Writer};
use std::alloc::Global;

/// `SEQUENCE OF T`, whose items are in the order in which they were read.
#[derive(Debug, Drop, PartialEq, Eq)]
pub struct Asn1SequenceOf<T>(pub Vec<T>);

impl<T: DerSerialize> DerSerialize for Asn1SequenceOf<T> {
    ghost Value = { List T.Value };

    ghost value = { λ s. map T.value s.0.items };

    ghost format = { within 0x30 (each T.format) };

    fn put<W: Writer>(&self, w: &mut W) -> Result<(), WriteError> {
        put_within(0x30, &self.0, w)
    }

    fn well_formed_at(&self, limit: u8) -> bool {
        self.0.components_well_formed_at(limit)
    }
}

impl<T: DerDeserialize> DerDeserialize for Asn1SequenceOf<T> {
    fn read(alloc: Global, r: &mut Reader<'_>, nest: u8) -> Result<Self, Error> {
        let items = read_within::<Vec<T>>(alloc, r, nest, 0x30)?;
        Ok(Asn1SequenceOf(items))
    }

    fn begins(tag: u8) -> bool {
        tag == 0x30
    }

    ghost lawful = { lawful_within (each T.DerSerialize.format) (lawful_each T.DerSerialize.format T.lawful) 0x30 (Prim.omega arith) };
}

impl<T: DerDeserialize> DerTagged for Asn1SequenceOf<T> {
    ghost TAG = { 0x30 };

    const TAG: u8 = 0x30;

    fn put_as<W: Writer>(&self, tag: u8, w: &mut W) -> Result<(), WriteError> {
        put_within(tag, &self.0, w)
    }

    fn read_contents(alloc: Global, r: &mut Reader<'_>, nest: u8) -> Result<Self, Error> {
        let items = read_inside::<Vec<T>>(alloc, r, nest, 0x30)?;
        Ok(Asn1SequenceOf(items))
    }

    ghost tagged = { within_tagged 0x30 (Prim.omega arith) (each T.DerSerialize.format) };
}

impl<T: EqualByText> EqualByText for Asn1SequenceOf<T> {
    ghost equal_by_text = { λ x y. list_equal T.eq T.DerSerialize.value T.equal_by_text x.0.items y.0.items };
}

impl<T: TryClone + EqualByText> TryClone for Asn1SequenceOf<T> {
    #[inline(always)]
    fn try_clone(&self, alloc: Global) -> Result<Self, Error> {
        Ok(Asn1SequenceOf(self.0.try_clone(alloc)?))
    }
}

/// `SET OF T`, whose items are in the order in which they were read.
#[derive(Debug, Drop, PartialEq, Eq)]
pub struct Asn1SetOf<T>(pub Vec<T>);

impl<T: DerSerialize> DerSerialize for Asn1SetOf<T> {
    ghost Value = { List T.Value };

    ghost value = { λ s. map T.value s.0.items };

    ghost format = { set_of T.format };

    fn put<W: Writer>(&self, w: &mut W) -> Result<(), WriteError> {
        put_within(0x31, &self.0, w)
    }

    fn well_formed_at(&self, limit: u8) -> bool {
        self.0.components_well_formed_at(limit)
    }
}

impl<T: DerDeserialize> DerDeserialize for Asn1SetOf<T> {
    fn read(alloc: Global, r: &mut Reader<'_>, nest: u8) -> Result<Self, Error> {
        let items = read_within::<Vec<T>>(alloc, r, nest, 0x31)?;
        Ok(Asn1SetOf(items))
    }

    fn begins(tag: u8) -> bool {
        tag == 0x31
    }

    ghost lawful = { lawful_set T.DerSerialize.format T.lawful };
}

impl<T: DerDeserialize> DerTagged for Asn1SetOf<T> {
    ghost TAG = { 0x31 };

    const TAG: u8 = 0x31;

    fn put_as<W: Writer>(&self, tag: u8, w: &mut W) -> Result<(), WriteError> {
        put_within(tag, &self.0, w)
    }

    fn read_contents(alloc: Global, r: &mut Reader<'_>, nest: u8) -> Result<Self, Error> {
        let items = read_inside::<Vec<T>>(alloc, r, nest, 0x31)?;
        Ok(Asn1SetOf(items))
    }

    ghost tagged = { within_tagged 0x31 (Prim.omega arith) (each T.DerSerialize.format) };
}

impl<T: EqualByText> EqualByText for Asn1SetOf<T> {
    ghost equal_by_text = { λ x y. list_equal T.eq T.DerSerialize.value T.equal_by_text x.0.items y.0.items };
}

impl<T: TryClone + EqualByText> TryClone for Asn1SetOf<T> {
    #[inline(always)]
    fn try_clone(&self, alloc: Global) -> Result<Self, Error> {
        Ok(Asn1SetOf(self.0.try_clone(alloc)?))
    }
}

/// The item with that index, as `get` of a slice gives it, with a contract over the values of the items.
pub fn item<T>(items: &[T], index: usize) -> Option<&T>
    ensures { option_value (λ x. x.now) result ≡ slice_get items.now index }
{
    match items.get(index) {
        Some(item) => Some(item),
        None => None,
    }
}
