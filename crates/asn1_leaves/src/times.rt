//! UTCTime and GeneralizedTime (X.690, 11.7 and 11.8; RFC 5280, 4.1.2.5). Contents that spell no time, or spell it in
//! another way, are refused by `Invalid`.

ghost use Rattle.std.specs.Prelude.{◌≡◌, ◌≢◌, false, IfErr};
ghost use Rattle.std.proofs.Common.{arith};
ghost use Rattle.asn1_core_element.specs.declared.error.Error.TheVariants.{Memory};
ghost use Rattle.asn1_core_format.specs.Format.{Gives};
ghost use Rattle.asn1_core_format.specs.laws.TaggedLaws.{leaf_tagged};
ghost use Rattle.asn1_leaves.specs.Times.{utc_spelling, utc_time};
ghost use Rattle.asn1_leaves.specs.laws.Times.{lawful_utc_time};
ghost use Rattle.asn1_leaves.specs.Times.{generalized_spelling, generalized_time};
ghost use Rattle.asn1_leaves.specs.laws.Times.{lawful_generalized_time};
ghost use Rattle.asn1_leaves_times.specs.Times.{moment_of, moment_of_generalized};
ghost use Rattle.asn1_leaves_times.specs.laws.TimesLaws.{equal_utc, equal_generalized};
ghost use Rattle.asn1_leaves_times.specs.declared.calendar.Moment.{Moment};

use asn1_core_element::{Error, Reader};
use asn1_core_format::{
    DerDeserialize, DerSerialize, DerTagged, EqualByText, Leaf, TryClone, read_leaf,
    read_leaf_contents,
};
use asn1_core_writers::{WriteError, Writer, put_element};
use asn1_leaves_times::{GeneralizedTime, UTCTime};
use std::alloc::Global;

/// A UTCTime as one element, with tag 0x17. Reading takes no memory.
#[derive(Debug, Drop, PartialEq, Eq)]
pub struct UTCTimeAsn1(pub UTCTime);

impl Leaf for UTCTimeAsn1 {
    ghost Value = { Moment };

    ghost value = { λ t. moment_of t.0 };

    ghost spelling = { utc_spelling };

    ghost MayLackMemory = { ⊥ };

    fn from_contents(_alloc: Global, contents: &[u8]) -> Result<Self, Error> {
        let time = UTCTime::from_contents(contents).ok_or(Error::Invalid)?;
        Ok(UTCTimeAsn1(time))
    }
}

impl DerSerialize for UTCTimeAsn1 {
    ghost Value = { Moment };

    ghost value = { λ t. moment_of t.0 };

    ghost format = { utc_time };

    fn put<W: Writer>(&self, w: &mut W) -> Result<(), WriteError> {
        put_element(0x17, &self.0.spelled(), w)
    }

    fn well_formed_at(&self, _limit: u8) -> bool {
        true
    }
}

impl DerDeserialize for UTCTimeAsn1 {
    fn read(alloc: Global, r: &mut Reader<'_>, nest: u8) -> Result<Self, Error>
        requires { r.old.refused ≡ false }
        ensures gives { Gives (λ t. moment_of t.0) utc_time nest r.old r.new result }
        ensures memory { IfErr result (λ e. e ≢ Memory) }
    {
        read_leaf(alloc, r, nest, 0x17)
    }

    fn begins(tag: u8) -> bool {
        tag == 0x17
    }

    ghost lawful = { lawful_utc_time };
}

impl DerTagged for UTCTimeAsn1 {
    ghost TAG = { 0x17 };

    const TAG: u8 = 0x17;

    fn put_as<W: Writer>(&self, tag: u8, w: &mut W) -> Result<(), WriteError> {
        put_element(tag, &self.0.spelled(), w)
    }

    fn read_contents(alloc: Global, r: &mut Reader<'_>, nest: u8) -> Result<Self, Error> {
        read_leaf_contents(alloc, r, nest, 0x17)
    }

    ghost tagged = { leaf_tagged 0x17 (Prim.omega arith) utc_spelling };
}

impl EqualByText for UTCTimeAsn1 {
    ghost equal_by_text = { λ x y. equal_utc x.0 y.0 };
}

impl TryClone for UTCTimeAsn1 {
    fn try_clone(&self, _alloc: Global) -> Result<Self, Error> {
        Ok(UTCTimeAsn1(self.0))
    }
}

/// A GeneralizedTime as one element, with tag 0x18. Reading takes no memory.
#[derive(Debug, Drop, PartialEq, Eq)]
pub struct GeneralizedTimeAsn1(pub GeneralizedTime);

impl Leaf for GeneralizedTimeAsn1 {
    ghost Value = { Moment };

    ghost value = { λ t. moment_of_generalized t.0 };

    ghost spelling = { generalized_spelling };

    ghost MayLackMemory = { ⊥ };

    fn from_contents(_alloc: Global, contents: &[u8]) -> Result<Self, Error> {
        let time = GeneralizedTime::from_contents(contents).ok_or(Error::Invalid)?;
        Ok(GeneralizedTimeAsn1(time))
    }
}

impl DerSerialize for GeneralizedTimeAsn1 {
    ghost Value = { Moment };

    ghost value = { λ t. moment_of_generalized t.0 };

    ghost format = { generalized_time };

    fn put<W: Writer>(&self, w: &mut W) -> Result<(), WriteError> {
        put_element(0x18, &self.0.spelled(), w)
    }

    fn well_formed_at(&self, _limit: u8) -> bool {
        true
    }
}

impl DerDeserialize for GeneralizedTimeAsn1 {
    fn read(alloc: Global, r: &mut Reader<'_>, nest: u8) -> Result<Self, Error>
        requires { r.old.refused ≡ false }
        ensures gives { Gives (λ t. moment_of_generalized t.0) generalized_time nest r.old r.new result }
        ensures memory { IfErr result (λ e. e ≢ Memory) }
    {
        read_leaf(alloc, r, nest, 0x18)
    }

    fn begins(tag: u8) -> bool {
        tag == 0x18
    }

    ghost lawful = { lawful_generalized_time };
}

impl DerTagged for GeneralizedTimeAsn1 {
    ghost TAG = { 0x18 };

    const TAG: u8 = 0x18;

    fn put_as<W: Writer>(&self, tag: u8, w: &mut W) -> Result<(), WriteError> {
        put_element(tag, &self.0.spelled(), w)
    }

    fn read_contents(alloc: Global, r: &mut Reader<'_>, nest: u8) -> Result<Self, Error> {
        read_leaf_contents(alloc, r, nest, 0x18)
    }

    ghost tagged = { leaf_tagged 0x18 (Prim.omega arith) generalized_spelling };
}

impl EqualByText for GeneralizedTimeAsn1 {
    ghost equal_by_text = { λ x y. equal_generalized x.0 y.0 };
}

impl TryClone for GeneralizedTimeAsn1 {
    fn try_clone(&self, _alloc: Global) -> Result<Self, Error> {
        Ok(GeneralizedTimeAsn1(self.0))
    }
}
