//! Numbers as INTEGERs in minimal two's complement (X.690, 8.3).

ghost use Rattle.std.specs.Prelude.{◌≡◌, ◌≢◌, ◌^◌, ℕ, false, IfErr};
ghost use Rattle.std.proofs.Common.{arith};
ghost use Rattle.asn1_core_element.specs.declared.error.Error.TheVariants.{Memory};
ghost use Rattle.asn1_core_format.specs.Format.{Gives};
ghost use Rattle.asn1_core_format.specs.Numbers.{numbers_below, number_below};
ghost use Rattle.asn1_core_format.specs.laws.Numbers.{lawful_number};
ghost use Rattle.asn1_core_format.specs.laws.TaggedLaws.{leaf_tagged};

use crate::leaves::{Leaf, read_leaf, read_leaf_contents};
use crate::tagged::DerTagged;
use crate::traits::{DerDeserialize, DerSerialize};
use asn1_core_element::{Error, Reader, unsigned};
use asn1_core_writers::{WriteError, Writer, put_unsigned};
use std::alloc::Global;

impl Leaf for u8 {
    ghost Value = { ℕ };

    ghost value = { λ n. n };

    ghost spelling = { numbers_below (2 ^ 8) };

    ghost MayLackMemory = { ⊥ };

    fn from_contents(_alloc: Global, contents: &[u8]) -> Result<Self, Error> {
        match unsigned(contents, 255) {
            Some(n) => Ok(n as u8),
            None => Err(Error::Invalid),
        }
    }
}

impl DerSerialize for u8 {
    ghost Value = { ℕ };

    ghost value = { λ n. n };

    ghost format = { number_below (2 ^ 8) };

    fn put<W: Writer>(&self, w: &mut W) -> Result<(), WriteError> {
        put_unsigned(0x02, u32::from(*self), w)
    }

    fn well_formed_at(&self, _limit: u8) -> bool {
        let _value = *self;
        true
    }
}

impl DerDeserialize for u8 {
    /// Takes no memory.
    fn read(alloc: Global, r: &mut Reader<'_>, nest: u8) -> Result<Self, Error>
        requires { r.old.refused ≡ false }
        ensures gives { Gives (λ n. n) (number_below (2 ^ 8)) nest r.old r.new result }
        ensures memory { IfErr result (λ e. e ≢ Memory) }
    {
        read_leaf(alloc, r, nest, 0x02)
    }

    fn begins(tag: u8) -> bool {
        tag == 0x02
    }

    ghost lawful = { lawful_number (2 ^ 8) };
}

impl DerTagged for u8 {
    ghost TAG = { 0x02 };

    const TAG: u8 = 0x02;

    fn put_as<W: Writer>(&self, tag: u8, w: &mut W) -> Result<(), WriteError> {
        put_unsigned(tag, u32::from(*self), w)
    }

    fn read_contents(alloc: Global, r: &mut Reader<'_>, nest: u8) -> Result<Self, Error> {
        read_leaf_contents(alloc, r, nest, 0x02)
    }

    ghost tagged = { leaf_tagged 0x02 (Prim.omega arith) (numbers_below (2 ^ 8)) };
}

impl Leaf for u32 {
    ghost Value = { ℕ };

    ghost value = { λ n. n };

    ghost spelling = { numbers_below (2 ^ 32) };

    ghost MayLackMemory = { ⊥ };

    fn from_contents(_alloc: Global, contents: &[u8]) -> Result<Self, Error> {
        match unsigned(contents, u32::MAX) {
            Some(n) => Ok(n),
            None => Err(Error::Invalid),
        }
    }
}

impl DerSerialize for u32 {
    ghost Value = { ℕ };

    ghost value = { λ n. n };

    ghost format = { number_below (2 ^ 32) };

    fn put<W: Writer>(&self, w: &mut W) -> Result<(), WriteError> {
        put_unsigned(0x02, *self, w)
    }

    fn well_formed_at(&self, _limit: u8) -> bool {
        let _value = *self;
        true
    }
}

impl DerDeserialize for u32 {
    /// Takes no memory.
    fn read(alloc: Global, r: &mut Reader<'_>, nest: u8) -> Result<Self, Error>
        requires { r.old.refused ≡ false }
        ensures gives { Gives (λ n. n) (number_below (2 ^ 32)) nest r.old r.new result }
        ensures memory { IfErr result (λ e. e ≢ Memory) }
    {
        read_leaf(alloc, r, nest, 0x02)
    }

    fn begins(tag: u8) -> bool {
        tag == 0x02
    }

    ghost lawful = { lawful_number (2 ^ 32) };
}

impl DerTagged for u32 {
    ghost TAG = { 0x02 };

    const TAG: u8 = 0x02;

    fn put_as<W: Writer>(&self, tag: u8, w: &mut W) -> Result<(), WriteError> {
        put_unsigned(tag, *self, w)
    }

    fn read_contents(alloc: Global, r: &mut Reader<'_>, nest: u8) -> Result<Self, Error> {
        read_leaf_contents(alloc, r, nest, 0x02)
    }

    ghost tagged = { leaf_tagged 0x02 (Prim.omega arith) (numbers_below (2 ^ 32)) };
}
