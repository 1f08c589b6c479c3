//! BOOLEAN, where FALSE is the default.

ghost use Rattle.std.specs.Prelude.{Bool};
ghost use Rattle.std.proofs.Common.{rules};
ghost use Rattle.asn1_core.specs.Asn1.{BOOLEAN};
ghost use Rattle.asn1_core.specs.Booleans.{booleans, explicit_false, false_reads};
ghost use Rattle.asn1_core.specs.laws.Booleans.{is_false, false_left_out};

use asn1_core_element::{Error, Reader};
use asn1_core_format::{DefaultType, Leaf, TaggedType, read_leaf_contents};
use asn1_core_writers::{WriteError, Writer, put_element};
use std::alloc::Global;

/// `BOOLEAN DEFAULT FALSE`: one octet, `FF` for TRUE (X.690, 8.2 and 11.1). FALSE is left out where it is an `Omitted` part.
#[derive(Clone, Copy, Debug, PartialEq, Eq)]
pub struct DefaultFalse(pub bool);

impl Leaf for DefaultFalse {
    ghost Value = { Bool };

    ghost value = { λ x. x.0 };

    ghost spelling = { booleans };

    fn from_contents(_alloc: Global, contents: &[u8]) -> Result<Self, Error> {
        match contents {
            [0x00] => Ok(DefaultFalse(false)),
            [0xFF] => Ok(DefaultFalse(true)),
            _ => Err(Error::Invalid),
        }
    }
}

impl TaggedType for DefaultFalse {
    ghost asn1 = { BOOLEAN };

    ghost value = { λ x. x.0 };

    ghost TAG = { 0x01 };

    const TAG: u8 = 0x01;

    fn put_tagged<W: Writer>(&self, tag: u8, w: &mut W) -> Result<(), WriteError> {
        if self.0 {
            put_element(tag, &[0xFF], w)
        } else {
            put_element(tag, &[0x00], w)
        }
    }

    fn is_well_formed_at(&self, _limit: u8) -> bool {
        true
    }

    fn read_open_contents(alloc: Global, r: &mut Reader<'_>, nest: u8) -> Result<Self, Error> {
        read_leaf_contents(alloc, r, nest, 0x01)
    }

    fn clone_value(&self, _alloc: Global) -> Result<Self, Error> {
        Ok(*self)
    }

    ghost tagged = { BOOLEAN.tagged };

    ghost equal = { Prim.search rules };
}

impl DefaultType for DefaultFalse {
    ghost ABSENT = { explicit_false };

    #[tactic(auto, using(crate::specs::laws::Booleans::is_false))]
    fn is_absent(&self) -> bool {
        !self.0
    }

    #[tactic(auto, using(crate::specs::Booleans::false_reads))]
    fn when_absent(_alloc: Global) -> Result<Self, Error> {
        Ok(DefaultFalse(false))
    }

    ghost absent_law = { false_left_out };
}
