//! INTEGER (X.690, 8.3).

ghost use Rattle.std.specs.Prelude.{ℕ, List};
ghost use Rattle.std.proofs.Common.{rules};
ghost use Rattle.asn1_leaves.specs.Asn1.{INTEGER};
ghost use Rattle.asn1_leaves.specs.Integers.{some_octets};

use asn1_core_element::{Error, Reader};
use asn1_core_format::{Leaf, TaggedType, TryClone, read_leaf_contents};
use asn1_core_writers::{WriteError, Writer, put_element};
use std::alloc::Global;

/// An INTEGER of any size, which keeps its contents octets, at least one, of any spelling. One of no octets can be
/// built, and isn't well-formed.
#[derive(Debug, Drop, PartialEq, Eq)]
pub struct IntegerAsn1(pub Vec<u8>);

impl Leaf for IntegerAsn1 {
    ghost Value = { List ℕ };

    ghost value = { λ x. x.0.items };

    ghost spelling = { some_octets };

    fn from_contents(alloc: Global, contents: &[u8]) -> Result<Self, Error> {
        if contents.is_empty() {
            return Err(Error::Invalid);
        }
        Ok(IntegerAsn1(Vec::from_slice(alloc, contents)?))
    }
}

impl TaggedType for IntegerAsn1 {
    ghost asn1 = { INTEGER };

    ghost value = { λ x. x.0.items };

    ghost TAG = { 0x02 };

    const TAG: u8 = 0x02;

    fn put_tagged<W: Writer>(&self, tag: u8, w: &mut W) -> Result<(), WriteError> {
        put_element(tag, self.0.as_slice(), w)
    }

    fn is_well_formed_at(&self, _limit: u8) -> bool {
        !self.0.is_empty()
    }

    fn read_open_contents(alloc: Global, r: &mut Reader<'_>, nest: u8) -> Result<Self, Error> {
        read_leaf_contents(alloc, r, nest, 0x02)
    }

    fn clone_value(&self, alloc: Global) -> Result<Self, Error> {
        Ok(IntegerAsn1(Vec::from_slice(alloc, self.0.as_slice())?))
    }

    ghost tagged = { INTEGER.tagged };

    ghost equal = { Prim.search rules };
}
