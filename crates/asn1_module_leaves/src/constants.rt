//! BOOLEAN and NULL (X.690, 8.2 and 8.8).

ghost use Rattle.std.proofs.Common.{rules};
ghost use Rattle.asn1_core.specs.Nulls.{no_contents};
ghost use Rattle.asn1_core.specs.Asn1.{NULL};

/// `BOOLEAN`: one octet, `FF` for TRUE (X.690, 11.1). Only where it is an `Omitted` part is FALSE its default.
pub use asn1_core::DefaultFalse as BooleanAsn1;
use asn1_core_element::{Error, Reader};
use asn1_core_format::{Leaf, TaggedType, read_leaf_contents};
use asn1_core_writers::{WriteError, Writer, put_element};
use std::alloc::Global;

/// `NULL`
#[derive(Clone, Copy, Debug, PartialEq, Eq)]
pub struct NullAsn1;

impl Leaf for NullAsn1 {
    ghost Value = { Unit {0} };

    ghost value = { λ _. tt };

    ghost spelling = { no_contents };

    fn from_contents(_alloc: Global, contents: &[u8]) -> Result<Self, Error> {
        if contents.is_empty() {
            Ok(NullAsn1)
        } else {
            Err(Error::Invalid)
        }
    }
}

impl TaggedType for NullAsn1 {
    ghost asn1 = { NULL };

    ghost value = { λ _. tt };

    ghost TAG = { 0x05 };

    const TAG: u8 = 0x05;

    fn put_tagged<W: Writer>(&self, tag: u8, w: &mut W) -> Result<(), WriteError> {
        put_element(tag, &[], w)
    }

    fn is_well_formed_at(&self, _limit: u8) -> bool {
        true
    }

    fn read_open_contents(alloc: Global, r: &mut Reader<'_>, nest: u8) -> Result<Self, Error> {
        read_leaf_contents(alloc, r, nest, 0x05)
    }

    fn clone_value(&self, _alloc: Global) -> Result<Self, Error> {
        Ok(*self)
    }

    ghost tagged = { NULL.tagged };

    ghost equal = { Prim.search rules };
}
