//! Strings whose characters aren't tested (X.690, 8.23).

ghost use Rattle.std.specs.Prelude.{◌%◌};
ghost use Rattle.std.proofs.Common.{rules};
ghost use Rattle.asn1_core.specs.Octets.{any_octets};
ghost use Rattle.asn1_core.specs.Words.{Octets};
ghost use Rattle.asn1_module_leaves.specs.Asn1.{KEPT_STRING};

use asn1_core_element::{Error, Reader};
use asn1_core_format::{Leaf, TaggedType, read_leaf_contents};
use asn1_core_writers::{WriteError, Writer, put_element};
use std::alloc::Global;

/// A primitive element with the universal tag N, for N below 31, which keeps its contents octets.
#[derive(Debug, Drop, PartialEq, Eq)]
pub struct KeptAsn1<const N: u8>(pub Vec<u8>);

/// `NumericString`, whose characters aren't tested.
pub type NumericStringAsn1 = KeptAsn1<0x12>;

/// `PrintableString`, whose characters aren't tested.
pub type PrintableStringAsn1 = KeptAsn1<0x13>;

/// `TeletexString` (T61String), whose characters aren't tested.
pub type TeletexStringAsn1 = KeptAsn1<0x14>;

/// `VisibleString`, whose characters aren't tested.
pub type VisibleStringAsn1 = KeptAsn1<0x1A>;

/// `UniversalString`, whose characters aren't tested.
pub type UniversalStringAsn1 = KeptAsn1<0x1C>;

impl<const N: u8> Leaf for KeptAsn1<N> {
    ghost Value = { Octets };

    ghost value = { λ x. x.0.items };

    ghost spelling = { any_octets };

    fn from_contents(alloc: Global, contents: &[u8]) -> Result<Self, Error> {
        Ok(KeptAsn1(Vec::from_slice(alloc, contents)?))
    }
}

impl<const N: u8> TaggedType for KeptAsn1<N> {
    ghost asn1 = { KEPT_STRING N };

    ghost value = { λ x. x.0.items };

    ghost TAG = { N % 31 };

    const TAG: u8 = N % 31;

    fn put_tagged<W: Writer>(&self, tag: u8, w: &mut W) -> Result<(), WriteError> {
        put_element(tag, self.0.as_slice(), w)
    }

    fn is_well_formed_at(&self, _limit: u8) -> bool {
        true
    }

    fn read_open_contents(alloc: Global, r: &mut Reader<'_>, nest: u8) -> Result<Self, Error> {
        read_leaf_contents(alloc, r, nest, N % 31)
    }

    fn clone_value(&self, alloc: Global) -> Result<Self, Error> {
        Ok(KeptAsn1(Vec::from_slice(alloc, self.0.as_slice())?))
    }

    ghost tagged = { (KEPT_STRING N).tagged };

    ghost equal = { Prim.search rules };
}
