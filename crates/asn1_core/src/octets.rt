//! OCTET STRING (X.690, 8.7).

ghost use Rattle.std.specs.Prelude.{ℕ, List};
ghost use Rattle.asn1_core.specs.ViewsEqual.{octets_equal};
ghost use Rattle.asn1_core.specs.Asn1.{OCTET_STRING};
ghost use Rattle.asn1_core.specs.Octets.{any_octets};

use asn1_core_element::{Error, Reader};
use asn1_core_format::{Leaf, TaggedType, read_leaf_contents};
use asn1_core_writers::{WriteError, Writer, put_element};
use std::alloc::Global;

/// An OCTET STRING.
#[derive(Debug, Drop, PartialEq, Eq)]
pub struct OctetStringAsn1(pub Vec<u8>);

impl Leaf for OctetStringAsn1 {
    ghost Value = { List ℕ };

    ghost value = { λ s. s.0.items };

    ghost spelling = { any_octets };

    fn from_contents(alloc: Global, contents: &[u8]) -> Result<Self, Error> {
        Ok(OctetStringAsn1(Vec::from_slice(alloc, contents)?))
    }
}

impl TaggedType for OctetStringAsn1 {
    ghost asn1 = { OCTET_STRING };

    ghost value = { λ s. s.0.items };

    ghost TAG = { 0x04 };

    const TAG: u8 = 0x04;

    fn put_tagged<W: Writer>(&self, tag: u8, w: &mut W) -> Result<(), WriteError> {
        put_element(tag, self.0.as_slice(), w)
    }

    fn is_well_formed_at(&self, _limit: u8) -> bool {
        true
    }

    fn read_open_contents(alloc: Global, r: &mut Reader<'_>, nest: u8) -> Result<Self, Error> {
        read_leaf_contents(alloc, r, nest, 0x04)
    }

    fn clone_value(&self, alloc: Global) -> Result<Self, Error> {
        Ok(OctetStringAsn1(Vec::from_slice(alloc, self.0.as_slice())?))
    }

    ghost tagged = { OCTET_STRING.tagged };

    ghost equal = { octets_equal };
}
