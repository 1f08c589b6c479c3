//! OBJECT IDENTIFIER (X.690, 8.19).

ghost use Rattle.std.specs.Prelude.{ℕ, List};
ghost use Rattle.asn1_core.specs.Asn1.{OBJECT_IDENTIFIER};
ghost use Rattle.asn1_core.specs.Objects.{oid_octets, object_identifier};
ghost use Rattle.asn1_core_oid.specs.OidValue.{octets_of};
ghost use Rattle.asn1_core_oid.specs.laws.OidValueLaws.{equal_octets};

use asn1_core_element::{Error, Reader};
use asn1_core_format::{DerSerialize, Leaf, TaggedType, TryClone, read_leaf_contents};
use asn1_core_oid::{ObjectIdentifier, is_oid};
use asn1_core_writers::{WriteError, Writer, put_element};
use std::alloc::Global;

/// An OBJECT IDENTIFIER.
#[derive(Debug, Drop, PartialEq, Eq)]
pub struct ObjectIdentifierAsn1(pub ObjectIdentifier);

impl Leaf for ObjectIdentifierAsn1 {
    ghost Value = { List ℕ };

    ghost value = { λ x. octets_of x.0 };

    ghost spelling = { oid_octets };

    fn from_contents(alloc: Global, contents: &[u8]) -> Result<Self, Error> {
        Ok(ObjectIdentifierAsn1(ObjectIdentifier::from_octets(alloc, contents)?))
    }
}

impl TaggedType for ObjectIdentifierAsn1 {
    ghost asn1 = { OBJECT_IDENTIFIER };

    ghost value = { λ x. octets_of x.0 };

    ghost TAG = { 0x06 };

    const TAG: u8 = 0x06;

    fn put_tagged<W: Writer>(&self, tag: u8, w: &mut W) -> Result<(), WriteError> {
        put_element(tag, self.0.octets(), w)
    }

    fn is_well_formed_at(&self, _limit: u8) -> bool {
        true
    }

    fn read_open_contents(alloc: Global, r: &mut Reader<'_>, nest: u8) -> Result<Self, Error> {
        read_leaf_contents(alloc, r, nest, 0x06)
    }

    fn clone_value(&self, alloc: Global) -> Result<Self, Error> {
        Ok(ObjectIdentifierAsn1(self.0.try_clone(alloc)?))
    }

    ghost tagged = { OBJECT_IDENTIFIER.tagged };

    ghost equal = { λ x y. equal_octets x.0 y.0 };
}

/// A borrowed object identifier, as a part for writing.
#[derive(Drop)]
pub struct OidRef<'a>(pub &'a ObjectIdentifier);

impl DerSerialize for OidRef<'_> {
    ghost Value = { List ℕ };

    ghost value = { λ x. octets_of x.0.now };

    ghost format = { object_identifier };

    fn put<W: Writer>(&self, w: &mut W) -> Result<(), WriteError> {
        put_element(0x06, self.0.octets(), w)
    }

    fn well_formed_at(&self, _limit: u8) -> bool {
        true
    }
}

/// The contents octets of an object identifier, as a part for writing: a known one is written from a constant.
#[derive(Drop)]
pub struct KnownOid<'a>(pub &'a [u8]);

impl DerSerialize for KnownOid<'_> {
    ghost Value = { List ℕ };

    ghost value = { λ x. x.0.now };

    ghost format = { object_identifier };

    fn put<W: Writer>(&self, w: &mut W) -> Result<(), WriteError> {
        put_element(0x06, self.0, w)
    }

    fn well_formed_at(&self, _limit: u8) -> bool {
        is_oid(self.0)
    }
}
