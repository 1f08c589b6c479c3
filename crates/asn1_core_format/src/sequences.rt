//! SEQUENCEs (X.690, 8.9): types that are written as their components in order, and read as these.

ghost use Rattle.std.specs.Prelude.{◌≡◌, false};
ghost use Rattle.std.proofs.Common.{arith};
ghost use Rattle.asn1_core_format.specs.Asn1.{Contents as Body, SEQUENCE};
ghost use Rattle.asn1_core_format.specs.Components.{GivesComponents};
ghost use Rattle.asn1_core_format.specs.laws.TaggedLaws.{within_tagged};
ghost use Rattle.asn1_core_format.specs.Views.{SeesEqual, Clones};

use crate::types::TaggedType;
use crate::visitors::{ComponentVisitor, PutWithin, Test};
use asn1_core_element::{Error, Reader};
use asn1_core_writers::{WriteError, Writer};
use std::alloc::Global;

/// A SEQUENCE of which each component may be OPTIONAL or have a DEFAULT. It has all traits of a type, with their laws, and
/// may be under an implicit tag.
pub trait Sequence: PartialEq + Drop {
    /// What the contents are, with their law, as specs/ gives it beside the ASN.1.
    ghost asn1: { Body };

    ghost value: { Self → asn1.Value };

    /// Hands the components to a visitor, in order.
    fn with_components<U: ComponentVisitor>(&self, visitor: &mut U) -> U::Out
        requires { U.MayVisit visitor.old }
        ensures { U.Visits visitor.old visitor.new (asn1.format.text (value self.now)) (λ k. asn1.format.IsWellFormed k (value self.now)) result };

    /// Reads the components, to the end of the open contents.
    fn read_fields(alloc: Global, r: &mut Reader<'_>, nest: u8) -> Result<Self, Error>
        requires { r.old.refused ≡ false }
        ensures { GivesComponents value asn1.format nest r.old r.new result };

    /// Clones the fields. Refuses by `Memory` only.
    fn clone_fields(&self, alloc: Global) -> Result<Self, Error>
        ensures { Clones value self.now result };

    ghost equal: { SeesEqual Self.PartialEq.eq value };
}

impl<T: Sequence> TaggedType for T {
    ghost asn1 = { SEQUENCE T.Sequence.asn1 };

    ghost value = { T.Sequence.value };

    ghost TAG = { 0x30 };

    const TAG: u8 = 0x30;

    fn put_tagged<W: Writer>(&self, tag: u8, w: &mut W) -> Result<(), WriteError> {
        self.with_components(&mut PutWithin { tag, w })
    }

    fn is_well_formed_at(&self, limit: u8) -> bool {
        self.with_components(&mut Test { limit })
    }

    #[inline(always)]
    fn read_open_contents(alloc: Global, r: &mut Reader<'_>, nest: u8) -> Result<Self, Error> {
        T::read_fields(alloc, r, nest)
    }

    #[inline(always)]
    fn clone_value(&self, alloc: Global) -> Result<Self, Error> {
        self.clone_fields(alloc)
    }

    ghost tagged = { within_tagged 0x30 (Prim.omega arith) T.Sequence.asn1.format };

    ghost equal = { T.Sequence.equal };
}
