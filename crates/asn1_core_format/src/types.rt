//! Types that are declared once: all traits of a type that reads and writes, made of one impl. It is of `Sequence`, of
//! `TaggedType` if encodings have one tag, as of a primitive type or a set, else of `Asn1Type`, as of a CHOICE.
//!
//! Methods that only pass a result on are always inlined, here and in the other modules: around each call that isn't, the
//! compiled code fills the room of its result with zeros, and copies it out of there.

ghost use Rattle.std.specs.Prelude.{◌≡◌, ◌↔◌, ℕ, List, IsTrue, false};
ghost use Rattle.asn1_core_element.specs.Element.{retag};
ghost use Rattle.asn1_core_format.specs.Asn1.{Asn1};
ghost use Rattle.asn1_core_format.specs.Components.{GivesComponents};
ghost use Rattle.asn1_core_format.specs.Format.{Gives};
ghost use Rattle.asn1_core_format.specs.Omitted.{is_default_with, IsDefault, IsAbsentValue};
ghost use Rattle.asn1_core_format.specs.Tagged.{IsTagged, inside};
ghost use Rattle.asn1_core_format.specs.Views.{SeesEqual, Clones};

use crate::components::{HasDefault, WriteComponents};
use crate::tagged::DerTagged;
use crate::traits::{DerDeserialize, DerSerialize};
use crate::views::{EqualByText, TryClone};
use crate::visitors::{ComponentVisitor, Put, Test};
use asn1_core_element::element::open_element;
use asn1_core_element::{Error, Reader};
use asn1_core_writers::{WriteError, Writer};
use std::alloc::Global;

/// A type whose encodings may have several first tags: a CHOICE, or a newtype of one.
pub trait Asn1Type: PartialEq + Drop {
    /// What it is, with its law, as specs/ gives it beside the ASN.1.
    ghost asn1: { Asn1 };

    ghost value: { Self → asn1.Value };

    /// Hands what is written in its place to a visitor.
    fn with_encoded<U: ComponentVisitor>(&self, visitor: &mut U) -> U::Out
        requires { U.MayVisit visitor.old }
        ensures { U.Visits visitor.old visitor.new (asn1.format.text (value self.now)) (λ k. asn1.format.IsWellFormed k (value self.now)) result };

    /// Reads a value from the front of what is left, as `DerDeserialize::read` does.
    fn read_encoded(alloc: Global, r: &mut Reader<'_>, nest: u8) -> Result<Self, Error>
        requires { r.old.refused ≡ false }
        ensures { Gives value asn1.format nest r.old r.new result };

    /// Whether encodings may begin with that tag.
    fn is_first_tag(tag: u8) -> bool
        ensures { IsTrue result ↔ asn1.format.IsTag tag };

    /// Refuses by `Memory` only.
    fn clone_value(&self, alloc: Global) -> Result<Self, Error>
        ensures { Clones value self.now result };

    ghost equal: { SeesEqual Self.PartialEq.eq value };
}

impl<T: Asn1Type> DerSerialize for T {
    ghost Value = { T.asn1.Value };

    ghost value = { T.value };

    ghost format = { T.asn1.format };

    #[inline(always)]
    fn put<W: Writer>(&self, w: &mut W) -> Result<(), WriteError> {
        self.with_encoded(&mut Put { w })
    }

    fn well_formed_at(&self, limit: u8) -> bool {
        self.with_encoded(&mut Test { limit })
    }
}

impl<T: Asn1Type> DerDeserialize for T {
    #[inline(always)]
    fn read(alloc: Global, r: &mut Reader<'_>, nest: u8) -> Result<Self, Error> {
        T::read_encoded(alloc, r, nest)
    }

    fn begins(tag: u8) -> bool {
        T::is_first_tag(tag)
    }

    ghost lawful = { T.asn1.law };
}

impl<T: Asn1Type> EqualByText for T {
    ghost equal_by_text = { T.equal };
}

impl<T: Asn1Type> TryClone for T {
    #[inline(always)]
    fn try_clone(&self, alloc: Global) -> Result<Self, Error> {
        self.clone_value(alloc)
    }
}

/// A type whose encodings are elements with one tag, so that an IMPLICIT tag may replace it.
pub trait TaggedType: PartialEq + Drop {
    /// What it is, with its law, as specs/ gives it beside the ASN.1.
    ghost asn1: { Asn1 };

    ghost value: { Self → asn1.Value };

    ghost TAG: { ℕ };

    const TAG: u8;

    /// Writes the encoding, whose first byte becomes that tag.
    fn put_tagged<W: Writer>(&self, tag: u8, w: &mut W) -> Result<(), WriteError>
        requires { W.MayTake w.old }
        ensures { W.Takes (retag tag (asn1.format.text (value self.now))) w.old w.new result };

    /// Whether the value is well-formed with nesting of at most `limit` levels.
    fn is_well_formed_at(&self, limit: u8) -> bool
        ensures { IsTrue result ↔ asn1.format.IsWellFormed limit (value self.now) };

    /// Reads the open contents to their end, as those of an element with that tag.
    fn read_open_contents(alloc: Global, r: &mut Reader<'_>, nest: u8) -> Result<Self, Error>
        requires { r.old.refused ≡ false }
        ensures { GivesComponents value (inside TAG asn1.format) nest r.old r.new result };

    /// Refuses by `Memory` only.
    fn clone_value(&self, alloc: Global) -> Result<Self, Error>
        ensures { Clones value self.now result };

    ghost tagged: { IsTagged TAG asn1.format };

    ghost equal: { SeesEqual Self.PartialEq.eq value };
}

/// A value under its own tag.
#[derive(Drop)]
struct UnderOwnTag<R>(R);

impl<T: TaggedType> WriteComponents for UnderOwnTag<&T> {
    ghost Value = { T.TaggedType.asn1.Value };

    ghost value = { λ x. T.TaggedType.value x.0.now };

    ghost format = { T.TaggedType.asn1.format };

    fn put_components<W: Writer>(&self, w: &mut W) -> Result<(), WriteError> {
        self.0.put_tagged(<T as TaggedType>::TAG, w)
    }

    fn components_well_formed_at(&self, limit: u8) -> bool {
        self.0.is_well_formed_at(limit)
    }
}

impl<T: TaggedType> Asn1Type for T {
    ghost asn1 = { T.TaggedType.asn1 };

    ghost value = { T.TaggedType.value };

    fn with_encoded<U: ComponentVisitor>(&self, visitor: &mut U) -> U::Out {
        visitor.visit(&UnderOwnTag(self))
    }

    #[inline(always)]
    fn read_encoded(alloc: Global, r: &mut Reader<'_>, nest: u8) -> Result<Self, Error> {
        let outer = open_element(r, <T as TaggedType>::TAG)?;
        let value = T::read_open_contents(alloc, r, nest)?;
        r.close(outer);
        Ok(value)
    }

    fn is_first_tag(tag: u8) -> bool {
        tag == <T as TaggedType>::TAG
    }

    #[inline(always)]
    fn clone_value(&self, alloc: Global) -> Result<Self, Error> {
        <T as TaggedType>::clone_value(self, alloc)
    }

    ghost equal = { T.TaggedType.equal };
}

impl<T: TaggedType> DerTagged for T {
    ghost TAG = { T.TaggedType.TAG };

    const TAG: u8 = <T as TaggedType>::TAG;

    fn put_as<W: Writer>(&self, tag: u8, w: &mut W) -> Result<(), WriteError> {
        self.put_tagged(tag, w)
    }

    fn read_contents(alloc: Global, r: &mut Reader<'_>, nest: u8) -> Result<Self, Error> {
        T::read_open_contents(alloc, r, nest)
    }

    ghost tagged = { T.TaggedType.tagged };
}

/// A type that is declared once and has a DEFAULT (X.680, 25.5), or of which the empty set is left out.
pub trait DefaultType: Asn1Type {
    /// The encoding that absence means, and that is never written.
    ghost ABSENT: { List ℕ };

    /// Whether this is the value that absence means.
    fn is_absent(&self) -> bool
        ensures { result ≡ is_default_with 0 Self.asn1.format ABSENT (Self.value self.now) };

    /// The value that absence means, as `HasDefault::absent` has it.
    fn when_absent(alloc: Global) -> Result<Self, Error>
        ensures { IsAbsentValue Self.value Self.asn1.format ABSENT result };

    ghost absent_law: { IsDefault (is_default_with 0 Self.Asn1Type.asn1.format ABSENT) ABSENT Self.Asn1Type.asn1.format };
}

impl<T: DefaultType> HasDefault for T {
    ghost DEFAULT = { T.ABSENT };

    fn is_default(&self) -> bool {
        self.is_absent()
    }

    fn absent(alloc: Global) -> Result<Self, Error> {
        T::when_absent(alloc)
    }

    ghost left_out = { T.absent_law };
}
