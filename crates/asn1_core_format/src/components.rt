//! Components: what contents hold from one place to their end, in order. Some may be absent.

ghost use Rattle.std.specs.Prelude.{◌≡◌, ◌↔◌, ◌++◌, ◌&&◌, ℕ, List, Option, Bool, IsTrue, true, false};
ghost use Rattle.asn1_core_format.specs.Format.{Format, IsLawfulComponents, are_distinct};
ghost use Rattle.asn1_core_format.specs.Nexts.{NextIs};
ghost use Rattle.asn1_core_format.specs.Omitted.{omitted, is_default_with, IsDefault, IsAbsentValue};
ghost use Rattle.asn1_core_format.specs.laws.Omitted.{omitted_if_distinct};
ghost use Rattle.asn1_core_format.specs.Components.{nothing, part, optional, option_value, GivesComponents};
ghost use Rattle.asn1_core_format.specs.laws.ComponentLaws.{lawful_nothing, lawful_part, optional_if_distinct};

use crate::traits::{DerDeserialize, DerSerialize, Ref};
use asn1_core_element::{Error, Reader};
use asn1_core_writers::{WriteError, Writer};
use std::alloc::Global;

/// Parts that are written one after another.
pub trait WriteComponents {
    ghost Value: { Type 0 };

    ghost value: { Self → Value };

    ghost format: { Format Value };

    /// Writes the parts, of ill-formed values too.
    fn put_components<W: Writer>(&self, w: &mut W) -> Result<(), WriteError>
        requires { W.MayTake w.old }
        ensures { W.Takes (format.text (value self.now)) w.old w.new result };

    /// Whether each part is well-formed with nesting of at most `limit` levels.
    fn components_well_formed_at(&self, limit: u8) -> bool
        ensures { IsTrue result ↔ format.IsWellFormed limit (value self.now) };
}

/// Parts that are read to the end of the open contents.
pub trait ReadComponents: WriteComponents + Drop {
    /// Whether the first tags of each component that may be absent are distinct from those that may follow it (X.680, 25.6).
    ghost distinct: { Bool } = { true };

    fn read_components(alloc: Global, r: &mut Reader<'_>, nest: u8) -> Result<Self, Error>
        requires sound { r.old.refused ≡ false }
        requires tags { distinct ≡ true }
        ensures { GivesComponents Self.value Self.format nest r.old r.new result };

    ghost lawful: { distinct ≡ true → IsLawfulComponents Self.WriteComponents.format };
}

/// Nothing more.
#[derive(Drop)]
pub struct End;

impl WriteComponents for End {
    ghost Value = { Unit {0} };

    ghost value = { λ _. tt };

    ghost format = { nothing };

    fn put_components<W: Writer>(&self, _w: &mut W) -> Result<(), WriteError> {
        Ok(())
    }

    fn components_well_formed_at(&self, _limit: u8) -> bool {
        true
    }
}

impl ReadComponents for End {
    #[inline(always)]
    fn read_components(_alloc: Global, r: &mut Reader<'_>, _nest: u8) -> Result<Self, Error> {
        if r.left() > 0 {
            return Err(Error::Malformed);
        }
        Ok(End)
    }

    ghost lawful = { λ _. lawful_nothing };
}

/// A part that is always there, and what follows it.
#[derive(Drop)]
pub struct Required<A, R>(pub A, pub R);

impl<A: DerSerialize, R: WriteComponents> WriteComponents for Required<A, R> {
    ghost Value = { A.Value × R.Value };

    ghost value = { λ p. (A.value p.0, R.value p.1) };

    ghost format = { part A.format R.format };

    #[inline(always)]
    fn put_components<W: Writer>(&self, w: &mut W) -> Result<(), WriteError> {
        put_both(&Alone(Ref(&self.0)), &self.1, w)
    }

    fn components_well_formed_at(&self, limit: u8) -> bool {
        self.0.well_formed_at(limit) && self.1.components_well_formed_at(limit)
    }
}

impl<A: DerDeserialize, R: ReadComponents> ReadComponents for Required<A, R> {
    ghost distinct = { R.distinct };

    #[inline(always)]
    fn read_components(alloc: Global, r: &mut Reader<'_>, nest: u8) -> Result<Self, Error> {
        let first = A::read(alloc, r, nest)?;
        let rest = R::read_components(alloc, r, nest)?;
        Ok(Required(first, rest))
    }

    ghost lawful = { λ c. lawful_part A.DerSerialize.format R.WriteComponents.format A.lawful (R.lawful c) };
}

/// A part that may be absent, and what follows it.
#[derive(Drop)]
pub struct Maybe<A, R>(pub Option<A>, pub R);

impl<A: DerSerialize, R: WriteComponents> WriteComponents for Maybe<A, R> {
    ghost Value = { Option A.Value × R.Value };

    ghost value = { λ p. (option_value A.value p.0, R.value p.1) };

    ghost format = { optional A.format R.format };

    fn put_components<W: Writer>(&self, w: &mut W) -> Result<(), WriteError> {
        MaybeRef(&self.0, &self.1).put_components(w)
    }

    fn components_well_formed_at(&self, limit: u8) -> bool {
        MaybeRef(&self.0, &self.1).components_well_formed_at(limit)
    }
}

/// Borrowed form of `Maybe`, for writing.
#[derive(Drop)]
pub struct MaybeRef<'a, A, R>(pub &'a Option<A>, pub R);

impl<A: DerSerialize, R: WriteComponents> WriteComponents for MaybeRef<'_, A, R> {
    ghost Value = { Option A.Value × R.Value };

    ghost value = { λ p. (option_value A.value p.0.now, R.value p.1) };

    ghost format = { optional A.format R.format };

    #[inline(always)]
    fn put_components<W: Writer>(&self, w: &mut W) -> Result<(), WriteError> {
        match self.0 {
            None => self.1.put_components(w),
            Some(first) => put_both(&Alone(Ref(first)), &self.1, w),
        }
    }

    fn components_well_formed_at(&self, limit: u8) -> bool {
        if let Some(first) = self.0 {
            if !first.well_formed_at(limit) {
                return false;
            }
        }
        self.1.components_well_formed_at(limit)
    }
}

impl<A: DerDeserialize, R: ReadComponents> ReadComponents for Maybe<A, R> {
    ghost distinct = { R.distinct && are_distinct A.format R.format };

    #[inline(always)]
    fn read_components(alloc: Global, r: &mut Reader<'_>, nest: u8) -> Result<Self, Error> {
        if next_is::<A>(r) {
            let first = A::read(alloc, r, nest)?;
            let rest = R::read_components(alloc, r, nest)?;
            return Ok(Maybe(Some(first), rest));
        }
        let rest = R::read_components(alloc, r, nest)?;
        Ok(Maybe(None, rest))
    }

    ghost lawful = { λ c. optional_if_distinct A.DerSerialize.format R.WriteComponents.format R.distinct A.lawful R.lawful c };
}

/// A type of which one value may be left out: a DEFAULT (X.680, 25.5), or the empty set.
pub trait HasDefault: DerDeserialize {
    /// The encoding that absence means, and that is never written.
    ghost DEFAULT: { List ℕ };

    /// The elements inside that encoding, which is one element.
    ghost INSIDE: { ℕ } = { 0 };

    fn is_default(&self) -> bool
        ensures { result ≡ is_default_with INSIDE Self.format DEFAULT (Self.value self.now) };

    /// The value that absence means. Without a refusal of memory there is one, unless the type has no such value.
    fn absent(alloc: Global) -> Result<Self, Error>
        ensures { IsAbsentValue Self.value Self.format DEFAULT result };

    ghost left_out: { IsDefault (is_default_with INSIDE Self.DerSerialize.format DEFAULT) DEFAULT Self.DerSerialize.format };
}

/// A part that may be left out, and what follows it.
#[derive(Drop)]
pub struct Omitted<A, R>(pub A, pub R);

impl<A: HasDefault, R: WriteComponents> WriteComponents for Omitted<A, R> {
    ghost Value = { A.Value × R.Value };

    ghost value = { λ p. (A.value p.0, R.value p.1) };

    ghost format = { omitted (is_default_with A.INSIDE A.format A.DEFAULT) A.DEFAULT A.format R.format };

    fn put_components<W: Writer>(&self, w: &mut W) -> Result<(), WriteError> {
        OmittedRef(&self.0, &self.1).put_components(w)
    }

    fn components_well_formed_at(&self, limit: u8) -> bool {
        OmittedRef(&self.0, &self.1).components_well_formed_at(limit)
    }
}

impl<A: HasDefault, R: ReadComponents> ReadComponents for Omitted<A, R> {
    ghost distinct = { R.distinct && are_distinct A.format R.format };

    #[inline(always)]
    fn read_components(alloc: Global, r: &mut Reader<'_>, nest: u8) -> Result<Self, Error> {
        if next_is::<A>(r) {
            let first = A::read(alloc, r, nest)?;
            let rest = R::read_components(alloc, r, nest)?;
            return Ok(Omitted(first, rest));
        }
        let absent = A::absent(alloc)?;
        let others = R::read_components(alloc, r, nest)?;
        Ok(Omitted(absent, others))
    }

    ghost lawful = { λ c. omitted_if_distinct (is_default_with A.INSIDE A.DerSerialize.format A.DEFAULT) A.DEFAULT A.DerSerialize.format R.WriteComponents.format R.distinct A.lawful R.lawful A.left_out c };
}

/// Borrowed form of `Omitted`, for writing.
#[derive(Drop)]
pub struct OmittedRef<A, R>(pub A, pub R);

impl<A: HasDefault, R: WriteComponents> WriteComponents for OmittedRef<&A, R> {
    ghost Value = { A.Value × R.Value };

    ghost value = { λ p. (A.value p.0.now, R.value p.1) };

    ghost format = { omitted (is_default_with A.INSIDE A.format A.DEFAULT) A.DEFAULT A.format R.format };

    fn put_components<W: Writer>(&self, w: &mut W) -> Result<(), WriteError> {
        if self.0.is_default() {
            self.1.put_components(w)
        } else {
            put_both(&Alone(Ref(self.0)), &self.1, w)
        }
    }

    fn components_well_formed_at(&self, limit: u8) -> bool {
        self.0.well_formed_at(limit) && self.1.components_well_formed_at(limit)
    }
}

/// One encoding, which fills the contents.
#[derive(Drop)]
pub struct Alone<T>(pub T);

impl<T: DerSerialize> WriteComponents for Alone<T> {
    ghost Value = { T.Value };

    ghost value = { λ x. T.value x.0 };

    ghost format = { T.format };

    #[inline(always)]
    fn put_components<W: Writer>(&self, w: &mut W) -> Result<(), WriteError> {
        self.0.put(w)
    }

    fn components_well_formed_at(&self, limit: u8) -> bool {
        self.0.well_formed_at(limit)
    }
}

impl<T: DerDeserialize> ReadComponents for Alone<T> {
    #[inline(always)]
    fn read_components(alloc: Global, r: &mut Reader<'_>, nest: u8) -> Result<Self, Error> {
        let value = T::read(alloc, r, nest)?;
        if r.left() > 0 {
            return Err(Error::Malformed);
        }
        Ok(Alone(value))
    }

    ghost lawful = { λ _. T.lawful.components };
}

impl<R: WriteComponents> WriteComponents for &R {
    ghost Value = { R.Value };

    ghost value = { λ x. R.value x.now };

    ghost format = { R.format };

    fn put_components<W: Writer>(&self, w: &mut W) -> Result<(), WriteError> {
        (**self).put_components(w)
    }

    fn components_well_formed_at(&self, limit: u8) -> bool {
        (**self).components_well_formed_at(limit)
    }
}

/// Writes one body and then another.
#[inline(always)]
pub fn put_both<A: WriteComponents, B: WriteComponents, W: Writer>(
    a: &A,
    b: &B,
    w: &mut W,
) -> Result<(), WriteError>
    requires { W.MayTake w.old }
    ensures { W.Takes (A.format.text (A.value a.now) ++ B.format.text (B.value b.now)) w.old w.new result }
{
    if W::is_backward() {
        b.put_components(w)?;
        a.put_components(w)
    } else {
        a.put_components(w)?;
        b.put_components(w)
    }
}

/// Whether the next tag is one of `A`.
pub fn next_is<A: DerDeserialize>(r: &Reader<'_>) -> bool
    requires { r.now.refused ≡ false }
    ensures { IsTrue result ↔ NextIs A.format.IsTag r.now.left }
{
    match r.peek() {
        Some(tag) => A::begins(tag),
        None => false,
    }
}
