//! A choice by tag.

ghost use Rattle.std.specs.Prelude.{◌≡◌, ◌⊎◌, ◌&&◌, Bool, true, false};
ghost use Rattle.std.proofs.Common.{inl, inr};
ghost use Rattle.asn1_core_format.specs.Eithers.{either};
ghost use Rattle.asn1_core_format.specs.laws.Eithers.{either_if_distinct};
ghost use Rattle.asn1_core_format.specs.Format.{Gives, IsLawful, are_distinct};
ghost use Rattle.asn1_core_format.specs.declared.eithers.Either.TheVariants.{First, Second};

use crate::components::next_is;
use crate::traits::{DerDeserialize, DerSerialize};
use asn1_core_element::{Error, Reader};
use asn1_core_writers::{WriteError, Writer};
use std::alloc::Global;

/// `CHOICE { A, B }`, whose alternatives are told apart by their first tags (X.680, 29).
#[derive(Drop)]
pub enum Either<A, B> {
    First(A),
    Second(B),
}

impl<A: DerSerialize, B: DerSerialize> DerSerialize for Either<A, B> {
    ghost Value = { A.Value ⊎ B.Value };

    ghost value = { λ x. elim x [ First a ↦ inl (A.value a) | Second b ↦ inr (B.value b) ] };

    ghost format = { either A.format B.format };

    fn put<W: Writer>(&self, w: &mut W) -> Result<(), WriteError> {
        match self {
            Either::First(a) => a.put(w),
            Either::Second(b) => b.put(w),
        }
    }

    fn well_formed_at(&self, limit: u8) -> bool {
        match self {
            Either::First(a) => a.well_formed_at(limit),
            Either::Second(b) => b.well_formed_at(limit),
        }
    }
}

/// What is read as one of several alternatives, or as a type of its own.
pub trait Alternatives: DerSerialize + Drop {
    /// Whether the first tags of each alternative are none of those of the alternatives after it.
    ghost distinct: { Bool } = { true };

    /// Reads a value from the front of what is left, as `read` does.
    fn read_one(alloc: Global, r: &mut Reader<'_>, nest: u8) -> Result<Self, Error>
        requires sound { r.old.refused ≡ false }
        requires tags { distinct ≡ true }
        ensures { Gives Self.value Self.format nest r.old r.new result };

    ghost laws: { distinct ≡ true → IsLawful Self.DerSerialize.format };
}

impl<T: DerDeserialize> Alternatives for T {
    fn read_one(alloc: Global, r: &mut Reader<'_>, nest: u8) -> Result<Self, Error> {
        T::read(alloc, r, nest)
    }

    ghost laws = { λ _. T.lawful };
}

impl<A: DerDeserialize, B: Alternatives> Alternatives for Either<A, B> {
    ghost distinct = { B.distinct && are_distinct A.format B.format };

    fn read_one(alloc: Global, r: &mut Reader<'_>, nest: u8) -> Result<Self, Error> {
        if next_is::<A>(r) {
            let first = A::read(alloc, r, nest)?;
            return Ok(Either::First(first));
        }
        let second = B::read_one(alloc, r, nest)?;
        Ok(Either::Second(second))
    }

    ghost laws = { λ c. either_if_distinct A.DerSerialize.format B.DerSerialize.format B.distinct A.lawful B.laws c };
}
