//! Implicit tags (X.690, 8.14): a context tag in place of the tag of the type under it, whose constructed bit stays.

ghost use Rattle.std.specs.Prelude.{◌%◌};
ghost use Rattle.std.proofs.Common.{arith};
ghost use Rattle.asn1_core_element.specs.Element.{retag};
ghost use Rattle.asn1_core_format.specs.Tagged.{implicit, context_tag};
ghost use Rattle.asn1_core_format.specs.laws.TaggedLaws.{lawful_implicit, context_tag_is};
ghost use Rattle.asn1_core_format.specs.TagNumbers.{implicit_context};
ghost use Rattle.asn1_core_format.specs.laws.TagNumbers.{lawful_implicit_context};
ghost use Rattle.asn1_core_format.specs.laws.TaggedDefaults.{implicit_left_out};

use asn1_core_element::{Error, Reader};
use asn1_core_format::tagged::context_tag_of;
use asn1_core_format::{
    DerDeserialize, DerSerialize, DerTagged, EqualByText, HasDefault, TryClone, read_retagged,
};
use asn1_core_writers::{WriteError, Writer};
use std::alloc::Global;

/// `[0] IMPLICIT T`
#[derive(Debug, Drop, PartialEq, Eq)]
pub struct ImplicitContextTag0<T>(pub T);

impl<T: DerTagged> DerSerialize for ImplicitContextTag0<T> {
    ghost Value = { T.Value };

    ghost value = { λ x. T.value x.0 };

    ghost format = { implicit (context_tag 0 T.TAG) T.TAG T.format };

    fn put<W: Writer>(&self, w: &mut W) -> Result<(), WriteError> {
        self.0.put_as(context_tag_of::<T>(0), w)
    }

    fn well_formed_at(&self, limit: u8) -> bool {
        self.0.well_formed_at(limit)
    }
}

impl<T: DerTagged> DerDeserialize for ImplicitContextTag0<T> {
    fn read(alloc: Global, r: &mut Reader<'_>, nest: u8) -> Result<Self, Error> {
        Ok(ImplicitContextTag0(read_retagged(alloc, r, nest, context_tag_of::<T>(0))?))
    }

    fn begins(tag: u8) -> bool {
        tag == context_tag_of::<T>(0)
    }

    ghost lawful = { lawful_implicit (context_tag 0 T.TAG) T.TAG T.DerSerialize.format T.lawful T.tagged (context_tag_is 0 T.TAG (Prim.omega arith)) };
}

impl<T: EqualByText + DerTagged> EqualByText for ImplicitContextTag0<T> {
    ghost equal_by_text = { λ x y. T.equal_by_text x.0 y.0 };
}

impl<T: TryClone + EqualByText + DerTagged> TryClone for ImplicitContextTag0<T> {
    #[inline(always)]
    fn try_clone(&self, alloc: Global) -> Result<Self, Error> {
        Ok(ImplicitContextTag0(self.0.try_clone(alloc)?))
    }
}

/// `[1] IMPLICIT T`
#[derive(Debug, Drop, PartialEq, Eq)]
pub struct ImplicitContextTag1<T>(pub T);

impl<T: DerTagged> DerSerialize for ImplicitContextTag1<T> {
    ghost Value = { T.Value };

    ghost value = { λ x. T.value x.0 };

    ghost format = { implicit (context_tag 1 T.TAG) T.TAG T.format };

    fn put<W: Writer>(&self, w: &mut W) -> Result<(), WriteError> {
        self.0.put_as(context_tag_of::<T>(1), w)
    }

    fn well_formed_at(&self, limit: u8) -> bool {
        self.0.well_formed_at(limit)
    }
}

impl<T: DerTagged> DerDeserialize for ImplicitContextTag1<T> {
    fn read(alloc: Global, r: &mut Reader<'_>, nest: u8) -> Result<Self, Error> {
        Ok(ImplicitContextTag1(read_retagged(alloc, r, nest, context_tag_of::<T>(1))?))
    }

    fn begins(tag: u8) -> bool {
        tag == context_tag_of::<T>(1)
    }

    ghost lawful = { lawful_implicit (context_tag 1 T.TAG) T.TAG T.DerSerialize.format T.lawful T.tagged (context_tag_is 1 T.TAG (Prim.omega arith)) };
}

impl<T: EqualByText + DerTagged> EqualByText for ImplicitContextTag1<T> {
    ghost equal_by_text = { λ x y. T.equal_by_text x.0 y.0 };
}

impl<T: TryClone + EqualByText + DerTagged> TryClone for ImplicitContextTag1<T> {
    #[inline(always)]
    fn try_clone(&self, alloc: Global) -> Result<Self, Error> {
        Ok(ImplicitContextTag1(self.0.try_clone(alloc)?))
    }
}

/// `[N] IMPLICIT T`, for N up to 30, which a tag of one byte can have (X.690, 8.1.2.4). With a greater number no value is
/// well-formed, and reading refuses all input as `Invalid`.
#[derive(Debug, Drop, PartialEq, Eq)]
pub struct Implicit<const N: u8, T>(pub T);

impl<const N: u8, T: DerTagged> DerSerialize for Implicit<N, T> {
    ghost Value = { T.Value };

    ghost value = { λ x. T.value x.0 };

    ghost format = { implicit_context N T.TAG T.format };

    fn put<W: Writer>(&self, w: &mut W) -> Result<(), WriteError> {
        self.0.put_as(context_tag_of::<T>(N % 31), w)
    }

    #[tactic(auto, using(asn1_core_format::specs::laws::TagNumbers::numbered_is_formed))]
    fn well_formed_at(&self, limit: u8) -> bool {
        N < 31 && self.0.well_formed_at(limit)
    }
}

impl<const N: u8, T: DerTagged> DerDeserialize for Implicit<N, T> {
    #[tactic(auto, using(asn1_core_format::specs::laws::TagNumbers::numbered_is_read, asn1_core_format::specs::laws::TagNumbers::numbered_too_high))]
    fn read(alloc: Global, r: &mut Reader<'_>, nest: u8) -> Result<Self, Error> {
        if N >= 31 {
            return Err(Error::Invalid);
        }
        let value = read_retagged(alloc, r, nest, context_tag_of::<T>(N % 31))?;
        Ok(Implicit(value))
    }

    fn begins(tag: u8) -> bool {
        tag == context_tag_of::<T>(N % 31)
    }

    ghost lawful = { lawful_implicit_context N T.TAG T.lawful T.tagged };
}

impl<const N: u8, T: EqualByText + DerTagged> EqualByText for Implicit<N, T> {
    ghost equal_by_text = { λ x y. T.equal_by_text x.0 y.0 };
}

impl<const N: u8, T: TryClone + EqualByText + DerTagged> TryClone for Implicit<N, T> {
    #[inline(always)]
    fn try_clone(&self, alloc: Global) -> Result<Self, Error> {
        Ok(Implicit(self.0.try_clone(alloc)?))
    }
}

impl<const N: u8, T: HasDefault + DerTagged> HasDefault for Implicit<N, T> {
    ghost DEFAULT = { retag (context_tag (N % 31) T.TAG) T.DEFAULT };

    ghost INSIDE = { T.INSIDE };

    fn is_default(&self) -> bool {
        self.0.is_default()
    }

    #[tactic(auto, using(asn1_core_format::specs::laws::TaggedDefaults::implicit_too_high))]
    fn absent(alloc: Global) -> Result<Self, Error> {
        if N > 30 {
            return Err(Error::Invalid);
        }
        let value = T::absent(alloc)?;
        Ok(Implicit(value))
    }

    ghost left_out = { implicit_left_out N T.TAG T.INSIDE T.DerSerialize.format T.DEFAULT T.tagged T.left_out };
}
