//! Explicit tags (X.690, 8.14): an element with a context tag around the whole element under it.

ghost use Rattle.std.specs.Prelude.{◌+◌};
ghost use Rattle.std.proofs.Common.{arith};
ghost use Rattle.asn1_core_element.specs.Element.{element};
ghost use Rattle.asn1_core_format.specs.Components.{within};
ghost use Rattle.asn1_core_format.specs.laws.ComponentLaws.{lawful_within};
ghost use Rattle.asn1_core_format.specs.TagNumbers.{explicit_tag, explicit_context};
ghost use Rattle.asn1_core_format.specs.laws.TagNumbers.{lawful_explicit_context};
ghost use Rattle.asn1_core_format.specs.laws.TaggedDefaults.{explicit_left_out};

use asn1_core_element::{Error, Reader};
use asn1_core_format::{
    Alone, DerDeserialize, DerSerialize, EqualByText, HasDefault, Ref, TryClone, put_within,
    read_within,
};
use asn1_core_writers::{WriteError, Writer};
use std::alloc::Global;

/// `[0] EXPLICIT T`
#[derive(Debug, Drop, PartialEq, Eq)]
pub struct ExplicitContextTag0<T>(pub T);

impl<T: DerSerialize> DerSerialize for ExplicitContextTag0<T> {
    ghost Value = { T.Value };

    ghost value = { λ x. T.value x.0 };

    ghost format = { within 0xA0 T.format };

    fn put<W: Writer>(&self, w: &mut W) -> Result<(), WriteError> {
        put_within(0xA0, &Alone(Ref(&self.0)), w)
    }

    fn well_formed_at(&self, limit: u8) -> bool {
        self.0.well_formed_at(limit)
    }
}

impl<T: DerDeserialize> DerDeserialize for ExplicitContextTag0<T> {
    fn read(alloc: Global, r: &mut Reader<'_>, nest: u8) -> Result<Self, Error> {
        let Alone(value) = read_within::<Alone<T>>(alloc, r, nest, 0xA0)?;
        Ok(ExplicitContextTag0(value))
    }

    fn begins(tag: u8) -> bool {
        tag == 0xA0
    }

    ghost lawful = { lawful_within T.DerSerialize.format T.lawful.components 0xA0 (Prim.omega arith) };
}

impl<T: EqualByText> EqualByText for ExplicitContextTag0<T> {
    ghost equal_by_text = { λ x y. T.equal_by_text x.0 y.0 };
}

impl<T: TryClone + EqualByText> TryClone for ExplicitContextTag0<T> {
    #[inline(always)]
    fn try_clone(&self, alloc: Global) -> Result<Self, Error> {
        Ok(ExplicitContextTag0(self.0.try_clone(alloc)?))
    }
}

/// `[1] EXPLICIT T`
#[derive(Debug, Drop, PartialEq, Eq)]
pub struct ExplicitContextTag1<T>(pub T);

impl<T: DerSerialize> DerSerialize for ExplicitContextTag1<T> {
    ghost Value = { T.Value };

    ghost value = { λ x. T.value x.0 };

    ghost format = { within 0xA1 T.format };

    fn put<W: Writer>(&self, w: &mut W) -> Result<(), WriteError> {
        put_within(0xA1, &Alone(Ref(&self.0)), w)
    }

    fn well_formed_at(&self, limit: u8) -> bool {
        self.0.well_formed_at(limit)
    }
}

impl<T: DerDeserialize> DerDeserialize for ExplicitContextTag1<T> {
    fn read(alloc: Global, r: &mut Reader<'_>, nest: u8) -> Result<Self, Error> {
        let Alone(value) = read_within::<Alone<T>>(alloc, r, nest, 0xA1)?;
        Ok(ExplicitContextTag1(value))
    }

    fn begins(tag: u8) -> bool {
        tag == 0xA1
    }

    ghost lawful = { lawful_within T.DerSerialize.format T.lawful.components 0xA1 (Prim.omega arith) };
}

impl<T: EqualByText> EqualByText for ExplicitContextTag1<T> {
    ghost equal_by_text = { λ x y. T.equal_by_text x.0 y.0 };
}

impl<T: TryClone + EqualByText> TryClone for ExplicitContextTag1<T> {
    #[inline(always)]
    fn try_clone(&self, alloc: Global) -> Result<Self, Error> {
        Ok(ExplicitContextTag1(self.0.try_clone(alloc)?))
    }
}

/// `[2] EXPLICIT T`
#[derive(Debug, Drop, PartialEq, Eq)]
pub struct ExplicitContextTag2<T>(pub T);

impl<T: DerSerialize> DerSerialize for ExplicitContextTag2<T> {
    ghost Value = { T.Value };

    ghost value = { λ x. T.value x.0 };

    ghost format = { within 0xA2 T.format };

    fn put<W: Writer>(&self, w: &mut W) -> Result<(), WriteError> {
        put_within(0xA2, &Alone(Ref(&self.0)), w)
    }

    fn well_formed_at(&self, limit: u8) -> bool {
        self.0.well_formed_at(limit)
    }
}

impl<T: DerDeserialize> DerDeserialize for ExplicitContextTag2<T> {
    fn read(alloc: Global, r: &mut Reader<'_>, nest: u8) -> Result<Self, Error> {
        let Alone(value) = read_within::<Alone<T>>(alloc, r, nest, 0xA2)?;
        Ok(ExplicitContextTag2(value))
    }

    fn begins(tag: u8) -> bool {
        tag == 0xA2
    }

    ghost lawful = { lawful_within T.DerSerialize.format T.lawful.components 0xA2 (Prim.omega arith) };
}

impl<T: EqualByText> EqualByText for ExplicitContextTag2<T> {
    ghost equal_by_text = { λ x y. T.equal_by_text x.0 y.0 };
}

impl<T: TryClone + EqualByText> TryClone for ExplicitContextTag2<T> {
    #[inline(always)]
    fn try_clone(&self, alloc: Global) -> Result<Self, Error> {
        Ok(ExplicitContextTag2(self.0.try_clone(alloc)?))
    }
}

/// `[N] EXPLICIT T`, for N up to 30, which a tag of one byte can have (X.690, 8.1.2.4). With a greater number no value is
/// well-formed, and reading refuses all input as `Invalid`.
#[derive(Debug, Drop, PartialEq, Eq)]
pub struct Explicit<const N: u8, T>(pub T);

impl<const N: u8, T: DerSerialize> DerSerialize for Explicit<N, T> {
    ghost Value = { T.Value };

    ghost value = { λ x. T.value x.0 };

    ghost format = { explicit_context N T.format };

    fn put<W: Writer>(&self, w: &mut W) -> Result<(), WriteError> {
        put_within(0xA0 + N % 31, &Alone(Ref(&self.0)), w)
    }

    #[tactic(auto, using(asn1_core_format::specs::laws::TagNumbers::numbered_is_formed))]
    fn well_formed_at(&self, limit: u8) -> bool {
        N < 31 && self.0.well_formed_at(limit)
    }
}

impl<const N: u8, T: DerDeserialize> DerDeserialize for Explicit<N, T> {
    #[tactic(auto, using(asn1_core_format::specs::laws::TagNumbers::numbered_is_read, asn1_core_format::specs::laws::TagNumbers::numbered_too_high))]
    fn read(alloc: Global, r: &mut Reader<'_>, nest: u8) -> Result<Self, Error> {
        if N >= 31 {
            return Err(Error::Invalid);
        }
        let Alone(value) = read_within::<Alone<T>>(alloc, r, nest, 0xA0 + N % 31)?;
        Ok(Explicit(value))
    }

    fn begins(tag: u8) -> bool {
        tag == 0xA0 + N % 31
    }

    ghost lawful = { lawful_explicit_context N T.lawful };
}

impl<const N: u8, T: EqualByText> EqualByText for Explicit<N, T> {
    ghost equal_by_text = { λ x y. T.equal_by_text x.0 y.0 };
}

impl<const N: u8, T: TryClone + EqualByText> TryClone for Explicit<N, T> {
    #[inline(always)]
    fn try_clone(&self, alloc: Global) -> Result<Self, Error> {
        Ok(Explicit(self.0.try_clone(alloc)?))
    }
}

impl<const N: u8, T: HasDefault> HasDefault for Explicit<N, T> {
    ghost DEFAULT = { element (explicit_tag N) T.DEFAULT };

    ghost INSIDE = { 1 + T.INSIDE };

    #[tactic(auto, using(asn1_core_format::specs::laws::TaggedDefaults::explicit_default_same))]
    fn is_default(&self) -> bool {
        self.0.is_default()
    }

    #[tactic(auto, using(asn1_core_format::specs::laws::TaggedDefaults::explicit_absent_value, asn1_core_format::specs::laws::TaggedDefaults::explicit_too_high))]
    fn absent(alloc: Global) -> Result<Self, Error> {
        if N > 30 {
            return Err(Error::Invalid);
        }
        let value = T::absent(alloc)?;
        Ok(Explicit(value))
    }

    ghost left_out = { explicit_left_out N T.INSIDE T.DerSerialize.format T.DEFAULT T.left_out };
}
