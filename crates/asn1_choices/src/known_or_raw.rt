//! An element of a known type, or any other, kept as it is.

ghost use Rattle.std.specs.Prelude.{◌⊎◌, ◌↔◌, IsTrue};
ghost use Rattle.std.proofs.Common.{inl, inr, rules};
ghost use Rattle.asn1_core.specs.Der.{NextIs, ElementOctets, der_equal};
ghost use Rattle.asn1_choices.specs.KnownOrRaw.{known_or_raw};
ghost use Rattle.asn1_choices.specs.laws.KnownOrRaw.{lawful_known_or_raw};
ghost use Rattle.asn1_choices.specs.declared.known_or_raw.KnownOrRaw.TheVariants.{Known, Raw};

use asn1_core::prelude::*;
use asn1_core_format::components::next_is;
use std::alloc::Global;

/// A `T`, or an element with another tag. An element with a tag of `T` is a `T` or refused, and isn't well-formed as
/// `Raw`.
#[derive(Debug, Drop, PartialEq, Eq)]
pub enum KnownOrRaw<T> {
    Known(T),
    /// The element, octet for octet.
    Raw(Asn1RawDer),
}

/// Whether the element has a tag of `T`.
fn has_tag_of<T: DerDeserialize>(element: &Asn1RawDer) -> bool
    ensures { IsTrue result ↔ NextIs T.format.IsTag element.now.0.items }
{
    match element.0.as_slice() {
        [tag, ..] => T::begins(*tag),
        [] => false,
    }
}

impl<T: DerDeserialize> DerSerialize for KnownOrRaw<T> {
    ghost Value = { T.Value ⊎ ElementOctets };

    ghost value = { λ x. elim x [ Known v ↦ inl (T.value v) | Raw e ↦ inr e.0.items ] };

    ghost format = { known_or_raw T.format };

    fn put<W: Writer>(&self, w: &mut W) -> Result<(), WriteError> {
        match self {
            KnownOrRaw::Known(value) => value.put(w),
            KnownOrRaw::Raw(element) => element.put(w),
        }
    }

    fn well_formed_at(&self, limit: u8) -> bool {
        match self {
            KnownOrRaw::Known(value) => value.well_formed_at(limit),
            KnownOrRaw::Raw(element) => !has_tag_of::<T>(element) && element.well_formed_at(limit),
        }
    }
}

impl<T: DerDeserialize> DerDeserialize for KnownOrRaw<T> {
    fn read(alloc: Global, r: &mut Reader<'_>, nest: u8) -> Result<Self, Error> {
        if next_is::<T>(r) {
            let value = T::read(alloc, r, nest)?;
            return Ok(KnownOrRaw::Known(value));
        }
        let element = Asn1RawDer::read(alloc, r, nest)?;
        Ok(KnownOrRaw::Raw(element))
    }

    /// By any tag, as it is one of `T` or isn't.
    fn begins(tag: u8) -> bool {
        T::begins(tag) || !T::begins(tag)
    }

    ghost lawful = { lawful_known_or_raw T.DerSerialize.format T.lawful };
}

impl<T: EqualByText + DerDeserialize> EqualByText for KnownOrRaw<T> {
    ghost equal_by_text = { λ x y. let same = T.equal_by_text in Prim.search (der_equal, rules) depth 20 };
}

impl<T: TryClone + EqualByText + DerDeserialize> TryClone for KnownOrRaw<T> {
    fn try_clone(&self, alloc: Global) -> Result<Self, Error> {
        match self {
            KnownOrRaw::Known(value) => Ok(KnownOrRaw::Known(value.try_clone(alloc)?)),
            KnownOrRaw::Raw(element) => Ok(KnownOrRaw::Raw(element.try_clone(alloc)?)),
        }
    }
}
