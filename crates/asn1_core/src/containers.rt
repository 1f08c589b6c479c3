//! An encoding in an OCTET STRING, and a part that may be absent.

ghost use Rattle.std.proofs.Common.{arith};
ghost use Rattle.asn1_core_format.specs.Components.{within};
ghost use Rattle.asn1_core_format.specs.laws.ComponentLaws.{lawful_within};

use asn1_core_element::{Error, Reader};
use asn1_core_format::{
    Alone, DerDeserialize, DerSerialize, EqualByText, Ref, TryClone, Viewed, put_within,
    read_within,
};
use asn1_core_writers::{WriteError, Writer};
use std::alloc::Global;

/// An OCTET STRING whose octets are one encoding of `T`.
#[derive(Debug, Drop, PartialEq, Eq)]
pub struct OctetStringAsn1Container<T>(pub T);

impl<T: DerSerialize> DerSerialize for OctetStringAsn1Container<T> {
    ghost Value = { T.Value };

    ghost value = { λ x. T.value x.0 };

    ghost format = { within 0x04 T.format };

    fn put<W: Writer>(&self, w: &mut W) -> Result<(), WriteError> {
        put_within(0x04, &Alone(Ref(&self.0)), w)
    }

    fn well_formed_at(&self, limit: u8) -> bool {
        self.0.well_formed_at(limit)
    }
}

impl<T: DerDeserialize> DerDeserialize for OctetStringAsn1Container<T> {
    fn read(alloc: Global, r: &mut Reader<'_>, nest: u8) -> Result<Self, Error> {
        let Alone(value) = read_within::<Alone<T>>(alloc, r, nest, 0x04)?;
        Ok(OctetStringAsn1Container(value))
    }

    fn begins(tag: u8) -> bool {
        tag == 0x04
    }

    ghost lawful = { lawful_within T.DerSerialize.format T.lawful.components 0x04 (Prim.omega arith) };
}

impl<T: EqualByText> EqualByText for OctetStringAsn1Container<T> {
    ghost equal_by_text = { λ x y. T.equal_by_text x.0 y.0 };
}

impl<T: TryClone + EqualByText> TryClone for OctetStringAsn1Container<T> {
    #[inline(always)]
    fn try_clone(&self, alloc: Global) -> Result<Self, Error> {
        Ok(OctetStringAsn1Container(self.0.try_clone(alloc)?))
    }
}

/// A part of a SEQUENCE that its grammar may leave out. It has no encoding of its own: the SEQUENCE says how it is
/// encoded.
#[derive(Debug, Drop, PartialEq, Eq)]
pub struct Optional<T>(pub T);

impl<T: Viewed> Viewed for Optional<T> {
    ghost View = { T.View };

    ghost view = { λ x. T.view x.0 };

    ghost equal = { λ x y. T.equal x.0 y.0 };
}

impl<T: TryClone> TryClone for Optional<T> {
    #[inline(always)]
    fn try_clone(&self, alloc: Global) -> Result<Self, Error> {
        Ok(Optional(self.0.try_clone(alloc)?))
    }
}
