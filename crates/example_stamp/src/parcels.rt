//! A SEQUENCE of five components: two with a DEFAULT, an OPTIONAL one under an explicit tag, a list under an implicit one.

ghost use Rattle.example_stamp.specs.Parcels.{parcel, parcel_value, parcel_equal};

use crate::Stamp;
use asn1_core::prelude::*;
use std::alloc::Global;

/// `Parcel ::= SEQUENCE { code OBJECT IDENTIFIER, fragile BOOLEAN DEFAULT FALSE, floor INTEGER (0..255) DEFAULT 3, note [30]
/// EXPLICIT OCTET STRING OPTIONAL, stamps [5] IMPLICIT SEQUENCE OF Stamp }`
#[derive(Debug, Drop, PartialEq, Eq)]
pub struct Parcel {
    pub code: ObjectIdentifierAsn1,
    pub fragile: bool,
    pub floor: DefaultNumber<3>,
    pub note: Option<Explicit<30, OctetStringAsn1>>,
    pub stamps: Implicit<5, Asn1SequenceOf<Stamp>>,
}

macro_rules! parcel {
    ($by:ident($($with:ident),*)) => {
        $by!($($with),*; Parcel { code, DefaultFalse(fragile) DEFAULT, floor DEFAULT, note OPTIONAL, stamps })
    };
}

impl Sequence for Parcel {
    ghost asn1 = { parcel };

    ghost value = { parcel_value };

    fn with_components<U: ComponentVisitor>(&self, visitor: &mut U) -> U::Out {
        parcel!(with_components_of(self, visitor))
    }

    fn read_fields(alloc: Global, r: &mut Reader<'_>, nest: u8) -> Result<Self, Error> {
        parcel!(read_fields_of(alloc, r, nest))
    }

    fn clone_fields(&self, alloc: Global) -> Result<Self, Error> {
        parcel!(clone_fields_of(self, alloc))
    }

    ghost equal = { parcel_equal };
}
