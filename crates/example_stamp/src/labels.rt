//! A SEQUENCE of two components with a DEFAULT under a tag: explicit, and implicit.

ghost use Rattle.example_stamp.specs.Labels.{label, label_value, label_equal};

use asn1_core::prelude::*;
use std::alloc::Global;

/// `Label ::= SEQUENCE { version [0] EXPLICIT INTEGER (0..255) DEFAULT 0, text OCTET STRING, torn [1] IMPLICIT BOOLEAN
/// DEFAULT FALSE }`
#[derive(Debug, Drop, PartialEq, Eq)]
pub struct Label {
    pub version: Explicit<0, DefaultNumber<0>>,
    pub text: OctetStringAsn1,
    pub torn: Implicit<1, DefaultFalse>,
}

macro_rules! label {
    ($by:ident($($with:ident),*)) => {
        $by!($($with),*; Label { version DEFAULT, text, torn DEFAULT })
    };
}

impl Sequence for Label {
    ghost asn1 = { label };

    ghost value = { label_value };

    fn with_components<U: ComponentVisitor>(&self, visitor: &mut U) -> U::Out {
        label!(with_components_of(self, visitor))
    }

    fn read_fields(alloc: Global, r: &mut Reader<'_>, nest: u8) -> Result<Self, Error> {
        label!(read_fields_of(alloc, r, nest))
    }

    fn clone_fields(&self, alloc: Global) -> Result<Self, Error> {
        label!(clone_fields_of(self, alloc))
    }

    ghost equal = { label_equal };
}
