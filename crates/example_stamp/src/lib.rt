//! A caller's own SEQUENCEs, complete, as a crate that uses this library: docs/ARCHITECTURE.md explains how to add one.
#![tactic(auto)]

ghost use Rattle.example_stamp.specs.Stamps.{stamp, stamp_value, stamp_equal};

pub mod labels;
pub mod parcels;

use asn1_core::prelude::*;
use std::alloc::Global;

/// `Stamp ::= SEQUENCE { id OBJECT IDENTIFIER, data OCTET STRING, count INTEGER (0..4294967295) OPTIONAL }`
#[derive(Debug, Drop, PartialEq, Eq)]
pub struct Stamp {
    pub id: ObjectIdentifierAsn1,
    pub data: OctetStringAsn1,
    pub count: Option<u32>,
}

impl Sequence for Stamp {
    ghost asn1 = { stamp };

    ghost value = { stamp_value };

    fn with_components<U: ComponentVisitor>(&self, visitor: &mut U) -> U::Out {
        with_components_of!(self, visitor; Stamp { id, data, count OPTIONAL })
    }

    fn read_fields(alloc: Global, r: &mut Reader<'_>, nest: u8) -> Result<Self, Error> {
        read_fields_of!(alloc, r, nest; Stamp { id, data, count OPTIONAL })
    }

    fn clone_fields(&self, alloc: Global) -> Result<Self, Error> {
        clone_fields_of!(self, alloc; Stamp { id, data, count OPTIONAL })
    }

    ghost equal = { stamp_equal };
}
