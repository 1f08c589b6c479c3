//! Attributes of the entries of trust lists.

ghost use Rattle.asn1_core.specs.Asn1.{SEQUENCE};
ghost use Rattle.pkcs7_content.specs.TrustLists.{ctl_entry_attribute, ctl_entry_attribute_value, ctl_entry_attribute_equal};

use crate::trust_lists::values::CTLEntryAttributeValues;
use asn1_choices::{OidAnd, read_inside_defined_by};
use asn1_core::prelude::*;
use std::alloc::Global;

/// `Attribute ::= SEQUENCE { type OBJECT IDENTIFIER, values SET OF ANY DEFINED BY type }`, whose type says which
/// property of a certificate the values are.
#[derive(Debug, Drop, PartialEq, Eq)]
pub struct CTLEntryAttribute {
    pub oid: ObjectIdentifierAsn1,
    pub value: CTLEntryAttributeValues,
}

impl TaggedType for CTLEntryAttribute {
    ghost asn1 = { SEQUENCE ctl_entry_attribute };

    ghost value = { ctl_entry_attribute_value };

    ghost TAG = { 0x30 };

    const TAG: u8 = 0x30;

    fn put_tagged<W: Writer>(&self, tag: u8, w: &mut W) -> Result<(), WriteError> {
        put_within(tag, &Required(Ref(&self.oid), Alone(Ref(&self.value))), w)
    }

    fn is_well_formed_at(&self, limit: u8) -> bool {
        self.value.fits(self.oid.0.octets(), limit)
    }

    fn read_open_contents(alloc: Global, r: &mut Reader<'_>, nest: u8) -> Result<Self, Error> {
        let OidAnd(oid, value) = read_inside_defined_by(alloc, r, nest)?;
        Ok(CTLEntryAttribute { oid, value })
    }

    #[inline(always)]
    fn clone_value(&self, alloc: Global) -> Result<Self, Error> {
        clone_of!(self, alloc; CTLEntryAttribute { oid, value })
    }

    ghost tagged = { (SEQUENCE ctl_entry_attribute).tagged };

    ghost equal = { ctl_entry_attribute_equal };
}
