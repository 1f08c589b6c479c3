//! The attributes that a signer doesn't sign, each as it is (RFC 5652, 5.3).

ghost use Rattle.pkcs7_attributes.specs.UnsignedAttributes.{raw_unsigned_attributes, raw_unsigned_attributes_value, raw_unsigned_attributes_equal, no_unsigned_attributes};
ghost use Rattle.pkcs7_attributes.specs.laws.UnsignedAttributes.{no_unsigned_attributes_left_out};

use asn1_core::prelude::*;
use std::alloc::Global;
use x509_base::Attribute;

/// `UnsignedAttributes ::= SET SIZE (1..MAX) OF Attribute`, under its tag `[1] IMPLICIT`, each with its values as they
/// are: countersignatures and time stamps are values too. The empty set is left out.
#[derive(Debug, Drop, PartialEq)]
pub struct RawUnsignedAttributes(pub Vec<Attribute>);

impl Asn1Type for RawUnsignedAttributes {
    ghost asn1 = { raw_unsigned_attributes };

    ghost value = { raw_unsigned_attributes_value };

    fn with_encoded<U: ComponentVisitor>(&self, visitor: &mut U) -> U::Out {
        visitor.visit_within::<0xA1, _>(&self.0)
    }

    fn read_encoded(alloc: Global, r: &mut Reader<'_>, nest: u8) -> Result<Self, Error> {
        Ok(RawUnsignedAttributes(read_within(alloc, r, nest, 0xA1)?))
    }

    fn is_first_tag(tag: u8) -> bool {
        tag == 0xA1
    }

    fn clone_value(&self, alloc: Global) -> Result<Self, Error> {
        Ok(RawUnsignedAttributes(self.0.try_clone(alloc)?))
    }

    ghost equal = { raw_unsigned_attributes_equal };
}

impl DefaultType for RawUnsignedAttributes {
    ghost ABSENT = { no_unsigned_attributes };

    fn is_absent(&self) -> bool {
        is_left_out(0xA1, &self.0)
    }

    fn when_absent(alloc: Global) -> Result<Self, Error> {
        Ok(RawUnsignedAttributes(Vec::new(alloc)))
    }

    ghost absent_law = { no_unsigned_attributes_left_out };
}
