//! Names and attributes (RFC 5280, 4.1.2.4; RFC 5652, 5.3).

ghost use Rattle.x509_base.specs.Names.{name_value_equal, name_equal, attribute_equal, name_value, name_value_value, name, name_parts, attribute, attribute_value};

use asn1_core::prelude::*;
use std::alloc::Global;

/// `AttributeTypeAndValue ::= SEQUENCE { type OBJECT IDENTIFIER, value ANY }`
#[derive(Debug, Drop, PartialEq, Eq)]
pub struct NameValue {
    pub ty: ObjectIdentifierAsn1,
    pub value: Asn1RawDer,
}

impl Sequence for NameValue {
    ghost asn1 = { name_value };

    ghost value = { name_value_value };

    fn with_components<U: ComponentVisitor>(&self, visitor: &mut U) -> U::Out {
        with_components_of!(self, visitor; NameValue { ty, value })
    }

    fn read_fields(alloc: Global, r: &mut Reader<'_>, nest: u8) -> Result<Self, Error> {
        read_fields_of!(alloc, r, nest; NameValue { ty, value })
    }

    #[inline(always)]
    fn clone_fields(&self, alloc: Global) -> Result<Self, Error> {
        clone_fields_of!(self, alloc; NameValue { ty, value })
    }

    ghost equal = { name_value_equal };
}

/// `Name ::= SEQUENCE OF SET OF AttributeTypeAndValue`
#[derive(Debug, Drop, PartialEq, Eq)]
pub struct Name(pub Asn1SequenceOf<Asn1SetOf<NameValue>>);

impl Sequence for Name {
    ghost asn1 = { name };

    ghost value = { name_parts };

    fn with_components<U: ComponentVisitor>(&self, visitor: &mut U) -> U::Out {
        visitor.visit(&self.0.0)
    }

    fn read_fields(alloc: Global, r: &mut Reader<'_>, nest: u8) -> Result<Self, Error> {
        Ok(Name(Asn1SequenceOf(ReadComponents::read_components(alloc, r, nest)?)))
    }

    #[inline(always)]
    fn clone_fields(&self, alloc: Global) -> Result<Self, Error> {
        Ok(Name(self.0.try_clone(alloc)?))
    }

    ghost equal = { name_equal };
}

/// `Attribute ::= SEQUENCE { type OBJECT IDENTIFIER, values SET OF ANY }`
#[derive(Debug, Drop, PartialEq, Eq)]
pub struct Attribute {
    pub ty: ObjectIdentifierAsn1,
    pub value: Asn1SetOf<Asn1RawDer>,
}

impl Sequence for Attribute {
    ghost asn1 = { attribute };

    ghost value = { attribute_value };

    fn with_components<U: ComponentVisitor>(&self, visitor: &mut U) -> U::Out {
        with_components_of!(self, visitor; Attribute { ty, value })
    }

    fn read_fields(alloc: Global, r: &mut Reader<'_>, nest: u8) -> Result<Self, Error> {
        read_fields_of!(alloc, r, nest; Attribute { ty, value })
    }

    #[inline(always)]
    fn clone_fields(&self, alloc: Global) -> Result<Self, Error> {
        clone_fields_of!(self, alloc; Attribute { ty, value })
    }

    ghost equal = { attribute_equal };
}
