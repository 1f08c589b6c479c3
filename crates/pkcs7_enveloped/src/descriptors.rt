//! Protection descriptors: to whom data are protected (MS-GKDI, DPAPI-NG).

ghost use Rattle.pkcs7_enveloped.specs.Descriptors.{protection_descriptor, protection_descriptor_value, general_protection_descriptor, general_protection_descriptor_value, descriptor_equal, general_descriptor_equal};

use asn1_core::prelude::*;
use asn1_leaves::Utf8StringAsn1;
use std::alloc::Global;

/// `ProtectionDescriptor ::= SEQUENCE { descriptorType UTF8String, descriptorValue UTF8String }`, as `SID` and a
/// security identifier.
#[derive(Debug, Drop, PartialEq)]
pub struct ProtectionDescriptor {
    pub descriptor_type: Utf8StringAsn1,
    pub descriptor_value: Utf8StringAsn1,
}

impl Sequence for ProtectionDescriptor {
    ghost asn1 = { protection_descriptor };

    ghost value = { protection_descriptor_value };

    fn with_components<U: ComponentVisitor>(&self, visitor: &mut U) -> U::Out {
        with_components_of!(self, visitor; ProtectionDescriptor { descriptor_type, descriptor_value })
    }

    fn read_fields(alloc: Global, r: &mut Reader<'_>, nest: u8) -> Result<Self, Error> {
        read_fields_of!(alloc, r, nest; ProtectionDescriptor { descriptor_type, descriptor_value })
    }

    #[inline(always)]
    fn clone_fields(&self, alloc: Global) -> Result<Self, Error> {
        clone_fields_of!(self, alloc; ProtectionDescriptor { descriptor_type, descriptor_value })
    }

    ghost equal = { descriptor_equal };
}

/// `GeneralProtectionDescriptor ::= SEQUENCE { descriptorType OBJECT IDENTIFIER, descriptors SEQUENCE OF SEQUENCE OF
/// ProtectionDescriptor }`: the outer list has alternatives, each of which requires all descriptors of its own.
#[derive(Debug, Drop, PartialEq)]
pub struct GeneralProtectionDescriptor {
    pub descriptor_type: ObjectIdentifierAsn1,
    pub descriptors: Asn1SequenceOf<Asn1SequenceOf<ProtectionDescriptor>>,
}

impl Sequence for GeneralProtectionDescriptor {
    ghost asn1 = { general_protection_descriptor };

    ghost value = { general_protection_descriptor_value };

    fn with_components<U: ComponentVisitor>(&self, visitor: &mut U) -> U::Out {
        with_components_of!(self, visitor; GeneralProtectionDescriptor { descriptor_type, descriptors })
    }

    fn read_fields(alloc: Global, r: &mut Reader<'_>, nest: u8) -> Result<Self, Error> {
        read_fields_of!(alloc, r, nest; GeneralProtectionDescriptor { descriptor_type, descriptors })
    }

    #[inline(always)]
    fn clone_fields(&self, alloc: Global) -> Result<Self, Error> {
        clone_fields_of!(self, alloc; GeneralProtectionDescriptor { descriptor_type, descriptors })
    }

    ghost equal = { general_descriptor_equal };
}
