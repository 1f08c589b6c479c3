//! Extensions (RFC 5280, 4.2).

ghost use Rattle.x509_base.specs.Extensions.{extension_equal, extensions_equal, extension, extension_value, extensions, extensions_value};

use asn1_core::prelude::*;
use std::alloc::Global;

/// `Extension ::= SEQUENCE { extnID OBJECT IDENTIFIER, critical BOOLEAN DEFAULT FALSE, extnValue OCTET STRING }`
#[derive(Debug, Drop, PartialEq, Eq)]
pub struct Extension {
    pub extn_id: ObjectIdentifierAsn1,
    pub critical: bool,
    pub extn_value: OctetStringAsn1,
}

impl Sequence for Extension {
    ghost asn1 = { extension };

    ghost value = { extension_value };

    fn with_components<U: ComponentVisitor>(&self, visitor: &mut U) -> U::Out {
        with_components_of!(self, visitor; Extension { extn_id, DefaultFalse(critical) DEFAULT, extn_value })
    }

    fn read_fields(alloc: Global, r: &mut Reader<'_>, nest: u8) -> Result<Self, Error> {
        read_fields_of!(alloc, r, nest; Extension { extn_id, DefaultFalse(critical) DEFAULT, extn_value })
    }

    #[inline(always)]
    fn clone_fields(&self, alloc: Global) -> Result<Self, Error> {
        clone_fields_of!(self, alloc; Extension { extn_id, DefaultFalse(critical) DEFAULT, extn_value })
    }

    ghost equal = { extension_equal };
}

/// `Extensions ::= SEQUENCE OF Extension`
#[derive(Debug, Drop, PartialEq, Eq)]
pub struct Extensions(pub Vec<Extension>);

impl Sequence for Extensions {
    ghost asn1 = { extensions };

    ghost value = { extensions_value };

    fn with_components<U: ComponentVisitor>(&self, visitor: &mut U) -> U::Out {
        visitor.visit(&self.0)
    }

    fn read_fields(alloc: Global, r: &mut Reader<'_>, nest: u8) -> Result<Self, Error> {
        Ok(Extensions(ReadComponents::read_components(alloc, r, nest)?))
    }

    #[inline(always)]
    fn clone_fields(&self, alloc: Global) -> Result<Self, Error> {
        Ok(Extensions(self.0.try_clone(alloc)?))
    }

    ghost equal = { extensions_equal };
}
