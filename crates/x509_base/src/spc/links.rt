//! Strings and links.

ghost use Rattle.std.specs.Prelude.{◌≡◌};
ghost use Rattle.std.proofs.Common.{rules, arith, ⊎_elim};
ghost use Rattle.x509_base.specs.SpcLinks.{spc_string, spc_string_value, url, url_value, moniker, moniker_value, file, file_value, spc_link, spc_link_value};

use crate::spc::objects::SpcSerializedObject;
use asn1_core::prelude::*;
use asn1_leaves::{BMPStringAsn1, IA5StringAsn1};
use std::alloc::Global;

/// `SpcString ::= CHOICE { unicode [0] IMPLICIT BMPString, ascii [1] IMPLICIT IA5String }`
#[derive(Debug, Drop, PartialEq, Eq)]
pub enum SpcString {
    Unicode(Optional<ImplicitContextTag0<BMPStringAsn1>>),
    Ancii(Optional<ImplicitContextTag1<IA5StringAsn1>>),
}

impl Asn1Type for SpcString {
    ghost asn1 = { spc_string };

    ghost value = { spc_string_value };

    fn with_encoded<U: ComponentVisitor>(&self, visitor: &mut U) -> U::Out {
        match self {
            SpcString::Unicode(text) => visitor.visit_value(&text.0),
            SpcString::Ancii(text) => visitor.visit_value(&text.0),
        }
    }

    fn read_encoded(alloc: Global, r: &mut Reader<'_>, nest: u8) -> Result<Self, Error> {
        match Either::read_one(alloc, r, nest)? {
            Either::First(text) => Ok(SpcString::Unicode(Optional(text))),
            Either::Second(text) => Ok(SpcString::Ancii(Optional(text))),
        }
    }

    fn is_first_tag(tag: u8) -> bool {
        tag == 0x80 || tag == 0x81
    }

    #[inline(always)]
    fn clone_value(&self, alloc: Global) -> Result<Self, Error> {
        match self {
            SpcString::Unicode(text) => Ok(SpcString::Unicode(text.try_clone(alloc)?)),
            SpcString::Ancii(text) => Ok(SpcString::Ancii(text.try_clone(alloc)?)),
        }
    }

    ghost equal = { Prim.search rules };
}

/// `url [0] IMPLICIT IA5String`
#[derive(Debug, Drop, PartialEq, Eq)]
pub struct Url(pub Optional<ImplicitContextTag0<IA5StringAsn1>>);

impl Asn1Type for Url {
    ghost asn1 = { url };

    ghost value = { url_value };

    fn with_encoded<U: ComponentVisitor>(&self, visitor: &mut U) -> U::Out {
        visitor.visit_value(&self.0.0)
    }

    fn read_encoded(alloc: Global, r: &mut Reader<'_>, nest: u8) -> Result<Self, Error> {
        Ok(Url(Optional(ImplicitContextTag0::read(alloc, r, nest)?)))
    }

    fn is_first_tag(tag: u8) -> bool {
        tag == 0x80
    }

    #[inline(always)]
    fn clone_value(&self, alloc: Global) -> Result<Self, Error> {
        Ok(Url(self.0.try_clone(alloc)?))
    }

    ghost equal = { Prim.search rules };
}

/// `moniker [1] IMPLICIT SpcSerializedObject`
#[derive(Debug, Drop, PartialEq, Eq)]
pub struct Moniker(pub Optional<ImplicitContextTag1<SpcSerializedObject>>);

impl Asn1Type for Moniker {
    ghost asn1 = { moniker };

    ghost value = { moniker_value };

    fn with_encoded<U: ComponentVisitor>(&self, visitor: &mut U) -> U::Out {
        visitor.visit_value(&self.0.0)
    }

    fn read_encoded(alloc: Global, r: &mut Reader<'_>, nest: u8) -> Result<Self, Error> {
        Ok(Moniker(Optional(ImplicitContextTag1::read(alloc, r, nest)?)))
    }

    fn is_first_tag(tag: u8) -> bool {
        tag == 0xA1
    }

    #[inline(always)]
    fn clone_value(&self, alloc: Global) -> Result<Self, Error> {
        Ok(Moniker(self.0.try_clone(alloc)?))
    }

    ghost equal = { Prim.search rules };
}

/// `file [2] EXPLICIT SpcString`
#[derive(Debug, Drop, PartialEq, Eq)]
pub struct File(pub ExplicitContextTag2<SpcString>);

impl Asn1Type for File {
    ghost asn1 = { file };

    ghost value = { file_value };

    fn with_encoded<U: ComponentVisitor>(&self, visitor: &mut U) -> U::Out {
        visitor.visit_value(&self.0)
    }

    fn read_encoded(alloc: Global, r: &mut Reader<'_>, nest: u8) -> Result<Self, Error> {
        Ok(File(ExplicitContextTag2::read(alloc, r, nest)?))
    }

    fn is_first_tag(tag: u8) -> bool {
        tag == 0xA2
    }

    #[inline(always)]
    fn clone_value(&self, alloc: Global) -> Result<Self, Error> {
        Ok(File(self.0.try_clone(alloc)?))
    }

    ghost equal = { Prim.search rules };
}

/// `SpcLink ::= CHOICE { url [0] IMPLICIT IA5String, moniker [1] IMPLICIT SpcSerializedObject, file [2] EXPLICIT
/// SpcString }`
#[derive(Debug, Drop, PartialEq, Eq)]
pub enum SpcLink {
    Url(Url),
    Moniker(Moniker),
    File(File),
}

impl Asn1Type for SpcLink {
    ghost asn1 = { spc_link };

    ghost value = { spc_link_value };

    fn with_encoded<U: ComponentVisitor>(&self, visitor: &mut U) -> U::Out {
        match self {
            SpcLink::Url(url) => visitor.visit_value(url),
            SpcLink::Moniker(moniker) => visitor.visit_value(moniker),
            SpcLink::File(file) => visitor.visit_value(file),
        }
    }

    fn read_encoded(alloc: Global, r: &mut Reader<'_>, nest: u8) -> Result<Self, Error> {
        match Either::read_one(alloc, r, nest)? {
            Either::First(url) => Ok(SpcLink::Url(url)),
            Either::Second(Either::First(moniker)) => Ok(SpcLink::Moniker(moniker)),
            Either::Second(Either::Second(file)) => Ok(SpcLink::File(file)),
        }
    }

    fn is_first_tag(tag: u8) -> bool {
        tag == 0x80 || tag == 0xA1 || tag == 0xA2
    }

    #[inline(always)]
    fn clone_value(&self, alloc: Global) -> Result<Self, Error> {
        match self {
            SpcLink::Url(url) => Ok(SpcLink::Url(url.try_clone(alloc)?)),
            SpcLink::Moniker(moniker) => Ok(SpcLink::Moniker(moniker.try_clone(alloc)?)),
            SpcLink::File(file) => Ok(SpcLink::File(file.try_clone(alloc)?)),
        }
    }

    ghost equal = { Prim.search rules };
}
