//! What Authenticode signs, with an attribute of any type.

ghost use Rattle.content_ranges.specs.Heads.{any_subject, any_subject_equal, any_subject_value, image_head, image_head_equal, image_head_value, indirect_head, indirect_head_equal, indirect_head_value};

use asn1_core::prelude::*;
use asn1_leaves::BitStringAsn1;
use std::alloc::Global;
use x509_base::DigestInfo;

/// `SpcAttributeTypeAndOptionalValue ::= SEQUENCE { type OBJECT IDENTIFIER, value [0] EXPLICIT ANY DEFINED BY type OPTIONAL
/// }` in Microsoft's words. Signatures have the value without the tag `[0]`; here it is any element, as it is.
#[derive(Debug, Drop, PartialEq, Eq)]
pub(crate) struct AnySubject {
    pub ty: ObjectIdentifierAsn1,
    pub value: Option<Asn1RawDer>,
}

impl Sequence for AnySubject {
    ghost asn1 = { any_subject };

    ghost value = { any_subject_value };

    fn with_components<U: ComponentVisitor>(&self, visitor: &mut U) -> U::Out {
        with_components_of!(self, visitor; AnySubject { ty, value OPTIONAL })
    }

    fn read_fields(alloc: Global, r: &mut Reader<'_>, nest: u8) -> Result<Self, Error> {
        read_fields_of!(alloc, r, nest; AnySubject { ty, value OPTIONAL })
    }

    fn clone_fields(&self, alloc: Global) -> Result<Self, Error> {
        clone_fields_of!(self, alloc; AnySubject { ty, value OPTIONAL })
    }

    ghost equal = { any_subject_equal };
}

/// `SpcIndirectDataContent ::= SEQUENCE { data SpcAttributeTypeAndOptionalValue, messageDigest DigestInfo }`
#[derive(Debug, Drop, PartialEq, Eq)]
pub(crate) struct IndirectHead {
    pub data: AnySubject,
    pub message_digest: DigestInfo,
}

impl Sequence for IndirectHead {
    ghost asn1 = { indirect_head };

    ghost value = { indirect_head_value };

    fn with_components<U: ComponentVisitor>(&self, visitor: &mut U) -> U::Out {
        with_components_of!(self, visitor; IndirectHead { data, message_digest })
    }

    fn read_fields(alloc: Global, r: &mut Reader<'_>, nest: u8) -> Result<Self, Error> {
        read_fields_of!(alloc, r, nest; IndirectHead { data, message_digest })
    }

    fn clone_fields(&self, alloc: Global) -> Result<Self, Error> {
        clone_fields_of!(self, alloc; IndirectHead { data, message_digest })
    }

    ghost equal = { indirect_head_equal };
}

/// `SpcPeImageData ::= SEQUENCE { flags SpcPeImageFlags DEFAULT { includeResources }, file [0] EXPLICIT SpcLink OPTIONAL }`,
/// with a file of any type. Absent flags are `None`.
#[derive(Debug, Drop, PartialEq, Eq)]
pub(crate) struct ImageHead {
    pub flags: Option<BitStringAsn1>,
    pub file: Option<ExplicitContextTag0<Asn1RawDer>>,
}

impl Sequence for ImageHead {
    ghost asn1 = { image_head };

    ghost value = { image_head_value };

    fn with_components<U: ComponentVisitor>(&self, visitor: &mut U) -> U::Out {
        with_components_of!(self, visitor; ImageHead { flags OPTIONAL, file OPTIONAL })
    }

    fn read_fields(alloc: Global, r: &mut Reader<'_>, nest: u8) -> Result<Self, Error> {
        read_fields_of!(alloc, r, nest; ImageHead { flags OPTIONAL, file OPTIONAL })
    }

    fn clone_fields(&self, alloc: Global) -> Result<Self, Error> {
        clone_fields_of!(self, alloc; ImageHead { flags OPTIONAL, file OPTIONAL })
    }

    ghost equal = { image_head_equal };
}
