//! The contents of an authenticated safe, which are not parsed.

ghost use Rattle.bag_ranges.specs.RawContentInfos.{raw_content_info, raw_content_info_value, raw_content_info_equal};

use asn1_core::prelude::*;
use std::alloc::Global;

/// `ContentInfo ::= SEQUENCE { contentType ContentType, content [0] EXPLICIT ANY DEFINED BY contentType OPTIONAL }`
/// (RFC 2315, 7), an item of `AuthenticatedSafe` (RFC 7292, 4.1).
#[derive(Debug, Drop, PartialEq, Eq)]
pub struct RawContentInfo {
    pub content_type: ObjectIdentifierAsn1,
    /// One element, octet for octet.
    pub content: Option<ExplicitContextTag0<Asn1RawDer>>,
}

impl Sequence for RawContentInfo {
    ghost asn1 = { raw_content_info };

    ghost value = { raw_content_info_value };

    fn with_components<U: ComponentVisitor>(&self, visitor: &mut U) -> U::Out {
        with_components_of!(self, visitor; RawContentInfo { content_type, content OPTIONAL })
    }

    fn read_fields(alloc: Global, r: &mut Reader<'_>, nest: u8) -> Result<Self, Error> {
        read_fields_of!(alloc, r, nest; RawContentInfo { content_type, content OPTIONAL })
    }

    fn clone_fields(&self, alloc: Global) -> Result<Self, Error> {
        clone_fields_of!(self, alloc; RawContentInfo { content_type, content OPTIONAL })
    }

    ghost equal = { raw_content_info_equal };
}
