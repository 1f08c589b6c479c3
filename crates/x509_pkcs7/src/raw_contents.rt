//! Content of any type, or none (RFC 2315, 7; RFC 5652, 5.2).

ghost use Rattle.std.specs.Prelude.{◌≡◌};
ghost use Rattle.asn1_core.specs.Der.{option_value};
ghost use Rattle.x509_pkcs7.specs.RawContents.{raw_encapsulated_content_info, raw_encapsulated_content_info_value, AnswersContent, raw_encapsulated_equal};

use asn1_core::from_bytes;
use asn1_core::prelude::*;
use std::alloc::Global;

/// `ContentInfo ::= SEQUENCE { contentType ContentType, content [0] EXPLICIT ANY DEFINED BY contentType OPTIONAL }`
/// (RFC 2315, 7), of which `EncapsulatedContentInfo` (RFC 5652, 5.2) is one whose content is an OCTET STRING.
#[derive(Debug, Drop, PartialEq, Eq)]
pub struct RawEncapsulatedContentInfo {
    pub content_type: ObjectIdentifierAsn1,
    /// One element, octet for octet. Absent where the content is elsewhere.
    pub content: Option<ExplicitContextTag0<Asn1RawDer>>,
}

impl RawEncapsulatedContentInfo {
    /// The bytes of the content's element with its header, without the tag `[0]` around it.
    pub fn content(&self) -> Option<&[u8]>
        ensures { option_value (λ octets. octets.now) result ≡ option_value (λ c. c.0.0.items) self.now.content }
    {
        match &self.content {
            Some(content) => Some(content.0.0.as_slice()),
            None => None,
        }
    }

    /// The content as a `T`, with the errors of `from_bytes` on the bytes that `content` gives. The content type is not
    /// examined.
    pub fn content_typed<T: DerDeserialize>(&self, alloc: Global) -> Option<Result<T, Error>>
        ensures { AnswersContent T.value T.format self.now.content result }
    {
        match &self.content {
            Some(content) => Some(from_bytes(alloc, content.0.0.as_slice())),
            None => None,
        }
    }
}

impl Sequence for RawEncapsulatedContentInfo {
    ghost asn1 = { raw_encapsulated_content_info };

    ghost value = { raw_encapsulated_content_info_value };

    fn with_components<U: ComponentVisitor>(&self, visitor: &mut U) -> U::Out {
        with_components_of!(self, visitor; RawEncapsulatedContentInfo { content_type, content OPTIONAL })
    }

    fn read_fields(alloc: Global, r: &mut Reader<'_>, nest: u8) -> Result<Self, Error> {
        read_fields_of!(alloc, r, nest; RawEncapsulatedContentInfo { content_type, content OPTIONAL })
    }

    fn clone_fields(&self, alloc: Global) -> Result<Self, Error> {
        clone_fields_of!(self, alloc; RawEncapsulatedContentInfo { content_type, content OPTIONAL })
    }

    ghost equal = { raw_encapsulated_equal };
}
