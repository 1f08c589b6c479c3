//! Content under its type (RFC 5652, 3).

ghost use Rattle.std.specs.Prelude.{◌≡◌};
ghost use Rattle.asn1_core.specs.Der.{AnswersInput};
ghost use Rattle.x509_pkcs7.specs.ContentInfos.{content_info, content_info_value, content_info_equal};

use asn1_core::from_bytes;
use asn1_core::prelude::*;
use pkcs7_enveloped::ContentType;
use std::alloc::Global;

/// `ContentInfo ::= SEQUENCE { contentType ContentType, content [0] EXPLICIT ANY DEFINED BY contentType }`
#[derive(Debug, Drop, PartialEq)]
pub struct ContentInfo {
    pub content_type: ContentType,
    /// One element, octet for octet.
    pub content: ExplicitContextTag0<Asn1RawDer>,
}

impl ContentInfo {
    /// The bytes of the content's element with its header, without the tag `[0]` around it.
    pub fn content(&self) -> &[u8]
        ensures { result.now ≡ self.now.content.0.0.items }
    {
        self.content.0.0.as_slice()
    }

    /// The content as a `T`, with the errors of `from_bytes` on the bytes that `content` gives. The content type is not
    /// examined.
    pub fn content_typed<T: DerDeserialize>(&self, alloc: Global) -> Result<T, Error>
        ensures { AnswersInput T.value T.format 64 self.now.content.0.0.items result }
    {
        from_bytes(alloc, self.content())
    }
}

impl Sequence for ContentInfo {
    ghost asn1 = { content_info };

    ghost value = { content_info_value };

    fn with_components<U: ComponentVisitor>(&self, visitor: &mut U) -> U::Out {
        with_components_of!(self, visitor; ContentInfo { content_type, content })
    }

    fn read_fields(alloc: Global, r: &mut Reader<'_>, nest: u8) -> Result<Self, Error> {
        read_fields_of!(alloc, r, nest; ContentInfo { content_type, content })
    }

    fn clone_fields(&self, alloc: Global) -> Result<Self, Error> {
        clone_fields_of!(self, alloc; ContentInfo { content_type, content })
    }

    ghost equal = { content_info_equal };
}
