//! The content that is signed.

ghost use Rattle.std.specs.Prelude.{◌≡◌, ℕ, List};
ghost use Rattle.asn1_core.specs.Asn1.{SEQUENCE};
ghost use Rattle.asn1_core.specs.Der.{ElementOctets, option_value};
ghost use Rattle.asn1_core.specs.Raw.{raw};
ghost use Rattle.signed_writers.specs.Values.{content_info_value, content_octets};
ghost use Rattle.x509_pkcs7.specs.RawContents.{raw_encapsulated_content_info};

use asn1_borrowed::{ElementRef, OctetsRef};
use asn1_core::prelude::*;

/// Content, as it is in the file.
#[derive(Clone, Copy)]
pub enum Content<'a> {
    /// These octets, in an OCTET STRING (RFC 5652, 5.2).
    Octets(&'a [u8]),
    /// This element (RFC 2315, 7), of whose contents octets the digest is made (RFC 2315, 9.3).
    Element(&'a [u8]),
}

impl DerSerialize for Content<'_> {
    ghost Value = { ElementOctets };

    ghost value = { content_octets };

    ghost format = { raw };

    fn put<W: Writer>(&self, w: &mut W) -> Result<(), WriteError> {
        match self {
            Content::Octets(octets) => OctetsRef(octets).put(w),
            Content::Element(element) => ElementRef(element).put(w),
        }
    }

    #[tactic(auto, using(crate::proofs::Contents::octets_formed))]
    fn well_formed_at(&self, limit: u8) -> bool {
        match self {
            Content::Octets(_octets) => true,
            Content::Element(element) => ElementRef(element).well_formed_at(limit),
        }
    }
}

/// `EncapsulatedContentInfo` (RFC 5652, 5.2): the type of the content, and the content.
#[derive(Clone, Copy)]
pub struct ContentInfo<'a> {
    /// The contents octets of the object identifier.
    pub content_type: &'a [u8],
    /// `None` where it is elsewhere and the signature is detached, or where there are no signers.
    pub content: Option<Content<'a>>,
}

type Parts<'a> = Required<KnownOid<'a>, Maybe<ExplicitContextTag0<Content<'a>>, End>>;

impl ContentInfo<'_> {
    fn parts(&self) -> Parts<'_>
        ensures { ⟦<Parts<'static> as WriteComponents>⟧.value result ≡ content_info_value self.now }
    {
        Required(
            KnownOid(self.content_type),
            Maybe(explicit(self.content), End),
        )
    }
}

fn explicit(content: Option<Content<'_>>) -> Option<ExplicitContextTag0<Content<'_>>>
    ensures { option_value (λ c. content_octets c.0) result ≡ option_value content_octets content.entry }
{
    match content {
        Some(content) => Some(ExplicitContextTag0(content)),
        None => None,
    }
}

impl DerSerialize for ContentInfo<'_> {
    ghost Value = { raw_encapsulated_content_info.Value };

    ghost value = { content_info_value };

    ghost format = { (SEQUENCE raw_encapsulated_content_info).format };

    fn put<W: Writer>(&self, w: &mut W) -> Result<(), WriteError> {
        put_within(0x30, &self.parts(), w)
    }

    fn well_formed_at(&self, limit: u8) -> bool {
        self.parts().components_well_formed_at(limit)
    }
}
