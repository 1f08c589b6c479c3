//! The octets of content that are hashed, where the content is kept as an element (RFC 2315, 9.3; RFC 5652, 5.4).

ghost use Rattle.std.specs.Prelude.{◌≡◌, MatchResult};
ghost use Rattle.asn1_core.specs.Der.{option_value, IsElement, IsTagByte};
ghost use Rattle.asn1_core_element.specs.declared.error.Error.TheVariants.{Invalid};
ghost use Rattle.pkcs7_verifier.specs.Hashed.{AreContentsOf};
ghost use Rattle.x509_pkcs7.specs.RawContents.{raw_encapsulated_content_info_value};
ghost use Rattle.x509_pkcs7.specs.RawHashed.{content_of, IsRawHashed, IsNoElement};

use crate::raw_contents::RawEncapsulatedContentInfo;
use asn1_core::prelude::*;
use asn1_core_element::front::front;

impl RawEncapsulatedContentInfo {
    /// The octets whose digest is signed, or is the attribute `messageDigest`: the contents octets of the content's
    /// element, whatever it is, without its tag and length. `None` where the content is absent, as it is where a
    /// signature is detached. Takes no memory. Refuses by `Invalid` what is not one element, as content is that was
    /// read.
    pub fn hashed_octets(&self) -> Result<Option<&[u8]>, Error>
        ensures { MatchResult result
            (λ octets. IsRawHashed (content_of (raw_encapsulated_content_info_value self.now)) (option_value (λ o. o.now) octets))
            (λ e. (e ≡ Invalid) × IsNoElement (content_of (raw_encapsulated_content_info_value self.now))) }
    {
        match &self.content {
            Some(content) => Ok(Some(contents_of(content.0.0.as_slice())?)),
            None => Ok(None),
        }
    }
}

/// The contents octets of one element.
#[tactic(auto, using(crate::proofs::Elements::not_one_element))]
fn contents_of(element: &[u8]) -> Result<&[u8], Error>
    ensures { MatchResult result
        (λ octets. AreContentsOf octets.now element.now)
        (λ e. (e ≡ Invalid) × (IsElement IsTagByte element.now → ⊥)) }
{
    match front(element) {
        Some((_tag, len, size)) => {
            if size + len != element.len() {
                return Err(Error::Invalid);
            }
            Ok(&element[size..])
        }
        None => Err(Error::Invalid),
    }
}
