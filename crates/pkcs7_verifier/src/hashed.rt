//! The octets of content that are hashed (RFC 2315, 9.3; RFC 5652, 5.4).

ghost use Rattle.std.specs.Prelude.{MatchResult};
ghost use Rattle.asn1_core.specs.Der.{option_value, IsElement, IsTagByte};
ghost use Rattle.asn1_core_writers.specs.Texts.{IsWriteError};
ghost use Rattle.pkcs7_content.specs.Contents.{content_values, content_value};
ghost use Rattle.pkcs7_verifier.specs.Hashed.{AreContentsOf, IsHashed, IsNotHashed};

use asn1_core::prelude::*;
use asn1_core::to_vec;
use asn1_core_element::front::front;
use pkcs7_content::{ContentValue, EncapsulatedContentInfo};
use std::alloc::Global;

/// The octets whose digest is signed, or is the attribute `messageDigest`: of an OCTET STRING what it contains, of
/// indirect data and of a trust list their contents. `None` where the content is absent, as it is where a signature is
/// detached, and this is never refused. Refuses other content by `TooLong` or `Memory` alone.
pub fn hashed_octets(
    alloc: Global,
    info: &EncapsulatedContentInfo,
) -> Result<Option<Vec<u8>>, Error>
    ensures { MatchResult result
        (λ octets. IsHashed (option_value (λ c. content_value c.0) info.now.content) (option_value (λ v. v.items) octets))
        (λ e. IsNotHashed (option_value (λ c. content_value c.0) info.now.content) e) }
{
    match &info.content {
        Some(tagged) => Ok(Some(content_octets(alloc, &tagged.0)?)),
        None => Ok(None),
    }
}

/// The contents octets of the encoding.
fn content_octets(alloc: Global, content: &ContentValue) -> Result<Vec<u8>, Error>
    ensures { MatchResult result
        (λ v. AreContentsOf v.items (content_values.text (content_value content.now)))
        (λ e. IsWriteError (content_values.text (content_value content.now)) e) }
{
    let encoding = to_vec(alloc, content)?;
    Ok(Vec::from_slice(alloc, contents_in(encoding.as_slice()))?)
}

/// The contents octets of one element.
fn contents_in(element: &[u8]) -> &[u8]
    requires { IsElement IsTagByte element.now }
    ensures { AreContentsOf result.now element.now }
{
    match front(element) {
        Some((_tag, _len, size)) => &element[size..],
        None => unreachable!(),
    }
}
