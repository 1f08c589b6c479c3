//! The extensions of a certificate, and the identifier of its key (RFC 5280, 4.2.1.2).

ghost use Rattle.std.specs.Prelude.{◌≡◌, map};
ghost use Rattle.std.specs.List.{find};
ghost use Rattle.asn1_core.specs.Der.{option_value};
ghost use Rattle.x509_base.specs.Extensions.{extension_value, extensions_value};
ghost use Rattle.pkcs7_verifier.specs.Heads.{certificate_head_value};
ghost use Rattle.pkcs7_verifier.specs.KeyIdentifiers.{has_tag, rest_of, AreExtensionsOf, extension_with, IsKeyIdOf, Answers};

use crate::heads::CertificateHead;
use asn1_core::from_bytes;
use asn1_core::prelude::*;
use asn1_core_oid::is_oid_of;
use std::alloc::Global;
use x509_base::{Extension, Extensions, SubjectKeyIdentifier};

/// `id-ce-subjectKeyIdentifier`
const SUBJECT_KEY_IDENTIFIER: [u8; 3] = [0x55, 0x1D, 0x0E];

/// Whether the element has that tag.
fn is_tagged(element: &Asn1RawDer, tag: u8) -> bool
    ensures { result ≡ has_tag tag element.now.0.items }
{
    match element.0.as_slice() {
        [first, ..] => *first == tag,
        [] => false,
    }
}

/// The first element with that tag.
fn first_tagged(elements: &[Asn1RawDer], tag: u8) -> Option<&Asn1RawDer>
    ensures { option_value (λ e. e.now.0.items) result ≡ find (has_tag tag) (map (λ e. e.0.items) elements.now) }
{
    for element in elements {
        if is_tagged(element, tag) {
            return Some(element);
        }
    }
    None
}

/// The first extension with an object identifier, which is given by its contents octets.
pub fn first_extension<'a>(extensions: &'a [Extension], oid: &[u8]) -> Option<&'a Extension>
    ensures { option_value (λ e. extension_value e.now) result ≡ extension_with oid.now (map extension_value extensions.now) }
{
    for extension in extensions {
        if is_oid_of(&extension.extn_id.0, oid) {
            return Some(extension);
        }
    }
    None
}

impl CertificateHead {
    /// The extensions: those of the first element under `[3]`. `None` where there is no such element, and this is never
    /// refused; one that holds something else is refused, as `from_bytes` refuses it. Reading them takes memory.
    pub fn extensions(&self, alloc: Global) -> Result<Option<Extensions>, Error>
        ensures { Answers (option_value extensions_value) AreExtensionsOf (rest_of (certificate_head_value self.now)) result }
    {
        match first_tagged(&self.tbs_certificate.rest, 0xA3) {
            Some(element) => {
                let Explicit::<3, Extensions>(found) = from_bytes(alloc, element.0.as_slice())?;
                Ok(Some(found))
            }
            None => Ok(None),
        }
    }

    /// The identifier of the key, by which a signer may name its certificate: the value of the first extension
    /// `subjectKeyIdentifier`. `None` where there is no such extension; a value that is no OCTET STRING is refused. A
    /// certificate without extensions is never refused.
    pub fn subject_key_identifier(
        &self,
        alloc: Global,
    ) -> Result<Option<SubjectKeyIdentifier>, Error>
        ensures { Answers (option_value (λ k. k.0.0.items)) IsKeyIdOf (rest_of (certificate_head_value self.now)) result }
    {
        let Some(extensions) = self.extensions(alloc)? else {
            return Ok(None);
        };
        match first_extension(&extensions.0, &SUBJECT_KEY_IDENTIFIER) {
            Some(extension) => Ok(Some(from_bytes(alloc, extension.extn_value.0.as_slice())?)),
            None => Ok(None),
        }
    }
}
