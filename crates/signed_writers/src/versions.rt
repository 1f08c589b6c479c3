//! The versions of signed data and of a signer.

ghost use Rattle.std.specs.Prelude.{◌≡◌, eqb, map};
ghost use Rattle.pkcs7_content.specs.Versions.{number_of};
ghost use Rattle.pkcs7_signed_crl.specs.SignerParts.{signer_identifier_value};
ghost use Rattle.pkcs7_verifier.specs.KeyIdentifiers.{has_tag};
ghost use Rattle.signed_writers.specs.Versions.{any_tagged, any_version_3, is_not_data, is_of_cms, signed_version, signer_version};
ghost use Rattle.x509_pkcs7.specs.RawSigners.{raw_signer_info_value};

use crate::content::{Content, ContentInfo};
use asn1_borrowed::ElementRef;
use asn1_core_oid::known::DATA;
use pkcs7_content::CmsVersion;
use pkcs7_signed_crl::SignerIdentifier;
use x509_pkcs7::RawSignerInfo;

/// The version of a signer (RFC 5652, 5.3): 1 with issuer and serial number, and 3 with a key identifier.
pub fn signer_version(identifier: &SignerIdentifier) -> CmsVersion
    ensures { number_of result ≡ signer_version (signer_identifier_value identifier.now) }
{
    match identifier {
        SignerIdentifier::IssuerAndSerialNumber(_) => CmsVersion::V1,
        SignerIdentifier::SubjectKeyIdentifier(_) => CmsVersion::V3,
    }
}

/// Whether an element has that tag.
pub fn is_tagged(element: &[u8], tag: u8) -> bool
    ensures { result ≡ has_tag tag element.now }
{
    match element {
        [first, ..] => *first == tag,
        [] => false,
    }
}

/// Whether one of some elements has that tag.
pub fn any_tagged(elements: &[ElementRef<'_>], tag: u8) -> bool
    ensures { result ≡ any_tagged tag (map (λ x. x.0.now) elements.now) }
{
    for element in elements {
        if is_tagged(element.0, tag) {
            return true;
        }
    }
    false
}

/// Whether a signer has the version 3.
fn is_version_3(signer: &RawSignerInfo) -> bool
    ensures { result ≡ eqb (raw_signer_info_value signer.now).0 3 }
{
    signer.version == CmsVersion::V3
}

/// Whether one of some signers has it.
fn any_version_3(signers: &[RawSignerInfo]) -> bool
    ensures { result ≡ any_version_3 (map raw_signer_info_value signers.now) }
{
    for signer in signers {
        if is_version_3(signer) {
            return true;
        }
    }
    false
}

/// Whether content is as RFC 5652, 5.2 has it: an element that is no OCTET STRING is content of PKCS #7.
fn is_of_cms(content: Option<Content<'_>>) -> bool
    ensures { result ≡ is_of_cms content.entry }
{
    match content {
        Some(Content::Element(element)) => is_tagged(element, 0x04),
        _ => true,
    }
}

/// Whether it is so, and of another type than `id-data`.
fn is_not_data(info: &ContentInfo<'_>) -> bool
    ensures { result ≡ is_not_data info.now }
{
    info.content_type != DATA.as_slice() && is_of_cms(info.content)
}

/// The version of signed data (RFC 5652, 5.1), and with content of PKCS #7 that of RFC 2315, 9.1 where this says no more.
pub(crate) fn signed_version(
    info: &ContentInfo<'_>,
    certificates: &[ElementRef<'_>],
    crls: &[ElementRef<'_>],
    signers: &[RawSignerInfo],
) -> CmsVersion
    ensures { number_of result ≡ signed_version (is_not_data info.now) (map (λ x. x.0.now) certificates.now) (map (λ x. x.0.now) crls.now) (map raw_signer_info_value signers.now) }
{
    if any_tagged(certificates, 0xA3) || any_tagged(crls, 0xA1) {
        return CmsVersion::V5;
    }
    if any_tagged(certificates, 0xA2) {
        return CmsVersion::V4;
    }
    if any_tagged(certificates, 0xA1) || any_version_3(signers) || is_not_data(info) {
        return CmsVersion::V3;
    }
    CmsVersion::V1
}
