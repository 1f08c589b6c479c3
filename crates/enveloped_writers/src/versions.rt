//! Recipients as elements, and the version of enveloped data.

ghost use Rattle.std.specs.Prelude.{◌≡◌, ◌↔◌, ◌∷◌, ℕ, IsTrue, List, MatchOption, map};
ghost use Rattle.std.specs.List.{AllByRecursion};
ghost use Rattle.asn1_core.specs.Der.{element, option_value};
ghost use Rattle.enveloped_writers.specs.Elements.{Begins, IsOfVersion, IsPlain, IsRecipient, IsVersion, has_password_or_other, is_other};
ghost use Rattle.pkcs7_content.specs.Versions.{number_of};

use asn1_borrowed::ElementRef;
use asn1_core::prelude::*;
use asn1_core_element::front::front;
use pkcs7_content::CmsVersion;
use signed_writers::{any_tagged, is_tagged};

/// The contents of the SEQUENCE that octets are, if they are one.
#[tactic(auto, using(crate::proofs::Sequences::no_sequence, crate::proofs::Sequences::other_tag, crate::proofs::Sequences::other_length))]
fn sequence_in(octets: &[u8]) -> Option<&[u8]>
    ensures { MatchOption result
        ((c : List ℕ) → octets.now ≡ element 0x30 c → ⊥)
        (λ c. octets.now ≡ element 0x30 c.now) }
{
    let Some((tag, len, size)) = front(octets) else {
        return None;
    };
    if tag != 0x30 {
        return None;
    }
    if size + len != octets.len() {
        return None;
    }
    octets.get(size..)
}

/// Whether these octets are those of that INTEGER, which is below 128.
fn is_integer(tag: u8, len: u8, octet: u8, number: u8) -> bool
    ensures { IsTrue result ↔ (tag ≡ 0x02) × (len ≡ 0x01) × (octet ≡ number) }
{
    tag == 0x02 && len == 0x01 && octet == number
}

/// Whether contents begin with that INTEGER.
#[tactic(auto, using(crate::proofs::RecipientVersions::none, crate::proofs::RecipientVersions::one, crate::proofs::RecipientVersions::two, crate::proofs::RecipientVersions::three))]
fn begins_with(contents: &[u8], version: u8) -> bool
    ensures { IsTrue result ↔ Begins version contents.now }
{
    match contents {
        [] => false,
        [_tag] => false,
        [_tag, _len] => false,
        [tag, len, octet, ..] => is_integer(*tag, *len, *octet, version),
    }
}

/// Whether octets are a SEQUENCE that begins with that version.
fn is_of_version(octets: &[u8], version: u8) -> bool
    ensures { IsTrue result ↔ IsOfVersion version octets.now }
{
    match sequence_in(octets) {
        Some(contents) => begins_with(contents, version),
        None => false,
    }
}

/// Whether an element has the tag of a recipient of another kind than ktri.
fn is_other(octets: &[u8]) -> bool
    ensures { result ≡ is_other octets.now }
{
    is_tagged(octets, 0xA1)
        || is_tagged(octets, 0xA2)
        || is_tagged(octets, 0xA3)
        || is_tagged(octets, 0xA4)
}

/// Whether an element is a recipient, by its tag, and of ktri by its version.
pub(crate) fn is_recipient(element: &ElementRef<'_>) -> bool
    ensures { IsTrue result ↔ IsRecipient element.now.0.now }
{
    let octets = element.0;
    element.well_formed()
        && (is_other(octets) || is_of_version(octets, 0) || is_of_version(octets, 2))
}

/// Whether there is a recipient with a password, or one of `ori`.
fn has_password_or_other(recipients: &[ElementRef<'_>]) -> bool
    ensures { result ≡ has_password_or_other (map (λ x. x.0.now) recipients.now) }
{
    any_tagged(recipients, 0xA3) || any_tagged(recipients, 0xA4)
}

/// Whether all recipients are `ktri` of version 0.
fn are_of_version_0(recipients: &[ElementRef<'_>]) -> bool
    ensures { IsTrue result ↔ AllByRecursion (IsOfVersion 0) (map (λ x. x.0.now) recipients.now) }
{
    for recipient in recipients {
        if !is_of_version(recipient.0, 0) {
            return false;
        }
    }
    true
}

/// Whether there are no unprotected attributes, and all recipients are `ktri` of version 0.
fn is_plain(attributes: Option<&[u8]>, recipients: &[ElementRef<'_>]) -> bool
    ensures { IsTrue result ↔ IsPlain (option_value (λ x. x.now) attributes.entry) (map (λ x. x.0.now) recipients.now) }
{
    match attributes {
        Some(_attributes) => false,
        None => are_of_version_0(recipients),
    }
}

/// The version of enveloped data without originatorInfo (RFC 5652, 6.1).
pub(crate) fn enveloped_version(
    attributes: Option<&[u8]>,
    recipients: &[ElementRef<'_>],
) -> CmsVersion
    ensures { IsVersion (option_value (λ x. x.now) attributes.entry) (map (λ x. x.0.now) recipients.now) (number_of result) }
{
    if has_password_or_other(recipients) {
        return CmsVersion::V3;
    }
    if is_plain(attributes, recipients) {
        CmsVersion::V0
    } else {
        CmsVersion::V2
    }
}
