//! What can be written as signed data.

ghost use Rattle.std.specs.Prelude.{◌≡◌, ◌⊎◌, ◌↔◌, IsTrue, [], MatchResult, map};
ghost use Rattle.std.specs.List.{AllByRecursion};
ghost use Rattle.asn1_core.specs.Der.{IsOid, octets_of};
ghost use Rattle.asn1_core_element.specs.declared.error.Error.TheVariants.{Invalid, Memory};
ghost use Rattle.attribute_writers.specs.Refusals.{IsFirstWithout};
ghost use Rattle.pkcs7_attributes.specs.Attributes.{attributes_value};
ghost use Rattle.signed_writers.specs.Parts.{IsRefused, IsStopped};
ghost use Rattle.signed_writers.specs.Signed.{AreAllowed, CanBeWritten, HasOneTime, IsChoice, IsConsistent, IsContent, IsRevocation, IsSigned, given_parts};
ghost use Rattle.signed_writers.specs.declared.checks.SignedPart.TheVariants.{Certificate, Content, ContentType, RevocationList, Signer};
ghost use Rattle.x509_pkcs7.specs.RawSigners.{raw_signer_info_value};

use crate::content::ContentInfo;
use crate::signers::has_none;
use crate::versions::{is_tagged, signer_version};
use asn1_borrowed::ElementRef;
use asn1_core::prelude::*;
use asn1_core_oid::is_oid_of;
use asn1_core_oid::known::DATA;
use pkcs7_attributes::Attributes;
use signer_ranges::signed_digest;
use std::alloc::Global;
use x509_pkcs7::RawSignerInfo;

/// A part of signed data.
#[derive(Clone, Copy, Debug, PartialEq, Eq)]
pub enum SignedPart {
    ContentType,
    Content,
    /// The certificate with that index.
    Certificate,
    /// The revocation list with that index.
    RevocationList,
    /// The signer with that index.
    Signer,
    /// All of it, which is too long, or for which memory was refused.
    Whole,
}

/// Why signed data isn't written.
#[derive(Clone, Copy, Debug, PartialEq, Eq)]
pub struct NotSigned {
    /// A part that can't be written: tested is that it is the first, in the order of `SignedPart`.
    pub part: SignedPart,
    /// Of a certificate, a revocation list or a signer the first that can't be written, from 0 on; otherwise 0.
    pub index: usize,
    /// `Invalid` where a part can't be written, `TooLong` where an encoding would have 2^64 octets or more. Or `Memory`, at
    /// any part.
    pub error: Error,
}

/// Whether an element has the tag of a certificate, or of another choice (RFC 5652, 10.2.2).
fn is_choice(element: &ElementRef<'_>) -> bool
    ensures { IsTrue result ↔ IsChoice element.now.0.now }
{
    let octets = element.0;
    element.well_formed()
        && (is_tagged(octets, 0x30)
            || is_tagged(octets, 0xA0)
            || is_tagged(octets, 0xA1)
            || is_tagged(octets, 0xA2)
            || is_tagged(octets, 0xA3))
}

/// Whether an element has the tag of a revocation list, or of the other choice (RFC 5652, 10.2.1).
fn is_revocation(element: &ElementRef<'_>) -> bool
    ensures { IsTrue result ↔ IsRevocation element.now.0.now }
{
    element.well_formed() && (is_tagged(element.0, 0x30) || is_tagged(element.0, 0xA1))
}

/// Refuses by `Invalid` the first element with another tag than those of certificates.
fn check_choices(elements: &[ElementRef<'_>]) -> Result<(), NotSigned>
    ensures { MatchResult result
        (λ _. AllByRecursion IsChoice (map (λ x. x.0.now) elements.now))
        (λ w. (w.error ≡ Invalid) × (w.part ≡ Certificate) × IsFirstWithout IsChoice (map (λ x. x.0.now) elements.now) w.index) }
{
    for (index, element) in elements.iter().enumerate() {
        if !is_choice(element) {
            return Err(NotSigned {
                part: SignedPart::Certificate,
                index,
                error: Error::Invalid,
            });
        }
    }
    Ok(())
}

/// Refuses by `Invalid` the first element with another tag than those of revocation lists.
fn check_revocations(elements: &[ElementRef<'_>]) -> Result<(), NotSigned>
    ensures { MatchResult result
        (λ _. AllByRecursion IsRevocation (map (λ x. x.0.now) elements.now))
        (λ w. (w.error ≡ Invalid) × (w.part ≡ RevocationList) × IsFirstWithout IsRevocation (map (λ x. x.0.now) elements.now) w.index) }
{
    for (index, element) in elements.iter().enumerate() {
        if !is_revocation(element) {
            return Err(NotSigned {
                part: SignedPart::RevocationList,
                index,
                error: Error::Invalid,
            });
        }
    }
    Ok(())
}

/// Whether there is at most one signingTime, with one value (RFC 5652, 11.3). Refuses by `Memory` alone.
#[tactic(auto, using(crate::proofs::Allowed::one_time, crate::proofs::Allowed::several_times))]
fn has_one_time(alloc: Global, attributes: &Attributes) -> Result<bool, Error>
    ensures { MatchResult result (λ b. IsTrue b ↔ HasOneTime (attributes_value attributes.now)) (λ e. e ≡ Memory) }
{
    match attributes.signing_time(alloc) {
        Ok(_time) => Ok(true),
        Err(error) => {
            if error == Error::Memory {
                return Err(Error::Memory);
            }
            Ok(false)
        }
    }
}

/// Whether signed attributes are allowed with content of that type: none with `id-data` alone (RFC 5652, 5.3). Refuses by
/// `Memory` alone.
#[tactic(auto, using(crate::proofs::Allowed::without, crate::proofs::Allowed::without_digest))]
fn are_allowed(
    alloc: Global,
    attributes: &Attributes,
    content_type: &ObjectIdentifierAsn1,
) -> Result<bool, Error>
    ensures { MatchResult result (λ b. IsTrue b ↔ AreAllowed (octets_of content_type.now.0) (attributes_value attributes.now)) (λ e. e ≡ Memory) }
{
    if has_none(&attributes.0.0) {
        return Ok(is_oid_of(&content_type.0, &DATA));
    }
    match signed_digest(alloc, attributes, content_type)? {
        Some(_digest) => Ok(has_one_time(alloc, attributes)?),
        None => Ok(false),
    }
}

/// Refuses by `Invalid` a signer with another version than RFC 5652, 5.3 asks for, with signed attributes that aren't
/// allowed, or that is ill-formed.
fn check_signer(
    alloc: Global,
    content_type: &ObjectIdentifierAsn1,
    signer: &RawSignerInfo,
) -> Result<(), Error>
    ensures { MatchResult result
        (λ _. IsConsistent (octets_of content_type.now.0) (raw_signer_info_value signer.now))
        (λ e. IsRefused (IsConsistent (octets_of content_type.now.0) (raw_signer_info_value signer.now)) e) }
{
    if signer.version != signer_version(&signer.sid) {
        return Err(Error::Invalid);
    }
    if !are_allowed(alloc, &signer.signed_attrs.0, content_type)? {
        return Err(Error::Invalid);
    }
    if !signer.well_formed() {
        return Err(Error::Invalid);
    }
    Ok(())
}

/// Whether content is absent, of the type `id-data`.
fn is_absent(info: &ContentInfo<'_>) -> bool
    ensures { IsTrue result ↔ IsSigned info.now [] }
{
    match info.content {
        Some(_content) => false,
        None => info.content_type == DATA.as_slice(),
    }
}

/// Whether content is as it has to be where there are no signers, or there are some (RFC 5652, 5.2).
#[tactic(auto, using(crate::proofs::Allowed::by_none, crate::proofs::Allowed::by_some))]
fn is_signed(info: &ContentInfo<'_>, signers: &[RawSignerInfo]) -> bool
    ensures { IsTrue result ↔ IsSigned info.now (map raw_signer_info_value signers.now) }
{
    if signers.is_empty() {
        is_absent(info)
    } else {
        true
    }
}

/// Refuses by `Invalid` content that can't be written.
fn check_content(info: &ContentInfo<'_>, signers: &[RawSignerInfo]) -> Result<(), NotSigned>
    ensures { MatchResult result
        (λ _. IsContent info.now × IsSigned info.now (map raw_signer_info_value signers.now))
        (λ w. (w.error ≡ Invalid) × (w.part ≡ Content) × (w.index ≡ 0) × (IsContent info.now × IsSigned info.now (map raw_signer_info_value signers.now) → ⊥)) }
{
    if info.well_formed() && is_signed(info, signers) {
        return Ok(());
    }
    Err(NotSigned {
        part: SignedPart::Content,
        index: 0,
        error: Error::Invalid,
    })
}

/// The content's type.
fn type_of(alloc: Global, octets: &[u8]) -> Result<ObjectIdentifierAsn1, NotSigned>
    ensures { MatchResult result
        (λ type. IsOid octets.now × (octets_of type.0 ≡ octets.now))
        (λ w. (w.part ≡ ContentType) × (w.index ≡ 0) × IsRefused (IsOid octets.now) w.error) }
{
    match ObjectIdentifier::from_octets(alloc, octets) {
        Ok(oid) => Ok(ObjectIdentifierAsn1(oid)),
        Err(error) => Err(NotSigned {
            part: SignedPart::ContentType,
            index: 0,
            error,
        }),
    }
}

/// Refuses by `Invalid` the first signer that can't be written, or by `Memory`.
fn check_signers(
    alloc: Global,
    content_type: &ObjectIdentifierAsn1,
    signers: &[RawSignerInfo],
) -> Result<(), NotSigned>
    ensures { MatchResult result
        (λ _. AllByRecursion (IsConsistent (octets_of content_type.now.0)) (map raw_signer_info_value signers.now))
        (λ w. ((w.error ≡ Invalid) × (w.part ≡ Signer) × IsFirstWithout (IsConsistent (octets_of content_type.now.0)) (map raw_signer_info_value signers.now) w.index) ⊎ (w.error ≡ Memory)) }
{
    for (index, signer) in signers.iter().enumerate() {
        match check_signer(alloc, content_type, signer) {
            Ok(()) => {}
            Err(error) => {
                return Err(NotSigned {
                    part: SignedPart::Signer,
                    index,
                    error,
                });
            }
        }
    }
    Ok(())
}

/// Refuses by `Invalid` the first part that can't be written, or by `Memory`.
#[tactic(auto, using(crate::proofs::Refused::content_wrong))]
pub(crate) fn check_parts(
    alloc: Global,
    info: &ContentInfo<'_>,
    certificates: &[ElementRef<'_>],
    crls: &[ElementRef<'_>],
    signers: &[RawSignerInfo],
) -> Result<(), NotSigned>
    ensures { let given = given_parts info.now certificates.now crls.now signers.now in
        MatchResult result (λ _. CanBeWritten given) (λ w. IsStopped given w) }
{
    let content_type = type_of(alloc, info.content_type)?;
    check_content(info, signers)?;
    check_choices(certificates)?;
    check_revocations(crls)?;
    check_signers(alloc, &content_type, signers)
}
