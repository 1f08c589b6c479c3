//! Enveloped data, written from parts that a caller has as octets.

ghost use Rattle.std.specs.Prelude.{◌≡◌, ◌≢◌, ◌⊎◌, ◌↔◌, [], IsTrue, MatchResult, map};
ghost use Rattle.std.specs.List.{AllByRecursion};
ghost use Rattle.asn1_core.specs.Der.{IsOid, option_value};
ghost use Rattle.asn1_core_element.specs.declared.error.Error.TheVariants.{Invalid, Memory, TooLong};
ghost use Rattle.asn1_core_format.specs.Whole.{IsValueOf};
ghost use Rattle.asn1_sets.specs.Order.{IsInOrder};
ghost use Rattle.attribute_writers.specs.Refusals.{IsFirstWithout};
ghost use Rattle.enveloped_writers.specs.Elements.{IsRecipient};
ghost use Rattle.enveloped_writers.specs.Enveloped.{AreParts, AreUnprotected, CanBeWritten, IsEnvelopedData, IsNotEnveloped, IsTooLong, attributes_in};
ghost use Rattle.enveloped_writers.specs.Values.{enveloped_value};
ghost use Rattle.enveloped_writers.specs.declared.enveloped.EnvelopedPart.TheVariants.{Recipient};
ghost use Rattle.part_ranges.specs.Enveloped.{enveloped_data_oid};
ghost use Rattle.signed_writers.specs.Signers.{AreAttributesIn, HasOne, IsReadAs};
ghost use Rattle.signer_ranges.specs.SignerRoutes.{ALGORITHM};
ghost use Rattle.x509_base.specs.AlgorithmParts.{algorithm_identifier_value};
ghost use Rattle.x509_base.specs.Names.{attribute_value};

use crate::parts::{ContentParts, EnvelopedFile, EnvelopedParts};
use crate::versions::{enveloped_version, is_recipient};
use asn1_borrowed::{ElementRef, ImplicitTag0OctetsRef, write};
use asn1_core::from_bytes;
use asn1_core::prelude::*;
use asn1_core_oid::is_oid;
use asn1_sets::put_refs_in_order;
use signed_writers::{SignerPart, read_attributes};
use std::alloc::Global;
use x509_base::{AlgorithmIdentifier, Attribute};

/// Enveloped data to be written (RFC 5652, 6.1), but for their recipients.
#[derive(Clone, Copy)]
pub struct Enveloped<'a> {
    /// The contents octets of the object identifier that is the type of what was encrypted.
    pub content_type: &'a [u8],
    /// The encoding of an `AlgorithmIdentifier`, with its parameters: `contentEncryptionAlgorithm`.
    pub algorithm: &'a [u8],
    /// The octets of `encryptedContent`. `None` where they are elsewhere.
    pub content: Option<&'a [u8]>,
    /// The encoding of a SET OF Attribute, with the tag `31`, that isn't empty: `unprotectedAttrs`.
    pub attributes: Option<&'a [u8]>,
}

/// A part of enveloped data.
#[derive(Clone, Copy, Debug, PartialEq, Eq)]
pub enum EnvelopedPart {
    ContentType,
    Algorithm,
    /// The recipient with that index.
    Recipient,
    /// There is no recipient.
    Recipients,
    Attributes,
    /// All of it, which is too long, or for which memory was refused.
    Whole,
}

/// Why enveloped data aren't written.
#[derive(Clone, Copy, Debug, PartialEq, Eq)]
pub struct NotEnveloped {
    /// A part that can't be written: tested is that it is the first, in the order of `EnvelopedPart`.
    pub part: EnvelopedPart,
    /// Of a recipient the first that can't be written, from 0 on; otherwise 0.
    pub index: usize,
    /// Why it isn't read as its type, or `Invalid`; `TooLong`, at `Whole`, where the encoding would have 2^64 octets or
    /// more. Or `Memory`, at any part.
    pub error: Error,
}

/// A part that isn't a recipient, with the reason.
fn refused(part: EnvelopedPart, error: Error) -> NotEnveloped
    ensures { (result.part ≡ part) × (result.index ≡ 0) × (result.error ≡ error) }
{
    NotEnveloped {
        part,
        index: 0,
        error,
    }
}

/// The algorithm that encrypts the content.
fn algorithm_of(alloc: Global, octets: &[u8]) -> Result<AlgorithmIdentifier, Error>
    ensures { MatchResult result
        (λ x. IsValueOf ALGORITHM.format 64 octets.now (algorithm_identifier_value x))
        (λ e. (e ≢ TooLong) × (e ≢ Memory → IsReadAs ALGORITHM.format octets.now → ⊥)) }
{
    match from_bytes(alloc, octets) {
        Ok(algorithm) => Ok(algorithm),
        Err(error) => Err(error),
    }
}

/// The unprotected attributes, or none.
fn unprotected(alloc: Global, octets: Option<&[u8]>) -> Result<Vec<Attribute>, Error>
    ensures { MatchResult result
        (λ all. AreAttributesIn (option_value (λ o. o.now) octets.entry) (map attribute_value all.items))
        (λ e. (e ≢ TooLong) × (e ≢ Memory → HasOne (AreAttributesIn (option_value (λ o. o.now) octets.entry)) → ⊥)) }
{
    match read_attributes(alloc, octets, SignerPart::UnsignedAttributes) {
        Ok(all) => Ok(all),
        Err(wrong) => Err(wrong.error),
    }
}

/// Refuses by `Invalid` the first element that is no recipient.
fn check_recipients(recipients: &[ElementRef<'_>]) -> Result<(), NotEnveloped>
    ensures { MatchResult result
        (λ _. AllByRecursion IsRecipient (map (λ x. x.0.now) recipients.now))
        (λ w. (w.error ≡ Invalid) × (w.part ≡ Recipient) × IsFirstWithout IsRecipient (map (λ x. x.0.now) recipients.now) w.index) }
{
    for (index, recipient) in recipients.iter().enumerate() {
        if !is_recipient(recipient) {
            return Err(NotEnveloped {
                part: EnvelopedPart::Recipient,
                index,
                error: Error::Invalid,
            });
        }
    }
    Ok(())
}

/// Whether there is none.
fn has_none(recipients: &[ElementRef<'_>]) -> bool
    ensures { IsTrue result ↔ (map (λ x. x.0.now) recipients.now ≡ []) }
{
    recipients.is_empty()
}

/// Recipients in the order of DER.
fn in_order<'a>(alloc: Global, elements: &[ElementRef<'a>]) -> Result<Vec<ElementRef<'a>>, Error>
    ensures { MatchResult result
        (λ sorted. IsInOrder (map (λ x. x.0.now) elements.now) (map (λ x. x.0.now) sorted.items))
        (λ e. e ≡ Memory) }
{
    let mut sorted = Vec::from_slice(alloc, elements)?;
    put_refs_in_order(sorted.as_mut_slice());
    Ok(sorted)
}

/// The octets of the content, if they are there.
fn content_if(octets: Option<&[u8]>) -> Option<ImplicitTag0OctetsRef<'_>>
    ensures { option_value (λ x. x.0.now) result ≡ option_value (λ x. x.now) octets.entry }
{
    match octets {
        Some(octets) => Some(ImplicitTag0OctetsRef(octets)),
        None => None,
    }
}

/// The set of attributes, or none where none are given.
fn set_if(
    given: Option<&[u8]>,
    attributes: Vec<Attribute>,
) -> Option<ImplicitContextTag1<Asn1SetOf<Attribute>>>
    requires { AreAttributesIn (option_value (λ o. o.now) given) (map attribute_value attributes.items) }
    ensures { AreUnprotected (option_value (λ o. o.now) given.entry) (option_value (λ a. map attribute_value a.0.0.items) result) }
{
    match given {
        Some(_given) => Some(ImplicitContextTag1(Asn1SetOf(attributes))),
        None => None,
    }
}

/// Enveloped data of parts that were checked and read.
fn parts_of<'a>(
    alloc: Global,
    given: &Enveloped<'a>,
    recipients: &[ElementRef<'a>],
    algorithm: AlgorithmIdentifier,
    attributes: Vec<Attribute>,
) -> Result<EnvelopedParts<'a>, Error>
    requires attributes_read { AreAttributesIn (attributes_in given.now) (map attribute_value attributes.items) }
    requires algorithm_read { IsValueOf ALGORITHM.format 64 given.now.algorithm.now (algorithm_identifier_value algorithm) }
    ensures { MatchResult result
        (λ x. AreParts given.now (map (λ e. e.0.now) recipients.now) (enveloped_data_oid, (enveloped_value x, tt)))
        (λ e. e ≡ Memory) }
{
    Ok(EnvelopedParts {
        version: enveloped_version(given.attributes, recipients),
        originator: None,
        recipients: Asn1SetOf(in_order(alloc, recipients)?),
        content: ContentParts {
            content_type: KnownOid(given.content_type),
            algorithm,
            content: content_if(given.content),
        },
        attributes: set_if(given.attributes, attributes),
    })
}

/// The encoding of enveloped data of parts that were checked and read.
fn write_read(
    alloc: Global,
    given: &Enveloped<'_>,
    recipients: &[ElementRef<'_>],
    algorithm: AlgorithmIdentifier,
    attributes: Vec<Attribute>,
) -> Result<Vec<u8>, Error>
    requires can { CanBeWritten given.now (map (λ e. e.0.now) recipients.now) }
    requires attributes_read { AreAttributesIn (attributes_in given.now) (map attribute_value attributes.items) }
    requires algorithm_read { IsValueOf ALGORITHM.format 64 given.now.algorithm.now (algorithm_identifier_value algorithm) }
    ensures { MatchResult result
        (λ text. IsEnvelopedData given.now (map (λ e. e.0.now) recipients.now) text.items)
        (λ e. ((e ≡ TooLong) × IsTooLong given.now (map (λ x. x.0.now) recipients.now)) ⊎ (e ≡ Memory)) }
{
    let enveloped_data = ExplicitContextTag0(parts_of(
        alloc, given, recipients, algorithm, attributes,
    )?);
    write(alloc, &EnvelopedFile { enveloped_data })
}

/// The encoding of enveloped data with these parts: a `ContentInfo` of `id-envelopedData` (RFC 5652, 3 and 6.1), without
/// `originatorInfo`. The version is that of RFC 5652. Recipients are in the order of DER, whatever order they are given in; each
/// is written as it is, and one that is given twice is written twice. Nothing is encrypted.
///
/// Refuses by `Invalid` a content type that is no object identifier; a recipient that isn't exactly one element, that has a
/// tag which RFC 5652, 6.2 doesn't give it, or that has the tag of `ktri` and doesn't begin with the version 0 or 2; and an
/// empty list of recipients. Nothing else in a recipient is looked at. Refuses an algorithm, and attributes, that can't be
/// read by the error of reading them, and an empty set of attributes by `Missing`; or by `TooLong`, or by `Memory`.
pub fn write_enveloped_data(
    alloc: Global,
    given: &Enveloped<'_>,
    recipients: &[ElementRef<'_>],
) -> Result<Vec<u8>, NotEnveloped>
    ensures { MatchResult result
        (λ text. IsEnvelopedData given.now (map (λ e. e.0.now) recipients.now) text.items)
        (λ w. IsNotEnveloped given.now (map (λ e. e.0.now) recipients.now) w) }
{
    if !is_oid(given.content_type) {
        return Err(refused(EnvelopedPart::ContentType, Error::Invalid));
    }
    let algorithm = match algorithm_of(alloc, given.algorithm) {
        Ok(algorithm) => algorithm,
        Err(error) => return Err(refused(EnvelopedPart::Algorithm, error)),
    };
    check_recipients(recipients)?;
    if has_none(recipients) {
        return Err(refused(EnvelopedPart::Recipients, Error::Invalid));
    }
    let attributes = match unprotected(alloc, given.attributes) {
        Ok(attributes) => attributes,
        Err(error) => return Err(refused(EnvelopedPart::Attributes, error)),
    };
    match write_read(alloc, given, recipients, algorithm, attributes) {
        Ok(text) => Ok(text),
        Err(error) => Err(refused(EnvelopedPart::Whole, error)),
    }
}
