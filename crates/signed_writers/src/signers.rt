//! Signers, read from parts that a caller has as octets.

ghost use Rattle.std.specs.Prelude.{◌≡◌, ◌↔◌, IsTrue, [], MatchResult, map};
ghost use Rattle.std.proofs.Common.{inr};
ghost use Rattle.asn1_core.specs.Der.{option_value};
ghost use Rattle.asn1_core_element.specs.declared.error.Error.TheVariants.{Memory};
ghost use Rattle.asn1_core_format.specs.Whole.{IsValueOf};
ghost use Rattle.pkcs7_signed_crl.specs.SignerParts.{issuer_and_serial_number_value, signer_identifier_value};
ghost use Rattle.pkcs7_verifier.specs.Heads.{certificate_head_value};
ghost use Rattle.signed_writers.specs.Signers.{AreAttributesIn, HasOne, IsIdentifierIn, IsIssuerOf, IsNoSigner, IsReadAs, IsSignerIn, IsUnreadAs};
ghost use Rattle.signed_writers.specs.declared.signers.SignerPart.TheVariants as Parts;
ghost use Rattle.x509_base.specs.Names.{attribute_value};
ghost use Rattle.x509_pkcs7.specs.RawSigners.{raw_signer_info_value};

use crate::versions::signer_version;
use asn1_core::from_bytes;
use asn1_core::prelude::*;
use pkcs7_attributes::{Attributes, RawUnsignedAttributes};
use pkcs7_signed_crl::{IssuerAndSerialNumber, SignatureValue, SignerIdentifier};
use pkcs7_verifier::{CertificateHead, TbsCertificateHead};
use std::alloc::Global;
use x509_base::{Attribute, SubjectKeyIdentifier};
use x509_pkcs7::RawSignerInfo;

/// What identifies a signer (RFC 5652, 5.3).
#[derive(Clone, Copy)]
pub enum Identifier<'a> {
    /// The issuer and the serial number of this certificate.
    Certificate(&'a [u8]),
    /// The octets of a key identifier.
    Key(&'a [u8]),
}

/// A signer to be written (RFC 5652, 5.3).
#[derive(Clone, Copy)]
pub struct Signer<'a> {
    pub identifier: Identifier<'a>,
    /// The encoding of an `AlgorithmIdentifier`, with its parameters.
    pub digest_algorithm: &'a [u8],
    /// The encoding of a SET OF Attribute, with the tag `31`, that isn't empty: what the signature covers. `None` where the
    /// signature covers the content.
    pub signed_attributes: Option<&'a [u8]>,
    /// The encoding of an `AlgorithmIdentifier`, with its parameters.
    pub signature_algorithm: &'a [u8],
    /// The octets of the signature.
    pub signature: &'a [u8],
    /// The encoding of a SET OF Attribute, with the tag `31`, that isn't empty.
    pub unsigned_attributes: Option<&'a [u8]>,
}

/// A part of a signer.
#[derive(Clone, Copy, Debug, PartialEq, Eq)]
pub enum SignerPart {
    Identifier,
    DigestAlgorithm,
    SignedAttributes,
    SignatureAlgorithm,
    /// Only memory is refused for it.
    Signature,
    UnsignedAttributes,
}

/// Why a signer isn't read.
#[derive(Clone, Copy, Debug, PartialEq, Eq)]
pub struct NotRead {
    /// The first part that isn't what it has to be.
    pub part: SignerPart,
    /// Why it isn't read as its type; `Missing` where a set is empty. Or `Memory`, at any part.
    pub error: Error,
}

/// A part that is read whole.
fn read_part<T: DerDeserialize>(
    alloc: Global,
    octets: &[u8],
    part: SignerPart,
) -> Result<T, NotRead>
    ensures { MatchResult result (λ x. IsValueOf T.format 64 octets.now (T.value x)) (λ e. IsUnreadAs (IsReadAs T.format octets.now) part e) }
{
    match from_bytes(alloc, octets) {
        Ok(value) => Ok(value),
        Err(error) => Err(NotRead { part, error }),
    }
}

/// The issuer and the serial number of a certificate.
fn issuer_of(head: CertificateHead) -> IssuerAndSerialNumber
    ensures { IsIssuerOf (certificate_head_value head) (issuer_and_serial_number_value result) }
{
    let CertificateHead {
        tbs_certificate,
        ..
    } = head;
    let TbsCertificateHead {
        issuer,
        serial_number,
        ..
    } = tbs_certificate;
    IssuerAndSerialNumber {
        issuer,
        serial_number,
    }
}

/// A key identifier with these octets.
fn key_identifier(alloc: Global, octets: &[u8]) -> Result<SignerIdentifier, NotRead>
    ensures { MatchResult result (λ id. signer_identifier_value id ≡ inr octets.now) (λ e. (e.error ≡ Memory) × (e.part ≡ Parts.Identifier)) }
{
    match Vec::from_slice(alloc, octets) {
        Ok(octets) => Ok(SignerIdentifier::SubjectKeyIdentifier(ImplicitContextTag0(
            SubjectKeyIdentifier(OctetStringAsn1(octets)),
        ))),
        Err(_) => Err(NotRead {
            part: SignerPart::Identifier,
            error: Error::Memory,
        }),
    }
}

/// What names a signer, or a recipient, whose identifier is alike (RFC 5652, 5.3 and 6.2.1).
pub fn read_identifier(alloc: Global, given: &Identifier<'_>) -> Result<SignerIdentifier, NotRead>
    ensures { MatchResult result
        (λ id. IsIdentifierIn given.now (signer_identifier_value id))
        (λ e. IsUnreadAs (HasOne (IsIdentifierIn given.now)) Parts.Identifier e) }
{
    match given {
        Identifier::Certificate(octets) => {
            let head = read_part(alloc, octets, SignerPart::Identifier)?;
            Ok(SignerIdentifier::IssuerAndSerialNumber(issuer_of(head)))
        }
        Identifier::Key(octets) => key_identifier(alloc, octets),
    }
}

/// Whether there are no attributes.
pub(crate) fn has_none(attributes: &Vec<Attribute>) -> bool
    ensures { IsTrue result ↔ (map attribute_value attributes.now.items ≡ []) }
{
    attributes.is_empty()
}

/// The attributes of a set that isn't empty, in their order, or none where there are no octets. The part is the one that
/// a refusal names.
pub fn read_attributes(
    alloc: Global,
    octets: Option<&[u8]>,
    part: SignerPart,
) -> Result<Vec<Attribute>, NotRead>
    ensures { MatchResult result
        (λ all. AreAttributesIn (option_value (λ o. o.now) octets.entry) (map attribute_value all.items))
        (λ e. IsUnreadAs (HasOne (AreAttributesIn (option_value (λ o. o.now) octets.entry))) part e) }
{
    let Some(octets) = octets else {
        return Ok(Vec::new(alloc));
    };
    let set: Asn1SetOf<Attribute> = read_part(alloc, octets, part)?;
    if has_none(&set.0) {
        return Err(NotRead {
            part,
            error: Error::Missing,
        });
    }
    Ok(set.0)
}

/// The octets of a signature.
fn signature_of(alloc: Global, octets: &[u8]) -> Result<SignatureValue, NotRead>
    ensures { MatchResult result (λ x. x.0.0.items ≡ octets.now) (λ e. e.error ≡ Memory) }
{
    match Vec::from_slice(alloc, octets) {
        Ok(octets) => Ok(SignatureValue(OctetStringAsn1(octets))),
        Err(_) => Err(NotRead {
            part: SignerPart::Signature,
            error: Error::Memory,
        }),
    }
}

/// The signer whose parts are given, with the version that RFC 5652, 5.3 asks for. `write_signed_data`, not this, compares
/// signed attributes with the content. Attributes keep their order.
pub fn read_signer(alloc: Global, given: &Signer<'_>) -> Result<RawSignerInfo, NotRead>
    ensures { MatchResult result
        (λ s. IsSignerIn given.now (raw_signer_info_value s))
        (λ e. IsNoSigner given.now e) }
{
    let sid = read_identifier(alloc, &given.identifier)?;
    let digest_algorithm = read_part(alloc, given.digest_algorithm, SignerPart::DigestAlgorithm)?;
    let signed = read_attributes(alloc, given.signed_attributes, SignerPart::SignedAttributes)?;
    let signature_algorithm = read_part(
        alloc,
        given.signature_algorithm,
        SignerPart::SignatureAlgorithm,
    )?;
    let signature = signature_of(alloc, given.signature)?;
    let unsigned = read_attributes(
        alloc,
        given.unsigned_attributes,
        SignerPart::UnsignedAttributes,
    )?;
    Ok(RawSignerInfo {
        version: signer_version(&sid),
        sid,
        digest_algorithm,
        signed_attrs: Optional(Attributes(Asn1SequenceOf(signed))),
        signature_algorithm,
        signature,
        unsigned_attrs: Optional(RawUnsignedAttributes(unsigned)),
    })
}
