//! Recipients (RFC 5652, 6.2), written from parts that a caller has as octets.

ghost use Rattle.std.specs.Prelude.{◌≡◌, ◌≢◌, MatchResult};
ghost use Rattle.asn1_core.specs.Asn1.{SEQUENCE};
ghost use Rattle.asn1_core_element.specs.declared.error.Error.TheVariants.{Memory, TooLong};
ghost use Rattle.asn1_core_format.specs.Whole.{IsValueOf};
ghost use Rattle.enveloped_writers.specs.Recipients.{HasName, IsKekIn, IsNotRecipient, IsRecipientBy, IsRecipientText, IsTransportIn, IsNoParts, RECIPIENT, key_transport, transport_version};
ghost use Rattle.enveloped_writers.specs.Values.{parts_value, transport_value};
ghost use Rattle.enveloped_writers.specs.declared.recipients.RecipientPart.TheVariants as Parts;
ghost use Rattle.pkcs7_content.specs.Versions.{number_of};
ghost use Rattle.pkcs7_enveloped.specs.Recipients.{recipient_info_value};
ghost use Rattle.pkcs7_signed_crl.specs.SignerParts.{signer_identifier_value};
ghost use Rattle.signed_writers.specs.Signers.{HasOne, IsIdentifierIn, IsReadAs};
ghost use Rattle.signer_ranges.specs.SignerRoutes.{ALGORITHM};
ghost use Rattle.x509_base.specs.AlgorithmParts.{algorithm_identifier_value};

use asn1_borrowed::{OctetsRef, write};
use asn1_core::from_bytes;
use asn1_core::prelude::*;
use pkcs7_content::CmsVersion;
use pkcs7_signed_crl::SignerIdentifier;
use signed_writers::{Identifier, read_identifier};
use std::alloc::Global;
use x509_base::AlgorithmIdentifier;
use x509_pkcs7::{KekIdentifier, KekRecipientInfo, RecipientInfo};

/// What names a recipient.
#[derive(Clone, Copy)]
pub enum RecipientName<'a> {
    /// It has a key pair: `KeyTransRecipientInfo` (RFC 5652, 6.2.1), of version 0 with issuer and serial number, and 2 with
    /// a key identifier.
    KeyPair(Identifier<'a>),
    /// It has the key-encryption key with this identifier: `KEKRecipientInfo` (6.2.3), without `date` and `other`.
    Kek(&'a [u8]),
}

/// A recipient to be written (RFC 5652, 6.2).
#[derive(Clone, Copy)]
pub struct Recipient<'a> {
    pub name: RecipientName<'a>,
    /// The encoding of an `AlgorithmIdentifier`, with its parameters: `keyEncryptionAlgorithm`.
    pub algorithm: &'a [u8],
    /// The octets of `encryptedKey`.
    pub key: &'a [u8],
}

/// A part of a recipient.
#[derive(Clone, Copy, Debug, PartialEq, Eq)]
pub enum RecipientPart {
    Identifier,
    Algorithm,
    /// All of it, which is too long, or for which memory was refused.
    Whole,
}

/// Why a recipient isn't written.
#[derive(Clone, Copy, Debug, PartialEq, Eq)]
pub struct NotRecipient {
    /// A part that isn't what it has to be: tested is that it is the first, in the order of `RecipientPart`.
    pub part: RecipientPart,
    /// Why it isn't read as its type; `TooLong`, at `Whole`, where the encoding would have 2^64 octets or more. Or `Memory`,
    /// at any part.
    pub error: Error,
}

/// `KeyTransRecipientInfo` (RFC 5652, 6.2.1).
#[derive(Drop)]
pub(crate) struct KeyTransport<'a> {
    pub(crate) version: CmsVersion,
    pub(crate) identifier: SignerIdentifier,
    pub(crate) algorithm: AlgorithmIdentifier,
    pub(crate) key: OctetsRef<'a>,
}

impl DerSerialize for KeyTransport<'_> {
    ghost Value = { key_transport.Value };

    ghost value = { transport_value };

    ghost format = { (SEQUENCE key_transport).format };

    fn put<W: Writer>(&self, w: &mut W) -> Result<(), WriteError> {
        put_of!(self, w; version, identifier, algorithm, key)
    }

    fn well_formed_at(&self, limit: u8) -> bool {
        formed_of!(self, limit; version, identifier, algorithm, key)
    }
}

/// A recipient, before it is written.
#[derive(Drop)]
pub(crate) enum RecipientParts<'a> {
    KeyTransport(KeyTransport<'a>),
    Kek(RecipientInfo),
}

impl DerSerialize for RecipientParts<'_> {
    ghost Value = { RECIPIENT.Value };

    ghost value = { parts_value };

    ghost format = { RECIPIENT.format };

    fn put<W: Writer>(&self, w: &mut W) -> Result<(), WriteError> {
        match self {
            RecipientParts::KeyTransport(recipient) => recipient.put(w),
            RecipientParts::Kek(recipient) => recipient.put(w),
        }
    }

    fn well_formed_at(&self, limit: u8) -> bool {
        match self {
            RecipientParts::KeyTransport(recipient) => recipient.well_formed_at(limit),
            RecipientParts::Kek(recipient) => recipient.well_formed_at(limit),
        }
    }
}

/// The version of a key transport: 0 with issuer and serial number, and 2 with a key identifier.
fn transport_version(identifier: &SignerIdentifier) -> CmsVersion
    ensures { number_of result ≡ transport_version (signer_identifier_value identifier.now) }
{
    match identifier {
        SignerIdentifier::IssuerAndSerialNumber(_) => CmsVersion::V0,
        SignerIdentifier::SubjectKeyIdentifier(_) => CmsVersion::V2,
    }
}

/// The identifier of a key pair.
fn identifier_of(alloc: Global, name: &Identifier<'_>) -> Result<SignerIdentifier, NotRecipient>
    ensures { MatchResult result
        (λ id. IsIdentifierIn name.now (signer_identifier_value id))
        (λ w. (w.part ≡ Parts.Identifier) × (w.error ≢ TooLong) × (w.error ≢ Memory → HasOne (IsIdentifierIn name.now) → ⊥)) }
{
    match read_identifier(alloc, name) {
        Ok(identifier) => Ok(identifier),
        Err(wrong) => Err(NotRecipient {
            part: RecipientPart::Identifier,
            error: wrong.error,
        }),
    }
}

/// The algorithm that encrypts the key.
fn algorithm_of(alloc: Global, octets: &[u8]) -> Result<AlgorithmIdentifier, NotRecipient>
    ensures { MatchResult result
        (λ x. IsValueOf ALGORITHM.format 64 octets.now (algorithm_identifier_value x))
        (λ w. (w.part ≡ Parts.Algorithm) × (w.error ≢ TooLong) × (w.error ≢ Memory → IsReadAs ALGORITHM.format octets.now → ⊥)) }
{
    match from_bytes(alloc, octets) {
        Ok(algorithm) => Ok(algorithm),
        Err(error) => Err(NotRecipient {
            part: RecipientPart::Algorithm,
            error,
        }),
    }
}

/// The key transport whose parts are given.
fn transport_by<'a>(
    alloc: Global,
    name: &Identifier<'_>,
    algorithm: &[u8],
    key: &'a [u8],
) -> Result<KeyTransport<'a>, NotRecipient>
    ensures { MatchResult result
        (λ x. IsTransportIn name.now algorithm.now key.now (transport_value x))
        (λ w. IsNoParts (HasOne (IsIdentifierIn name.now)) algorithm.now w) }
{
    let identifier = identifier_of(alloc, name)?;
    let algorithm = algorithm_of(alloc, algorithm)?;
    Ok(KeyTransport {
        version: transport_version(&identifier),
        identifier,
        algorithm,
        key: OctetsRef(key),
    })
}

/// An OCTET STRING of these octets.
fn octet_string(alloc: Global, octets: &[u8]) -> Result<OctetStringAsn1, NotRecipient>
    ensures { MatchResult result (λ x. x.0.items ≡ octets.now) (λ w. w.error ≡ Memory) }
{
    match Vec::from_slice(alloc, octets) {
        Ok(octets) => Ok(OctetStringAsn1(octets)),
        Err(_) => Err(NotRecipient {
            part: RecipientPart::Whole,
            error: Error::Memory,
        }),
    }
}

/// The recipient with a key-encryption key whose parts are given.
fn kek_by(
    alloc: Global,
    name: &[u8],
    algorithm: &[u8],
    key: &[u8],
) -> Result<RecipientInfo, NotRecipient>
    ensures { MatchResult result
        (λ x. IsKekIn name.now algorithm.now key.now (recipient_info_value x))
        (λ w. IsNoParts (Unit {0}) algorithm.now w) }
{
    let key_encryption_algorithm = algorithm_of(alloc, algorithm)?;
    let key_identifier = octet_string(alloc, name)?;
    let encrypted_key = octet_string(alloc, key)?;
    Ok(RecipientInfo::Kek(KekRecipientInfo {
        version: CmsVersion::V4,
        kek_id: KekIdentifier {
            key_identifier,
            date: Optional(None),
            other: Optional(None),
        },
        key_encryption_algorithm,
        encrypted_key,
    }))
}

/// The recipient whose parts are given.
fn recipient_by<'a>(
    alloc: Global,
    name: &RecipientName<'_>,
    algorithm: &[u8],
    key: &'a [u8],
) -> Result<RecipientParts<'a>, NotRecipient>
    ensures { MatchResult result
        (λ x. IsRecipientBy name.now algorithm.now key.now (parts_value x))
        (λ w. IsNoParts (HasName name.now) algorithm.now w) }
{
    match name {
        RecipientName::KeyPair(name) => {
            let recipient = transport_by(alloc, name, algorithm, key)?;
            Ok(RecipientParts::KeyTransport(recipient))
        }
        RecipientName::Kek(name) => {
            let recipient = kek_by(alloc, name, algorithm, key)?;
            Ok(RecipientParts::Kek(recipient))
        }
    }
}

/// The encoding of the recipient whose parts are given: one `RecipientInfo`. Nothing is encrypted: the caller encrypts the key.
///
/// Refuses a certificate, and an algorithm, that can't be read by the error of reading it; or by `TooLong`, or by `Memory`.
pub fn write_recipient(alloc: Global, given: &Recipient<'_>) -> Result<Vec<u8>, NotRecipient>
    ensures { MatchResult result
        (λ text. IsRecipientText given.now text.items)
        (λ w. IsNotRecipient given.now w) }
{
    let recipient = recipient_by(alloc, &given.name, given.algorithm, given.key)?;
    match write(alloc, &recipient) {
        Ok(text) => Ok(text),
        Err(error) => Err(NotRecipient {
            part: RecipientPart::Whole,
            error,
        }),
    }
}
