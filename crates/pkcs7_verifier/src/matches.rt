//! Which certificate is a signer's (RFC 5652, 5.3).

ghost use Rattle.std.specs.Prelude.{◌≡◌, ◌≢◌, ◌↔◌, IsTrue, Some, [], false, MatchResult, map};
ghost use Rattle.std.proofs.Common.{inl};
ghost use Rattle.asn1_core.specs.Der.{option_value};
ghost use Rattle.asn1_core_element.specs.declared.error.Error.TheVariants.{Memory};
ghost use Rattle.pkcs7_signed_crl.specs.Certificates.{certificate_choices_value};
ghost use Rattle.pkcs7_signed_crl.specs.SignerParts.{issuer_and_serial_number_value, signer_identifier_value};
ghost use Rattle.pkcs7_verifier.specs.Heads.{certificate_head_value};
ghost use Rattle.pkcs7_verifier.specs.KeyIdentifiers.{rest_of, IsKeyIdOf, HasExtensions};
ghost use Rattle.pkcs7_verifier.specs.Matches.{IsNamedBy, NeedsExtensions, IsSigners, choice_octets, IsFirst};

use crate::heads::CertificateHead;
use asn1_core::from_bytes;
use asn1_core::prelude::*;
use pkcs7_signed_crl::{CertificateChoices, IssuerAndSerialNumber, SignerIdentifier};
use std::alloc::Global;
use x509_base::SubjectKeyIdentifier;

/// The element that a certificate of signed data is, or another choice.
pub fn certificate_element(certificate: &CertificateChoices) -> &Asn1RawDer
    ensures { result.now.0.items ≡ choice_octets (certificate_choices_value certificate.now) }
{
    match certificate {
        CertificateChoices::Certificate(element) => element,
        CertificateChoices::Other(element) => element,
    }
}

/// Whether two values are equal.
fn is_same<T: EqualByText>(a: &T, b: &T) -> bool
    ensures { IsTrue result ↔ (T.value a.now ≡ T.value b.now) }
{
    a == b
}

/// What is refused isn't what is looked for, unless memory was refused: then, and only then, this refuses too.
fn without_answer(error: Error) -> Result<bool, Error>
    ensures { MatchResult result
        (λ b. (b ≡ false) × (error ≢ Memory))
        (λ e. (e ≡ Memory) × (error ≡ Memory)) }
{
    match error {
        Error::Memory => Err(Error::Memory),
        _ => Ok(false),
    }
}

impl CertificateHead {
    /// Whether this is the certificate that a signer names: by issuer and serial number, or by the identifier of its key.
    /// A certificate whose extensions aren't read has no such identifier. Refuses by `Memory` alone, and only where the
    /// signer names a key and the certificate has extensions.
    pub fn is_named_by(&self, alloc: Global, signer: &SignerIdentifier) -> Result<bool, Error>
        ensures { MatchResult result
            (λ b. IsTrue b ↔ IsNamedBy (signer_identifier_value signer.now) (certificate_head_value self.now))
            (λ e. (e ≡ Memory) × NeedsExtensions (signer_identifier_value signer.now) (certificate_head_value self.now)) }
    {
        match signer {
            SignerIdentifier::IssuerAndSerialNumber(named) => Ok(self.is_issued_as(named)),
            SignerIdentifier::SubjectKeyIdentifier(key) => self.has_key(alloc, &key.0),
        }
    }

    /// Whether the issuer and the serial number are these.
    fn is_issued_as(&self, named: &IssuerAndSerialNumber) -> bool
        ensures { IsTrue result ↔ IsNamedBy (inl (issuer_and_serial_number_value named.now)) (certificate_head_value self.now) }
    {
        let tbs = &self.tbs_certificate;
        is_same(&tbs.issuer, &named.issuer) && is_same(&tbs.serial_number, &named.serial_number)
    }

    /// Whether this is the identifier of the key. A certificate without extensions has none, and is never refused.
    fn has_key(&self, alloc: Global, key: &SubjectKeyIdentifier) -> Result<bool, Error>
        ensures { MatchResult result
            (λ b. IsTrue b ↔ IsKeyIdOf (rest_of (certificate_head_value self.now)) (Some key.now.0.0.items))
            (λ e. (e ≡ Memory) × HasExtensions (rest_of (certificate_head_value self.now))) }
    {
        match self.subject_key_identifier(alloc) {
            Ok(Some(own)) => Ok(is_same(&own, key)),
            Ok(None) => Ok(false),
            Err(error) => without_answer(error),
        }
    }
}

/// Whether an element is a certificate that a signer names.
fn is_signers(alloc: Global, element: &[u8], signer: &SignerIdentifier) -> Result<bool, Error>
    ensures { MatchResult result
        (λ b. IsTrue b ↔ IsSigners (signer_identifier_value signer.now) element.now)
        (λ e. e ≡ Memory) }
{
    match from_bytes::<CertificateHead>(alloc, element) {
        Ok(head) => head.is_named_by(alloc, signer),
        Err(error) => without_answer(error),
    }
}

/// The first of some certificates that a signer names, as an element. `None` where it names none of them. What isn't read
/// as a certificate is passed over. Refuses by `Memory` alone, and never where there are no certificates.
#[tactic(auto, using(crate::proofs::NotEmpty::has_item))]
pub fn signer_certificate<'a>(
    alloc: Global,
    certificates: &'a [CertificateChoices],
    signer: &SignerIdentifier,
) -> Result<Option<&'a Asn1RawDer>, Error>
    ensures { MatchResult result
        (λ found. IsFirst (IsSigners (signer_identifier_value signer.now)) (map (λ c. choice_octets (certificate_choices_value c)) certificates.now) (option_value (λ e. e.now.0.items) found))
        (λ e. (e ≡ Memory) × (certificates.now ≢ [])) }
{
    for certificate in certificates {
        let element = certificate_element(certificate);
        let found = is_signers(alloc, element.0.as_slice(), signer)?;
        if found {
            return Ok(Some(element));
        }
    }
    Ok(None)
}
