//! Which certificate is each signer's, where each certificate is read once (RFC 5652, 5.3).

ghost use Rattle.std.specs.Prelude.{◌≡◌, ◌≢◌, ◌↔◌, ℕ, List, IsTrue, true, Some, MatchResult, map};
ghost use Rattle.std.proofs.Common.{inl};
ghost use Rattle.std.specs.List.{enumerate_from, find};
ghost use Rattle.std.specs.Str.{bytes_eq};
ghost use Rattle.asn1_core.specs.Der.{ElementOctets, option_value};
ghost use Rattle.asn1_core_element.specs.declared.error.Error.TheVariants.{Memory};
ghost use Rattle.pkcs7_signed_crl.specs.Certificates.{certificate_choices_value};
ghost use Rattle.pkcs7_signed_crl.specs.SignerParts.{certificate_serial_number_value, issuer_and_serial_number_value, signer_identifier_value};
ghost use Rattle.pkcs7_verifier.specs.Heads.{certificate_head_value};
ghost use Rattle.pkcs7_verifier.specs.Matches.{IsNamedBy, IsSigners, choice_octets, IsFirst};
ghost use Rattle.x509_base.specs.Names.{name_parts};
ghost use Rattle.x509_pkcs7.specs.AllSigners.{AreSigners, AreSignersAt, Numbered, IsSignersAt, numbered_of, key_octets, known_value, KnownValue, IsKnownAs, IsKnownKey, IsKnownOrNone, AreKnownOf, IsAppended, name_octets, octets_by, is_named, kept, known_at};
ghost use Rattle.x509_pkcs7.specs.declared.verifier.all_signers.NamedBy.TheVariants.{Issuer, Key};

use asn1_core::prelude::*;
use asn1_core::{from_bytes, to_vec};
use asn1_core_format::views::is_same;
use pkcs7_signed_crl::{
    CertificateChoices, CertificateSerialNumber, IssuerAndSerialNumber, SignerIdentifier,
};
use pkcs7_verifier::{CertificateHead, certificate_element};
use std::alloc::Global;
use std::collections::BTreeMap;
use x509_base::{Name, SubjectKeyIdentifier};

/// What a signer may name a certificate by.
#[derive(Clone, Copy)]
enum NamedBy {
    /// The issuer and the serial number.
    Issuer,
    /// The identifier of the key.
    Key,
}

/// A certificate that was read, with all that a signer may name it by.
#[derive(Drop)]
struct KnownCertificate<'a> {
    /// Which of the certificates it is.
    index: usize,
    element: &'a Asn1RawDer,
    head: CertificateHead,
    /// The identifier of its key. `None` where it has none, or its extensions aren't read.
    key: Option<SubjectKeyIdentifier>,
}

impl KnownCertificate<'_> {
    /// Whether a signer names it. This only compares.
    #[tactic(auto, using(crate::proofs::AllFirsts::known_by_key))]
    fn is_named_by(&self, signer: &SignerIdentifier) -> bool
        ensures { IsTrue result ↔ IsKnownAs (signer_identifier_value signer.now) (known_value self.now) }
    {
        match signer {
            SignerIdentifier::IssuerAndSerialNumber(named) => is_issued_as(&self.head, named),
            SignerIdentifier::SubjectKeyIdentifier(key) => has_key(&self.key, &key.0),
        }
    }

    /// The octets by which `KnownByName` has it, if it may be named so.
    fn octets(&self, alloc: Global, by: NamedBy) -> Result<Option<Vec<u8>>, Error>
        ensures { MatchResult result
            (λ octets. option_value (λ o. o.items) octets ≡ octets_by by (known_value self.now))
            (λ e. e ≡ Memory) }
    {
        match by {
            NamedBy::Issuer => {
                let tbs = &self.head.tbs_certificate;
                Ok(Some(name_octets(alloc, &tbs.issuer, &tbs.serial_number)?))
            }
            NamedBy::Key => copied_key(alloc, &self.key),
        }
    }
}

/// The octets of the identifier of a key, if there is one.
fn copied_key(alloc: Global, key: &Option<SubjectKeyIdentifier>) -> Result<Option<Vec<u8>>, Error>
    ensures { MatchResult result
        (λ octets. option_value (λ o. o.items) octets ≡ key_octets key.now)
        (λ e. e ≡ Memory) }
{
    match key {
        Some(key) => Ok(Some(Vec::from_slice(alloc, key.0.0.as_slice())?)),
        None => Ok(None),
    }
}

/// The encoding of a value. One of 2^64 octets or more is in no memory, so that it is refused by `Memory` too.
fn encoding_of<T: DerSerialize>(alloc: Global, value: &T) -> Result<Vec<u8>, Error>
    ensures { MatchResult result
        (λ octets. octets.items ≡ T.format.text (T.value value.now))
        (λ e. e ≡ Memory) }
{
    match to_vec(alloc, value) {
        Ok(octets) => Ok(octets),
        Err(_) => Err(Error::Memory),
    }
}

/// The encoding of an issuer, with the octets of a serial number after it.
fn name_octets(
    alloc: Global,
    issuer: &Name,
    serial_number: &CertificateSerialNumber,
) -> Result<Vec<u8>, Error>
    ensures { MatchResult result
        (λ octets. octets.items ≡ name_octets (name_parts issuer.now) (certificate_serial_number_value serial_number.now))
        (λ e. e ≡ Memory) }
{
    let mut octets = encoding_of(alloc, issuer)?;
    octets.extend_from_slice(serial_number.0.0.as_slice())?;
    Ok(octets)
}

/// Whether the issuer and the serial number are these.
fn is_issued_as(head: &CertificateHead, named: &IssuerAndSerialNumber) -> bool
    ensures { IsTrue result ↔ IsNamedBy (inl (issuer_and_serial_number_value named.now)) (certificate_head_value head.now) }
{
    let tbs = &head.tbs_certificate;
    is_same(&tbs.issuer, &named.issuer) && is_same(&tbs.serial_number, &named.serial_number)
}

/// Whether the identifier of the key is there, and is this.
#[tactic(auto, using(crate::proofs::AllFirsts::is_own_key, crate::proofs::AllFirsts::is_no_key))]
fn has_key(own: &Option<SubjectKeyIdentifier>, key: &SubjectKeyIdentifier) -> bool
    ensures { IsTrue result ↔ (key_octets own.now ≡ Some key.now.0.0.items) }
{
    match own {
        Some(own) => is_same(own, key),
        None => false,
    }
}

/// Why something isn't read doesn't matter, unless memory was refused: then this refuses too.
fn without_answer(error: Error) -> Result<(), Error>
    ensures { MatchResult result (λ _. error ≢ Memory) (λ e. e ≡ Memory) }
{
    match error {
        Error::Memory => Err(Error::Memory),
        _ => Ok(()),
    }
}

/// The identifier of the key. `None` where there is none, or the extensions aren't read.
fn known_key(alloc: Global, head: &CertificateHead) -> Result<Option<SubjectKeyIdentifier>, Error>
    ensures { MatchResult result
        (λ key. IsKnownKey (certificate_head_value head.now) (key_octets key))
        (λ e. e ≡ Memory) }
{
    match head.subject_key_identifier(alloc) {
        Ok(key) => Ok(key),
        Err(error) => {
            without_answer(error)?;
            Ok(None)
        }
    }
}

/// Reads one certificate. `None` where the element isn't read as one.
fn known<'a>(
    alloc: Global,
    index: usize,
    element: &'a Asn1RawDer,
) -> Result<Option<KnownCertificate<'a>>, Error>
    ensures { MatchResult result
        (λ found. IsKnownOrNone (index, element.now.0.items) (option_value known_value found))
        (λ e. e ≡ Memory) }
{
    match from_bytes::<CertificateHead>(alloc, element.0.as_slice()) {
        Ok(head) => {
            let key = known_key(alloc, &head)?;
            Ok(Some(KnownCertificate {
                index,
                element,
                head,
                key,
            }))
        }
        Err(error) => {
            without_answer(error)?;
            Ok(None)
        }
    }
}

/// Appends what is known of a certificate, and nothing where the element isn't read as one.
#[tactic(auto, using(crate::proofs::AllFirsts::appended_none))]
fn push_known<'a>(
    alloc: Global,
    found: &mut Vec<KnownCertificate<'a>>,
    index: usize,
    element: &'a Asn1RawDer,
) -> Result<(), Error>
    ensures { MatchResult result
        (λ _. IsAppended (index, element.now.0.items) (map known_value found.old.items) (map known_value found.new.items))
        (λ e. e ≡ Memory) }
{
    match known(alloc, index, element)? {
        Some(known) => {
            found.push(known)?;
            Ok(())
        }
        None => Ok(()),
    }
}

/// Reads each certificate once. Those that aren't read are passed over.
fn known_certificates<'a>(
    alloc: Global,
    certificates: &'a [CertificateChoices],
) -> Result<Vec<KnownCertificate<'a>>, Error>
    ensures { MatchResult result
        (λ known. AreKnownOf (enumerate_from 0 (map (λ c. choice_octets (certificate_choices_value c)) certificates.now)) (map known_value known.items))
        (λ e. e ≡ Memory) }
{
    let mut found = Vec::new(alloc);
    for (index, certificate) in certificates.iter().enumerate() {
        push_known(alloc, &mut found, index, certificate_element(certificate))?;
    }
    Ok(found)
}

/// The first that a signer names.
fn first_known<'b, 'a>(
    known: &'b [KnownCertificate<'a>],
    signer: &SignerIdentifier,
) -> Option<&'b KnownCertificate<'a>>
    ensures { IsFirst (IsKnownAs (signer_identifier_value signer.now)) (map known_value known.now) (option_value (λ k. known_value k.now) result) }
{
    for certificate in known {
        if certificate.is_named_by(signer) {
            return Some(certificate);
        }
    }
    None
}

/// Certificates by what signers name them by. Of those that have the same octets only the first is there.
#[derive(Drop)]
struct KnownByName<'b, 'a> {
    by_issuer: BTreeMap<Vec<u8>, &'b KnownCertificate<'a>>,
    by_key: BTreeMap<Vec<u8>, &'b KnownCertificate<'a>>,
}

/// Adds a certificate under its octets, unless another one is there.
fn keep_first<'b, 'a>(
    found: &mut BTreeMap<Vec<u8>, &'b KnownCertificate<'a>>,
    octets: Vec<u8>,
    certificate: &'b KnownCertificate<'a>,
) -> Result<(), Error>
    ensures { MatchResult result
        (λ _. (q : List ℕ) → known_at found.new q ≡ kept (bytes_eq octets.items q) (known_at found.old q) (known_value certificate.now))
        (λ e. e ≡ Memory) }
{
    if found.contains_key(octets.as_slice()) {
        return Ok(());
    }
    found.insert(octets, certificate)?;
    Ok(())
}

/// The first certificate of each octets.
fn first_by_octets<'b, 'a>(
    alloc: Global,
    known: &'b [KnownCertificate<'a>],
    by: NamedBy,
) -> Result<BTreeMap<Vec<u8>, &'b KnownCertificate<'a>>, Error>
    ensures { MatchResult result
        (λ found. (q : List ℕ) → known_at found q ≡ find (is_named by q) (map known_value known.now))
        (λ e. e ≡ Memory) }
{
    let mut found = BTreeMap::new(alloc);
    for certificate in known {
        match certificate.octets(alloc, by)? {
            Some(octets) => keep_first(&mut found, octets, certificate)?,
            None => (),
        }
    }
    Ok(found)
}

/// The first that a signer names, by the octets that it names it by. Where the first with these octets isn't the
/// signer's, each certificate is compared. That needs a name that no encoding has, so one that wasn't read.
fn first_named<'b, 'a>(
    found: &BTreeMap<Vec<u8>, &'b KnownCertificate<'a>>,
    known: &'b [KnownCertificate<'a>],
    by: NamedBy,
    octets: &[u8],
    signer: &SignerIdentifier,
) -> Option<&'b KnownCertificate<'a>>
    requires found { (q : List ℕ) → known_at found.now q ≡ find (is_named by q) (map known_value known.now) }
    requires octets { (k : KnownValue) → IsKnownAs (signer_identifier_value signer.now) k → is_named by octets.now k ≡ true }
    ensures { IsFirst (IsKnownAs (signer_identifier_value signer.now)) (map known_value known.now) (option_value (λ k. known_value k.now) result) }
{
    match found.get(octets) {
        Some(first) => {
            if first.is_named_by(signer) {
                return Some(*first);
            }
            first_known(known, signer)
        }
        None => None,
    }
}

/// The first that a signer names, by either name.
#[tactic(auto, using(crate::proofs::ByOctets::seen_by_issuer, crate::proofs::ByOctets::seen_by_key))]
fn first_of<'b, 'a>(
    alloc: Global,
    names: &KnownByName<'b, 'a>,
    known: &'b [KnownCertificate<'a>],
    signer: &SignerIdentifier,
) -> Result<Option<&'b KnownCertificate<'a>>, Error>
    requires issuer { (q : List ℕ) → known_at names.now.by_issuer q ≡ find (is_named Issuer q) (map known_value known.now) }
    requires key { (q : List ℕ) → known_at names.now.by_key q ≡ find (is_named Key q) (map known_value known.now) }
    ensures { MatchResult result
        (λ found. IsFirst (IsKnownAs (signer_identifier_value signer.now)) (map known_value known.now) (option_value (λ k. known_value k.now) found))
        (λ e. e ≡ Memory) }
{
    match signer {
        SignerIdentifier::IssuerAndSerialNumber(named) => {
            let octets = name_octets(alloc, &named.issuer, &named.serial_number)?;
            let found = &names.by_issuer;
            Ok(first_named(found, known, NamedBy::Issuer, octets.as_slice(), signer))
        }
        SignerIdentifier::SubjectKeyIdentifier(key) => {
            let found = &names.by_key;
            Ok(first_named(found, known, NamedBy::Key, key.0.0.0.as_slice(), signer))
        }
    }
}

/// The first that a signer names, with its index.
fn first_element<'b, 'a>(
    alloc: Global,
    names: &KnownByName<'b, 'a>,
    known: &'b [KnownCertificate<'a>],
    signer: &SignerIdentifier,
) -> Result<Option<SignerCertificate<'a>>, Error>
    requires issuer { (q : List ℕ) → known_at names.now.by_issuer q ≡ find (is_named Issuer q) (map known_value known.now) }
    requires key { (q : List ℕ) → known_at names.now.by_key q ≡ find (is_named Key q) (map known_value known.now) }
    ensures { MatchResult result
        (λ found. (certificates : List Numbered) → AreKnownOf certificates (map known_value known.now) → IsFirst (IsSignersAt (signer_identifier_value signer.now)) certificates (option_value numbered_of found))
        (λ e. e ≡ Memory) }
{
    match first_of(alloc, names, known, signer)? {
        Some(found) => Ok(Some(SignerCertificate {
            index: found.index,
            element: found.element,
        })),
        None => Ok(None),
    }
}

/// The same for each of some signers.
fn first_elements<'a>(
    alloc: Global,
    known: &[KnownCertificate<'a>],
    signers: &[&SignerIdentifier],
) -> Result<Vec<Option<SignerCertificate<'a>>>, Error>
    ensures { MatchResult result
        (λ found. (certificates : List ElementOctets) → AreKnownOf (enumerate_from 0 certificates) (map known_value known.now) → AreSignersAt certificates (map (λ s. signer_identifier_value s.now) signers.now) (map (λ f. option_value numbered_of f) found.items))
        (λ e. e ≡ Memory) }
{
    let names = KnownByName {
        by_issuer: first_by_octets(alloc, known, NamedBy::Issuer)?,
        by_key: first_by_octets(alloc, known, NamedBy::Key)?,
    };
    let mut found = Vec::new(alloc);
    for signer in signers {
        let certificate = first_element(alloc, &names, known, signer)?;
        found.push(certificate)?;
    }
    Ok(found)
}

/// A certificate that a signer names.
#[derive(Clone, Copy, Debug)]
pub struct SignerCertificate<'a> {
    /// Which of the certificates it is, counted from 0.
    pub index: usize,
    pub element: &'a Asn1RawDer,
}

/// For each signer, in their order, the first of some certificates that it names, as `signer_certificate` returns it,
/// with its index, or `None` where it names none of them. Reads each certificate once, for all signers, and passes over
/// what isn't read as one; then looks each signer's up by its name, so that n certificates and as many signers take some
/// n log n comparisons. Refuses by `Memory` only.
pub fn signer_certificates_at<'a>(
    alloc: Global,
    certificates: &'a [CertificateChoices],
    signers: &[&SignerIdentifier],
) -> Result<Vec<Option<SignerCertificate<'a>>>, Error>
    ensures { MatchResult result
        (λ found. AreSignersAt (map (λ c. choice_octets (certificate_choices_value c)) certificates.now) (map (λ s. signer_identifier_value s.now) signers.now) (map (λ f. option_value numbered_of f) found.items))
        (λ e. e ≡ Memory) }
{
    let known = known_certificates(alloc, certificates)?;
    first_elements(alloc, &known, signers)
}

/// The element alone.
fn element_of<'a>(found: &Option<SignerCertificate<'a>>) -> Option<&'a Asn1RawDer>
    ensures { option_value (λ e. e.now.0.items) result ≡ option_value (λ f. f.element.now.0.items) found.now }
{
    match found {
        Some(found) => Some(found.element),
        None => None,
    }
}

/// The elements alone.
fn elements_of<'a>(
    alloc: Global,
    found: &[Option<SignerCertificate<'a>>],
) -> Result<Vec<Option<&'a Asn1RawDer>>, Error>
    ensures { MatchResult result
        (λ elements. map (λ f. option_value (λ e. e.now.0.items) f) elements.items ≡ map (λ f. option_value (λ e. e.element.now.0.items) f) found.now)
        (λ e. e ≡ Memory) }
{
    let mut elements = Vec::new(alloc);
    for certificate in found {
        elements.push(element_of(certificate))?;
    }
    Ok(elements)
}

/// For each signer, in their order, the first of some certificates that it names, as `signer_certificate` returns it,
/// or `None` where it names none of them. These are the elements alone of what `signer_certificates_at` returns. Refuses
/// by `Memory` only.
pub fn signer_certificates<'a>(
    alloc: Global,
    certificates: &'a [CertificateChoices],
    signers: &[&SignerIdentifier],
) -> Result<Vec<Option<&'a Asn1RawDer>>, Error>
    ensures { MatchResult result
        (λ found. AreSigners (map (λ c. choice_octets (certificate_choices_value c)) certificates.now) (map (λ s. signer_identifier_value s.now) signers.now) (map (λ f. option_value (λ e. e.now.0.items) f) found.items))
        (λ e. e ≡ Memory) }
{
    let found = signer_certificates_at(alloc, certificates, signers)?;
    let elements = elements_of(alloc, &found)?;
    Ok(elements)
}
