//! Writing signed data.

ghost use Rattle.std.specs.Prelude.{◌≡◌, MatchResult, map};
ghost use Rattle.std.specs.List.{dedup};
ghost use Rattle.std.specs.Str.{bytes_eq};
ghost use Rattle.asn1_core_element.specs.declared.error.Error.TheVariants.{Memory};
ghost use Rattle.asn1_sets.specs.Encodings.{AreEncodings, HasNoTexts};
ghost use Rattle.asn1_sets.specs.Order.{IsInOrder};
ghost use Rattle.signed_writers.specs.PartValues.{algorithms_in, certificates_in, crls_in, texts_in};
ghost use Rattle.signed_writers.specs.Parts.{AreAlgorithms, AreFormed, HasParts, IsSetIn};
ghost use Rattle.signed_writers.specs.Signed.{CanBeWritten, IsNotSigned, IsSignedData, IsUnwritten, given_parts};
ghost use Rattle.signer_ranges.specs.SignerRoutes.{ALGORITHM};
ghost use Rattle.signer_ranges.specs.Signers.{digest_algorithm_of};
ghost use Rattle.x509_pkcs7.specs.RawSigners.{raw_signer_info_value};

use crate::checks::{NotSigned, SignedPart, check_parts};
use crate::content::ContentInfo;
use crate::parts::{Certificates, RevocationLists, SignedFile, SignedParts};
use crate::versions::signed_version;
use asn1_borrowed::{ElementRef, write};
use asn1_core::prelude::*;
use asn1_sets::{encoded_in_order, put_refs_in_order};
use pkcs7_signed_crl::DigestAlgorithmIdentifier;
use std::alloc::Global;
use x509_pkcs7::RawSignerInfo;

/// The signers' digest algorithms, in their order.
fn algorithms_of<'a>(
    alloc: Global,
    signers: &'a [RawSignerInfo],
) -> Result<Vec<Ref<&'a DigestAlgorithmIdentifier>>, Error>
    ensures { MatchResult result
        (λ all. algorithms_in all.items ≡ map digest_algorithm_of (map raw_signer_info_value signers.now))
        (λ e. e ≡ Memory) }
{
    let mut all = Vec::new(alloc);
    for signer in signers {
        all.push(Ref(&signer.digest_algorithm))?;
    }
    Ok(all)
}

/// Their encodings, in the order of DER.
fn algorithms_in_order(
    alloc: Global,
    all: &[Ref<&DigestAlgorithmIdentifier>],
) -> Result<Vec<Asn1RawDer>, Error>
    ensures { MatchResult result
        (λ texts. AreEncodings ALGORITHM.format (algorithms_in all.now) (texts_in texts.items))
        (λ e. HasNoTexts ALGORITHM.format (AreFormed (algorithms_in all.now)) (algorithms_in all.now) e) }
{
    encoded_in_order(alloc, all)
}

/// Drops each element that is equal to the one before it.
fn drop_repeated(texts: &mut Vec<Asn1RawDer>)
    ensures { texts_in texts.new.items ≡ dedup bytes_eq (texts_in texts.old.items) }
{
    texts.dedup();
}

/// The encodings of the signers' digest algorithms, in the order of DER, each once.
fn algorithm_texts(alloc: Global, signers: &[RawSignerInfo]) -> Result<Vec<Asn1RawDer>, Error>
    ensures { MatchResult result
        (λ texts. AreAlgorithms (map digest_algorithm_of (map raw_signer_info_value signers.now)) (texts_in texts.items))
        (λ e. HasNoTexts ALGORITHM.format (AreFormed (map digest_algorithm_of (map raw_signer_info_value signers.now))) (map digest_algorithm_of (map raw_signer_info_value signers.now)) e) }
{
    let all = algorithms_of(alloc, signers)?;
    let mut texts = algorithms_in_order(alloc, all.as_slice())?;
    drop_repeated(&mut texts);
    Ok(texts)
}

/// Elements in the order of DER.
fn in_order<'a>(alloc: Global, elements: &[ElementRef<'a>]) -> Result<Vec<ElementRef<'a>>, Error>
    ensures { MatchResult result
        (λ sorted. IsInOrder (map (λ x. x.0.now) elements.now) (map (λ x. x.0.now) sorted.items))
        (λ e. e ≡ Memory) }
{
    let mut sorted = Vec::from_slice(alloc, elements)?;
    put_refs_in_order(sorted.as_mut_slice());
    Ok(sorted)
}

/// The set of certificates, or none where there are none.
fn certificate_set<'a>(
    alloc: Global,
    elements: &[ElementRef<'a>],
) -> Result<Option<Certificates<'a>>, Error>
    ensures { MatchResult result
        (λ set. IsSetIn (map (λ x. x.0.now) elements.now) (certificates_in set))
        (λ e. e ≡ Memory) }
{
    let sorted = in_order(alloc, elements)?;
    if sorted.is_empty() {
        return Ok(None);
    }
    Ok(Some(Certificates(sorted)))
}

/// The set of revocation lists, or none where there are none.
fn crl_set<'a>(
    alloc: Global,
    elements: &[ElementRef<'a>],
) -> Result<Option<RevocationLists<'a>>, Error>
    ensures { MatchResult result
        (λ set. IsSetIn (map (λ x. x.0.now) elements.now) (crls_in set))
        (λ e. e ≡ Memory) }
{
    let sorted = in_order(alloc, elements)?;
    if sorted.is_empty() {
        return Ok(None);
    }
    Ok(Some(RevocationLists(sorted)))
}

/// The parts of signed data, with the sets in order.
fn parts_of<'a>(
    alloc: Global,
    info: &ContentInfo<'a>,
    certificates: &[ElementRef<'a>],
    crls: &[ElementRef<'a>],
    signers: &[RawSignerInfo],
) -> Result<SignedParts<'a>, Error>
    ensures { let given = given_parts info.now certificates.now crls.now signers.now in
        MatchResult result (λ parts. HasParts given parts) (λ e. IsUnwritten given e) }
{
    Ok(SignedParts {
        version: signed_version(info, certificates, crls, signers),
        digest_algorithms: Asn1SetOf(algorithm_texts(alloc, signers)?),
        content_info: *info,
        certificates: certificate_set(alloc, certificates)?,
        crls: crl_set(alloc, crls)?,
        signers_infos: Asn1SetOf(encoded_in_order(alloc, signers)?),
    })
}

/// The encoding of parts that were checked.
fn write_checked<'a>(
    alloc: Global,
    info: &ContentInfo<'a>,
    certificates: &[ElementRef<'a>],
    crls: &[ElementRef<'a>],
    signers: &[RawSignerInfo],
) -> Result<Vec<u8>, Error>
    requires { CanBeWritten (given_parts info.now certificates.now crls.now signers.now) }
    ensures { let given = given_parts info.now certificates.now crls.now signers.now in
        MatchResult result (λ text. IsSignedData given text.items) (λ e. IsUnwritten given e) }
{
    let signed_data = ExplicitContextTag0(parts_of(alloc, info, certificates, crls, signers)?);
    write(alloc, &SignedFile { signed_data })
}

/// The encoding of signed data with these parts: a `ContentInfo` of `id-signedData` (RFC 5652, 3 and 5.1). The version is that
/// of RFC 5652, but 1 where the content is an element of PKCS #7 that asks for no other. Digest algorithms are those of the
/// signers, each encoding once. Algorithms, certificates, revocation lists and signers are in the order of DER, whatever order
/// they are given in; what is in one of them stays as it is, and a certificate, a list or a signer that is given twice is
/// written twice.
///
/// Refuses by `Invalid` a content type that is no object identifier; content that isn't exactly one element, or that is there,
/// or of another type than `id-data`, where there are no signers (RFC 5652, 5.2); a certificate or revocation list that isn't
/// exactly one element, or has a tag that RFC 5652, 10.2 doesn't give it; and a signer with another version than RFC 5652, 5.3
/// asks for, with signed attributes that RFC 5652, 5.3, 11.1, 11.2 and 11.3 forbid with that content, or that is ill-formed.
pub fn write_signed_data<'a>(
    alloc: Global,
    info: &ContentInfo<'a>,
    certificates: &[ElementRef<'a>],
    crls: &[ElementRef<'a>],
    signers: &[RawSignerInfo],
) -> Result<Vec<u8>, NotSigned>
    ensures { let given = given_parts info.now certificates.now crls.now signers.now in
        MatchResult result (λ text. IsSignedData given text.items) (λ w. IsNotSigned given w) }
{
    check_parts(alloc, info, certificates, crls, signers)?;
    match write_checked(alloc, info, certificates, crls, signers) {
        Ok(text) => Ok(text),
        Err(error) => Err(NotSigned {
            part: SignedPart::Whole,
            index: 0,
            error,
        }),
    }
}
