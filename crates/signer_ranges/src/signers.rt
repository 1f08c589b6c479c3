//! The ranges of each signer's parts, from one reading of the file.

ghost use Rattle.std.specs.Prelude.{◌≡◌, ◌≢◌, ◌↔◌, ◌<◌, ◌+◌, ◌^◌, [], IsTrue, Some, MatchResult, length, map, slice_get, take, drop};
ghost use Rattle.std.specs.List.{enumerate_from};
ghost use Rattle.asn1_core.specs.Der.{object_identifier, octet_string, octets_of, option_value};
ghost use Rattle.asn1_core_element.specs.declared.error.Error.TheVariants.{Memory};
ghost use Rattle.asn1_core_format.specs.Whole.{IsValueOf};
ghost use Rattle.located_rows.specs.Rows.{AllAt};
ghost use Rattle.pkcs7_attributes.specs.Attributes.{attributes_value};
ghost use Rattle.pkcs7_attributes.specs.NamedAttributes.{content_type_oid, message_digest_oid};
ghost use Rattle.pkcs7_signed_crl.specs.SignerParts.{signer_identifier_value};
ghost use Rattle.pkcs7_verifier.specs.Matches.{IsFirst};
ghost use Rattle.signer_ranges.specs.Files.{file_value};
ghost use Rattle.signer_ranges.specs.Pieces.{AreSignedFound, IsCertificateFound, IsDigestIndex, IsDigestOrBroken, IsNoCertificateFound};
ghost use Rattle.signer_ranges.specs.SignerRows.{IsContentFound, IsKnown};
ghost use Rattle.signer_ranges.specs.Signers.{AreFound, ArePlacesOrNone, AreRangesOfAll, AreRangesOrNone, certificates_of, HasNoRange, IsPartOf, IsRefusal, OnlyOrNone, signed_file, signers_of, SignsOrNone};
ghost use Rattle.x509_base.specs.AttributesByOid.{with_oid, IsOnlyOf};
ghost use Rattle.x509_base.specs.Names.{attribute_value};
ghost use Rattle.x509_pkcs7.specs.AllSigners.{AreSignersAt, IsSignersAt, numbered_of};
ghost use Rattle.x509_pkcs7.specs.RawSigners.{raw_signer_info_value};

use crate::parts::{
    CertificateRow, SignerRow, certificate_rows, content_place, digest_place, signer_rows,
};
use crate::ranges::{SignedRanges, SignerRanges, Signers};
use asn1_core::{Error, ObjectIdentifierAsn1, OctetStringAsn1, from_bytes_located};
use asn1_core_oid::is_oid_of;
use asn1_core_oid::known::DATA;
use input_ranges::{Refusal, refusal_of};
use pkcs7_attributes::Attributes;
use pkcs7_attributes::named_attributes::MESSAGE_DIGEST;
use pkcs7_signed_crl::SignerIdentifier;
use std::alloc::Global;
use std::ops::Range;
use x509_base::Attribute;
use x509_pkcs7::{RawPkcs7Certificate, RawSignerInfo, SignerCertificate, signer_certificates_at};

/// Whether two object identifiers are equal.
fn is_same(a: &ObjectIdentifierAsn1, b: &ObjectIdentifierAsn1) -> bool
    ensures { IsTrue result ↔ (octets_of a.now.0 ≡ octets_of b.now.0) }
{
    a == b
}

/// Why nothing is read doesn't matter, unless memory was refused: then this refuses too.
fn without_answer(error: Error) -> Result<(), Error>
    ensures { MatchResult result (λ _. error ≢ Memory) (λ e. e ≡ Memory) }
{
    match error {
        Error::Memory => Err(Error::Memory),
        _ => Ok(()),
    }
}

/// The only contentType. `None` where there is none, or more than one. Refuses by `Memory` alone, as the next one.
fn only_type(alloc: Global, attributes: &Attributes) -> Result<Option<ObjectIdentifierAsn1>, Error>
    ensures { MatchResult result
        (λ t. OnlyOrNone object_identifier (with_oid content_type_oid (attributes_value attributes.now)) (option_value (λ oid. octets_of oid.0) t))
        (λ e. e ≡ Memory) }
{
    match attributes.content_type(alloc) {
        Ok(Some(named)) => Ok(Some(named)),
        Ok(None) => Ok(None),
        Err(error) => {
            without_answer(error)?;
            Ok(None)
        }
    }
}

/// The only messageDigest. `None` where there is none, or more than one.
fn only_digest(alloc: Global, attributes: &Attributes) -> Result<Option<OctetStringAsn1>, Error>
    ensures { MatchResult result
        (λ d. OnlyOrNone octet_string (with_oid message_digest_oid (attributes_value attributes.now)) (option_value (λ o. o.0.items) d))
        (λ e. e ≡ Memory) }
{
    match attributes.message_digest(alloc) {
        Ok(Some(digest)) => Ok(Some(digest)),
        Ok(None) => Ok(None),
        Err(error) => {
            without_answer(error)?;
            Ok(None)
        }
    }
}

/// Whether there is one contentType, and it is this. Refuses by `Memory` alone.
fn names_type(
    alloc: Global,
    attributes: &Attributes,
    content_type: &ObjectIdentifierAsn1,
) -> Result<bool, Error>
    ensures { MatchResult result
        (λ b. IsTrue b ↔ IsOnlyOf object_identifier (with_oid content_type_oid (attributes_value attributes.now)) (Some (octets_of content_type.now.0)))
        (λ e. e ≡ Memory) }
{
    match only_type(alloc, attributes)? {
        Some(named) => Ok(is_same(&named, content_type)),
        None => Ok(false),
    }
}

/// The digest that the content has to have, if the signed attributes are as they have to be: one contentType, which is the
/// content's, and one messageDigest, each with one value (RFC 5652, 11.1 and 11.2). Refuses by `Memory` alone.
#[tactic(auto, using(crate::proofs::Attributes::signs, crate::proofs::Attributes::signs_no_type, crate::proofs::Attributes::signs_no_digest))]
pub fn signed_digest(
    alloc: Global,
    attributes: &Attributes,
    content_type: &ObjectIdentifierAsn1,
) -> Result<Option<OctetStringAsn1>, Error>
    ensures { MatchResult result
        (λ d. SignsOrNone (attributes_value attributes.now) (octets_of content_type.now.0) (option_value (λ o. o.0.items) d))
        (λ e. e ≡ Memory) }
{
    let names = names_type(alloc, attributes, content_type)?;
    if !names {
        return Ok(None);
    }
    match only_digest(alloc, attributes)? {
        Some(digest) => Ok(Some(digest)),
        None => Ok(None),
    }
}

/// Whether there are no attributes.
fn is_none(attributes: &Attributes) -> bool
    ensures { IsTrue result ↔ (attributes_value attributes.now ≡ []) }
{
    attributes.0.0.is_empty()
}

/// The index of the first messageDigest, or 0.
fn digest_index(attributes: &[Attribute]) -> usize
    ensures { IsDigestIndex (map attribute_value attributes.now) result }
{
    for (index, attribute) in attributes.iter().enumerate() {
        if is_oid_of(&attribute.ty.0, &MESSAGE_DIGEST) {
            return index;
        }
    }
    0
}

/// Where signed attributes and their digest are, where there are any, in a signer of the input.
fn signed_ranges(
    input: &[u8],
    row: &SignerRow,
    attributes: &Attributes,
    digest: Option<OctetStringAsn1>,
) -> Option<SignedRanges>
    ensures { AreSignedFound input.now (attributes_value attributes.now) row.now.attributes (option_value (λ o. o.0.items) digest) result }
{
    match digest {
        Some(_digest) => {
            let index = digest_index(attributes.0.0.as_slice());
            let message_digest = digest_place(input, &row.attributes, index);
            Some(SignedRanges {
                attributes: row.attributes.start..row.attributes.end,
                message_digest,
            })
        }
        None => None,
    }
}

/// The digest in a signer's signed attributes, where there are any. The outer `None` is said of those that aren't as they
/// have to be, of an empty set of them, and of none where the content isn't `id-data` (RFC 5652, 5.3).
#[tactic(auto, using(crate::proofs::Attributes::is_broken, crate::proofs::Attributes::is_emptied, crate::proofs::Attributes::is_plain, crate::proofs::Attributes::is_signed, crate::proofs::Attributes::is_unsigned))]
fn digest_or_none(
    alloc: Global,
    row: &SignerRow,
    signer: &RawSignerInfo,
    content_type: &ObjectIdentifierAsn1,
) -> Result<Option<Option<OctetStringAsn1>>, Error>
    ensures { MatchResult result
        (λ d. IsDigestOrBroken row.now (raw_signer_info_value signer.now) (octets_of content_type.now.0) (option_value (λ o. option_value (λ s. s.0.items) o) d))
        (λ e. e ≡ Memory) }
{
    if is_none(&signer.signed_attrs.0) {
        if !is_oid_of(&content_type.0, &DATA) {
            return Ok(None);
        }
        if row.attributes.start < row.signature_algorithm.start {
            return Ok(None);
        }
        return Ok(Some(None));
    }
    match signed_digest(alloc, &signer.signed_attrs.0, content_type)? {
        Some(digest) => Ok(Some(Some(digest))),
        None => Ok(None),
    }
}

/// Where the content's octets are, in the input that the file was read from. `None` where they aren't in it.
fn content_range(input: &[u8], file: &RawPkcs7Certificate) -> Option<Range<usize>>
    ensures { IsValueOf signed_file 64 input.now (file_value file.now) → IsContentFound input.now (file_value file.now) result }
{
    match &file.signed_data.0.content_info.content {
        Some(_content) => Some(content_place(input)),
        None => None,
    }
}

/// A copy of a range.
fn copied(range: &Option<Range<usize>>) -> Option<Range<usize>>
    ensures { result ≡ range.now }
{
    match range {
        Some(range) => Some(range.start..range.end),
        None => None,
    }
}

/// Where a signer's certificate is.
fn certificate_range(
    rows: &[CertificateRow],
    certificate: Option<SignerCertificate<'_>>,
) -> Result<Option<Range<usize>>, Error>
    ensures { MatchResult result
        (λ r. IsCertificateFound rows.now (option_value numbered_of certificate.entry) r)
        (λ _. IsNoCertificateFound rows.now (option_value numbered_of certificate.entry)) }
{
    match certificate {
        Some(found) => match rows.get(found.index) {
            Some(row) => Ok(Some(row.range.start..row.range.end)),
            None => Err(Error::Missing),
        },
        None => Ok(None),
    }
}

/// A file that was read, and where its parts are.
#[derive(Drop)]
struct LocatedFile<'a> {
    input: &'a [u8],
    file: &'a RawPkcs7Certificate,
    content: Option<Range<usize>>,
    certificates: Vec<CertificateRow>,
    signers: Vec<SignerRow>,
}

/// The ranges of the signer with an index, whose certificate is known. `None` where its signed attributes aren't as they
/// have to be.
fn ranges_of(
    alloc: Global,
    known: &LocatedFile<'_>,
    index: usize,
    signer: &RawSignerInfo,
    certificate: Option<SignerCertificate<'_>>,
) -> Result<Option<SignerRanges>, Error>
    requires known { IsKnown known.now.input.now (file_value known.now.file.now) known.now.content known.now.certificates.items known.now.signers.items }
    requires signer { slice_get (signers_of (file_value known.now.file.now)) index ≡ Some (raw_signer_info_value signer.now) }
    requires certificate { IsFirst (IsSignersAt (signer_identifier_value signer.now.sid)) (enumerate_from 0 (certificates_of (file_value known.now.file.now))) (option_value numbered_of certificate) }
    ensures { MatchResult result
        (λ r. AreRangesOrNone known.now.input.now (file_value known.now.file.now) (raw_signer_info_value signer.now) r × ArePlacesOrNone known.now.input.now (file_value known.now.file.now) index r)
        (λ e. e ≡ Memory) }
{
    let Some(row) = known.signers.get(index) else {
        return Err(Error::Missing);
    };
    let content_type = &known.file.signed_data.0.content_info.content_type;
    let digest = match digest_or_none(alloc, row, signer, content_type)? {
        Some(digest) => digest,
        None => return Ok(None),
    };
    let signed = signed_ranges(known.input, row, &signer.signed_attrs.0, digest);
    let certificate = certificate_range(&known.certificates, certificate)?;
    Ok(Some(SignerRanges {
        signed,
        content: copied(&known.content),
        digest_algorithm: row.digest_algorithm.start..row.digest_algorithm.end,
        signature_algorithm: row.signature_algorithm.start..row.signature_algorithm.end,
        signature: row.signature.start..row.signature.end,
        certificate,
    }))
}

/// The ranges of each of some signers that follow one another, from that index on.
fn ranges_of_all(
    alloc: Global,
    known: &LocatedFile<'_>,
    first: usize,
    signers: &[RawSignerInfo],
    certificates: &[Option<SignerCertificate<'_>>],
) -> Result<Vec<Option<SignerRanges>>, Error>
    requires known { IsKnown known.now.input.now (file_value known.now.file.now) known.now.content known.now.certificates.items known.now.signers.items }
    requires fits { first + length signers.now < 2 ^ 64 }
    requires signers { AllAt (λ j x. slice_get (signers_of (file_value known.now.file.now)) (first + j) ≡ Some (raw_signer_info_value x)) signers.now }
    requires certificates { AreSignersAt (certificates_of (file_value known.now.file.now)) (map (λ s. signer_identifier_value s.sid) signers.now) (map (λ f. option_value numbered_of f) certificates.now) }
    ensures { MatchResult result
        (λ found. AreRangesOfAll known.now.input.now (file_value known.now.file.now) (map raw_signer_info_value signers.now) found.items × AllAt (λ j r. ArePlacesOrNone known.now.input.now (file_value known.now.file.now) (first + j) r) found.items)
        (λ e. e ≡ Memory) }
{
    let mut found = Vec::new(alloc);
    for (index, signer) in signers.iter().enumerate() {
        let Some(certificate) = certificates.get(index) else {
            return Err(Error::Missing);
        };
        let ranges = ranges_of(alloc, known, first + index, signer, *certificate)?;
        found.push(ranges)?;
    }
    Ok(found)
}

/// At most so many signers, from one on.
fn asked(signers: &[RawSignerInfo], first: usize, most: usize) -> &[RawSignerInfo]
    ensures { result.now ≡ take most (drop first signers.now) }
{
    if first > signers.len() {
        return &[];
    }
    let rest = &signers[first..];
    if most > rest.len() {
        return rest;
    }
    &rest[..most]
}

/// How each signer is named.
fn names_of<'a>(
    alloc: Global,
    signers: &'a [RawSignerInfo],
) -> Result<Vec<&'a SignerIdentifier>, Error>
    ensures { MatchResult result
        (λ names. map (λ n. signer_identifier_value n.now) names.items ≡ map (λ s. signer_identifier_value s.sid) signers.now)
        (λ e. e ≡ Memory) }
{
    let mut names = Vec::new(alloc);
    for signer in signers {
        names.push(&signer.sid)?;
    }
    Ok(names)
}

/// The certificate of each of some signers.
fn certificates_of_all<'a>(
    alloc: Global,
    file: &'a RawPkcs7Certificate,
    signers: &[RawSignerInfo],
) -> Result<Vec<Option<SignerCertificate<'a>>>, Error>
    ensures { MatchResult result
        (λ found. AreSignersAt (certificates_of (file_value file.now)) (map (λ s. signer_identifier_value s.sid) signers.now) (map (λ f. option_value numbered_of f) found.items))
        (λ e. e ≡ Memory) }
{
    let names = names_of(alloc, signers)?;
    let found = signer_certificates_at(alloc, &file.signed_data.0.certificates.0.0, &names)?;
    Ok(found)
}

/// The ranges of some signers of a file that was read.
fn ranges_in(
    alloc: Global,
    input: &[u8],
    file: &RawPkcs7Certificate,
    first: usize,
    most: usize,
) -> Result<Signers, Error>
    requires value { IsValueOf signed_file 64 input.now (file_value file.now) }
    ensures { MatchResult result
        (λ s. IsPartOf input.now (file_value file.now) first most s.count s.found.items)
        (λ e. e ≡ Memory) }
{
    let signed = &file.signed_data.0;
    let all = signed.signers_infos.0.0.as_slice();
    let signers = asked(all, first, most);
    let certificates = certificates_of_all(alloc, file, signers)?;
    let known = LocatedFile {
        input,
        file,
        content: content_range(input, file),
        certificates: certificate_rows(alloc, input, &signed.certificates.0.0)?,
        signers: signer_rows(alloc, input)?,
    };
    let found = ranges_of_all(alloc, &known, first, signers, &certificates)?;
    Ok(Signers {
        count: all.len(),
        found,
    })
}

/// What a verification of signers needs, of at most `most` of them from the one with the index `first` on, in signed data
/// with signers of every version and content of any type. Reads the input once, and walks over its headers to each part:
/// proved is that each range is the place of the part itself. `NoRange` is never answered.
#[tactic(auto, using(crate::proofs::OneSigner::refused))]
pub fn signer_ranges(
    alloc: Global,
    input: &[u8],
    first: usize,
    most: usize,
) -> Result<Signers, Refusal>
    ensures { MatchResult result
        (λ s. AreFound input.now first most s.count s.found.items)
        (λ e. IsRefusal input.now (HasNoRange input.now first most) e) }
{
    match from_bytes_located::<RawPkcs7Certificate>(alloc, input) {
        Ok(file) => match ranges_in(alloc, input, &file, first, most) {
            Ok(signers) => Ok(signers),
            Err(error) => Err(refusal_of(error)),
        },
        Err((error, place)) => Err(Refusal::Refused(error, place)),
    }
}
