//! Signed data, built from what a caller in C gives.

ghost use Rattle.std.specs.Prelude.{◌≡◌, MatchResult, map};
ghost use Rattle.std.specs.List.{AllZip};
ghost use Rattle.asn1_core.specs.Der.{option_value};
ghost use Rattle.asn1_core_element.specs.declared.error.Error.TheVariants.{Memory};
ghost use Rattle.cms_calls.specs.BuiltSigned.{BuildsSigned, HasBuiltSigned, HasSignerPart, HasSignerParts, IsContentOf, IsIdentifierOf, IsInfoOf, IsNoSigned, IsSignerBy, index_of, number_of, number_of_signer_part, rows_of};
ghost use Rattle.call_values.specs.Given.{HasNone, IfGiven, IsPartOf};
ghost use Rattle.cms_calls.specs.GivenSigned.{IsNoInfo, IsNoItem, IsNoSigner, IsNoSignerIn, IsPartAt, IsUnreadIn, IsWhy, wrong_part};
ghost use Rattle.call_values.specs.Read.{HasOne};
ghost use Rattle.cms_calls.specs.declared.built_signed.NoSigned.TheVariants.{NotWritten};
ghost use Rattle.signed_writers.specs.declared.signers.SignerPart.TheVariants as SignerParts;
ghost use Rattle.x509_pkcs7.specs.RawSigners.{raw_signer_info_value};

use asn1_borrowed::ElementRef;
use asn1_core::Error;
use call_values::elements::{NoElement, elements_of};
use call_values::given::part_of;
use call_values::outputs::put_octets;
use call_values::ranges::{NOTHING, Octets};
use call_values::status;
use call_values::status::status_of;
use signed_writers::{
    Content, ContentInfo, Identifier, NotRead, NotSigned, SignedPart, Signer, SignerPart,
    read_signer, write_signed_data,
};
use std::alloc::{AllocFailed, Global};
use x509_pkcs7::RawSignerInfo;

// Those of `der_signed_part` in der.h, which says more of each.
const CONTENT_TYPE: usize = 1;

const CONTENT: usize = 2;

const CERTIFICATE: usize = 3;

const CRL: usize = 4;

const IDENTIFIER: usize = 5;

const DIGEST_ALGORITHM: usize = 6;

const SIGNED_ATTRIBUTES: usize = 7;

const SIGNATURE_ALGORITHM: usize = 8;

const SIGNATURE: usize = 9;

const UNSIGNED_ATTRIBUTES: usize = 10;

/// Content, as ranges of an input: `der_signed_given` of der.h, which says more of its fields.
#[repr(C)]
#[derive(Clone, Copy)]
pub struct SignedGiven {
    /// 0 where it isn't in the file.
    pub has_content: usize,
    /// 0 where it is octets, and otherwise it is an element.
    pub is_element: usize,
    pub content_type: Octets,
    pub content: Octets,
}

/// What is given of no content.
pub const NO_SIGNED: SignedGiven = SignedGiven {
    has_content: 0,
    is_element: 0,
    content_type: NOTHING,
    content: NOTHING,
};

/// A signer, as ranges of an input: `der_signer_given` of der.h, which says more of its fields.
#[repr(C)]
#[derive(Clone, Copy)]
pub struct SignerGiven {
    /// 0 where it is named by its certificate.
    pub has_key_identifier: usize,
    /// 0 where its signature covers the content.
    pub has_signed_attributes: usize,
    /// 0 where it has no unsigned attributes.
    pub has_unsigned_attributes: usize,
    pub certificate: Octets,
    pub key_identifier: Octets,
    pub digest_algorithm: Octets,
    pub signed_attributes: Octets,
    pub signature_algorithm: Octets,
    pub signature: Octets,
    pub unsigned_attributes: Octets,
}

/// A part that can't be written; of a certificate, a revocation list or a signer with its index.
#[derive(Clone, Copy)]
pub enum WrongPart {
    ContentType,
    Content,
    Certificate(usize),
    Crl(usize),
    /// That part of the signer.
    Signer(usize, SignerPart),
}

/// Why no signed data is built.
pub enum NoSigned {
    Part(WrongPart),
    NotWritten(Error),
}

impl<T: Drop> From<AllocFailed<T>> for NoSigned {
    ghost from_gives = { λ _ r. r ≡ NotWritten Memory };

    fn from(_e: AllocFailed<T>) -> NoSigned {
        NoSigned::NotWritten(Error::Memory)
    }
}

/// The number of a part of a signer.
fn number_of_signer_part(part: SignerPart) -> usize
    ensures { result ≡ number_of_signer_part part }
{
    match part {
        SignerPart::Identifier => IDENTIFIER,
        SignerPart::DigestAlgorithm => DIGEST_ALGORITHM,
        SignerPart::SignedAttributes => SIGNED_ATTRIBUTES,
        SignerPart::SignatureAlgorithm => SIGNATURE_ALGORITHM,
        SignerPart::Signature => SIGNATURE,
        SignerPart::UnsignedAttributes => UNSIGNED_ATTRIBUTES,
    }
}

/// The index and the number of a part.
fn place_of_part(part: WrongPart) -> (usize, usize)
    ensures { (result.0 ≡ index_of part) × (result.1 ≡ number_of part) }
{
    match part {
        WrongPart::ContentType => (0, CONTENT_TYPE),
        WrongPart::Content => (0, CONTENT),
        WrongPart::Certificate(index) => (index, CERTIFICATE),
        WrongPart::Crl(index) => (index, CRL),
        WrongPart::Signer(index, part) => (index, number_of_signer_part(part)),
    }
}

/// The content, unless it isn't in the file.
fn content_of<'a>(input: &'a [u8], row: &SignedGiven) -> Result<Option<Content<'a>>, usize>
    ensures { MatchResult result (λ o. IsContentOf input.now row.now o) (λ _. HasNone (IsContentOf input.now row.now)) }
{
    if row.has_content == 0 {
        return Ok(None);
    }
    let octets = part_of(input, row.content, CONTENT)?;
    if row.is_element == 0 {
        Ok(Some(Content::Octets(octets)))
    } else {
        Ok(Some(Content::Element(octets)))
    }
}

/// The content with its type.
fn info_of<'a>(input: &'a [u8], row: &SignedGiven) -> Result<ContentInfo<'a>, WrongPart>
    ensures { MatchResult result (λ info. IsInfoOf input.now row.now info) (λ part. IsNoInfo input.now row.now part) }
{
    let Ok(content_type) = part_of(input, row.content_type, CONTENT_TYPE) else {
        return Err(WrongPart::ContentType);
    };
    let Ok(content) = content_of(input, row) else {
        return Err(WrongPart::Content);
    };
    Ok(ContentInfo {
        content_type,
        content,
    })
}

/// A part of signed data with its index. Of a signer that was read only the signed attributes can be wrong. The whole never is,
/// so it may be any.
fn wrong_part(part: SignedPart, index: usize) -> WrongPart
    ensures { result ≡ wrong_part part index }
{
    match part {
        SignedPart::ContentType => WrongPart::ContentType,
        SignedPart::Content | SignedPart::Whole => WrongPart::Content,
        SignedPart::Certificate => WrongPart::Certificate(index),
        SignedPart::RevocationList => WrongPart::Crl(index),
        SignedPart::Signer => WrongPart::Signer(index, SignerPart::SignedAttributes),
    }
}

/// The elements of ranges, as those parts. That they are well-formed isn't looked at.
fn elements_as<'a>(
    alloc: Global,
    input: &'a [u8],
    parts: &[Octets],
    of: SignedPart,
) -> Result<Vec<ElementRef<'a>>, NoSigned>
    ensures { MatchResult result
        (λ all. AllZip (IsPartOf input.now) parts.now (map (λ x. x.0.now) all.items))
        (λ wrong. IsNoItem (λ part. HasOne (IsPartOf input.now part)) (IsPartAt of) parts.now wrong) }
{
    match elements_of(alloc, input, parts) {
        Ok(all) => Ok(all),
        Err(NoElement::At(index)) => Err(NoSigned::Part(wrong_part(of, index))),
        Err(NoElement::NotListed(error)) => Err(NoSigned::NotWritten(error)),
    }
}

/// The octets of a part of a signer.
fn signer_part<'a>(input: &'a [u8], part: Octets, of: SignerPart) -> Result<&'a [u8], SignerPart>
    ensures { MatchResult result (λ x. IsPartOf input.now part x.now) (λ e. (e ≡ of) × HasNone (IsPartOf input.now part)) }
{
    match part_of(input, part, number_of_signer_part(of)) {
        Ok(octets) => Ok(octets),
        Err(_number) => Err(of),
    }
}

/// The same, unless the flag is 0.
#[tactic(auto, using(call_values::proofs::GivenParts::none_if))]
fn signer_part_if<'a>(
    input: &'a [u8],
    flag: usize,
    part: Octets,
    of: SignerPart,
) -> Result<Option<&'a [u8]>, SignerPart>
    ensures { MatchResult result
        (λ o. IfGiven flag (IsPartOf input.now part) (option_value (λ x. x.now) o))
        (λ e. (e ≡ of) × HasNone (IfGiven flag (IsPartOf input.now part))) }
{
    if flag == 0 {
        return Ok(None);
    }
    Ok(Some(signer_part(input, part, of)?))
}

/// What names a signer.
fn identifier_of<'a>(input: &'a [u8], row: &SignerGiven) -> Result<Identifier<'a>, SignerPart>
    ensures { MatchResult result (λ id. IsIdentifierOf input.now row.now id) (λ e. (e ≡ SignerParts.Identifier) × HasNone (IsIdentifierOf input.now row.now)) }
{
    if row.has_key_identifier == 0 {
        let octets = signer_part(input, row.certificate, SignerPart::Identifier)?;
        Ok(Identifier::Certificate(octets))
    } else {
        let octets = signer_part(input, row.key_identifier, SignerPart::Identifier)?;
        Ok(Identifier::Key(octets))
    }
}

/// The parts of a signer.
#[tactic(auto, using(crate::proofs::BuiltSigned::no_identifier, crate::proofs::BuiltSigned::no_digest_algorithm, crate::proofs::BuiltSigned::no_signed_attributes, crate::proofs::BuiltSigned::no_signature_algorithm, crate::proofs::BuiltSigned::no_signature, crate::proofs::BuiltSigned::no_unsigned_attributes))]
fn signer_parts<'a>(input: &'a [u8], row: &SignerGiven) -> Result<Signer<'a>, SignerPart>
    ensures { MatchResult result (λ x. HasSignerParts input.now row.now x) (λ part. HasSignerPart input.now part row.now → ⊥) }
{
    let identifier = identifier_of(input, row)?;
    let digest_algorithm = signer_part(input, row.digest_algorithm, SignerPart::DigestAlgorithm)?;
    let signed_attributes = signer_part_if(
        input,
        row.has_signed_attributes,
        row.signed_attributes,
        SignerPart::SignedAttributes,
    )?;
    let signature_algorithm = signer_part(
        input,
        row.signature_algorithm,
        SignerPart::SignatureAlgorithm,
    )?;
    let signature = signer_part(input, row.signature, SignerPart::Signature)?;
    let unsigned_attributes = signer_part_if(
        input,
        row.has_unsigned_attributes,
        row.unsigned_attributes,
        SignerPart::UnsignedAttributes,
    )?;
    Ok(Signer {
        identifier,
        digest_algorithm,
        signed_attributes,
        signature_algorithm,
        signature,
        unsigned_attributes,
    })
}

/// The signer that a row gives.
fn signer_by(alloc: Global, input: &[u8], row: &SignerGiven) -> Result<RawSignerInfo, NotRead>
    ensures { MatchResult result
        (λ s. IsSignerBy input.now row.now (raw_signer_info_value s))
        (λ wrong. IsUnreadIn input.now row.now wrong) }
{
    match signer_parts(input, row) {
        Ok(parts) => read_signer(alloc, &parts),
        Err(part) => Err(NotRead {
            part,
            error: Error::Missing,
        }),
    }
}

/// Why the signer with that index can't be written.
fn no_signer(index: usize, wrong: NotRead) -> NoSigned
    ensures { IsNoSigner index wrong result }
{
    match wrong.error {
        Error::Memory => NoSigned::NotWritten(Error::Memory),
        _ => NoSigned::Part(WrongPart::Signer(index, wrong.part)),
    }
}

/// The signers that all rows give.
fn all_signers(
    alloc: Global,
    input: &[u8],
    rows: &[SignerGiven],
) -> Result<Vec<RawSignerInfo>, NoSigned>
    ensures { MatchResult result
        (λ all. AllZip (IsSignerBy input.now) rows.now (map raw_signer_info_value all.items))
        (λ wrong. IsNoSignerIn input.now rows.now wrong) }
{
    let mut all = Vec::new(alloc);
    for (index, row) in rows.iter().enumerate() {
        match signer_by(alloc, input, row) {
            Ok(signer) => all.push(signer)?,
            Err(wrong) => return Err(no_signer(index, wrong)),
        }
    }
    Ok(all)
}

/// Why `write_signed_data` writes nothing.
fn not_signed(wrong: NotSigned) -> NoSigned
    ensures { IsWhy wrong result }
{
    match wrong.error {
        Error::TooLong => NoSigned::NotWritten(Error::TooLong),
        Error::Memory => NoSigned::NotWritten(Error::Memory),
        _ => NoSigned::Part(wrong_part(wrong.part, wrong.index)),
    }
}

fn signed_text(
    alloc: Global,
    input: &[u8],
    given: &SignedGiven,
    certificates: &[Octets],
    crls: &[Octets],
    signers: &[SignerGiven],
) -> Result<Vec<u8>, NoSigned>
    ensures { let rows = rows_of given.now certificates.now crls.now signers.now in
        MatchResult result
        (λ text. HasBuiltSigned input.now rows text.items)
        (λ wrong. IsNoSigned input.now rows wrong) }
{
    let certificates = elements_as(alloc, input, certificates, SignedPart::Certificate)?;
    let crls = elements_as(alloc, input, crls, SignedPart::RevocationList)?;
    let signers = all_signers(alloc, input, signers)?;
    match info_of(input, given) {
        Ok(info) => match write_signed_data(
            alloc,
            &info,
            certificates.as_slice(),
            crls.as_slice(),
            signers.as_slice(),
        ) {
            Ok(text) => Ok(text),
            Err(wrong) => Err(not_signed(wrong)),
        },
        Err(part) => Err(NoSigned::Part(part)),
    }
}

/// Builds signed data under its content type, of the content, the certificates, the revocation lists and the signers that are
/// given, as octets of the input, and writes it to the front of `out`. At `NORMAL` `written` is its length, at `NO_ROOM`,
/// where `out` is too short, the length that it needs, and otherwise 0. At `INVALID` a part can't be written, `part` is its
/// number in der.h, and `index` the index of the certificate, list or signer that it is of; otherwise both are 0. At
/// `TOO_LONG` an encoding is too long, and `NO_MEMORY` is answered for want of memory. Unless at `NORMAL` `out` is as it was.
pub fn der_build_signed(
    alloc: Global,
    input: &[u8],
    given: &SignedGiven,
    certificates: &[Octets],
    crls: &[Octets],
    signers: &[SignerGiven],
    out: &mut [u8],
    written: &mut usize,
    index: &mut usize,
    part: &mut usize,
) -> u32
    ensures { BuildsSigned input.now (rows_of given.now certificates.now crls.now signers.now) out.old out.new written.new index.new part.new result }
{
    *written = 0;
    *index = 0;
    *part = 0;
    match signed_text(alloc, input, given, certificates, crls, signers) {
        Ok(text) => put_octets(&text, out, written),
        Err(NoSigned::Part(wrong)) => {
            let (at, number) = place_of_part(wrong);
            *index = at;
            *part = number;
            status::INVALID
        }
        Err(NoSigned::NotWritten(error)) => status_of(error),
    }
}
