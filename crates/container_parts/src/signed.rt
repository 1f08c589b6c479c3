//! Parts of signed data.

ghost use Rattle.std.specs.Prelude.{◌≡◌, slice_get};
ghost use Rattle.asn1_core.specs.Der.{option_value};
ghost use Rattle.container_parts.specs.Contents.{IsOneElement};
ghost use Rattle.container_parts.specs.Copies.{Copies, CopiesOne};
ghost use Rattle.container_parts.specs.Inputs.{GivesPart};
ghost use Rattle.container_parts.specs.SignedParts.{in_signed, IsSignedPart, of_signer};
ghost use Rattle.signer_ranges.specs.Files.{file_value};
ghost use Rattle.signer_ranges.specs.Signers.{certificates_of, content_info_of, signers_of};
ghost use Rattle.x509_pkcs7.specs.RawHashed.{content_of, IsRawHashed};
ghost use Rattle.x509_pkcs7.specs.RawSigners.{raw_signer_info_value};

use crate::copies::{copy, encoding, of_file, read_file};
use asn1_core::Error;
use asn1_core::lists::item;
use input_ranges::Refusal;
use pkcs7_signed_crl::SignerIdentifier;
use std::alloc::Global;
use x509_pkcs7::{RawPkcs7Certificate, RawSignerInfo, certificate_element};

/// A part of signed data.
#[derive(Clone, Copy, Debug, PartialEq, Eq)]
pub enum SignedPart {
    /// The octets of the content that are hashed, as `RawEncapsulatedContentInfo::hashed_octets` gives them (RFC 5652,
    /// 5.4). There is one content, whatever the index is, and none where the signature is detached.
    HashedContent,
    /// An element of `certificates`, as it is (RFC 5652, 5.1).
    Certificate,
    /// A part of an element of `signerInfos`.
    OfSigner(SignerPart),
}

/// A part of a signer (RFC 5652, 5.3).
#[derive(Clone, Copy, Debug, PartialEq, Eq)]
pub enum SignerPart {
    /// The encoding of `signedAttrs` under the tag of a SET OF, which the signature covers (RFC 5652, 5.4). Without
    /// attributes there is none.
    SignedAttributes,
    /// The encoding of the issuer's `Name`, where `sid` is `issuerAndSerialNumber`.
    Issuer,
    /// The contents octets of `serialNumber`, an INTEGER, where `sid` is `issuerAndSerialNumber`.
    SerialNumber,
    /// The octets of `subjectKeyIdentifier`, where `sid` is that.
    KeyIdentifier,
    /// The contents octets of the object identifier in `digestAlgorithm`.
    DigestAlgorithm,
    /// The encoding of `signatureAlgorithm`, with its parameters.
    SignatureAlgorithm,
    /// The octets of `signature`.
    Signature,
}

/// The part with that index, from 0 on, of the signed data that the input is, read as `RawPkcs7Certificate`: with
/// signers of every version, and content of any type. `None` where there is none.
#[tactic(auto, using(crate::specs::laws::Inputs::refused, crate::specs::laws::Contents::content_read))]
pub fn signed_part(
    alloc: Global,
    part: SignedPart,
    index: usize,
    input: &[u8],
) -> Result<Option<Vec<u8>>, Refusal>
    ensures { GivesPart (in_signed part index) input.now result }
{
    let file: RawPkcs7Certificate = read_file(alloc, input)?;
    of_file(part_of_file(alloc, part, index, &file))
}

fn part_of_file(
    alloc: Global,
    part: SignedPart,
    index: usize,
    file: &RawPkcs7Certificate,
) -> Result<Option<Vec<u8>>, Error>
    requires content { IsOneElement (content_of (content_info_of (file_value file.now))) }
    ensures { CopiesOne (IsSignedPart part index (file_value file.now)) result }
{
    match part {
        SignedPart::HashedContent => copy(alloc, hashed_content(file)),
        SignedPart::Certificate => copy(alloc, certificate_at(file, index)),
        SignedPart::OfSigner(part) => match signer_at(file, index) {
            Some(signer) => part_of_signer(alloc, part, signer),
            None => Ok(None),
        },
    }
}

/// The octets of the content that are hashed. Content that was read is one element, so that this isn't refused.
#[tactic(auto, using(crate::specs::laws::Contents::no_element))]
fn hashed_content(file: &RawPkcs7Certificate) -> Option<&[u8]>
    requires content { IsOneElement (content_of (content_info_of (file_value file.now))) }
    ensures { IsRawHashed (content_of (content_info_of (file_value file.now))) (option_value (λ o. o.now) result) }
{
    match file.signed_data.0.content_info.hashed_octets() {
        Ok(octets) => octets,
        Err(_) => None,
    }
}

#[tactic(auto, using(crate::specs::laws::Copies::get_value))]
fn certificate_at(file: &RawPkcs7Certificate, index: usize) -> Option<&[u8]>
    ensures { option_value (λ s. s.now) result ≡ slice_get (certificates_of (file_value file.now)) index }
{
    match item(file.signed_data.0.certificates.0.0.as_slice(), index) {
        Some(certificate) => Some(certificate_element(certificate).0.as_slice()),
        None => None,
    }
}

#[tactic(auto, using(crate::specs::laws::Copies::get_value))]
fn signer_at(file: &RawPkcs7Certificate, index: usize) -> Option<&RawSignerInfo>
    ensures { option_value (λ s. raw_signer_info_value s.now) result ≡ slice_get (signers_of (file_value file.now)) index }
{
    item(file.signed_data.0.signers_infos.0.0.as_slice(), index)
}

fn part_of_signer(
    alloc: Global,
    part: SignerPart,
    signer: &RawSignerInfo,
) -> Result<Option<Vec<u8>>, Error>
    ensures { Copies (of_signer part (raw_signer_info_value signer.now)) result }
{
    match part {
        SignerPart::SignedAttributes => match signer.signed_attrs.0.as_set() {
            Some(set) => encoding(alloc, &set),
            None => Ok(None),
        },
        SignerPart::Issuer => match &signer.sid {
            SignerIdentifier::IssuerAndSerialNumber(by) => encoding(alloc, &by.issuer),
            SignerIdentifier::SubjectKeyIdentifier(_) => Ok(None),
        },
        SignerPart::SerialNumber => match &signer.sid {
            SignerIdentifier::IssuerAndSerialNumber(by) => {
                copy(alloc, Some(by.serial_number.0.0.as_slice()))
            }
            SignerIdentifier::SubjectKeyIdentifier(_) => Ok(None),
        },
        SignerPart::KeyIdentifier => match &signer.sid {
            SignerIdentifier::IssuerAndSerialNumber(_) => Ok(None),
            SignerIdentifier::SubjectKeyIdentifier(key) => copy(alloc, Some(key.0.0.0.as_slice())),
        },
        SignerPart::DigestAlgorithm => {
            copy(alloc, Some(signer.digest_algorithm.0.algorithm().octets()))
        }
        SignerPart::SignatureAlgorithm => encoding(alloc, &signer.signature_algorithm),
        SignerPart::Signature => copy(alloc, Some(signer.signature.0.0.as_slice())),
    }
}
