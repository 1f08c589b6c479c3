//! Where the parts of each signer are, and each certificate. The steps to a part are those of its route in
//! `specs/SignerRoutes.antt`.

ghost use Rattle.std.specs.Prelude.{◌≡◌, ◌≤◌, ◌+◌, ◌<◌, ◌^◌, length, slice_range, MatchResult};
ghost use Rattle.asn1_core_element.specs.declared.error.Error.TheVariants.{Memory};
ghost use Rattle.asn1_core_format.specs.Whole.{IsValueOf};
ghost use Rattle.located_rows.specs.Rows.{LeadsTo};
ghost use Rattle.signer_ranges.specs.SignerRoutes.{content, digest_algorithm, digest_in, signature, signature_algorithm, signed_attributes};
ghost use Rattle.signer_ranges.specs.SignerRows.{AreCertificateRows, AreSignerRows, IsCertificateRow, IsPartFrom, IsSignerRow};
ghost use Rattle.signer_ranges.specs.Signers.{FileValue, certificates_of, signed_file};

use asn1_core::Error;
use asn1_located::Step;
use located_rows::{Row, range_from, rows_by};
use pkcs7_signed_crl::CertificateChoices;
use std::alloc::Global;
use std::ops::Range;

/// Where the parts of a signer are.
#[derive(Drop)]
pub(crate) struct SignerRow {
    pub digest_algorithm: Range<usize>,
    /// What follows it: the signed attributes, or an empty set of them, or else the signature algorithm.
    pub attributes: Range<usize>,
    pub signature_algorithm: Range<usize>,
    /// The octets of the signature.
    pub signature: Range<usize>,
}

/// Where the digest algorithm is of the signer with which the octets begin.
fn digest_algorithm_range(start: usize, octets: &[u8]) -> Range<usize>
    requires { start + length octets.now < 2 ^ 64 }
    ensures { IsPartFrom digest_algorithm.steps start octets.now result }
{
    range_from(
        start,
        octets,
        &[
            Step::Element,
            Step::Inside,
            Step::After,
            Step::After,
            Step::Element,
        ],
    )
}

/// Where what follows it is, the signed attributes where there are any.
fn attributes_range(start: usize, octets: &[u8]) -> Range<usize>
    requires { start + length octets.now < 2 ^ 64 }
    ensures { IsPartFrom signed_attributes.steps start octets.now result }
{
    range_from(
        start,
        octets,
        &[
            Step::Element,
            Step::Inside,
            Step::After,
            Step::After,
            Step::After,
            Step::Element,
        ],
    )
}

/// Where the signature algorithm is.
fn signature_algorithm_range(start: usize, octets: &[u8]) -> Range<usize>
    requires { start + length octets.now < 2 ^ 64 }
    ensures { IsPartFrom signature_algorithm.steps start octets.now result }
{
    range_from(
        start,
        octets,
        &[
            Step::Element,
            Step::Inside,
            Step::After,
            Step::After,
            Step::After,
            Step::Past(0xA0),
            Step::Element,
        ],
    )
}

/// Where the octets of the signature are.
fn signature_range(start: usize, octets: &[u8]) -> Range<usize>
    requires { start + length octets.now < 2 ^ 64 }
    ensures { IsPartFrom signature.steps start octets.now result }
{
    range_from(
        start,
        octets,
        &[
            Step::Element,
            Step::Inside,
            Step::After,
            Step::After,
            Step::After,
            Step::Past(0xA0),
            Step::After,
            Step::Element,
            Step::Inside,
        ],
    )
}

impl Row for SignerRow {
    ghost is_row = { IsSignerRow };

    fn of(start: usize, octets: &[u8]) -> Self {
        SignerRow {
            digest_algorithm: digest_algorithm_range(start, octets),
            attributes: attributes_range(start, octets),
            signature_algorithm: signature_algorithm_range(start, octets),
            signature: signature_range(start, octets),
        }
    }
}

/// Where the parts of each signer are, in an input that is read as signed data.
pub(crate) fn signer_rows(alloc: Global, input: &[u8]) -> Result<Vec<SignerRow>, Error>
    ensures { (v : FileValue) → IsValueOf signed_file 64 input.now v → MatchResult result
        (λ rows. AreSignerRows input.now v rows.items)
        (λ e. e ≡ Memory) }
{
    rows_by::<SignerRow>(
        alloc,
        0,
        input,
        &[
            Step::Inside,
            Step::After,
            Step::Element,
            Step::Inside,
            Step::Inside,
            Step::After,
            Step::After,
            Step::After,
            Step::Past(0xA0),
            Step::Past(0xA1),
            Step::Element,
            Step::Inside,
        ],
    )
}

/// Where a certificate is.
#[derive(Drop)]
pub(crate) struct CertificateRow {
    pub range: Range<usize>,
}

impl Row for CertificateRow {
    ghost is_row = { IsCertificateRow };

    fn of(start: usize, octets: &[u8]) -> Self {
        CertificateRow {
            range: range_from(start, octets, &[Step::Element]),
        }
    }
}

/// Where each of these certificates is, in an input that is read as signed data with them.
pub(crate) fn certificate_rows(
    alloc: Global,
    input: &[u8],
    certificates: &[CertificateChoices],
) -> Result<Vec<CertificateRow>, Error>
    ensures { (v : FileValue) → IsValueOf signed_file 64 input.now v → length certificates.now ≡ length (certificates_of v) → MatchResult result
        (λ rows. AreCertificateRows input.now v rows.items)
        (λ e. e ≡ Memory) }
{
    if certificates.len() < 1 {
        return Ok(Vec::new(alloc));
    }
    rows_by::<CertificateRow>(
        alloc,
        0,
        input,
        &[
            Step::Inside,
            Step::After,
            Step::Element,
            Step::Inside,
            Step::Inside,
            Step::After,
            Step::After,
            Step::After,
            Step::Element,
            Step::Inside,
        ],
    )
}

/// Where the contents octets of the content are, in an input that is read as signed data with content.
pub(crate) fn content_place(input: &[u8]) -> Range<usize>
    ensures { LeadsTo content.steps 0 input.now result.start result.end }
{
    range_from(
        0,
        input,
        &[
            Step::Inside,
            Step::After,
            Step::Element,
            Step::Inside,
            Step::Inside,
            Step::After,
            Step::After,
            Step::Element,
            Step::Inside,
            Step::After,
            Step::Element,
            Step::Inside,
            Step::Inside,
        ],
    )
}

/// Where the octets of messageDigest are, which is the signed attribute with that index.
pub(crate) fn digest_place(input: &[u8], attributes: &Range<usize>, index: usize) -> Range<usize>
    ensures { attributes.now.start ≤ attributes.now.end → attributes.now.end ≤ length input.now →
        LeadsTo (digest_in index).steps attributes.now.start (slice_range input.now attributes.now.start attributes.now.end) result.start result.end }
{
    match input.get(attributes.start..attributes.end) {
        Some(octets) => range_from(
            attributes.start,
            octets,
            &[
                Step::Inside,
                Step::Nth(index),
                Step::Element,
                Step::Inside,
                Step::After,
                Step::Element,
                Step::Inside,
                Step::Nth(0),
                Step::Element,
                Step::Inside,
            ],
        ),
        None => 0..0,
    }
}
