//! The ranges of all certificates of signed data, from one reading of the file.

ghost use Rattle.std.specs.Prelude.{◌≡◌, ◌≢◌, ◌↔◌, IsTrue, [], MatchResult};
ghost use Rattle.asn1_core_element.specs.declared.error.Error.TheVariants.{Memory};
ghost use Rattle.asn1_core_format.specs.Whole.{IsValueOf};
ghost use Rattle.located_rows.specs.Rows.{AreRows, HasNoList, IsElementRange};
ghost use Rattle.part_ranges.specs.Ranges.{AreCertificatesAt, AreCertificatesIn, IsSignedRefusal, choices_of};
ghost use Rattle.signer_ranges.specs.Files.{file_value};
ghost use Rattle.signer_ranges.specs.SignerRoutes.{certificates};
ghost use Rattle.signer_ranges.specs.Signers.{signed_file};

use asn1_core::{Error, from_bytes_located};
use asn1_located::Step;
use input_ranges::{Refusal, refusal_of};
use located_rows::rows_by;
use std::alloc::Global;
use std::ops::Range;
use x509_pkcs7::{RawPkcs7Certificate, RawSignerInfo};

/// The ranges of the certificates of a file that has some.
fn some_ranges(alloc: Global, input: &[u8]) -> Result<Vec<Range<usize>>, Error>
    ensures { MatchResult result
        (λ found. AreRows IsElementRange certificates.steps 0 input.now found.items)
        (λ e. e ≢ Memory → HasNoList certificates.steps 0 input.now) }
{
    rows_by::<Range<usize>>(
        alloc,
        0,
        input,
        &[
            Step::Inside,
            Step::After,
            Step::Element,
            Step::Inside,
            Step::Inside,
            Step::After,
            Step::After,
            Step::After,
            Step::Element,
            Step::Inside,
        ],
    )
}

/// Whether a file has none.
fn has_none(file: &RawPkcs7Certificate<RawSignerInfo>) -> bool
    ensures { IsTrue result ↔ (choices_of (file_value file.now) ≡ []) }
{
    file.signed_data.0.certificates.0.0.is_empty()
}

/// The ranges of the certificates of a file that was read.
fn ranges_in(
    alloc: Global,
    input: &[u8],
    file: &RawPkcs7Certificate<RawSignerInfo>,
) -> Result<Vec<Range<usize>>, Error>
    requires { IsValueOf signed_file 64 input.now (file_value file.now) }
    ensures { MatchResult result
        (λ found. AreCertificatesIn input.now (file_value file.now) found.items)
        (λ e. e ≡ Memory) }
{
    if has_none(file) {
        return Ok(Vec::new(alloc));
    }
    some_ranges(alloc, input)
}

/// Where an input has each certificate of signed data, with signers of every version and content of any type, in their
/// order: a certificate or another choice, as it is. Reads the input once, and walks over its headers: proved is that each
/// range is the place of the item itself, and that there are as many. `NoRange` and `Part` are never answered.
#[tactic(auto, using(crate::proofs::Items::signed_refused))]
pub fn certificate_ranges(alloc: Global, input: &[u8]) -> Result<Vec<Range<usize>>, Refusal>
    ensures { MatchResult result
        (λ found. AreCertificatesAt input.now found.items)
        (λ e. IsSignedRefusal input.now e) }
{
    match from_bytes_located::<RawPkcs7Certificate>(alloc, input) {
        Ok(file) => match ranges_in(alloc, input, &file) {
            Ok(found) => Ok(found),
            Err(error) => Err(refusal_of(error)),
        },
        Err((error, place)) => Err(Refusal::Refused(error, place)),
    }
}
