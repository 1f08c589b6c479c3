//! The ranges of a signer's attributes, from one reading of the file.

ghost use Rattle.std.specs.Prelude.{◌≡◌, ◌≢◌, ◌↔◌, IsTrue, [], MatchResult};
ghost use Rattle.asn1_core.specs.Der.{option_value};
ghost use Rattle.asn1_core_element.specs.declared.error.Error.TheVariants.{Memory};
ghost use Rattle.asn1_core_format.specs.Whole.{IsValueOf};
ghost use Rattle.located_rows.specs.Rows.{AreRows, HasNoList, IsElementRange};
ghost use Rattle.part_ranges.specs.Ranges.{IsSignedRefusal};
ghost use Rattle.part_ranges.specs.SignerAttributes.{AreAttributesAt, AreAttributesIn, attributes_in, attributes_of};
ghost use Rattle.signer_ranges.specs.Files.{file_value};
ghost use Rattle.signer_ranges.specs.Signers.{signed_file};
ghost use Rattle.x509_pkcs7.specs.RawSigners.{raw_signer_info_value};

use asn1_core::{Error, from_bytes_located};
use asn1_located::Step;
use input_ranges::{Refusal, refusal_of};
use located_rows::rows_by;
use std::alloc::Global;
use std::ops::Range;
use x509_pkcs7::{RawPkcs7Certificate, RawSignerInfo};

/// Which of a signer's attributes.
#[derive(Clone, Copy, Debug, PartialEq, Eq)]
pub enum AttributeSet {
    Signed,
    Unsigned,
}

/// Whether a signer has none of them.
fn has_none(set: AttributeSet, signer: &RawSignerInfo) -> bool
    ensures { IsTrue result ↔ (attributes_of set (raw_signer_info_value signer.now) ≡ []) }
{
    match set {
        AttributeSet::Signed => signer.signed_attrs.0.0.0.is_empty(),
        AttributeSet::Unsigned => signer.unsigned_attrs.0.0.is_empty(),
    }
}

/// The ranges of the attributes of the signer with that index, which has some.
fn some_ranges(
    alloc: Global,
    set: AttributeSet,
    index: usize,
    input: &[u8],
) -> Result<Vec<Range<usize>>, Error>
    ensures { MatchResult result
        (λ found. AreRows IsElementRange (attributes_in set index).steps 0 input.now found.items)
        (λ e. e ≢ Memory → HasNoList (attributes_in set index).steps 0 input.now) }
{
    match set {
        AttributeSet::Signed => rows_by::<Range<usize>>(
            alloc,
            0,
            input,
            &[
                Step::Inside,
                Step::After,
                Step::Element,
                Step::Inside,
                Step::Inside,
                Step::After,
                Step::After,
                Step::After,
                Step::Past(0xA0),
                Step::Past(0xA1),
                Step::Element,
                Step::Inside,
                Step::Nth(index),
                Step::Element,
                Step::Inside,
                Step::After,
                Step::After,
                Step::After,
                Step::Element,
                Step::Inside,
            ],
        ),
        AttributeSet::Unsigned => rows_by::<Range<usize>>(
            alloc,
            0,
            input,
            &[
                Step::Inside,
                Step::After,
                Step::Element,
                Step::Inside,
                Step::Inside,
                Step::After,
                Step::After,
                Step::After,
                Step::Past(0xA0),
                Step::Past(0xA1),
                Step::Element,
                Step::Inside,
                Step::Nth(index),
                Step::Element,
                Step::Inside,
                Step::After,
                Step::After,
                Step::After,
                Step::Past(0xA0),
                Step::After,
                Step::After,
                Step::Element,
                Step::Inside,
            ],
        ),
    }
}

/// The ranges of the attributes of the signer with an index, of a file that was read.
#[tactic(auto, using(crate::proofs::Items::fewer_signers))]
fn ranges_in(
    alloc: Global,
    set: AttributeSet,
    index: usize,
    input: &[u8],
    file: &RawPkcs7Certificate,
) -> Result<Option<Vec<Range<usize>>>, Error>
    requires { IsValueOf signed_file 64 input.now (file_value file.now) }
    ensures { MatchResult result
        (λ found. AreAttributesIn set index input.now (file_value file.now) (option_value (λ v. v.items) found))
        (λ e. e ≡ Memory) }
{
    let Some(signer) = file.signed_data.0.signers_infos.0.0.get(index) else {
        return Ok(None);
    };
    if has_none(set, signer) {
        return Ok(Some(Vec::new(alloc)));
    }
    let found = some_ranges(alloc, set, index, input)?;
    Ok(Some(found))
}

/// Where an input has each attribute of the signer with an index, in signed data with signers of every version and content
/// of any type. `None` where there are fewer signers. Proved is what is of `certificate_ranges`.
#[tactic(auto, using(crate::proofs::Items::signed_refused))]
pub fn attribute_ranges(
    alloc: Global,
    set: AttributeSet,
    index: usize,
    input: &[u8],
) -> Result<Option<Vec<Range<usize>>>, Refusal>
    ensures { MatchResult result
        (λ found. AreAttributesAt set index input.now (option_value (λ v. v.items) found))
        (λ e. IsSignedRefusal input.now e) }
{
    match from_bytes_located::<RawPkcs7Certificate>(alloc, input) {
        Ok(file) => match ranges_in(alloc, set, index, input, &file) {
            Ok(found) => Ok(found),
            Err(error) => Err(refusal_of(error)),
        },
        Err((error, place)) => Err(Refusal::Refused(error, place)),
    }
}
