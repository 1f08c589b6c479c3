//! The ranges of recipients, of the algorithm and of the octets of enveloped data.

ghost use Rattle.std.specs.Prelude.{◌≡◌, ◌≢◌, [], ◌∷◌, MatchResult};
ghost use Rattle.asn1_core_element.specs.declared.error.Error.TheVariants.{Memory};
ghost use Rattle.asn1_core_format.specs.Whole.{IsValueOf};
ghost use Rattle.located_rows.specs.Rows.{AreRows, HasNoList, IsElementRange, LeadsTo};
ghost use Rattle.part_ranges.specs.EnvelopeParts.{AreEnvelopedAt, AreEnvelopedIn, IsEnvelopedRefusal};
ghost use Rattle.part_ranges.specs.EnvelopeRoutes.{encrypted_content, encryption_algorithm, recipients};
ghost use Rattle.part_ranges.specs.Enveloped.{enveloped_file, envelope_value};

use crate::enveloped::Envelope;
use asn1_core::{Error, from_bytes_located};
use asn1_located::Step;
use input_ranges::{Refusal, refusal_of};
use located_rows::{range_from, rows_by};
use std::alloc::Global;
use std::ops::Range;

/// A part of enveloped data.
#[derive(Clone, Copy, Debug, PartialEq, Eq)]
pub enum EnvelopePart {
    /// Each `RecipientInfo`, as it is.
    Recipients,
    /// `contentEncryptionAlgorithm`, with its parameters.
    EncryptionAlgorithm,
    /// The octets of `encryptedContent`, where they are there.
    EncryptedContent,
}

/// The ranges of the recipients.
fn recipient_ranges(alloc: Global, input: &[u8]) -> Result<Vec<Range<usize>>, Error>
    ensures { MatchResult result
        (λ found. AreRows IsElementRange recipients.steps 0 input.now found.items)
        (λ e. e ≢ Memory → HasNoList recipients.steps 0 input.now) }
{
    rows_by::<Range<usize>>(
        alloc,
        0,
        input,
        &[
            Step::Inside,
            Step::After,
            Step::Element,
            Step::Inside,
            Step::Inside,
            Step::After,
            Step::Past(0xA0),
            Step::Element,
            Step::Inside,
        ],
    )
}

/// The range of the algorithm.
fn algorithm_range(input: &[u8]) -> Range<usize>
    ensures { LeadsTo encryption_algorithm.steps 0 input.now result.start result.end }
{
    range_from(
        0,
        input,
        &[
            Step::Inside,
            Step::After,
            Step::Element,
            Step::Inside,
            Step::Inside,
            Step::After,
            Step::Past(0xA0),
            Step::After,
            Step::Element,
            Step::Inside,
            Step::After,
            Step::Element,
        ],
    )
}

/// The range of the octets, where they are there.
fn content_range(input: &[u8]) -> Range<usize>
    ensures { LeadsTo encrypted_content.steps 0 input.now result.start result.end }
{
    range_from(
        0,
        input,
        &[
            Step::Inside,
            Step::After,
            Step::Element,
            Step::Inside,
            Step::Inside,
            Step::After,
            Step::Past(0xA0),
            Step::After,
            Step::Element,
            Step::Inside,
            Step::After,
            Step::After,
            Step::Element,
            Step::Inside,
        ],
    )
}

/// One range.
fn only(alloc: Global, range: Range<usize>) -> Result<Vec<Range<usize>>, Error>
    ensures { MatchResult result (λ found. found.items ≡ range ∷ []) (λ e. e ≡ Memory) }
{
    let mut found = Vec::new(alloc);
    found.push(range)?;
    Ok(found)
}

/// The ranges of the part of a file that was read.
fn ranges_in(
    alloc: Global,
    part: EnvelopePart,
    input: &[u8],
    file: &Envelope,
) -> Result<Vec<Range<usize>>, Error>
    requires { IsValueOf enveloped_file 64 input.now (envelope_value (λ x. x.0.items) file.now) }
    ensures { MatchResult result
        (λ found. AreEnvelopedIn part input.now (envelope_value (λ x. x.0.items) file.now) found.items)
        (λ e. e ≡ Memory) }
{
    match part {
        EnvelopePart::Recipients => recipient_ranges(alloc, input),
        EnvelopePart::EncryptionAlgorithm => only(alloc, algorithm_range(input)),
        EnvelopePart::EncryptedContent => {
            match &file
                .enveloped_data
                .0
                .encrypted_content_info
                .encrypted_content
                .0
            {
                Some(_octets) => only(alloc, content_range(input)),
                None => Ok(Vec::new(alloc)),
            }
        }
    }
}

/// Where an input has each item of a part of enveloped data, with recipients of every kind, in their order. Proved is
/// what is of `certificate_ranges`.
#[tactic(auto, using(crate::proofs::Items::enveloped_refused))]
pub fn envelope_ranges(
    alloc: Global,
    part: EnvelopePart,
    input: &[u8],
) -> Result<Vec<Range<usize>>, Refusal>
    ensures { MatchResult result
        (λ found. AreEnvelopedAt part input.now found.items)
        (λ e. IsEnvelopedRefusal input.now e) }
{
    match from_bytes_located::<Envelope>(alloc, input) {
        Ok(file) => match ranges_in(alloc, part, input, &file) {
            Ok(found) => Ok(found),
            Err(error) => Err(refusal_of(error)),
        },
        Err((error, place)) => Err(Refusal::Refused(error, place)),
    }
}
