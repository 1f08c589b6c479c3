//! Enveloped data, built from what a caller in C gives.

ghost use Rattle.std.specs.Prelude.{◌≡◌, MatchResult, map};
ghost use Rattle.std.specs.List.{AllZip};
ghost use Rattle.cms_calls.specs.BuiltEnveloped.{BuildsEnveloped, HasBuiltEnveloped, HasInfo, IsNoEnveloped, IsNoRecipientAt, IsUngiven, IsWhy, index_of, number_of, wrong_part};
ghost use Rattle.call_values.specs.Given.{IsPartOf};

use asn1_borrowed::ElementRef;
use asn1_core::Error;
use call_values::elements::{NoElement, elements_of};
use call_values::given::{part_if, part_of};
use call_values::outputs::put_octets;
use call_values::ranges::{NOTHING, Octets};
use call_values::status;
use call_values::status::status_of;
use enveloped_writers::{Enveloped, EnvelopedPart, NotEnveloped, write_enveloped_data};
use std::alloc::Global;

// Those of `der_enveloped_part` in der.h, which says more of each.
const CONTENT_TYPE: usize = 1;

const ALGORITHM: usize = 2;

const CONTENT: usize = 3;

const RECIPIENT: usize = 4;

const RECIPIENTS: usize = 5;

const ATTRIBUTES: usize = 6;

/// Enveloped data but for their recipients, as ranges of an input: `der_enveloped_given` of der.h, which says more of its
/// fields.
#[repr(C)]
#[derive(Clone, Copy)]
pub struct EnvelopedGiven {
    /// 0 where the encrypted octets aren't in the file.
    pub has_content: usize,
    /// 0 where there are no unprotected attributes.
    pub has_attributes: usize,
    pub content_type: Octets,
    pub algorithm: Octets,
    pub content: Octets,
    pub attributes: Octets,
}

/// What is given of nothing.
pub const NO_ENVELOPED: EnvelopedGiven = EnvelopedGiven {
    has_content: 0,
    has_attributes: 0,
    content_type: NOTHING,
    algorithm: NOTHING,
    content: NOTHING,
    attributes: NOTHING,
};

/// A part that can't be written; of a recipient with its index.
#[derive(Clone, Copy)]
pub enum WrongEnveloped {
    ContentType,
    Algorithm,
    Content,
    Recipient(usize),
    /// There is no recipient.
    Recipients,
    Attributes,
}

/// Why no enveloped data are built.
pub enum NoEnveloped {
    Part(WrongEnveloped),
    NotWritten(Error),
}

/// The index and the number of a part.
fn place_of_part(part: WrongEnveloped) -> (usize, usize)
    ensures { (result.0 ≡ index_of part) × (result.1 ≡ number_of part) }
{
    match part {
        WrongEnveloped::ContentType => (0, CONTENT_TYPE),
        WrongEnveloped::Algorithm => (0, ALGORITHM),
        WrongEnveloped::Content => (0, CONTENT),
        WrongEnveloped::Recipient(index) => (index, RECIPIENT),
        WrongEnveloped::Recipients => (0, RECIPIENTS),
        WrongEnveloped::Attributes => (0, ATTRIBUTES),
    }
}

/// All but the recipients.
fn info_of<'a>(input: &'a [u8], row: &EnvelopedGiven) -> Result<Enveloped<'a>, WrongEnveloped>
    ensures { MatchResult result
        (λ x. HasInfo input.now row.now x)
        (λ wrong. IsUngiven input.now row.now wrong) }
{
    let Ok(content_type) = part_of(input, row.content_type, CONTENT_TYPE) else {
        return Err(WrongEnveloped::ContentType);
    };
    let Ok(algorithm) = part_of(input, row.algorithm, ALGORITHM) else {
        return Err(WrongEnveloped::Algorithm);
    };
    let Ok(content) = part_if(input, row.has_content, row.content, CONTENT) else {
        return Err(WrongEnveloped::Content);
    };
    let Ok(attributes) = part_if(input, row.has_attributes, row.attributes, ATTRIBUTES) else {
        return Err(WrongEnveloped::Attributes);
    };
    Ok(Enveloped {
        content_type,
        algorithm,
        content,
        attributes,
    })
}

/// The recipients, as elements.
fn recipients_of<'a>(
    alloc: Global,
    input: &'a [u8],
    parts: &[Octets],
) -> Result<Vec<ElementRef<'a>>, NoEnveloped>
    ensures { MatchResult result
        (λ all. AllZip (IsPartOf input.now) parts.now (map (λ x. x.0.now) all.items))
        (λ no. IsNoRecipientAt input.now parts.now no) }
{
    match elements_of(alloc, input, parts) {
        Ok(all) => Ok(all),
        Err(NoElement::At(index)) => Err(NoEnveloped::Part(WrongEnveloped::Recipient(index))),
        Err(NoElement::NotListed(error)) => Err(NoEnveloped::NotWritten(error)),
    }
}

/// The part that `write_enveloped_data` names, with its index. The whole never is wrong, so it may be any.
fn wrong_part(part: EnvelopedPart, index: usize) -> WrongEnveloped
    ensures { result ≡ wrong_part part index }
{
    match part {
        EnvelopedPart::ContentType => WrongEnveloped::ContentType,
        EnvelopedPart::Algorithm => WrongEnveloped::Algorithm,
        EnvelopedPart::Recipient => WrongEnveloped::Recipient(index),
        EnvelopedPart::Recipients => WrongEnveloped::Recipients,
        EnvelopedPart::Attributes | EnvelopedPart::Whole => WrongEnveloped::Attributes,
    }
}

/// Why `write_enveloped_data` writes nothing.
fn not_enveloped(wrong: NotEnveloped) -> NoEnveloped
    ensures { IsWhy wrong result }
{
    match wrong.error {
        Error::TooLong => NoEnveloped::NotWritten(Error::TooLong),
        Error::Memory => NoEnveloped::NotWritten(Error::Memory),
        _ => NoEnveloped::Part(wrong_part(wrong.part, wrong.index)),
    }
}

fn enveloped_text(
    alloc: Global,
    input: &[u8],
    given: &EnvelopedGiven,
    recipients: &[Octets],
) -> Result<Vec<u8>, NoEnveloped>
    ensures { MatchResult result
        (λ text. HasBuiltEnveloped input.now given.now recipients.now text.items)
        (λ no. IsNoEnveloped input.now given.now recipients.now no) }
{
    let elements = recipients_of(alloc, input, recipients)?;
    match info_of(input, given) {
        Ok(info) => match write_enveloped_data(alloc, &info, elements.as_slice()) {
            Ok(text) => Ok(text),
            Err(wrong) => Err(not_enveloped(wrong)),
        },
        Err(part) => Err(NoEnveloped::Part(part)),
    }
}

/// Builds enveloped data under their content type, of the encrypted octets, the recipients and the unprotected attributes that
/// are given, as octets of the input, and writes their text to the front of `out`. At `NORMAL` `written` is its length, at
/// `NO_ROOM`, where `out` is too short, the length that it needs, and otherwise 0. At `INVALID` a part can't be written, `part` is its
/// number in der.h, and `index` the index of the recipient that it is; otherwise both are 0. At `TOO_LONG` the encoding is too
/// long, and `NO_MEMORY` is answered for want of memory. Unless at `NORMAL` `out` is as it was.
pub fn der_build_enveloped(
    alloc: Global,
    input: &[u8],
    given: &EnvelopedGiven,
    recipients: &[Octets],
    out: &mut [u8],
    written: &mut usize,
    index: &mut usize,
    part: &mut usize,
) -> u32
    ensures { BuildsEnveloped input.now given.now recipients.now out.old out.new written.new index.new part.new result }
{
    *written = 0;
    *index = 0;
    *part = 0;
    match enveloped_text(alloc, input, given, recipients) {
        Ok(text) => put_octets(&text, out, written),
        Err(NoEnveloped::Part(wrong)) => {
            let (at, number) = place_of_part(wrong);
            *index = at;
            *part = number;
            status::INVALID
        }
        Err(NoEnveloped::NotWritten(error)) => status_of(error),
    }
}
