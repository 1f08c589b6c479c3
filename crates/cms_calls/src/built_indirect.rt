//! What Authenticode signs, built from what a caller in C gives.

ghost use Rattle.std.specs.Prelude.{◌≡◌, ◌≢◌, MatchResult};
ghost use Rattle.asn1_core.specs.Der.{option_value};
ghost use Rattle.cms_calls.specs.BuiltIndirect.{BuildsIndirect, HasBuiltIndirect, HasSubject, IsAlgorithmOf, IsBitsOf, IsImageOf, IsImageText, IsNoIndirect, IsOtherSubjectOf, IsWrong, no_algorithm, number_of};
ghost use Rattle.call_values.specs.Given.{HasNone, IfGiven};
ghost use Rattle.call_values.specs.Read.{HasOne, IsUnread};
ghost use Rattle.indirect_writers.specs.Written.{image_value};
ghost use Rattle.x509_base.specs.AlgorithmParts.{algorithm_identifier_value};

use crate::contents::Indirect;
use asn1_core::Error;
use call_values::given::{element_if, oid_of, part_of};
use call_values::not_built::NotBuilt;
use call_values::outputs::put_octets;
use call_values::ranges::Octets;
use call_values::readings::read_as;
use call_values::status;
use call_values::status::status_of;
use indirect_writers::{
    ImageData, IndirectData, PE_IMAGE, is_bits, write_image_data, write_indirect_data,
};
use std::alloc::Global;
use x509_base::AlgorithmIdentifier;

// Those of `der_indirect_part` in der.h, which says more of each.
const ATTRIBUTE_TYPE: usize = 1;

const ATTRIBUTE_VALUE: usize = 2;

const DIGEST_ALGORITHM: usize = 3;

const DIGEST: usize = 4;

const IMAGE_FLAGS: usize = 5;

const IMAGE_LINK: usize = 6;

/// A part that can't be written.
#[derive(Clone, Copy)]
pub enum WrongIndirect {
    AttributeType,
    AttributeValue,
    DigestAlgorithm,
    Digest,
    ImageFlags,
    ImageLink,
}

/// Why no indirect data are built.
pub enum NoIndirect {
    Part(WrongIndirect),
    NotWritten(Error),
}

fn number_of(part: WrongIndirect) -> usize
    ensures { result ≡ number_of part }
{
    match part {
        WrongIndirect::AttributeType => ATTRIBUTE_TYPE,
        WrongIndirect::AttributeValue => ATTRIBUTE_VALUE,
        WrongIndirect::DigestAlgorithm => DIGEST_ALGORITHM,
        WrongIndirect::Digest => DIGEST,
        WrongIndirect::ImageFlags => IMAGE_FLAGS,
        WrongIndirect::ImageLink => IMAGE_LINK,
    }
}

/// The contents octets of a BIT STRING.
fn bits_of(input: &[u8], part: Octets) -> Result<&[u8], usize>
    ensures { MatchResult result (λ x. IsBitsOf input.now part x.now) (λ _. HasNone (IsBitsOf input.now part)) }
{
    let octets = part_of(input, part, IMAGE_FLAGS)?;
    if is_bits(octets) {
        Ok(octets)
    } else {
        Err(IMAGE_FLAGS)
    }
}

/// The same, unless the flag is 0.
#[tactic(auto, using(call_values::proofs::GivenParts::none_if))]
fn bits_if(input: &[u8], flag: usize, part: Octets) -> Result<Option<&[u8]>, usize>
    ensures { MatchResult result
        (λ o. IfGiven flag (IsBitsOf input.now part) (option_value (λ x. x.now) o))
        (λ _. HasNone (IfGiven flag (IsBitsOf input.now part))) }
{
    if flag == 0 {
        return Ok(None);
    }
    Ok(Some(bits_of(input, part)?))
}

/// The parts of image data.
fn image_of<'a>(input: &'a [u8], row: &Indirect) -> Result<ImageData<'a>, WrongIndirect>
    requires { row.now.is_image ≢ 0 }
    ensures { MatchResult result
        (λ image. IsImageOf input.now row.now (image_value image))
        (λ wrong. IsWrong input.now row.now wrong) }
{
    let Ok(flags) = bits_if(input, row.has_image_flags, row.image_flags) else {
        return Err(WrongIndirect::ImageFlags);
    };
    let Ok(link) = element_if(input, row.has_image_link, row.image_link, IMAGE_LINK) else {
        return Err(WrongIndirect::ImageLink);
    };
    Ok(ImageData { flags, link })
}

/// The encoding of image data.
fn image_text(alloc: Global, input: &[u8], row: &Indirect) -> Result<Vec<u8>, NoIndirect>
    requires { row.now.is_image ≢ 0 }
    ensures { MatchResult result
        (λ text. IsImageText input.now row.now text.items)
        (λ wrong. IsNoIndirect input.now row.now wrong) }
{
    match image_of(input, row) {
        Ok(image) => match write_image_data(alloc, &image) {
            Ok(text) => Ok(text),
            Err(error) => Err(NoIndirect::NotWritten(error)),
        },
        Err(part) => Err(NoIndirect::Part(part)),
    }
}

/// The digest's algorithm.
fn algorithm_of(alloc: Global, input: &[u8], part: Octets) -> Result<AlgorithmIdentifier, NotBuilt>
    ensures { MatchResult result
        (λ x. IsAlgorithmOf input.now part (algorithm_identifier_value x))
        (λ wrong. IsUnread (HasOne (IsAlgorithmOf input.now part)) wrong) }
{
    match part_of(input, part, DIGEST_ALGORITHM) {
        Ok(octets) => read_as(alloc, octets, DIGEST_ALGORITHM),
        Err(number) => Err(NotBuilt::Part(number)),
    }
}

/// Why there is no digest's algorithm.
fn no_algorithm(wrong: NotBuilt) -> NoIndirect
    ensures { result ≡ no_algorithm wrong }
{
    match wrong {
        NotBuilt::Part(_number) => NoIndirect::Part(WrongIndirect::DigestAlgorithm),
        NotBuilt::Refused(error) => NoIndirect::NotWritten(error),
    }
}

/// What was hashed: the attribute's type, and its value.
#[derive(Clone, Copy)]
struct Subject<'a> {
    ty: &'a [u8],
    value: Option<&'a [u8]>,
}

/// An attribute whose type and value are given.
fn other_subject<'a>(input: &'a [u8], row: &Indirect) -> Result<Subject<'a>, WrongIndirect>
    requires { row.now.is_image ≡ 0 }
    ensures { MatchResult result
        (λ x. IsOtherSubjectOf input.now row.now (x.ty.now, (option_value (λ o. o.now) x.value, tt)))
        (λ wrong. IsWrong input.now row.now wrong) }
{
    let Ok(ty) = oid_of(input, row.attribute_type, ATTRIBUTE_TYPE) else {
        return Err(WrongIndirect::AttributeType);
    };
    let Ok(value) = element_if(
        input,
        row.has_attribute_value,
        row.attribute_value,
        ATTRIBUTE_VALUE,
    ) else {
        return Err(WrongIndirect::AttributeValue);
    };
    Ok(Subject { ty, value })
}

/// The encoding of indirect data of that algorithm and subject.
fn text_of(
    alloc: Global,
    input: &[u8],
    row: &Indirect,
    digest_algorithm: &AlgorithmIdentifier,
    subject: &Subject<'_>,
) -> Result<Vec<u8>, NoIndirect>
    requires { HasSubject input.now row.now (subject.now.ty.now, (option_value (λ o. o.now) subject.now.value, tt))
        × IsAlgorithmOf input.now row.now.digest_algorithm (algorithm_identifier_value digest_algorithm.now) }
    ensures { MatchResult result
        (λ text. HasBuiltIndirect input.now row.now text.items)
        (λ wrong. IsNoIndirect input.now row.now wrong) }
{
    match part_of(input, row.digest, DIGEST) {
        Ok(digest) => match write_indirect_data(
            alloc,
            &IndirectData {
                attribute_type: subject.ty,
                attribute_value: subject.value,
                digest_algorithm,
                digest,
            },
        ) {
            Ok(text) => Ok(text),
            Err(error) => Err(NoIndirect::NotWritten(error)),
        },
        Err(_number) => Err(NoIndirect::Part(WrongIndirect::Digest)),
    }
}

/// The encoding of indirect data whose subject is a program.
fn program_text(
    alloc: Global,
    input: &[u8],
    row: &Indirect,
    digest_algorithm: &AlgorithmIdentifier,
) -> Result<Vec<u8>, NoIndirect>
    requires { (row.now.is_image ≢ 0)
        × IsAlgorithmOf input.now row.now.digest_algorithm (algorithm_identifier_value digest_algorithm.now) }
    ensures { MatchResult result
        (λ text. HasBuiltIndirect input.now row.now text.items)
        (λ wrong. IsNoIndirect input.now row.now wrong) }
{
    let image = image_text(alloc, input, row)?;
    let subject = Subject {
        ty: &PE_IMAGE,
        value: Some(image.as_slice()),
    };
    text_of(alloc, input, row, digest_algorithm, &subject)
}

/// The encoding of indirect data with another subject.
fn other_text(
    alloc: Global,
    input: &[u8],
    row: &Indirect,
    digest_algorithm: &AlgorithmIdentifier,
) -> Result<Vec<u8>, NoIndirect>
    requires { (row.now.is_image ≡ 0)
        × IsAlgorithmOf input.now row.now.digest_algorithm (algorithm_identifier_value digest_algorithm.now) }
    ensures { MatchResult result
        (λ text. HasBuiltIndirect input.now row.now text.items)
        (λ wrong. IsNoIndirect input.now row.now wrong) }
{
    match other_subject(input, row) {
        Ok(subject) => text_of(alloc, input, row, digest_algorithm, &subject),
        Err(part) => Err(NoIndirect::Part(part)),
    }
}

fn indirect_text(alloc: Global, input: &[u8], row: &Indirect) -> Result<Vec<u8>, NoIndirect>
    ensures { MatchResult result
        (λ text. HasBuiltIndirect input.now row.now text.items)
        (λ wrong. IsNoIndirect input.now row.now wrong) }
{
    match algorithm_of(alloc, input, row.digest_algorithm) {
        Ok(algorithm) => {
            if row.is_image == 0 {
                other_text(alloc, input, row, &algorithm)
            } else {
                program_text(alloc, input, row, &algorithm)
            }
        }
        Err(wrong) => Err(no_algorithm(wrong)),
    }
}

/// Builds the indirect data that are given, as octets of the input and numbers, and writes them to the front of `out`: the
/// content of a signature of Authenticode, in which `der_indirect` finds these parts. At `NORMAL` `written` is its length, at
/// `NO_ROOM`, where `out` is too short, the length that it needs, and otherwise 0. At `INVALID` a part can't be written, and
/// `part` is its number in der.h, and otherwise 0. At `TOO_LONG` an encoding is too long, and `NO_MEMORY` is answered for want
/// of memory. Unless at `NORMAL` `out` is as it was.
pub fn der_build_indirect(
    alloc: Global,
    input: &[u8],
    given: &Indirect,
    out: &mut [u8],
    written: &mut usize,
    part: &mut usize,
) -> u32
    ensures { BuildsIndirect input.now given.now out.old out.new written.new part.new result }
{
    *written = 0;
    *part = 0;
    match indirect_text(alloc, input, given) {
        Ok(text) => put_octets(&text, out, written),
        Err(NoIndirect::Part(wrong)) => {
            *part = number_of(wrong);
            status::INVALID
        }
        Err(NoIndirect::NotWritten(error)) => status_of(error),
    }
}
