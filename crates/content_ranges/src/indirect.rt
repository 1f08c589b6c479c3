//! Where signed data has the parts of its indirect data, which Authenticode signs.

ghost use Rattle.std.specs.Prelude.{◌≡◌, ◌≢◌, ◌+◌, ◌<◌, ◌^◌, length, MatchResult};
ghost use Rattle.asn1_core_element.specs.declared.error.Error.TheVariants.{Memory};
ghost use Rattle.asn1_core.specs.Der.{option_value};
ghost use Rattle.content_ranges.specs.Contents.{HasContent, LeadsOrNone};
ghost use Rattle.content_ranges.specs.Heads.{image_head_value, indirect_head_value};
ghost use Rattle.content_ranges.specs.Indirect.{AreIndirectOrNone, AreRangesOf, IsIndirectRefusal, link_of, flags_of, value_of};
ghost use Rattle.content_ranges.specs.IndirectParts.{AreImageFound, IsImageOrNone};
ghost use Rattle.content_ranges.specs.IndirectRoutes.{digest, digest_algorithm, flags, indirect_data, link, subject_type, subject_value};
ghost use Rattle.located_rows.specs.Rows.{LeadsTo};
ghost use Rattle.pkcs7_content.specs.Oids.{indirect_data_oid};
ghost use Rattle.signer_ranges.specs.Signers.{FileValue};

use crate::contents::{content_of, content_place};
use crate::heads::{ImageHead, IndirectHead};
use crate::ranges::{ImageRanges, IndirectRanges};
use crate::steps::steps;
use asn1_core::{Error, from_bytes};
use asn1_core_oid::is_oid_of;
use asn1_located::{Place, Step};
use input_ranges::{Refusal, refusal_of};
use located_rows::range_from;
use std::alloc::Global;
use std::ops::Range;

/// `SPC_INDIRECT_DATA_OBJID`
const INDIRECT_DATA: [u8; 10] = [0x2B, 0x06, 0x01, 0x04, 0x01, 0x82, 0x37, 0x02, 0x01, 0x04];

/// `SPC_PE_IMAGE_DATA_OBJID`
const PE_IMAGE: [u8; 10] = [0x2B, 0x06, 0x01, 0x04, 0x01, 0x82, 0x37, 0x02, 0x01, 0x0F];

/// The contents octets of the object identifier in `data`.
fn subject_type(start: usize, octets: &[u8]) -> Range<usize>
    requires { start + length octets.now < 2 ^ 64 }
    ensures { LeadsTo subject_type.steps start octets.now result.start result.end }
{
    range_from(start, octets, &steps![Inside Element Inside Element Inside])
}

/// The element of the value in `data`, where it is there.
fn subject_value(start: usize, octets: &[u8]) -> Range<usize>
    requires { start + length octets.now < 2 ^ 64 }
    ensures { LeadsTo subject_value.steps start octets.now result.start result.end }
{
    range_from(start, octets, &steps![Inside Element Inside After Element])
}

/// The element of the digest's algorithm.
fn digest_algorithm(start: usize, octets: &[u8]) -> Range<usize>
    requires { start + length octets.now < 2 ^ 64 }
    ensures { LeadsTo digest_algorithm.steps start octets.now result.start result.end }
{
    range_from(start, octets, &steps![Inside After Element Inside Element])
}

/// The octets of the digest.
fn digest(start: usize, octets: &[u8]) -> Range<usize>
    requires { start + length octets.now < 2 ^ 64 }
    ensures { LeadsTo digest.steps start octets.now result.start result.end }
{
    range_from(
        start,
        octets,
        &steps![Inside After Element Inside After Element Inside],
    )
}

/// The contents octets of the flags of image data, where they are there.
fn flags(start: usize, octets: &[u8]) -> Range<usize>
    requires { start + length octets.now < 2 ^ 64 }
    ensures { LeadsTo flags.steps start octets.now result.start result.end }
{
    range_from(
        start,
        octets,
        &steps![Inside Element Inside After Element Inside Element Inside],
    )
}

/// The element of the link in the file of image data, where it is there.
fn link(start: usize, octets: &[u8]) -> Range<usize>
    requires { start + length octets.now < 2 ^ 64 }
    ensures { LeadsTo link.steps start octets.now result.start result.end }
{
    range_from(
        start,
        octets,
        &steps![Inside Element Inside After Element Inside Past(0x03) Element Inside],
    )
}

/// Why something isn't read doesn't matter, unless memory was refused: then this refuses too.
fn without_answer(error: Error) -> Result<(), Error>
    ensures { MatchResult result (λ _. error ≢ Memory) (λ e. e ≡ Memory) }
{
    match error {
        Error::Memory => Err(Error::Memory),
        _ => Ok(()),
    }
}

/// The value as image data. `None` where its type is another, or it doesn't read as that. Refuses by `Memory` alone.
fn image_of(alloc: Global, content: &IndirectHead) -> Result<Option<ImageHead>, Error>
    ensures { MatchResult result
        (λ image. IsImageOrNone (indirect_head_value content.now) (option_value image_head_value image))
        (λ e. e ≡ Memory) }
{
    if !is_oid_of(&content.data.ty.0, &PE_IMAGE) {
        return Ok(None);
    }
    let Some(element) = &content.data.value else {
        return Ok(None);
    };
    match from_bytes::<ImageHead>(alloc, element.0.as_slice()) {
        Ok(image) => Ok(Some(image)),
        Err(error) => {
            without_answer(error)?;
            Ok(None)
        }
    }
}

/// Where the value is, if there is one.
fn value_range(start: usize, octets: &[u8], content: &IndirectHead) -> Option<Range<usize>>
    requires { start + length octets.now < 2 ^ 64 }
    ensures { LeadsOrNone subject_value.steps start octets.now (value_of (indirect_head_value content.now)) result }
{
    match &content.data.value {
        Some(_element) => Some(subject_value(start, octets)),
        None => None,
    }
}

/// Where the flags are, if there are some.
fn flags_range(start: usize, octets: &[u8], image: &ImageHead) -> Option<Range<usize>>
    requires { start + length octets.now < 2 ^ 64 }
    ensures { LeadsOrNone flags.steps start octets.now (flags_of (image_head_value image.now)) result }
{
    match &image.flags {
        Some(_flags) => Some(flags(start, octets)),
        None => None,
    }
}

/// Where the link is, if there is one.
fn link_range(start: usize, octets: &[u8], image: &ImageHead) -> Option<Range<usize>>
    requires { start + length octets.now < 2 ^ 64 }
    ensures { LeadsOrNone link.steps start octets.now (link_of (image_head_value image.now)) result }
{
    match &image.file {
        Some(_file) => Some(link(start, octets)),
        None => None,
    }
}

/// The parts of image data, if the value is that.
fn image_ranges(start: usize, octets: &[u8], image: &Option<ImageHead>) -> Option<ImageRanges>
    requires { start + length octets.now < 2 ^ 64 }
    ensures { AreImageFound start octets.now (option_value image_head_value image.now) result }
{
    match image {
        Some(image) => Some(ImageRanges {
            flags: flags_range(start, octets, image),
            link: link_range(start, octets, image),
        }),
        None => None,
    }
}

/// The ranges of the content, which was read. Refuses by `Memory` alone.
fn ranges_in(alloc: Global, input: &[u8], content: &IndirectHead) -> Result<IndirectRanges, Error>
    ensures { MatchResult result
        (λ r. (v : FileValue) → HasContent indirect_data_oid indirect_data input.now v (indirect_head_value content.now) → AreRangesOf input.now v (indirect_head_value content.now) r)
        (λ e. e ≡ Memory) }
{
    let image = image_of(alloc, content)?;
    let Place { start, octets } = content_place(input);
    Ok(IndirectRanges {
        ty: subject_type(start, octets),
        value: value_range(start, octets, content),
        image: image_ranges(start, octets, &image),
        digest_algorithm: digest_algorithm(start, octets),
        digest: digest(start, octets),
    })
}

/// Where an input that is signed data has the parts of its indirect data: what was hashed, and its digest, each in its own
/// place. Signed data is read with signers of every version, indirect data with an attribute of any type. `None` where the
/// content is of another type, or there is none. Refused by `Refused` is what is no signed data, and by `Part` indirect data
/// that doesn't read, each with its place in the input. `NoRange` is never answered.
pub fn indirect_ranges(alloc: Global, input: &[u8]) -> Result<Option<IndirectRanges>, Refusal>
    ensures { MatchResult result
        (λ r. AreIndirectOrNone input.now r)
        (λ e. IsIndirectRefusal input.now e) }
{
    let Some(content) = content_of::<IndirectHead>(alloc, input, &INDIRECT_DATA)? else {
        return Ok(None);
    };
    match ranges_in(alloc, input, &content) {
        Ok(ranges) => Ok(Some(ranges)),
        Err(error) => Err(refusal_of(error)),
    }
}
