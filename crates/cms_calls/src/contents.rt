//! Where signed data has the parts of its content, for callers in C.

ghost use Rattle.std.specs.Prelude.{◌≡◌};
ghost use Rattle.cms_calls.specs.Contents.{FindsIndirect, flags_in, has_flags, has_link, indirect_row, link_in};

use call_values::outputs::{place_of, status_of_refusal};
use call_values::ranges::{NOTHING, Octets, is_there, octets_of, octets_or_none};
use call_values::status;
use content_ranges::{ImageRanges, IndirectRanges, indirect_ranges};
use std::alloc::Global;

/// Where the parts of indirect data are: `der_indirect_parts` of der.h, which says more of its fields.
#[repr(C)]
#[derive(Clone, Copy)]
pub struct Indirect {
    /// 1 where the attribute has a value, otherwise 0.
    pub has_attribute_value: usize,
    /// 1 where that is image data, otherwise 0.
    pub is_image: usize,
    /// 1 where these have flags, otherwise 0.
    pub has_image_flags: usize,
    /// 1 where they have a link, otherwise 0.
    pub has_image_link: usize,
    pub attribute_type: Octets,
    pub attribute_value: Octets,
    pub digest_algorithm: Octets,
    pub digest: Octets,
    pub image_flags: Octets,
    pub image_link: Octets,
}

/// What is there of no indirect data.
pub const NO_INDIRECT: Indirect = Indirect {
    has_attribute_value: 0,
    is_image: 0,
    has_image_flags: 0,
    has_image_link: 0,
    attribute_type: NOTHING,
    attribute_value: NOTHING,
    digest_algorithm: NOTHING,
    digest: NOTHING,
    image_flags: NOTHING,
    image_link: NOTHING,
};

/// 1 where there are image data with flags, otherwise 0.
fn has_flags(image: &Option<ImageRanges>) -> usize
    ensures { result ≡ has_flags image.now }
{
    match image {
        Some(image) => is_there(&image.flags),
        None => 0,
    }
}

fn flags_in(image: &Option<ImageRanges>) -> Octets
    ensures { result ≡ flags_in image.now }
{
    match image {
        Some(image) => octets_or_none(&image.flags),
        None => NOTHING,
    }
}

/// 1 where there are image data with a link, otherwise 0.
fn has_link(image: &Option<ImageRanges>) -> usize
    ensures { result ≡ has_link image.now }
{
    match image {
        Some(image) => is_there(&image.link),
        None => 0,
    }
}

fn link_in(image: &Option<ImageRanges>) -> Octets
    ensures { result ≡ link_in image.now }
{
    match image {
        Some(image) => octets_or_none(&image.link),
        None => NOTHING,
    }
}

fn row_of(ranges: &IndirectRanges) -> Indirect
    ensures { result ≡ indirect_row ranges.now }
{
    Indirect {
        has_attribute_value: is_there(&ranges.value),
        is_image: is_there(&ranges.image),
        has_image_flags: has_flags(&ranges.image),
        has_image_link: has_link(&ranges.image),
        attribute_type: octets_of(&ranges.ty),
        attribute_value: octets_or_none(&ranges.value),
        digest_algorithm: octets_of(&ranges.digest_algorithm),
        digest: octets_of(&ranges.digest),
        image_flags: flags_in(&ranges.image),
        image_link: link_in(&ranges.image),
    }
}

/// Writes where the input, signed data, has the parts of its indirect data to `out`, as `indirect_ranges` finds them. From
/// `MALFORMED` to `TOO_DEEP` the input is no signed data, or its indirect data don't read, and `place` is where; at
/// `NO_PART` the content is of another type, or there is none; at `NO_MEMORY` `place` is an offset without use, and otherwise
/// 0. Unless at `NORMAL` all of `out` is 0.
#[tactic(auto, using(crate::proofs::ContentRows::indirect_found, crate::proofs::ContentRows::no_indirect_found))]
pub fn der_indirect(alloc: Global, input: &[u8], out: &mut Indirect, place: &mut usize) -> u32
    ensures { FindsIndirect input.now out.new place.new result }
{
    *out = NO_INDIRECT;
    *place = 0;
    match indirect_ranges(alloc, input) {
        Ok(Some(ranges)) => {
            *out = row_of(&ranges);
            status::NORMAL
        }
        Ok(None) => status::NO_PART,
        Err(refusal) => {
            *place = place_of(refusal);
            status_of_refusal(refusal)
        }
    }
}
