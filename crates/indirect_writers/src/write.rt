//! Writing what Authenticode signs.

ghost use Rattle.std.specs.Prelude.{MatchResult};
ghost use Rattle.asn1_borrowed.specs.Written.{IsEncodingOf, IsNotWritten};
ghost use Rattle.content_ranges.specs.IndirectRoutes.{image_data, indirect_data};
ghost use Rattle.indirect_writers.specs.Written.{image_value, indirect_value};

use crate::data::{ImageData, IndirectData};
use asn1_borrowed::write;
use asn1_core::Error;
use std::alloc::Global;

/// The encoding of `SpcPeImageData`, the value of indirect data for a program. Refuses by `Invalid` flags that aren't those of
/// a BIT STRING, and a link that isn't exactly one element; by `TooLong`, or by `Memory`.
pub fn write_image_data(alloc: Global, image: &ImageData<'_>) -> Result<Vec<u8>, Error>
    ensures { MatchResult result
        (λ text. IsEncodingOf image_data (image_value image.now) text.items)
        (λ e. IsNotWritten image_data (image_value image.now) e) }
{
    write(alloc, image)
}

/// The encoding of `SpcIndirectDataContent`. The messageDigest of its signers is over its contents octets, without tag and
/// length (RFC 2315, 9.3). Refuses by `Invalid` an attribute type that is no object identifier, a value that isn't exactly one element,
/// and an ill-formed algorithm; by `TooLong`, or by `Memory`.
pub fn write_indirect_data(alloc: Global, indirect: &IndirectData<'_>) -> Result<Vec<u8>, Error>
    ensures { MatchResult result
        (λ text. IsEncodingOf indirect_data (indirect_value indirect.now) text.items)
        (λ e. IsNotWritten indirect_data (indirect_value indirect.now) e) }
{
    write(alloc, indirect)
}
