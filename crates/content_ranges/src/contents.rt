//! Content of one type in signed data.

ghost use Rattle.std.specs.Prelude.{MatchResult};
ghost use Rattle.asn1_core.specs.Der.{option_value};
ghost use Rattle.asn1_core_format.specs.Whole.{IsValueOf};
ghost use Rattle.content_ranges.specs.Contents.{IsContent, IsContentPlace, IsContentRefusal};
ghost use Rattle.signer_ranges.specs.Files.{file_value};
ghost use Rattle.signer_ranges.specs.Signers.{signed_file};

use crate::steps::steps;
use asn1_core::from_bytes_located;
use asn1_core::prelude::*;
use asn1_core_oid::is_oid_of;
use asn1_located::{Place, Step, walk};
use input_ranges::Refusal;
use std::alloc::Global;
use x509_pkcs7::RawPkcs7Certificate;

/// Where the element of the content is, in signed data that has some.
#[tactic(auto, using(crate::proofs::ContentPlaces::place_is, crate::proofs::ContentPlaces::no_place))]
pub(crate) fn content_place<'a>(input: &'a [u8]) -> Place<'a>
    ensures { IsContentPlace input.now result }
{
    match walk(
        0,
        input,
        &steps![Inside After Element Inside Inside After After Element Inside After Element Inside],
    ) {
        Some(place) => place,
        None => Place {
            start: 0,
            octets: input,
        },
    }
}

/// The content of signed data that was read as a `C`. `None` where it is of another type, or there is none.
fn content_in<C: DerDeserialize>(
    alloc: Global,
    input: &[u8],
    oid: &[u8],
    file: &RawPkcs7Certificate,
) -> Result<Option<C>, Refusal>
    requires { IsValueOf signed_file 64 input.now (file_value file.now) }
    ensures { MatchResult result
        (λ content. IsContent oid.now C.format input.now (option_value C.value content))
        (λ e. IsContentRefusal oid.now C.format input.now e) }
{
    let info = &file.signed_data.0.content_info;
    if !is_oid_of(&info.content_type.0, oid) {
        return Ok(None);
    }
    match &info.content {
        Some(element) => match from_bytes_located::<C>(alloc, element.0.0.as_slice()) {
            Ok(content) => Ok(Some(content)),
            Err((error, place)) => Err(Refusal::Part(error, content_place(input).start + place)),
        },
        None => Ok(None),
    }
}

/// The content of an input that is signed data, as a `C`, where it is of the type with this object identifier, which is given
/// by its contents octets. `None` where it is of another type, or there is none. Content of the type that doesn't read as a
/// `C` is refused by `Part`, and with its place in the input.
pub(crate) fn content_of<C: DerDeserialize>(
    alloc: Global,
    input: &[u8],
    oid: &[u8],
) -> Result<Option<C>, Refusal>
    ensures { MatchResult result
        (λ content. IsContent oid.now C.format input.now (option_value C.value content))
        (λ e. IsContentRefusal oid.now C.format input.now e) }
{
    match from_bytes_located::<RawPkcs7Certificate>(alloc, input) {
        Ok(file) => content_in(alloc, input, oid, &file),
        Err((error, place)) => Err(Refusal::Refused(error, place)),
    }
}
