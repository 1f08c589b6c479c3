//! Attributes of a signer, built from what a caller in C gives.

ghost use Rattle.std.specs.Prelude.{◌≡◌, MatchResult, map};
ghost use Rattle.asn1_core.specs.Der.{option_value};
ghost use Rattle.cms_calls.specs.BuiltAttributes.{BuildsAttributes, HasBuiltAttributes, HasParts, IsNoSet, IsTimeOf, IsWrong, number_of};
ghost use Rattle.call_values.specs.Further.{AreFurther};
ghost use Rattle.call_values.specs.Given.{HasNone, IfGiven};
ghost use Rattle.x509_base.specs.Names.{attribute_value};

use asn1_core::Error;
use asn1_leaves::GeneralizedTime;
use call_values::further::further_if;
use call_values::given::{oid_if, part_if, part_of};
use call_values::not_built::NotBuilt;
use call_values::outputs::put_octets;
use call_values::ranges::{NOTHING, Octets};
use call_values::status;
use call_values::status::status_of;
use signed_writers::{SignedAttributes, write_attributes};
use std::alloc::Global;
use x509_base::Attribute;

// Those of `der_attributes_part` in der.h, which says more of each.
const CONTENT_TYPE: usize = 1;

const MESSAGE_DIGEST: usize = 2;

const SIGNING_TIME: usize = 3;

const ATTRIBUTES: usize = 4;

/// Attributes, as ranges of an input: `der_attributes_given` of der.h, which says more of its fields.
#[repr(C)]
#[derive(Clone, Copy)]
pub struct AttributesGiven {
    /// 0 where there is no content type.
    pub has_content_type: usize,
    /// 0 where there is no digest.
    pub has_message_digest: usize,
    /// 0 where there is no time of signing.
    pub has_signing_time: usize,
    /// 0 where there are no further attributes.
    pub has_attributes: usize,
    pub content_type: Octets,
    pub message_digest: Octets,
    pub signing_time: Octets,
    pub attributes: Octets,
}

/// What is given of no attributes.
pub const NO_ATTRIBUTES: AttributesGiven = AttributesGiven {
    has_content_type: 0,
    has_message_digest: 0,
    has_signing_time: 0,
    has_attributes: 0,
    content_type: NOTHING,
    message_digest: NOTHING,
    signing_time: NOTHING,
    attributes: NOTHING,
};

/// A part that can't be written.
#[derive(Clone, Copy)]
pub enum WrongAttribute {
    ContentType,
    MessageDigest,
    SigningTime,
    /// The further attributes.
    Attributes,
}

/// Why no attributes are built.
pub enum NoSet {
    Part(WrongAttribute),
    NotWritten(Error),
}

fn number_of(part: WrongAttribute) -> usize
    ensures { result ≡ number_of part }
{
    match part {
        WrongAttribute::ContentType => CONTENT_TYPE,
        WrongAttribute::MessageDigest => MESSAGE_DIGEST,
        WrongAttribute::SigningTime => SIGNING_TIME,
        WrongAttribute::Attributes => ATTRIBUTES,
    }
}

/// A time, by its 15 characters.
fn time_of(input: &[u8], part: Octets) -> Result<GeneralizedTime, usize>
    ensures { MatchResult result (λ t. IsTimeOf input.now part t) (λ _. HasNone (IsTimeOf input.now part)) }
{
    let octets = part_of(input, part, SIGNING_TIME)?;
    match GeneralizedTime::from_contents(octets) {
        Some(time) => Ok(time),
        None => Err(SIGNING_TIME),
    }
}

/// A time, unless the flag is 0.
#[tactic(auto, using(call_values::proofs::GivenParts::none_if))]
fn time_if(input: &[u8], flag: usize, part: Octets) -> Result<Option<GeneralizedTime>, usize>
    ensures { MatchResult result
        (λ o. IfGiven flag (IsTimeOf input.now part) o)
        (λ _. HasNone (IfGiven flag (IsTimeOf input.now part))) }
{
    if flag == 0 {
        return Ok(None);
    }
    Ok(Some(time_of(input, part)?))
}

/// The attributes of the three types that a row gives, with these further ones.
fn attributes_of<'a>(
    input: &'a [u8],
    row: &AttributesGiven,
    attributes: &'a [Attribute],
) -> Result<SignedAttributes<'a>, WrongAttribute>
    ensures { MatchResult result
        (λ x. HasParts input.now row.now x × (x.attributes.now ≡ attributes.now))
        (λ wrong. IsWrong input.now row.now wrong) }
{
    let Ok(content_type) = oid_if(input, row.has_content_type, row.content_type, CONTENT_TYPE)
    else {
        return Err(WrongAttribute::ContentType);
    };
    let Ok(message_digest) = part_if(
        input,
        row.has_message_digest,
        row.message_digest,
        MESSAGE_DIGEST,
    ) else {
        return Err(WrongAttribute::MessageDigest);
    };
    let Ok(signing_time) = time_if(input, row.has_signing_time, row.signing_time) else {
        return Err(WrongAttribute::SigningTime);
    };
    Ok(SignedAttributes {
        content_type,
        message_digest,
        signing_time,
        attributes,
    })
}

/// The further attributes.
fn further_of(alloc: Global, input: &[u8], row: &AttributesGiven) -> Result<Vec<Attribute>, NoSet>
    ensures { MatchResult result
        (λ all. AreFurther input.now row.now.has_attributes row.now.attributes (map attribute_value all.items))
        (λ wrong. IsNoSet input.now row.now wrong) }
{
    match further_if(
        alloc,
        input,
        row.has_attributes,
        (row.attributes, ATTRIBUTES),
    ) {
        Ok(further) => Ok(further),
        Err(NotBuilt::Part(_number)) => Err(NoSet::Part(WrongAttribute::Attributes)),
        Err(NotBuilt::Refused(error)) => Err(NoSet::NotWritten(error)),
    }
}

fn attributes_text(alloc: Global, input: &[u8], row: &AttributesGiven) -> Result<Vec<u8>, NoSet>
    ensures { MatchResult result
        (λ text. HasBuiltAttributes input.now row.now text.items)
        (λ wrong. IsNoSet input.now row.now wrong) }
{
    let further = further_of(alloc, input, row)?;
    match attributes_of(input, row, further.as_slice()) {
        Ok(attributes) => match write_attributes(alloc, &attributes) {
            Ok(text) => Ok(text),
            Err(error) => Err(NoSet::NotWritten(error)),
        },
        Err(part) => Err(NoSet::Part(part)),
    }
}

/// Builds the attributes of a signer that are given, as octets of the input, and writes them to the front of `out`: a SET OF
/// Attribute, which a signature covers. At `NORMAL` `written` is its length, at `NO_ROOM`, where `out` is too short, the
/// length that it needs, and otherwise 0. At `INVALID` a part can't be written, and `part` is its number in der.h, and
/// otherwise 0. At `TOO_LONG` an encoding is too long, and `NO_MEMORY` is answered for want of memory. Unless at `NORMAL`
/// `out` is as it was.
pub fn der_build_attributes(
    alloc: Global,
    input: &[u8],
    given: &AttributesGiven,
    out: &mut [u8],
    written: &mut usize,
    part: &mut usize,
) -> u32
    ensures { BuildsAttributes input.now given.now out.old out.new written.new part.new result }
{
    *written = 0;
    *part = 0;
    match attributes_text(alloc, input, given) {
        Ok(text) => put_octets(&text, out, written),
        Err(NoSet::Part(wrong)) => {
            *part = number_of(wrong);
            status::INVALID
        }
        Err(NoSet::NotWritten(error)) => status_of(error),
    }
}
