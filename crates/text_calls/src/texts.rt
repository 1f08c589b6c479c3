//! Texts for people, for callers in C.

ghost use Rattle.std.specs.Prelude.{◌≡◌, string_bytes, MatchResult};
ghost use Rattle.std.specs.Str.{IsUtf8};
ghost use Rattle.asn1_core_element.specs.declared.error.Error.TheVariants.{Memory};
ghost use Rattle.asn1_core.specs.Der.{octets_of};
ghost use Rattle.asn1_core_oid.specs.OidText.{IsTextOf};
ghost use Rattle.asn1_core_oid.specs.Refusal.{IsRefusal};
ghost use Rattle.oid_names.specs.Names.{IsObjectName};
ghost use Rattle.x509_text.specs.Encodings.{HasNoNameText};
ghost use Rattle.x509_text.specs.Integers.{IsIntegerText};
ghost use Rattle.x509_pkcs12.specs.Utf16.{IsUtf16};
ghost use Rattle.call_values.specs.Given.{HasNone};
ghost use Rattle.text_calls.specs.Integers.{HasNoIntegerText};
ghost use Rattle.text_calls.specs.Names.{HasNoOidText, IsStatusWithoutText, IsUtf16OfUtf8, IsUtf16Refusal, IsUtf8OfName, IsUtf8OfUtf16, WritesText, WritesTextOrInvalid};
ghost use Rattle.text_calls.specs.ObjectNames.{WritesObjectName};

use asn1_core::Error;
use asn1_core::prelude::{Leaf, ObjectIdentifier};
use call_values::outputs::put_octets;
use call_values::status;
use call_values::status::status_of;
use oid_names::object_name;
use std::alloc::Global;
use std::str;
use x509_pkcs12::Utf16String;
use x509_text::{encoded_name_text, integer_text, oid_text};

/// Writes the `Name` that the input encodes to the front of `out`, as text (RFC 4514) in UTF-8. At `NORMAL` `written`
/// is its length, at `NO_ROOM`, where `out` is too short, the length that it needs, and otherwise 0. From `MALFORMED`
/// to `TOO_DEEP` the input isn't the encoding of a `Name`, or a type in it has a number above 2^64; at `NO_MEMORY`
/// memory was refused. Unless at `NORMAL` `out` is as it was.
pub fn der_name_text(alloc: Global, input: &[u8], out: &mut [u8], written: &mut usize) -> u32
    ensures { WritesText (IsUtf8OfName input.now) (HasNoNameText input.now) out.old out.new written.new result }
{
    *written = 0;
    match encoded_name_text(alloc, input) {
        Ok(text) => put_octets(text.as_bytes(), out, written),
        Err(error) => status_of(error),
    }
}

/// The status where there is no text: `INVALID`, but `NO_MEMORY` where memory was refused.
fn without_text(error: Error) -> u32
    ensures { IsStatusWithoutText error result }
{
    match error {
        Error::Memory => status::NO_MEMORY,
        _ => status::INVALID,
    }
}

/// Writes an object identifier, by its contents octets, in decimal numbers and dots. What it answers is as of
/// `der_name_text`: at `INVALID` the octets are no object identifier's, or have a number above 2^64.
#[tactic(auto, using(crate::proofs::Refusals::text_put, crate::proofs::Refusals::no_text, crate::proofs::Refusals::no_text_for))]
pub fn der_oid_text(alloc: Global, octets: &[u8], out: &mut [u8], written: &mut usize) -> u32
    ensures { WritesTextOrInvalid (λ text. IsTextOf text octets.now) (HasNoOidText octets.now) out.old out.new written.new result }
{
    *written = 0;
    match oid_text(alloc, octets) {
        Ok(text) => put_octets(text.as_bytes(), out, written),
        Err(error) => without_text(error),
    }
}

/// The object identifier that a text spells.
fn spelled_oid(alloc: Global, text: &[u8]) -> Result<ObjectIdentifier, Error>
    ensures { MatchResult result (λ oid. IsTextOf text.now (octets_of oid)) (IsRefusal (HasNone (IsTextOf text.now))) }
{
    let Ok(text) = str::from_utf8(text) else {
        return Err(Error::Invalid);
    };
    ObjectIdentifier::from_text(alloc, text)
}

/// Writes the contents octets of the object identifier that a text spells, in decimal numbers and dots. What it answers is as
/// of `der_oid_text`: at `INVALID` the text spells none, or one of which a number has 2^64 or more.
#[tactic(auto, using(crate::proofs::Refusals::text_put, crate::proofs::Refusals::no_text, crate::proofs::Refusals::no_text_for))]
pub fn der_oid_octets(alloc: Global, text: &[u8], out: &mut [u8], written: &mut usize) -> u32
    ensures { WritesTextOrInvalid (IsTextOf text.now) (HasNone (IsTextOf text.now)) out.old out.new written.new result }
{
    *written = 0;
    match spelled_oid(alloc, text) {
        Ok(oid) => put_octets(oid.octets(), out, written),
        Err(error) => without_text(error),
    }
}

/// Writes the name of an object identifier, by its contents octets, to the front of `out`. At `NORMAL` `written` is its
/// length, at `NO_ROOM`, where `out` is too short, the length that it needs, and at `NO_PART`, where the table has no
/// name for it, 0. Unless at `NORMAL` `out` is as it was.
pub fn der_oid_name(octets: &[u8], out: &mut [u8], written: &mut usize) -> u32
    ensures { WritesObjectName octets.now out.old out.new written.new result }
{
    *written = 0;
    match object_name(octets) {
        Some(name) => put_octets(name.as_bytes(), out, written),
        None => status::NO_PART,
    }
}

/// Writes the number that the contents octets of an INTEGER hold, in decimal, after a minus where it is negative. What
/// it answers is as of `der_name_text`: at `INVALID` there are no octets, or more than 1,024.
#[tactic(auto, using(crate::proofs::Refusals::text_put, crate::proofs::Refusals::no_text, crate::proofs::Refusals::no_text_for))]
pub fn der_integer_text(alloc: Global, octets: &[u8], out: &mut [u8], written: &mut usize) -> u32
    ensures { WritesTextOrInvalid (IsIntegerText octets.now) (HasNoIntegerText octets.now) out.old out.new written.new result }
{
    *written = 0;
    match integer_text(alloc, octets) {
        Ok(text) => put_octets(&text, out, written),
        Err(error) => without_text(error),
    }
}

/// The text of UTF-16 octets. Refuses what is no UTF-16.
fn utf16_text(alloc: Global, octets: &[u8]) -> Result<String, Error>
    ensures { MatchResult result (λ text. IsUtf8OfUtf16 octets.now (string_bytes text)) (λ e. IsUtf16Refusal octets.now e) }
{
    Utf16String::from_contents(alloc, octets)?.to_text(alloc)
}

/// Writes UTF-16, two octets for each unit, the high one first, as UTF-8. What it answers is as of `der_name_text`: at
/// `INVALID` the octets are no UTF-16.
#[tactic(auto, using(crate::proofs::Refusals::text_put, crate::proofs::Refusals::no_text, crate::proofs::Refusals::no_text_for))]
pub fn der_utf16_text(alloc: Global, octets: &[u8], out: &mut [u8], written: &mut usize) -> u32
    ensures { WritesTextOrInvalid (IsUtf8OfUtf16 octets.now) (¬ (IsUtf16 octets.now)) out.old out.new written.new result }
{
    *written = 0;
    match utf16_text(alloc, octets) {
        Ok(text) => put_octets(text.as_bytes(), out, written),
        Err(error) => without_text(error),
    }
}

/// The UTF-16 of a text, two octets for each unit, the high one first. Refuses by `Memory` alone.
fn utf16_of(alloc: Global, text: &str) -> Result<Vec<u8>, Error>
    ensures { MatchResult result (λ octets. IsUtf8OfUtf16 octets.items text.now) (λ e. e ≡ Memory) }
{
    let mut octets = Vec::new(alloc);
    for unit in text.encode_utf16() {
        octets.extend_from_slice(&unit.to_be_bytes())?;
    }
    Ok(octets)
}

/// The UTF-16 of a text in UTF-8. Refuses by `Invalid` what is no UTF-8.
fn text_utf16(alloc: Global, text: &[u8]) -> Result<Vec<u8>, Error>
    ensures { MatchResult result (λ octets. IsUtf8OfUtf16 octets.items text.now) (IsRefusal (¬ (IsUtf8 text.now))) }
{
    let Ok(text) = str::from_utf8(text) else {
        return Err(Error::Invalid);
    };
    utf16_of(alloc, text)
}

/// Writes a text in UTF-8 as UTF-16, two octets for each unit, the high one first. What it answers is as of `der_name_text`:
/// at `INVALID` the text is no UTF-8.
#[tactic(auto, using(crate::proofs::Refusals::text_put, crate::proofs::Refusals::no_text, crate::proofs::Refusals::no_text_for))]
pub fn der_text_utf16(alloc: Global, text: &[u8], out: &mut [u8], written: &mut usize) -> u32
    ensures { WritesTextOrInvalid (IsUtf16OfUtf8 text.now) (¬ (IsUtf8 text.now)) out.old out.new written.new result }
{
    *written = 0;
    match text_utf16(alloc, text) {
        Ok(octets) => put_octets(&octets, out, written),
        Err(error) => without_text(error),
    }
}
