//! Texts for people.

ghost use Rattle.x509_text.specs.Encodings.{HasNoNameText};
ghost use Rattle.text_calls.specs.Names.{IsUtf8OfName, WritesText, WritesTextOrInvalid, HasNoOidText, IsUtf8OfUtf16, IsUtf16OfUtf8};
ghost use Rattle.asn1_core_oid.specs.OidText.{IsTextOf};
ghost use Rattle.call_values.specs.Given.{HasNone};
ghost use Rattle.text_calls.specs.ObjectNames.{WritesObjectName};
ghost use Rattle.x509_text.specs.Integers.{IsIntegerText};
ghost use Rattle.text_calls.specs.Integers.{HasNoIntegerText};
ghost use Rattle.x509_pkcs12.specs.Utf16.{IsUtf16};
ghost use Rattle.std.specs.Str.{IsUtf8};

use std::alloc::Global;
use text_calls::texts;

/// As `texts::der_name_text` of `text_calls`.
#[unsafe(no_mangle)]
pub extern "C" fn der_name_text(
    alloc: Global,
    input: &[u8],
    out: &mut [u8],
    written: &mut usize,
) -> u32
    ensures { WritesText (IsUtf8OfName input.now) (HasNoNameText input.now) out.old out.new written.new result }
{
    texts::der_name_text(alloc, input, out, written)
}

/// As `texts::der_oid_text` of `text_calls`.
#[unsafe(no_mangle)]
pub extern "C" fn der_oid_text(
    alloc: Global,
    octets: &[u8],
    out: &mut [u8],
    written: &mut usize,
) -> u32
    ensures { WritesTextOrInvalid (λ text. IsTextOf text octets.now) (HasNoOidText octets.now) out.old out.new written.new result }
{
    texts::der_oid_text(alloc, octets, out, written)
}

/// As `texts::der_oid_octets` of `text_calls`.
#[unsafe(no_mangle)]
pub extern "C" fn der_oid_octets(
    alloc: Global,
    text: &[u8],
    out: &mut [u8],
    written: &mut usize,
) -> u32
    ensures { WritesTextOrInvalid (IsTextOf text.now) (HasNone (IsTextOf text.now)) out.old out.new written.new result }
{
    texts::der_oid_octets(alloc, text, out, written)
}

/// As `texts::der_oid_name` of `text_calls`.
#[unsafe(no_mangle)]
pub extern "C" fn der_oid_name(octets: &[u8], out: &mut [u8], written: &mut usize) -> u32
    ensures { WritesObjectName octets.now out.old out.new written.new result }
{
    texts::der_oid_name(octets, out, written)
}

/// As `texts::der_integer_text` of `text_calls`.
#[unsafe(no_mangle)]
pub extern "C" fn der_integer_text(
    alloc: Global,
    octets: &[u8],
    out: &mut [u8],
    written: &mut usize,
) -> u32
    ensures { WritesTextOrInvalid (IsIntegerText octets.now) (HasNoIntegerText octets.now) out.old out.new written.new result }
{
    texts::der_integer_text(alloc, octets, out, written)
}

/// As `texts::der_utf16_text` of `text_calls`.
#[unsafe(no_mangle)]
pub extern "C" fn der_utf16_text(
    alloc: Global,
    octets: &[u8],
    out: &mut [u8],
    written: &mut usize,
) -> u32
    ensures { WritesTextOrInvalid (IsUtf8OfUtf16 octets.now) (¬ (IsUtf16 octets.now)) out.old out.new written.new result }
{
    texts::der_utf16_text(alloc, octets, out, written)
}

/// As `texts::der_text_utf16` of `text_calls`.
#[unsafe(no_mangle)]
pub extern "C" fn der_text_utf16(
    alloc: Global,
    text: &[u8],
    out: &mut [u8],
    written: &mut usize,
) -> u32
    ensures { WritesTextOrInvalid (IsUtf16OfUtf8 text.now) (¬ (IsUtf8 text.now)) out.old out.new written.new result }
{
    texts::der_text_utf16(alloc, text, out, written)
}
