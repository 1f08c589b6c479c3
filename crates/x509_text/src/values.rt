//! Values of attributes as text.

ghost use Rattle.std.specs.Prelude.{◌≡◌, ◌++◌, ◌<◌, ℕ, List, MatchOption, MatchResult};
ghost use Rattle.std.specs.List.{flat_map};
ghost use Rattle.std.specs.Str.{IsUtf8, chars};
ghost use Rattle.asn1_core_element.specs.declared.error.Error.TheVariants.{Memory};
ghost use Rattle.asn1_leaves_strings.specs.Bmp.{IsBmp, unit_octets};
ghost use Rattle.asn1_leaves_strings.specs.Ia5.{IsIa5};
ghost use Rattle.x509_text.specs.Characters.{characters, Appends};
ghost use Rattle.x509_text.specs.Values.{HasCharacters, IsString, hex_digit, hex_pair, hexadecimal, IsValueText};

use crate::characters::put;
use crate::escapes::write_escaped;
use asn1_core_element::Error;
use asn1_core_element::front::front;
use asn1_leaves_strings::{BmpString, is_ia5};
use std::alloc::Global;

const UTF8_STRING: u8 = 0x0C;

const PRINTABLE_STRING: u8 = 0x13;

const TELETEX_STRING: u8 = 0x14;

const IA5_STRING: u8 = 0x16;

const BMP_STRING: u8 = 0x1E;

/// The characters of octets in UTF-8.
fn text_of_utf8(alloc: Global, octets: &[u8]) -> Result<Option<String>, Error>
    ensures { MatchResult result
        (λ o. MatchOption o (¬ (IsUtf8 octets.now)) (λ text. IsUtf8 octets.now × (characters text ≡ chars octets.now)))
        (λ e. e ≡ Memory) }
{
    let Ok(text) = str::from_utf8(octets) else {
        return Ok(None);
    };
    Ok(Some(String::from_str(alloc, text)?))
}

/// The characters of octets in ASCII.
fn text_of_ascii(alloc: Global, octets: &[u8]) -> Result<Option<String>, Error>
    ensures { MatchResult result
        (λ o. MatchOption o (¬ (IsIa5 octets.now)) (λ text. IsIa5 octets.now × (characters text ≡ octets.now)))
        (λ e. e ≡ Memory) }
{
    if !is_ia5(octets) {
        return Ok(None);
    }
    text_of_utf8(alloc, octets)
}

/// The characters of units of 16 bits.
fn text_of_bmp(alloc: Global, octets: &[u8]) -> Result<Option<String>, Error>
    ensures { MatchResult result
        (λ o. MatchOption o (¬ (IsBmp octets.now)) (λ text. IsBmp octets.now × (octets.now ≡ flat_map unit_octets (characters text))))
        (λ e. e ≡ Memory) }
{
    let octets = Vec::from_slice(alloc, octets)?;
    let Ok(string) = BmpString::new(octets) else {
        return Ok(None);
    };
    Ok(Some(string.to_text(alloc)?))
}

/// The characters of contents under a tag.
fn text_of_contents(alloc: Global, tag: u8, contents: &[u8]) -> Result<Option<String>, Error>
    ensures { MatchResult result
        (λ o. MatchOption o ((cs : List ℕ) → ¬ (HasCharacters tag contents.now cs)) (λ text. HasCharacters tag contents.now (characters text)))
        (λ e. e ≡ Memory) }
{
    match tag {
        UTF8_STRING => text_of_utf8(alloc, contents),
        PRINTABLE_STRING | TELETEX_STRING | IA5_STRING => text_of_ascii(alloc, contents),
        BMP_STRING => text_of_bmp(alloc, contents),
        _ => Ok(None),
    }
}

/// The characters of a string, by its encoding. `None` of any other value: of another type, of octets outside the
/// character set, of a TeletexString with octets above 0x7F, and of what is no encoding.
pub fn string_of(alloc: Global, encoding: &[u8]) -> Result<Option<String>, Error>
    ensures { MatchResult result
        (λ o. MatchOption o ((cs : List ℕ) → ¬ (IsString encoding.now cs)) (λ text. IsString encoding.now (characters text)))
        (λ e. e ≡ Memory) }
{
    match front(encoding) {
        Some((tag, len, size)) => {
            if size + len == encoding.len() {
                text_of_contents(alloc, tag, &encoding[size..])
            } else {
                Ok(None)
            }
        }
        None => Ok(None),
    }
}

/// The digit of a number below 16.
fn digit(n: u8) -> char
    requires { n < 16 }
    ensures { result ≡ hex_digit n }
{
    char::from(if n < 10 { b'0' + n } else { b'A' - 10 + n })
}

/// Appends the octets in hexadecimal.
fn write_digits(octets: &[u8], text: &mut String) -> Result<(), Error>
    ensures { MatchResult result
        (λ _. characters text.new ≡ characters text.old ++ flat_map hex_pair octets.now)
        (λ e. e ≡ Memory) }
{
    for octet in octets {
        put(digit(*octet / 16), text)?;
        put(digit(*octet % 16), text)?;
    }
    Ok(())
}

/// Appends an encoding as `#` and hexadecimal.
pub(crate) fn write_hexadecimal(encoding: &[u8], text: &mut String) -> Result<(), Error>
    ensures { MatchResult result
        (λ _. characters text.new ≡ characters text.old ++ hexadecimal encoding.now)
        (λ e. e ≡ Memory) }
{
    put('#', text)?;
    write_digits(encoding, text)
}

/// Appends a value: a string by its characters, and any other by its encoding.
pub fn write_value(alloc: Global, encoding: &[u8], text: &mut String) -> Result<(), Error>
    ensures { MatchResult result (λ _. Appends text.old text.new (IsValueText encoding.now)) (λ e. e ≡ Memory) }
{
    match string_of(alloc, encoding)? {
        Some(string) => write_escaped(string.as_str(), text),
        None => write_hexadecimal(encoding, text),
    }
}
