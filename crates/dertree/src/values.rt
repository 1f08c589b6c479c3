//! Short values of elements, as text.

ghost use Rattle.std.specs.Prelude.{IfOk, IfSome, string_bytes};
ghost use Rattle.asn1_core_oid.specs.OidText.{IsTextOf};

use oid_names::object_name;
use std::alloc::Global;
use std::fmt::Write;
use std::io::{self, ErrorKind};
use x509_containers::{BmpString, Error, GeneralizedTime, ObjectIdentifier, UTCTime};

/// How many octets are shown of more.
const FIRST_OCTETS: usize = 16;

/// How many octets of a longer string are shown as characters, and up to which length the arcs of an object identifier.
const FIRST_OF_TEXT: usize = 64;

const UTC_TIME: u8 = 0x17;

/// Octets in hexadecimal.
pub fn octets_text(alloc: Global, octets: &[u8]) -> io::Result<String> {
    let mut text = String::new(alloc);
    for octet in octets.iter().take(FIRST_OCTETS) {
        if !text.is_empty() {
            text.push(' ')?;
        }
        write!(text, "{octet:02X}")?;
    }
    if octets.len() > FIRST_OCTETS {
        text.push_str(" ..")?;
    }
    Ok(text)
}

fn bits_text(alloc: Global, contents: &[u8]) -> io::Result<Option<String>> {
    match contents {
        [0, octets @ ..] => Ok(Some(octets_text(alloc, octets)?)),
        [unused @ 1..=7, octets @ ..] => {
            let octets = octets_text(alloc, octets)?;
            Ok(Some(format!(in alloc; "{octets}, {unused} bits unused")?))
        }
        _ => Ok(None),
    }
}

/// In decimal, where 64 bits hold it.
fn integer_text(alloc: Global, contents: &[u8]) -> io::Result<Option<String>> {
    if contents.is_empty() || contents.len() > 8 {
        return Ok(None);
    }
    let mut wide = if contents[0] < 128 { [0; 8] } else { [0xFF; 8] };
    wide[8 - contents.len()..].copy_from_slice(contents);
    let number = i64::from_be_bytes(wide);
    Ok(Some(format!(in alloc; "{number}")?))
}

/// The arcs, joined by dots.
fn oid_text(alloc: Global, contents: &[u8]) -> io::Result<Option<String>>
    ensures { IfOk result (λ o. IfSome o (λ text. IsTextOf (string_bytes text) contents.now)) }
{
    if contents.len() > FIRST_OF_TEXT {
        return Ok(None);
    }
    match ObjectIdentifier::from_octets(alloc, contents) {
        Ok(oid) => match oid.to_text(alloc) {
            Ok(text) => Ok(Some(text)),
            Err(Error::Memory) => Err(ErrorKind::OutOfMemory.into()),
            Err(_) => Ok(None),
        },
        Err(Error::Memory) => Err(ErrorKind::OutOfMemory.into()),
        Err(_) => Ok(None),
    }
}

/// The same, and in brackets the name that the table has for it.
fn named_oid_text(alloc: Global, contents: &[u8]) -> io::Result<Option<String>> {
    let Some(mut text) = oid_text(alloc, contents)? else {
        return Ok(None);
    };
    if let Some(name) = object_name(contents) {
        write!(text, " ({name})")?;
    }
    Ok(Some(text))
}

/// Characters in quotes, with escapes as in Rust.
fn quoted(alloc: Global, text: &str, is_cut: bool) -> io::Result<Option<String>> {
    let more = if is_cut { " .." } else { "" };
    Ok(Some(format!(in alloc; "{text:?}{more}")?))
}

fn string_text(alloc: Global, contents: &[u8]) -> io::Result<Option<String>> {
    let Ok(text) = str::from_utf8(contents) else {
        return Ok(None);
    };
    let first = &text[..text.floor_char_boundary(FIRST_OF_TEXT)];
    quoted(alloc, first, first.len() < text.len())
}

fn bmp_text(alloc: Global, contents: &[u8]) -> io::Result<Option<String>> {
    let first = &contents[..contents.len().min(FIRST_OF_TEXT)];
    let Ok(string) = BmpString::new(Vec::from_slice(alloc, first)?) else {
        return Ok(None);
    };
    match string.to_text(alloc) {
        Ok(text) => quoted(alloc, text.as_str(), first.len() < contents.len()),
        Err(_) => Err(ErrorKind::OutOfMemory.into()),
    }
}

/// The time, or the characters where DER spells none so.
fn time_text(alloc: Global, tag: u8, contents: &[u8]) -> io::Result<Option<String>> {
    let time = if tag == UTC_TIME {
        UTCTime::from_contents(contents).and_then(|time| {
            let (hour, minute, second) = (time.hour(), time.minute(), time.second());
            GeneralizedTime::new(time.year(), time.month(), time.day(), hour, minute, second)
        })
    } else {
        GeneralizedTime::from_contents(contents)
    };
    let Some(time) = time else {
        return string_text(alloc, contents);
    };
    let (year, month, day) = (time.year(), time.month(), time.day());
    let (hour, minute, second) = (time.hour(), time.minute(), time.second());
    Ok(Some(format!(in alloc; "{year:04}-{month:02}-{day:02} {hour:02}:{minute:02}:{second:02}")?))
}

/// The value of an element with that tag: octets where the contents are none of its type, or one of another class.
pub fn value_text(alloc: Global, tag: u8, contents: &[u8]) -> io::Result<String> {
    let text = match (tag, contents) {
        (0x01, [0x00]) => return Ok(String::from_str(alloc, "FALSE")?),
        (0x01, [0xFF]) => return Ok(String::from_str(alloc, "TRUE")?),
        (0x02 | 0x0A, _) => integer_text(alloc, contents)?,
        (0x03, _) => bits_text(alloc, contents)?,
        (0x06, _) => named_oid_text(alloc, contents)?,
        // UTF8String, and those of which mostly ASCII is in use: numeric, printable, Teletex, IA5, visible
        (0x0C | 0x12 | 0x13 | 0x14 | 0x16 | 0x1A, _) => string_text(alloc, contents)?,
        (UTC_TIME | 0x18, _) => time_text(alloc, tag, contents)?,
        (0x1E, _) => bmp_text(alloc, contents)?,
        _ => None,
    };
    match text {
        Some(text) => Ok(text),
        None => octets_text(alloc, contents),
    }
}
