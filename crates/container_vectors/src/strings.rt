//! Strings, by their octets and their text.

use std::alloc::Global;
use std::test::Fail;
use vector_checks::checks::expect;
use x509_containers::{
    BmpString, CharSetError, IA5String, RawSafeBag, StringError, Utf8String, Utf16String,
    from_bytes,
};

#[test]
fn ascii(rt: HostRuntime) -> Result<(), Fail> {
    is_ascii(rt.alloc(), b"http://a/\x7F")?;
    let refused = IA5String::new(Vec::from_slice(rt.alloc(), b"a\x80")?).err();
    expect(refused == Some(CharSetError), "an octet above 7F")
}

fn is_ascii(alloc: Global, octets: &[u8]) -> Result<(), Fail> {
    let url = IA5String::new(Vec::from_slice(alloc, octets)?)?;
    expect(IA5String::as_bytes(&url) == octets, "other octets")
}

/// What is well-formed UTF-8: not a surrogate, nor a character in more octets than it needs.
#[test]
fn utf8(rt: HostRuntime) -> Result<(), Fail> {
    is_utf8(rt.alloc(), b"\xC3\xA9\xF0\x9F\x98\x80", "é😀")?;
    let texts: [&[u8]; 4] = [b"\xC3", b"\xC0\xAF", b"\xED\xA0\xBD", b"\xF4\x90\x80\x80"];
    for octets in texts {
        is_no_utf8(rt.alloc(), octets)?;
    }
    Ok(())
}

fn is_utf8(alloc: Global, octets: &[u8], text: &str) -> Result<(), Fail> {
    let name = Utf8String::new(Vec::from_slice(alloc, octets)?)?;
    expect(
        Utf8String::as_bytes(&name) == text.as_bytes(),
        "other octets",
    )
}

fn is_no_utf8(alloc: Global, octets: &[u8]) -> Result<(), Fail> {
    let refused = Utf8String::new(Vec::from_slice(alloc, octets)?).err();
    if refused == Some(CharSetError) {
        return Ok(());
    }
    Err(Fail::new(format_args!("it isn't refused: {octets:?}")))
}

/// Units of two octets, none of them a surrogate.
#[test]
fn bmp(rt: HostRuntime) -> Result<(), Fail> {
    let name = BmpString::from_text(rt.alloc(), "A☺")?;
    expect(
        BmpString::as_bytes(&name) == b"\x00A\x26\x3A".as_slice(),
        "other octets",
    )?;
    let again = BmpString::new(Vec::from_slice(rt.alloc(), b"\x00A\x26\x3A")?)?;
    let text = BmpString::to_text(&again, rt.alloc())?;
    expect(text.as_str() == "A☺", "another text")?;
    let refused = BmpString::from_text(rt.alloc(), "😀").err();
    expect(
        refused == Some(StringError::CharSet(CharSetError)),
        "a text past U+FFFF",
    )
}

/// A bag of a key with the friendly name 😀.
const NAMED: &[u8] = b"\
    \x30\x29\x06\x0B\x2A\x86\x48\x86\xF7\x0D\x01\x0C\x0A\x01\x01\xA0\x03\x01\x01\xFF\x31\x15\x30\x13\x06\
    \x09\x2A\x86\x48\x86\xF7\x0D\x01\x09\x14\x31\x06\x1E\x04\xD8\x3D\xDE\x00";

fn is_smile(alloc: Global, name: &Utf16String) -> Result<(), Fail> {
    expect(
        Utf16String::as_bytes(name) == b"\xD8\x3D\xDE\x00".as_slice(),
        "other octets",
    )?;
    let text = Utf16String::to_text(name, alloc)?;
    expect(text.as_str() == "😀", "another text")
}

#[test]
fn utf16(rt: HostRuntime) -> Result<(), Fail> {
    let bag: RawSafeBag = from_bytes(rt.alloc(), NAMED)?;
    let name = RawSafeBag::friendly_name(&bag, rt.alloc())?;
    is_smile(rt.alloc(), &name.ok_or("no name")?)
}
