//! Strings of Authenticode that are made from text.

use std::test::Fail;
use vector_checks::checks::{expect, is_written};
use x509_containers::{CharSetError, SpcString, StringError};

#[test]
fn no_characters(rt: HostRuntime) -> Result<(), Fail> {
    let text = String::from_str(rt.alloc(), "")?;
    let made = SpcString::try_from_string(rt.alloc(), text)?;
    is_written(rt.alloc(), &made, b"\x80\x00")
}

/// A character past U+FFFF has no place in a BMPString.
#[test]
fn a_character_past_the_bmp(rt: HostRuntime) -> Result<(), Fail> {
    let text = String::from_str(rt.alloc(), "\u{1F600}")?;
    let refused = SpcString::try_from_string(rt.alloc(), text).err();
    expect(
        refused == Some(StringError::CharSet(CharSetError)),
        "another refusal",
    )
}
