//! Reading, writing and cloning, call by call: each is named before it is made.

use crate::texts;
use asn1_core_writers::Compare;
use std::alloc::AllocError;
use x509_containers::{
    DerDeserialize, DerSerialize, Error, GeneralProtectionDescriptor, MacData,
    ParsedAuthenticatedSafeDataRepr, Pfx, Pkcs12Attribute, RawPfx, SignedData, SpcPeImageData,
    StringError, TryClone, from_bytes, to_vec,
};

type ParsedPfx = Pfx<ParsedAuthenticatedSafeDataRepr>;

/// Why a round ended.
#[derive(Debug, Drop)]
pub enum Stop {
    /// A request for memory was refused, and borrowed values are as they were.
    Memory,
    /// Something isn't as it should be.
    Other(&'static str),
}

impl From<Error> for Stop {
    fn from(error: Error) -> Stop {
        match error {
            Error::Memory => Stop::Memory,
            other => Stop::Other(other.word()),
        }
    }
}

impl From<AllocError> for Stop {
    fn from(_error: AllocError) -> Stop {
        Stop::Memory
    }
}

impl From<StringError> for Stop {
    fn from(error: StringError) -> Stop {
        match error {
            StringError::Memory => Stop::Memory,
            StringError::CharSet(_) => Stop::Other("no string is made of a text"),
        }
    }
}

pub fn expect(holds: bool, what: &'static str) -> Result<(), Stop> {
    if holds {
        Ok(())
    } else {
        Err(Stop::Other(what))
    }
}

/// Prints the name of the call that is made next, and of what. Takes no memory.
pub fn names(rt: &HostRuntime, call: &str, of: &str) -> Result<(), Stop> {
    match println!(rt; "{call} of {of}") {
        Ok(()) => Ok(()),
        Err(_) => Err(Stop::Other("a name isn't printed")),
    }
}

/// Checks, without memory, that the encoding of the value is this one.
pub fn has_text<T: DerSerialize>(value: &T, text: &[u8]) -> Result<(), Stop> {
    let mut compare = Compare::new(text);
    let is_written = value.put(&mut compare).is_ok();
    expect(is_written && compare.is_same(), "a value has another text")
}

/// Checks that a value is made that has this encoding. It is held here alone, so its `drop` is proved for any type.
pub fn is_made<T: DerDeserialize>(made: Result<T, Error>, text: &[u8]) -> Result<(), Stop> {
    has_text(&made?, text)
}

/// Checks that the value is appended to a buffer, and that a refusal leaves both as they were.
fn is_appended<T: DerSerialize>(
    rt: &HostRuntime,
    of: &str,
    value: &T,
    text: &[u8],
) -> Result<(), Stop> {
    names(rt, "Vec::from_slice", "two octets")?;
    let mut buffer = Vec::from_slice(rt.alloc(), b"ab")?;
    names(rt, "write", of)?;
    let outcome = value.write(rt.alloc(), &mut buffer);
    has_text(value, text)?;
    match outcome {
        Ok(()) => expect(
            buffer.as_slice().strip_prefix(b"ab") == Some(text),
            "a buffer has another text",
        ),
        Err(error) => {
            expect(
                buffer.as_slice() == b"ab".as_slice(),
                "a refusal changes a buffer",
            )?;
            Err(Stop::from(error))
        }
    }
}

/// The value of the input, with checks that it has this encoding, and that a refusal leaves it as it was.
pub fn is_written<T: DerDeserialize>(
    rt: &HostRuntime,
    of: &str,
    input: &[u8],
    text: &[u8],
) -> Result<T, Stop> {
    names(rt, "from_bytes", of)?;
    let value: T = from_bytes(rt.alloc(), input)?;
    names(rt, "to_vec", of)?;
    let outcome = to_vec(rt.alloc(), &value);
    has_text(&value, text)?;
    expect(outcome?.as_slice() == text, "another text is written")?;
    is_appended(rt, of, &value, text)?;
    Ok(value)
}

/// Checks of the input's value what `is_written` does, and that it is cloned, where a refusal leaves it as it was.
fn is_cloned<T: DerDeserialize + TryClone>(
    rt: &HostRuntime,
    of: &str,
    input: &[u8],
    text: &[u8],
) -> Result<(), Stop> {
    let value: T = is_written(rt, of, input, text)?;
    names(rt, "try_clone", of)?;
    let outcome = value.try_clone(rt.alloc());
    has_text(&value, text)?;
    has_text(&outcome?, text)
}

/// The MACs of PKCS #12: 2048 iterations, one and 2^32 - 1, and no count.
pub fn macs(rt: &HostRuntime) -> Result<(), Stop> {
    is_cloned::<MacData>(rt, "MacData", texts::MAC_DATA, texts::MAC_DATA)?;
    is_cloned::<MacData>(rt, "MacData", texts::MAC_OF_ONE, texts::MAC_OF_ONE)?;
    is_cloned::<MacData>(rt, "MacData", texts::MAC_OF_MOST, texts::MAC_OF_MOST)?;
    let none = texts::MAC_WITHOUT_COUNT;
    is_cloned::<MacData>(rt, "MacData", none, none)
}

/// A store, its parts read and its data kept as they are.
fn of_store(rt: &HostRuntime, input: &[u8], text: &[u8]) -> Result<(), Stop> {
    is_cloned::<ParsedPfx>(rt, "Pfx", input, text)?;
    is_cloned::<RawPfx>(rt, "RawPfx", input, input)
}

/// Values of PKCS #12.
pub fn store_values(rt: &HostRuntime) -> Result<(), Stop> {
    let name = texts::FRIENDLY_NAME;
    is_cloned::<Pkcs12Attribute>(rt, "Pkcs12Attribute", name, name)?;
    of_store(rt, texts::NAMED_KEY, texts::NAMED_KEY)?;
    of_store(rt, texts::LOOSE_STORE, texts::STORE)
}

fn of_signed(rt: &HostRuntime, input: &[u8], text: &[u8]) -> Result<(), Stop> {
    is_cloned::<SignedData>(rt, "SignedData", input, text)
}

fn of_image(rt: &HostRuntime, input: &[u8], text: &[u8]) -> Result<(), Stop> {
    is_cloned::<SpcPeImageData>(rt, "SpcPeImageData", input, text)
}

/// Values of PKCS #7 and Authenticode.
pub fn content_values(rt: &HostRuntime) -> Result<(), Stop> {
    of_signed(rt, texts::SIGNED_DATA, texts::SIGNED_DATA)?;
    of_signed(rt, texts::EMPTY_LISTS, texts::EMPTY_LISTS)?;
    of_signed(rt, texts::EMPTY_CERTIFICATES, texts::SIGNED_DATA)?;
    of_image(rt, texts::PAGE_FLAGS, texts::PAGE_FLAGS)?;
    of_image(rt, texts::PAGE_DEFAULTS, texts::PAGE_RESOURCES)?;
    let text = texts::DESCRIPTOR;
    is_cloned::<GeneralProtectionDescriptor>(rt, "GeneralProtectionDescriptor", text, text)
}
