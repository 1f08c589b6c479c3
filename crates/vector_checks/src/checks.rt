//! What is checked of every type: that its encodings are read, written and sent, and its values cloned, where `==` and
//! clones see all that an encoding says (`EqualByText`). A failure names what didn't hold, and the encoding.

use crate::fakes::Narrow;
use asn1_core::EqualByText;
use asn1_core_format::{DerDeserialize, DerSerialize, TryClone, from_bytes, to_vec, write_to};
use asn1_core_streams::Sink;
use asn1_core_writers::WriteError;
use std::alloc::Global;
use std::test::Fail;

/// Fails where something doesn't hold.
#[inline(never)]
pub fn expect(holds: bool, what: &'static str) -> Result<(), Fail> {
    if holds { Ok(()) } else { Err(Fail::new(what)) }
}

/// Fails where something doesn't hold of an encoding.
#[inline(never)]
fn expect_of(holds: bool, what: &'static str, text: &[u8]) -> Result<(), Fail> {
    if holds {
        Ok(())
    } else {
        Err(Fail::new(format_args!("{what}: {text:?}")))
    }
}

/// Checks that each way to write the value gives the encoding. A way is one function for all types, so a few types do.
pub fn is_written<T: DerSerialize>(alloc: Global, value: &T, text: &[u8]) -> Result<(), Fail> {
    expect_of(value.encoded_len()? == text.len(), "encoded_len", text)?;
    expect_of(to_vec(alloc, value)?.as_slice() == text, "to_vec", text)?;
    let mut after = Vec::from_slice(alloc, b"ab")?;
    value.write(alloc, &mut after)?;
    let added = after.as_slice().strip_prefix(b"ab");
    expect_of(added == Some(text), "write", text)?;
    let mut sink = Narrow::new(alloc, usize::MAX, usize::MAX);
    write_to(value, &mut sink)?;
    expect_of(sink.taken.as_slice() == text, "write_to", text)
}

/// Sends the value through a sink that takes `width` bytes a call. The sink fails at each call in turn, after a
/// beginning of the encoding, and takes all of it at last.
pub fn is_sent<T: DerSerialize>(
    alloc: Global,
    value: &T,
    text: &[u8],
    width: usize,
) -> Result<(), Fail> {
    for writes_left in 0..=text.len() {
        let mut sink = Narrow::new(alloc, width, writes_left);
        let outcome = write_to(value, &mut sink);
        if outcome.is_ok() {
            expect_of(sink.failures() == 0, "no failure", text)?;
            return expect_of(sink.taken.as_slice() == text, "what was sent", text);
        }
        expect_of(outcome == Err(WriteError::Failed), "Failed", text)?;
        expect_of(sink.failures() == 1, "one failure", text)?;
        let is_beginning = text.starts_with(&sink.taken) && sink.taken.len() < text.len();
        expect_of(is_beginning, "what was sent before a failure", text)?;
    }
    Err(Fail::new("the value was never sent"))
}

/// The value of the input, with checks that it is well-formed, has this encoding, and equals its clone.
pub fn is_rewritten<T: DerDeserialize + EqualByText + TryClone>(
    alloc: Global,
    input: &[u8],
    text: &[u8],
) -> Result<T, Fail> {
    let value: T = from_bytes(alloc, input)?;
    expect_of(value.well_formed(), "well-formed", text)?;
    expect_of(to_vec(alloc, &value)?.as_slice() == text, "to_vec", text)?;
    let clone = value.try_clone(alloc)?;
    expect_of(clone == value, "the clone", text)?;
    expect_of(
        to_vec(alloc, &clone)?.as_slice() == text,
        "the clone's text",
        text,
    )?;
    Ok(value)
}
