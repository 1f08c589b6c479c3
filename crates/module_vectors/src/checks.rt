//! What is asked of an input as a type.

use crate::rows::Row;
use asn1_core::{
    DerDeserialize, EqualByText, Error, TryClone, from_bytes, from_bytes_counted, to_vec,
};
use std::alloc::Global;
use std::fmt::Debug;
use std::test::Fail;
use vector_checks::checks::{expect, is_rewritten};

/// Each change of one byte is tried of inputs up to so many bytes, of longer ones one change of each byte.
const SHORT: usize = 24;

/// Asks that each text is shown of the value, after those before it.
fn is_shown<T: Debug>(alloc: Global, value: &T, texts: &[String]) -> Result<(), Fail> {
    let shown = format!(in alloc; "{value:?}")?;
    let mut rest = shown.as_str();
    for text in texts {
        match rest.split_once(text.as_str()) {
            Some((_, after)) => rest = after,
            None if text.is_empty() => {}
            None => return Err(Fail::new(format_args!("{text} isn't in {shown}"))),
        }
    }
    Ok(())
}

/// Asks that each proper beginning of an accepted input is refused.
fn is_whole<T: DerDeserialize>(alloc: Global, input: &[u8]) -> Result<(), Fail> {
    for size in 0..input.len() {
        let (outcome, headers) = from_bytes_counted::<T>(alloc, &input[..size]);
        expect(outcome.is_err(), "a beginning")?;
        expect(headers <= size / 2 + 1, "the headers of a beginning")?;
    }
    Ok(())
}

/// Asks of an input that it is refused, though not for want of memory, or has a value whose encoding has that value.
fn reaches_an_end<T: DerDeserialize + EqualByText>(
    alloc: Global,
    input: &[u8],
) -> Result<(), Fail> {
    let (outcome, headers) = from_bytes_counted::<T>(alloc, input);
    let value = match outcome {
        Ok(value) => value,
        Err(error) => {
            expect(headers <= input.len() / 2 + 1, "the headers of a change")?;
            return expect(error != Error::Memory, "memory");
        }
    };
    expect(
        headers <= input.len() / 2,
        "the headers of an accepted change",
    )?;
    let text = to_vec(alloc, &value)?;
    let again: T = from_bytes(alloc, &text)?;
    expect(again == value, "the value of a change")?;
    expect(to_vec(alloc, &again)? == text, "the encoding of a change")
}

/// Asks of changes of each byte what `reaches_an_end` does.
fn is_changed<T: DerDeserialize + EqualByText>(alloc: Global, input: &[u8]) -> Result<(), Fail> {
    let mut changed = Vec::from_slice(alloc, input)?;
    let last = if input.len() <= SHORT { 255 } else { 1 };
    for at in 0..changed.len() {
        let kept = changed[at];
        for added in 1..=last {
            changed[at] = kept.wrapping_add(added);
            reaches_an_end::<T>(alloc, &changed)?;
        }
        changed[at] = kept;
    }
    Ok(())
}

/// Asks what a row says of the word of a refusal.
fn is_refused(why: &str, outcome: Option<Error>) -> Result<(), Fail> {
    let word = outcome.map_or("accepted", |error| error.word());
    if word == why {
        return Ok(());
    }
    Err(Fail::new(format_args!("it is {word}")))
}

/// Asks what a row says of its input as the type.
pub fn check_row<T: DerDeserialize + EqualByText + TryClone + Debug>(
    alloc: Global,
    row: &Row,
) -> Result<(), Fail> {
    if let Some(why) = row.said.strip_prefix("refused: ") {
        let outcome: Result<T, Error> = from_bytes(alloc, &row.input);
        return is_refused(why, outcome.err());
    }
    expect(row.said.as_str() == "normal", "normal or refused")?;
    let value: T = is_rewritten(alloc, &row.input, &row.input)?;
    is_shown(alloc, &value, &row.shown)?;
    is_whole::<T>(alloc, &row.input)?;
    is_changed::<T>(alloc, &row.input)
}
