//! What is asked of an input at a type.

use crate::rows::Row;
use asn1_core::prelude::read_retagged;
use asn1_core::{
    DerDeserialize, DerTagged, EqualByText, Error, MAX_NESTING, Reader, StdSink, StdSource,
    TryClone, from_bytes, from_bytes_counted, from_bytes_limited, from_bytes_located, to_vec,
};
use std::alloc::Global;
use std::fmt::Debug;
use std::test::Fail;
use vector_checks::checks::{expect, is_rewritten, is_sent, is_written};
use vector_checks::fakes::Narrow;
use x509_containers::{
    Kind, Mode, Outcome, Verdict, check, check_as, check_as_limited, check_limited, check_located,
    check_located_as, loose_end, loose_end_as, rewrite, rewrite_as, rewrite_as_limited,
    rewrite_limited, run,
};

/// Up to so many bytes, beginnings, changes and sinks that fail are tried of an input.
const SHORT: usize = 100;

/// Asks that a check said the line and that a rewriting wrote the encoding, or nothing of what is refused.
#[inline(never)]
fn is_said(
    row: &Row,
    checked: (Outcome, Vec<u8>),
    rewritten: (Outcome, Vec<u8>),
) -> Result<(), Fail> {
    let (outcome, line) = checked;
    let (again, written) = rewritten;
    let said = line.as_slice().strip_suffix(b"\n");
    if said != Some(row.said.as_slice()) {
        return Err(Fail::new(format_args!("it says {line:?}")));
    }
    match outcome {
        Outcome::Normal => expect(row.input == row.text, "the text of a normal input")?,
        Outcome::Loose => expect(row.input != row.text, "the text of a loose input")?,
        _ => return expect(again == outcome && written.is_empty(), "nothing is written"),
    }
    expect(again == Outcome::Written, "written")?;
    if written != row.text {
        return Err(Fail::new(format_args!("it writes {written:?}")));
    }
    Ok(())
}

/// The outcome of a run over the bytes as the kind, and what is written.
fn ran_as(alloc: Global, kind: Kind, input: &[u8], mode: Mode) -> (Outcome, Vec<u8>) {
    let mut source = StdSource::new(input);
    let mut sink = StdSink::new(Vec::new(alloc));
    let outcome = run(alloc, &mut source, &mut sink, mode, kind);
    (outcome, sink.into_inner())
}

/// What a check over the input in memory says.
fn line_of(
    alloc: Global,
    size: usize,
    checked: Result<(bool, usize), Error>,
) -> Result<String, Fail> {
    match checked {
        Ok((true, _)) => Ok(format!(in alloc; "normal {size}")?),
        Ok((false, len)) => Ok(format!(in alloc; "loose {size} -> {len}")?),
        Err(error) => {
            let word = error.word();
            Ok(format!(in alloc; "refused: {word}")?)
        }
    }
}

/// An octet that a buffer holds before a rewriting.
const BEFORE: u8 = 0x5A;

/// Asks that a check and a rewriting over the input in memory say what the row does, and that the rewriting comes after
/// the octet that was there.
#[inline(never)]
fn is_told(
    alloc: Global,
    row: &Row,
    checked: Result<(bool, usize), Error>,
    rewritten: Result<(), Error>,
    out: &[u8],
) -> Result<(), Fail> {
    let line = line_of(alloc, row.input.len(), checked)?;
    expect(line.as_bytes() == row.said.as_slice(), "a check in memory")?;
    expect(out.first() == Some(&BEFORE), "what there was")?;
    let text = out.get(1..).unwrap_or(&[]);
    match (checked, rewritten) {
        (Ok((_, len)), Ok(())) => expect(
            text == row.text.as_slice() && len == text.len(),
            "its text",
        ),
        (Err(error), Err(again)) => expect(again == error && text.is_empty(), "its refusal"),
        _ => Err(Fail::new("a rewriting in memory")),
    }
}

/// Asks that a check which says the place, and the loose end alone, say what a check without it does, and that the
/// place is that of the row, where it says one.
#[inline(never)]
fn is_placed(
    row: &Row,
    checked: Result<(bool, usize), Error>,
    located: Result<Verdict, (Error, usize)>,
    end: Result<Option<usize>, Error>,
) -> Result<(), Fail> {
    let place = match located {
        Ok(verdict) => {
            let place = verdict.loose_end;
            let is_normal = place.is_none();
            expect(
                checked == Ok((is_normal, verdict.encoding_len)),
                "a verdict",
            )?;
            expect(end == Ok(place), "the loose end")?;
            place
        }
        Err((error, place)) => {
            expect(
                checked == Err(error) && end == Err(error),
                "a refusal at a place",
            )?;
            Some(place)
        }
    };
    if row.place.is_some() && row.place != place {
        return Err(Fail::new(format_args!("the place is {place:?}")));
    }
    Ok(())
}

/// Asks what a row says of its input as the kind, of runs and in memory.
pub fn is_said_by_kind(alloc: Global, kind: Kind, row: &Row) -> Result<(), Fail> {
    let checked = ran_as(alloc, kind, &row.input, Mode::Check);
    is_said(row, checked, ran_as(alloc, kind, &row.input, Mode::Rewrite))?;
    let mut out = Vec::from_slice(alloc, &[BEFORE])?;
    let rewritten = rewrite(alloc, kind, &row.input, &mut out);
    let checked = check(alloc, kind, &row.input);
    is_told(alloc, row, checked, rewritten, out.as_slice())?;
    let located = check_located(alloc, kind, MAX_NESTING, &row.input);
    is_placed(row, checked, located, loose_end(alloc, kind, &row.input))
}

/// Asks what a row says of its input as the kind, with fewer levels of nesting.
pub fn is_said_by_kind_within(
    alloc: Global,
    kind: Kind,
    levels: u8,
    row: &Row,
) -> Result<(), Fail> {
    if levels > MAX_NESTING {
        return Err(Fail::new("at most 64 levels"));
    }
    let mut out = Vec::from_slice(alloc, &[BEFORE])?;
    let rewritten = rewrite_limited(alloc, kind, levels, &row.input, &mut out);
    let checked = check_limited(alloc, kind, levels, &row.input);
    is_told(alloc, row, checked, rewritten, out.as_slice())
}

/// Asks that each proper beginning of an accepted input is refused.
fn is_whole<T: DerDeserialize>(alloc: Global, input: &[u8]) -> Result<(), Fail> {
    for size in 0..input.len() {
        let (outcome, headers) = from_bytes_counted::<T>(alloc, &input[..size]);
        expect(outcome.is_err(), "a beginning")?;
        expect(headers <= size / 2 + 1, "the headers of a beginning")?;
    }
    Ok(())
}

/// What is written of an input's value, which is nothing where it isn't well-formed, and how many headers are read.
fn rewritten<T: DerDeserialize>(
    alloc: Global,
    input: &[u8],
) -> (Result<Option<Vec<u8>>, Error>, usize) {
    let (outcome, headers) = from_bytes_counted::<T>(alloc, input);
    match outcome {
        Ok(value) => {
            let text = if value.well_formed() {
                to_vec(alloc, &value).ok()
            } else {
                None
            };
            (Ok(text), headers)
        }
        Err(error) => (Err(error), headers),
    }
}

/// The encoding of a change of so many bytes, where it is accepted. Few headers are read of any.
#[inline(never)]
fn text_of(
    outcome: Result<Option<Vec<u8>>, Error>,
    headers: usize,
    size: usize,
) -> Result<Option<Vec<u8>>, Fail> {
    expect(headers <= size / 2 + 1, "the headers of a change")?;
    match outcome {
        Ok(Some(text)) => {
            expect(headers <= size / 2, "the headers of an accepted change")?;
            Ok(Some(text))
        }
        Ok(None) => Err(Fail::new("a well-formed change")),
        Err(Error::Memory) => Err(Fail::new("memory")),
        Err(_) => Ok(None),
    }
}

/// Asks of an accepted input that the encoding of its value is normal, and of a refused one that few headers are read.
fn reaches_an_end<T: DerDeserialize>(alloc: Global, input: &[u8]) -> Result<(), Fail> {
    let (outcome, headers) = rewritten::<T>(alloc, input);
    let Some(text) = text_of(outcome, headers, input.len())? else {
        return Ok(());
    };
    let again = check_as::<T>(alloc, &text)?;
    expect(again == (true, text.len()), "a fixed point")?;
    let checked = check_as::<T>(alloc, input)?;
    expect(
        checked == (text.as_slice() == input, text.len()),
        "a normal change",
    )
}

/// Asks of each change of one byte what `reaches_an_end` does.
fn is_changed<T: DerDeserialize>(alloc: Global, input: &[u8]) -> Result<(), Fail> {
    let mut changed = Vec::from_slice(alloc, input)?;
    for at in 0..changed.len() {
        for _ in 1..=255u8 {
            changed[at] = changed[at].wrapping_add(1);
            reaches_an_end::<T>(alloc, &changed)?;
        }
        changed[at] = changed[at].wrapping_add(1);
    }
    expect(changed.as_slice() == input, "the input itself")
}

/// Asks that with two more elements after the input as many headers are read, and that these elements are left; and
/// that the whole is refused as malformed, with no more headers.
fn ends<T: DerDeserialize>(alloc: Global, input: &[u8], headers: usize) -> Result<(), Fail> {
    let mut longer = Vec::from_slice(alloc, input)?;
    longer.extend_from_slice(b"\x05\x00\x05\x00")?;
    let mut r = Reader::new(&longer);
    let _value = T::read(alloc, &mut r, MAX_NESTING)?;
    expect(
        r.headers_read() == headers && r.left() == 4,
        "what comes after the input",
    )?;
    let (outcome, counted) = from_bytes_counted::<T>(alloc, &longer);
    expect(
        outcome.err() == Some(Error::Malformed) && counted == headers,
        "the headers of an input with more after it",
    )
}

/// Asks that `Debug` shows the value as the row says, where it does.
fn is_shown<T: Debug>(alloc: Global, value: &T, row: &Row) -> Result<(), Fail> {
    let Some(wanted) = &row.shown else {
        return Ok(());
    };
    let shown = format!(in alloc; "{value:?}")?;
    if shown == *wanted {
        return Ok(());
    }
    Err(Fail::new(format_args!("its value is {shown}")))
}

/// Asks of an accepted input that its value is shown as the row says, cloned and written, and of a short one that no
/// beginning is accepted, and what changes of one byte come to.
fn is_kept<T: DerDeserialize + EqualByText + TryClone + Debug>(
    alloc: Global,
    row: &Row,
) -> Result<(), Fail> {
    let value: T = is_rewritten(alloc, &row.input, &row.text)?;
    is_shown(alloc, &value, row)?;
    if row.input.len() <= SHORT {
        is_whole::<T>(alloc, &row.input)?;
        is_changed::<T>(alloc, &row.input)?;
    }
    Ok(())
}

/// Asks what a row says of its input as the type.
pub fn check_row<T: DerDeserialize + EqualByText + TryClone + Debug>(
    alloc: Global,
    row: &Row,
) -> Result<(), Fail> {
    if let Some(levels) = row.levels {
        return is_said_within::<T>(alloc, levels, row);
    }
    let mut out = Vec::from_slice(alloc, &[BEFORE])?;
    let rewritten = rewrite_as::<T>(alloc, &row.input, &mut out);
    let checked = check_as::<T>(alloc, &row.input);
    is_told(alloc, row, checked, rewritten, out.as_slice())?;
    let located = check_located_as::<T>(alloc, MAX_NESTING, &row.input);
    is_placed(row, checked, located, loose_end_as::<T>(alloc, &row.input))?;
    let refused = from_bytes_located::<T>(alloc, &row.input).err();
    expect(refused == located.err(), "the place of a refusal")?;
    let (outcome, headers) = from_bytes_counted::<T>(alloc, &row.input);
    if row.headers.is_some_and(|wanted| wanted != headers) {
        return Err(Fail::new(format_args!("it reads {headers} headers")));
    }
    if outcome.is_err() {
        return expect(row.shown.is_none(), "no value is said of what is refused");
    }
    ends::<T>(alloc, &row.input, headers)?;
    is_kept::<T>(alloc, row)
}

/// Asks besides that the value of an accepted input is written in each way, and of a short one that it is sent into sinks
/// that fail.
pub fn check_in_each_way<T: DerDeserialize + EqualByText + TryClone + Debug>(
    alloc: Global,
    row: &Row,
) -> Result<(), Fail> {
    check_row::<T>(alloc, row)?;
    let Ok(value) = from_bytes::<T>(alloc, &row.input) else {
        return Ok(());
    };
    is_written(alloc, &value, &row.text)?;
    if row.input.len() <= SHORT {
        for width in [1, usize::MAX] {
            is_sent(alloc, &value, &row.text, width)?;
        }
    }
    Ok(())
}

/// A tag that no type here begins with.
const OTHER_TAG: u8 = 0x9E;

/// Asks what a row says of its input as a type with a tag of its own.
pub fn check_under_tags<T: DerTagged + EqualByText + TryClone + Debug>(
    alloc: Global,
    row: &Row,
) -> Result<(), Fail> {
    check_row::<T>(alloc, row)?;
    is_kept_under_tags::<T>(alloc, row)
}

/// Asks that under another tag an accepted input's encoding differs in its first byte alone, and has the same value.
pub fn is_kept_under_tags<T: DerTagged + EqualByText>(
    alloc: Global,
    row: &Row,
) -> Result<(), Fail> {
    let Ok(value) = from_bytes::<T>(alloc, &row.input) else {
        return Ok(());
    };
    expect(
        T::begins(T::TAG) && !T::begins(OTHER_TAG),
        "the first tags of the type",
    )?;
    let mut sink = Narrow::new(alloc, usize::MAX, usize::MAX);
    value.emit_as(OTHER_TAG, &mut sink)?;
    let tagged = sink.taken.as_slice();
    expect(tagged.first() == Some(&OTHER_TAG), "the other tag")?;
    expect(tagged.get(1..) == row.text.get(1..), "the text after it")?;
    let mut r = Reader::new(tagged);
    let again: T = read_retagged(alloc, &mut r, MAX_NESTING, OTHER_TAG)?;
    expect(again == value, "the value under the other tag")
}

/// Asks what a row says of its input as the type, with fewer levels of nesting.
pub fn is_said_within<T: DerDeserialize>(alloc: Global, levels: u8, row: &Row) -> Result<(), Fail> {
    if levels > MAX_NESTING {
        return Err(Fail::new("at most 64 levels"));
    }
    let mut out = Vec::from_slice(alloc, &[BEFORE])?;
    let rewritten = rewrite_as_limited::<T>(alloc, levels, &row.input, &mut out);
    let checked = check_as_limited::<T>(alloc, levels, &row.input);
    is_told(alloc, row, checked, rewritten, out.as_slice())?;
    let outcome: Result<T, Error> = from_bytes_limited(alloc, levels, &row.input);
    match outcome {
        Ok(value) => {
            expect(!row.said.starts_with(b"refused"), "it is accepted")?;
            expect(value.well_formed_at(levels), "well-formed at the levels")?;
            expect(to_vec(alloc, &value)? == row.text, "the text")
        }
        Err(error) => {
            let why = row.said.strip_prefix(b"refused: ".as_slice());
            expect(why == Some(error.word().as_bytes()), "it is refused")
        }
    }
}
