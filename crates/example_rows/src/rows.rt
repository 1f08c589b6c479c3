//! What a row asks.

use crate::checks::{is_said_by_kind, is_said_by_kind_within, is_said_within};
use crate::coverage::Said;
use crate::subjects::{self, kinds};
use std::alloc::Global;
use std::test::Fail;
use x509_containers::Kind;

/// What a row says of an input.
#[derive(Debug, Drop)]
pub struct Row {
    pub input: Vec<u8>,
    /// What a check says.
    pub said: Vec<u8>,
    /// Where the input is refused or loose, where that is said.
    pub place: Option<usize>,
    /// What is written of an accepted input.
    pub text: Vec<u8>,
    /// How many headers are read, where that is said.
    pub headers: Option<usize>,
    /// How many levels of nesting are read, where not 64.
    pub levels: Option<u8>,
    /// How `Debug` shows the value of an accepted input, where that is said.
    pub shown: Option<String>,
}

/// The octets of a column, which is `-` where there are none. `02.01.07*5000` are three octets, so often.
fn octets(alloc: Global, column: &str) -> Result<Vec<u8>, Fail> {
    let mut octets = Vec::new(alloc);
    if column == "-" {
        return Ok(octets);
    }
    for token in column.split(' ') {
        let (digits, times) = token.split_once('*').unwrap_or((token, "1"));
        let group = group_of(alloc, digits)?;
        for _ in 0..usize::from_str_radix(times, 10)? {
            octets.extend_from_slice(&group)?;
        }
    }
    Ok(octets)
}

/// Octets in hexadecimal, which full stops separate.
fn group_of(alloc: Global, digits: &str) -> Result<Vec<u8>, Fail> {
    let mut group = Vec::new(alloc);
    for octet in digits.split('.') {
        group.push(u8::from_str_radix(octet, 16)?)?;
    }
    Ok(group)
}

/// The type that a first column names, what else it says, and the row.
fn row_of(
    alloc: Global,
    columns: &[&str],
    headers: Option<usize>,
    levels: Option<u8>,
) -> Result<Row, Fail> {
    let (columns, shown) = match columns {
        [before @ .., last] => match last.strip_prefix("= ") {
            Some(shown) => (before, Some(String::from_str(alloc, shown)?)),
            None => (columns, None),
        },
        [] => (columns, None),
    };
    let (input, said, text) = match columns {
        [_, input, said] => (*input, *said, *input),
        [_, input, said, text] => (*input, *said, *text),
        _ => return Err(Fail::new("three or four columns, and a value")),
    };
    let (said, place) = match said.split_once(" at ") {
        Some((said, place)) => (said, Some(usize::from_str_radix(place, 10)?)),
        None => (said, None),
    };
    Ok(Row {
        input: octets(alloc, input)?,
        said: Vec::from_slice(alloc, said.as_bytes())?,
        place,
        text: octets(alloc, text)?,
        headers,
        levels,
        shown,
    })
}

/// The kind that a row is of, and what it says, where its type is one.
pub fn kind_of(line: &str) -> Option<(Kind, Said)> {
    let mut columns = line.split(" | ");
    let subject = columns.next()?;
    let kind = Kind::from_word(subject.split(' ').next()?)?;
    Some((kind, Said::of(columns.nth(1)?)))
}

/// Asks what a row says of the type that a word names.
fn check_row(alloc: Global, word: &str, row: &Row) -> Result<(), Fail> {
    let Some(kind) = Kind::from_word(word) else {
        return subjects::check_row(alloc, word, row);
    };
    match row.levels {
        Some(levels) => is_said_by_kind_within(alloc, kind, levels, row)?,
        None => is_said_by_kind(alloc, kind, row)?,
    }
    kinds::check_row(alloc, kind, row)
}

/// Asks what a row says. Its first column is the word of a type, with ` of N headers` or ` within N levels` after it.
pub fn check_line(alloc: Global, line: &str) -> Result<(), Fail> {
    let columns: Vec<&str> = line.split(" | ").collect(alloc)?;
    let subject = columns.first().ok_or("no column")?;
    let words: Vec<&str> = subject.split(' ').collect(alloc)?;
    match words.as_slice() {
        [word] => check_row(alloc, word, &row_of(alloc, &columns, None, None)?),
        [word, "of", count, "headers"] => {
            let headers = usize::from_str_radix(count, 10)?;
            check_row(alloc, word, &row_of(alloc, &columns, Some(headers), None)?)
        }
        [word, "within", count, "levels"] => {
            let levels = u8::from_str_radix(count, 10)?;
            let row = row_of(alloc, &columns, None, Some(levels))?;
            check_row(alloc, word, &row)
        }
        _ => Err(Fail::new("a type, of so many headers or within so many levels")),
    }
}
