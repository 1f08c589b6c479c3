//! What a row asks.

use crate::{bits, types};
use std::alloc::Global;
use std::test::Fail;
use vector_checks::checks::expect;

/// What a row says of an input.
#[derive(Debug, Drop)]
pub struct Row {
    pub input: Vec<u8>,
    /// `normal`, or why the input is refused.
    pub said: String,
    /// Texts that `Debug` shows of the value, one after the other; of named bits the names of those that are 1.
    pub shown: Vec<String>,
}

/// The octets of a column in hexadecimal.
fn octets(alloc: Global, column: &str) -> Result<Vec<u8>, Fail> {
    let mut octets = Vec::new(alloc);
    for digits in column.split(' ') {
        octets.push(u8::from_str_radix(digits, 16)?)?;
    }
    Ok(octets)
}

/// The texts of a column, with ` .. ` between them.
fn texts(alloc: Global, column: &str) -> Result<Vec<String>, Fail> {
    let mut texts = Vec::new(alloc);
    for text in column.split(" .. ") {
        texts.push(String::from_str(alloc, text)?)?;
    }
    Ok(texts)
}

/// Asks what a row says: a type, an input, `normal` or `refused: WHY`, and what is shown of the value.
pub fn check_line(alloc: Global, line: &str) -> Result<(), Fail> {
    let columns: Vec<&str> = line.split(" | ").collect(alloc)?;
    let (word, input, said, shown) = match columns.as_slice() {
        [word, input, said] => (*word, *input, *said, ""),
        [word, input, said, shown] => (*word, *input, *said, *shown),
        _ => return Err(Fail::new("three or four columns")),
    };
    let row = Row {
        input: octets(alloc, input)?,
        said: String::from_str(alloc, said)?,
        shown: texts(alloc, shown)?,
    };
    if let Some(word) = word.strip_prefix("bits of ") {
        return bits::check_row(alloc, word, &row);
    }
    types::check_row(alloc, word, &row)
}
