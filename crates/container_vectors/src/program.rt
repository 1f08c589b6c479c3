//! The words of a command line, as the program takes them.

use std::alloc::{AllocError, Global};
use std::env::{self, Env, FillError};
use std::io::{self, ErrorKind};
use std::test::Fail;
use vector_checks::checks::expect;
use x509_containers::program::{WordsError, words_of};

/// The words of a command line.
#[derive(Drop)]
struct CommandLine<'a>(&'a [&'a [u8]]);

impl Env for CommandLine<'_> {
    fn arg(&self, i: usize, buf: &mut [u8]) -> Result<usize, FillError> {
        let Some(word) = self.0.get(i) else {
            return Err(FillError::NotPresent);
        };
        if word.len() > buf.len() {
            return Err(FillError::TooLong);
        }
        buf[..word.len()].copy_from_slice(word);
        Ok(word.len())
    }

    fn var(&self, _name: &str, _buf: &mut [u8]) -> Result<usize, FillError> {
        Err(FillError::NotPresent)
    }

    fn var_at(&self, _i: usize, _buf: &mut [u8]) -> Result<usize, FillError> {
        Err(FillError::NotPresent)
    }
}

fn read_words(alloc: Global, words: &[&[u8]]) -> Result<Vec<String>, WordsError> {
    words_of(env::args(&(CommandLine(words), alloc)), alloc)
}

/// The words, each with a bar after it.
fn barred(alloc: Global, words: &[String]) -> Result<String, AllocError> {
    let mut all = String::new(alloc);
    for word in words {
        all.push_str(word.as_str())?;
        all.push('|')?;
    }
    Ok(all)
}

fn has_words(alloc: Global, words: &[&[u8]], wanted: &str) -> Result<(), Fail> {
    let all = barred(alloc, &read_words(alloc, words)?)?;
    expect(all.as_str() == wanted, "other words")
}

fn is_error(alloc: Global, kind: ErrorKind, error: WordsError, text: &str) -> Result<(), Fail> {
    let made = WordsError::from(io::Error::from(kind));
    expect(made == error, "another error")?;
    expect(
        format!(in alloc; "{error}")?.as_str() == text,
        "another text",
    )
}

/// Words are read whole, empty ones and none at all too.
#[test]
fn words_of_a_command_line(rt: HostRuntime) -> Result<(), Fail> {
    let alloc = rt.alloc();
    has_words(alloc, &[], "")?;
    let words: [&[u8]; 4] = [b"derbox", b"", b"check", b"\xC3\xA9"];
    has_words(alloc, &words, "derbox||check|\u{E9}|")?;
    let not_utf8 = read_words(alloc, &[b"derbox", b"\xC3\x28"]).err();
    expect(
        not_utf8 == Some(WordsError::NotUtf8),
        "words that aren't UTF-8",
    )?;
    is_error(
        alloc,
        ErrorKind::OutOfMemory,
        WordsError::Memory,
        "no memory",
    )?;
    is_error(
        alloc,
        ErrorKind::InvalidData,
        WordsError::NotUtf8,
        "not UTF-8",
    )
}
