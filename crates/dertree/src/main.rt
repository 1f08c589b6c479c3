//! `dertree` shows BER on standard input as a tree, a line for each element, and says what of it DER doesn't allow;
//! with a kind, what `derbox check` says of it too, at which element, and what isn't canonical. Then what DER doesn't
//! allow is shown as BER only with `--ber`. With a kind, or a type of the ASN.1 modules that the library comes with,
//! each line ends in the name of the field that its element is.
#![tactic(auto)]

mod fields;
mod loose;
mod names;
mod tree;
mod values;
mod verdict;

use ber_lines::lines::Opening;
use loose::{LooseElement, loose_places};
use names::{Names, Table};
use std::alloc::{AllocError, Global};
use std::env;
use std::io::{self, BufWriter, Write};
use std::process::ExitCode;
use tree::{Mark, Notes, write_tree};
use verdict::{Verdict, judge};
use x509_containers::program::{WordsError, words_of};
use x509_containers::{Error, Kind, StdSource, read_all, rewrite};

/// What is asked of a tree.
#[derive(Clone, Copy)]
struct Request<'w> {
    opens_all: bool,
    reads_ber: bool,
    /// The kind or the type.
    word: Option<&'w str>,
    kind: Option<Kind>,
}

/// What the words of a command line ask for.
#[derive(Clone, Copy)]
enum Asked<'w> {
    Tree(Request<'w>),
    /// The words of all kinds and types.
    Kinds,
}

/// Whether the words begin with an option, and the words without it.
fn without_option<'a>(words: &'a [String], option: &str) -> (bool, &'a [String]) {
    match words {
        [first, rest @ ..] if first.as_str() == option => (true, rest),
        _ => (false, words),
    }
}

/// The tree that is asked for by the words after the program's name.
fn tree_request(words: &[String]) -> Option<Request<'_>> {
    let (opens_all, words) = without_option(words, "--open");
    let (asks_ber, words) = without_option(words, "--ber");
    let word = match words {
        [] => None,
        [word] => Some(word.as_str()),
        _ => return None,
    };
    let kind = match word {
        Some(word) => Kind::from_word(word),
        None => None,
    };
    Some(Request {
        opens_all,
        reads_ber: asks_ber || kind.is_none(),
        word,
        kind,
    })
}

/// What is asked for by the words, of which the first is the program's name.
fn read_words(words: &[String]) -> Option<Asked<'_>> {
    let [_, words @ ..] = words else {
        return None;
    };
    match words {
        [word] if word.as_str() == "--kinds" => Some(Asked::Kinds),
        _ => Some(Asked::Tree(tree_request(words)?)),
    }
}

/// What isn't canonical in a loose input.
fn places_of(alloc: Global, kind: Kind, input: &[u8]) -> Result<Vec<LooseElement>, AllocError> {
    let mut encoding = Vec::new(alloc);
    match rewrite(alloc, kind, input, &mut encoding) {
        Ok(()) => loose_places(alloc, input, encoding.as_slice()),
        Err(Error::Memory) => Err(AllocError),
        Err(_) => Ok(Vec::new(alloc)),
    }
}

/// What is said of an input of a kind.
fn notes_of<'a>(
    alloc: Global,
    kind: Kind,
    input: &[u8],
    names: Option<Names<'a>>,
) -> Result<(Verdict, Notes<'a>), AllocError> {
    let (verdict, place) = judge(alloc, kind, input);
    let places = match verdict {
        Verdict::Loose { .. } => places_of(alloc, kind, input)?,
        _ => Vec::new(alloc),
    };
    let mark = match place {
        Some(place) => Some(Mark { verdict, place }),
        None => None,
    };
    let notes = Notes {
        mark,
        places,
        names,
    };
    Ok((verdict, notes))
}

/// Writes the tree, and with a kind the verdict. The exit status is that of `derbox check`, and 0 without a kind.
fn show<'a>(
    rt: &HostRuntime,
    asked: Request<'_>,
    input: &'a [u8],
    names: Option<Names<'a>>,
) -> io::Result<u8> {
    let mut w = BufWriter::new(rt.alloc(), io::writer(rt))?;
    let opening = Opening {
        reads_ber: asked.reads_ber,
        opens_all: asked.opens_all,
        place: None,
    };
    let status = match asked.kind {
        Some(kind) => {
            let (verdict, mut notes) = notes_of(rt.alloc(), kind, input, names)?;
            write_tree(rt.alloc(), &mut w, input, opening, &mut notes)?;
            writeln!(w, "{verdict}")?;
            verdict.status()
        }
        None => {
            let mut notes = Notes {
                mark: None,
                places: Vec::new(rt.alloc()),
                names,
            };
            write_tree(rt.alloc(), &mut w, input, opening, &mut notes)?;
            0
        }
    };
    w.flush()?;
    Ok(status)
}

/// Writes the words of all kinds and types.
fn show_kinds(rt: &HostRuntime) -> io::Result<u8> {
    let mut w = BufWriter::new(rt.alloc(), io::writer(rt))?;
    Table::new(rt.alloc())?.write_words(&mut w)?;
    w.flush()?;
    Ok(0)
}

/// Reads the input, and writes its tree. Status 2 and no reading, if no kind or type has the word.
fn run(rt: &HostRuntime, asked: Request<'_>) -> io::Result<u8> {
    let table = Table::new(rt.alloc())?;
    let rows = match asked.word {
        Some(word) => match table.rows_of_type(word) {
            Some(rows) => Some(rows),
            None => return usage(rt),
        },
        None => None,
    };
    let input = match read_all(rt.alloc(), &mut StdSource::new(rt.stdin())) {
        Ok(input) => input,
        Err(error) => {
            let _ = eprintln!(rt; "dertree: {error}");
            return Ok(1);
        }
    };
    let names = match rows {
        Some(rows) => Some(Names::new(rt.alloc(), table, rows)?),
        None => None,
    };
    show(rt, asked, &input, names)
}

fn usage(rt: &HostRuntime) -> io::Result<u8> {
    let _ = eprintln!(rt; "usage: dertree [--open] [--ber] [KIND | TYPE]\n       dertree --kinds");
    Ok(2)
}

fn main(rt: HostRuntime) -> ExitCode {
    let words = words_of(env::args(&rt), rt.alloc());
    let asked = match &words {
        Ok(words) => read_words(words),
        Err(WordsError::NotUtf8) => None,
        Err(WordsError::Memory) => {
            let _ = eprintln!(rt; "dertree: no memory");
            return ExitCode::FAILURE;
        }
    };
    let status = match asked {
        Some(Asked::Tree(asked)) => run(&rt, asked),
        Some(Asked::Kinds) => show_kinds(&rt),
        None => usage(&rt),
    };
    match status {
        Ok(status) => ExitCode::from(status),
        Err(error) => {
            let _ = eprintln!(rt; "dertree: {error}");
            ExitCode::FAILURE
        }
    }
}
