//! What the words of a command line ask for.

ghost use Rattle.std.specs.Prelude.{◌≡◌, ◌≢◌, ◌↔◌, map, string_bytes, IfOk, MatchOption};
ghost use Rattle.std.specs.IoError.{error_kind};
ghost use Rattle.std.specs.Vec.Iter.{into_iter_items};
ghost use Rattle.std.specs.declared.io.ErrorKind.TheVariants.{OutOfMemory};
ghost use Rattle.x509_containers.specs.Kinds.{word_of};
ghost use Rattle.der_engine.specs.Modes.{word_of_mode};
ghost use Rattle.x509_containers.specs.Words.{Asks, GivesWords};
ghost use Rattle.x509_containers.specs.declared.program.words.WordsError.TheVariants.{Memory};

use crate::kinds::Kind;
use der_engine::Mode;
use std::alloc::{AllocError, Global};
use std::env::Args;
use std::io::{self, ErrorKind};
use thiserror::Error;

/// Why the words of a command line are not known.
#[derive(Clone, Copy, Debug, PartialEq, Eq, Error)]
pub enum WordsError {
    /// One of them isn't UTF-8.
    #[error("not UTF-8")]
    NotUtf8,
    /// A request for memory was refused.
    #[error("no memory")]
    Memory,
}

impl From<io::Error> for WordsError {
    ghost from_gives = { λ e w. (w ≡ Memory) ↔ (error_kind e ≡ OutOfMemory) };

    fn from(e: io::Error) -> WordsError {
        match e.kind() {
            ErrorKind::OutOfMemory => WordsError::Memory,
            _ => WordsError::NotUtf8,
        }
    }
}

impl From<AllocError> for WordsError {
    ghost from_gives = { λ _ w. w ≡ Memory };

    fn from(_e: AllocError) -> WordsError {
        WordsError::Memory
    }
}

/// The words in their order.
fn collected(words: Args, alloc: Global) -> Result<Vec<String>, AllocError>
    ensures { IfOk result (λ v. v.items ≡ into_iter_items words) }
{
    words.collect(alloc)
}

/// The words of the command line, the program's name first, as `env::args` gives them.
pub fn words_of(given: io::Result<Args>, alloc: Global) -> Result<Vec<String>, WordsError>
    ensures { GivesWords into_iter_items (λ v. v.items) given result }
{
    Ok(collected(given?, alloc)?)
}

/// What is asked for by two words.
fn job(mode: &str, kind: &str) -> Option<(Mode, Kind)>
    ensures { MatchOption result ((m : Mode) (k : Kind) → mode.now ≡ word_of_mode m → kind.now ≢ word_of k)
        (λ j. (mode.now ≡ word_of_mode j.0) × (kind.now ≡ word_of j.1)) }
{
    Some((Mode::from_word(mode)?, Kind::from_word(kind)?))
}

/// What is asked for by the words, of which the first is the program's name.
pub(crate) fn asked(words: &[String]) -> Option<(Mode, Kind)>
    ensures { MatchOption result ((mode : Mode) (kind : Kind) → Asks (map string_bytes words.now) mode kind → ⊥)
        (λ j. Asks (map string_bytes words.now) j.0 j.1) }
{
    match words {
        [_, mode, kind] => job(mode.as_str(), kind.as_str()),
        _ => None,
    }
}
