//! The program `derbox`, over any source and sinks: from the words of a command line and an input to what is written,
//! what is complained of, and an exit status.

ghost use Rattle.std.specs.Prelude.{◌≡◌, ◌<◌, map, string_bytes};
ghost use Rattle.x509_containers.specs.Program.{IsAsked, Fits, Did, Complains, Answers};

mod answers;
mod words;

use crate::kinds::run;
pub use answers::Answer;
use asn1_core_streams::{Sink, Source, send};
use std::alloc::Global;
use words::asked;
pub use words::{WordsError, words_of};

/// Runs the source as the words ask.
fn run_asked<R: Source, W: Sink>(
    alloc: Global,
    words: &[String],
    source: &mut R,
    output: &mut W,
) -> Answer
    requires reads { R.failed source.old < u64.MAX }
    requires writes { W.failed output.old < u64.MAX }
    ensures asked { IsAsked result (map string_bytes words.now) }
    ensures did { Did result R.coming R.failed W.received W.failed source.old source.new output.old output.new }
{
    match asked(words) {
        Some((mode, kind)) => {
            let outcome = run(alloc, source, output, mode, kind);
            Answer::Ran {
                mode,
                kind,
                outcome,
            }
        }
        None => Answer::WrongWords,
    }
}

/// Runs the source as the words ask, where they are known.
fn run_known<R: Source, W: Sink>(
    alloc: Global,
    words: Result<Vec<String>, WordsError>,
    source: &mut R,
    output: &mut W,
) -> Answer
    requires reads { R.failed source.old < u64.MAX }
    requires writes { W.failed output.old < u64.MAX }
    ensures fits { Fits (λ v. map string_bytes v.items) words result }
    ensures did { Did result R.coming R.failed W.received W.failed source.old source.new output.old output.new }
{
    match words {
        Ok(words) => run_asked(alloc, words.as_slice(), source, output),
        Err(WordsError::NotUtf8) => Answer::WrongWords,
        Err(WordsError::Memory) => Answer::NoMemory,
    }
}

/// Says a line, or nothing. A failure of the sink is ignored.
fn complain<C: Sink>(complaints: &mut C, line: &str)
    requires { C.failed complaints.old < u64.MAX }
    ensures { Complains line.now C.received C.failed complaints.old complaints.new }
{
    if !line.is_empty() {
        let _ = send(complaints, line.as_bytes());
    }
}

/// Does what the words of a command line ask for, and answers the exit status: 0 where the input is canonical (normal)
/// or its encoding was written, 3 where it is loose, 1 where it was refused, memory was, or a read or a write failed, 2
/// where the words are wrong. The words begin with the program's name. Wrong words are answered before a byte is read.
pub fn answer_words<R: Source, W: Sink, C: Sink>(
    alloc: Global,
    words: Result<Vec<String>, WordsError>,
    source: &mut R,
    output: &mut W,
    complaints: &mut C,
) -> u8
    requires reads { R.failed source.old < u64.MAX }
    requires writes { W.failed output.old < u64.MAX }
    requires complaints { C.failed complaints.old < u64.MAX }
    ensures { Answers (λ v. map string_bytes v.items) words R.coming R.failed W.received W.failed C.received C.failed
        source.old source.new output.old output.new complaints.old complaints.new result }
{
    let answer = run_known(alloc, words, source, output);
    complain(complaints, answer.complaint());
    answer.status()
}
