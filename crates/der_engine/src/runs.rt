//! From an input to what is written of it.

ghost use Rattle.std.specs.Prelude.{◌≡◌, ◌+◌, ◌<◌};
ghost use Rattle.der_engine.specs.Engine.{Runs, read_failures, write_failures};
ghost use Rattle.der_engine.specs.Lines.{refusal_line};
ghost use Rattle.der_engine.specs.Steps.{Answers, Delivers, Tells};
ghost use Rattle.der_engine.specs.declared.outcome.Outcome.TheVariants.{Refused};

use crate::kind::{KindOfInput, check_by_kind};
use crate::lines::{loose_line, normal_line, refusal};
use crate::outcome::{Mode, Outcome};
use asn1_core_element::Error;
use asn1_core_format::MAX_NESTING;
use asn1_core_streams::{ReadError, Sink, Source, read_all, send};
use std::alloc::Global;

/// What is to be written of an input, and with which outcome.
fn answer<K: KindOfInput>(
    alloc: Global,
    bytes: &[u8],
    mode: Mode,
    kind: K,
) -> Result<(Outcome, Vec<u8>), Error>
    ensures { Answers (λ v. v.items) (K.rewriting_at kind 64) bytes.now mode result }
{
    match mode {
        Mode::Check => match check_by_kind(alloc, kind, MAX_NESTING, bytes)? {
            (true, size) => Ok((Outcome::Normal, normal_line(alloc, size)?)),
            (false, size) => Ok((Outcome::Loose, loose_line(alloc, bytes.len(), size)?)),
        },
        Mode::Rewrite => {
            let mut text = Vec::new(alloc);
            kind.rewrite(alloc, MAX_NESTING, bytes, &mut text)?;
            Ok((Outcome::Written, text))
        }
    }
}

/// Writes what goes with an outcome.
fn deliver<W: Sink>(sink: &mut W, outcome: Outcome, text: &[u8]) -> Outcome
    requires { W.failed sink.old < u64.MAX }
    ensures { Delivers outcome text.now
        (W.received sink.old) (W.received sink.new) (W.failed sink.old) (W.failed sink.new) result }
{
    match send(sink, text) {
        Ok(()) => outcome,
        Err(_) => Outcome::WriteFailed,
    }
}

/// Writes what goes with a refusal.
fn refuse<W: Sink>(sink: &mut W, mode: Mode, error: Error) -> Outcome
    requires { W.failed sink.old < u64.MAX }
    ensures { Delivers (Refused error) (refusal_line mode error)
        (W.received sink.old) (W.received sink.new) (W.failed sink.old) (W.failed sink.new) result }
{
    deliver(
        sink,
        Outcome::Refused(error),
        refusal(mode, error).as_bytes(),
    )
}

/// Writes what is asked of an input.
fn tell<K: KindOfInput, W: Sink>(
    alloc: Global,
    bytes: &[u8],
    sink: &mut W,
    mode: Mode,
    kind: K,
) -> Outcome
    requires { W.failed sink.old < u64.MAX }
    ensures { Tells (K.rewriting_at kind 64) bytes.now mode
        W.received sink.old sink.new (W.failed sink.old) (W.failed sink.new) result }
{
    match answer(alloc, bytes, mode, kind) {
        Ok((outcome, text)) => deliver(sink, outcome, text.as_slice()),
        Err(error) => refuse(sink, mode, error),
    }
}

/// Reads a source to its end as a value of the kind, and writes what is asked of it: in check a line, in rewrite the
/// encoding. The first read or write that fails ends the run. A source that never ends gets `Refused(Memory)`, once the
/// buffer holds what it may.
pub fn run<R: Source, W: Sink, K: KindOfInput>(
    alloc: Global,
    source: &mut R,
    sink: &mut W,
    mode: Mode,
    kind: K,
) -> Outcome
    requires reads { R.failed source.old < u64.MAX }
    requires writes { W.failed sink.old < u64.MAX }
    ensures answer { Runs (K.rewriting_at kind 64) mode (R.coming source.old)
        W.received sink.old sink.new result }
    ensures reads { R.failed source.new ≡ R.failed source.old + read_failures result }
    ensures writes { W.failed sink.new ≡ W.failed sink.old + write_failures result }
{
    match read_all(alloc, source) {
        Ok(bytes) => tell(alloc, bytes.as_slice(), sink, mode, kind),
        Err(ReadError::Failed) => Outcome::ReadFailed,
        Err(ReadError::Memory) => refuse(sink, mode, Error::Memory),
    }
}
