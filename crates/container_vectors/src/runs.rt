//! Runs from sources and into sinks that fail.

use asn1_core::{Sink, Source, StdSink, StdSource};
use std::alloc::Global;
use std::test::Fail;
use vector_checks::checks::expect;
use vector_checks::fakes::{Full, Narrow, Trickle};
use x509_containers::{Kind, Mode, Outcome, run};

/// A digest as Microsoft writes it, without parameters.
const WITHOUT_NULL: &[u8] = b"\
    \x30\x1F\x30\x07\x06\x05\x2B\x0E\x03\x02\x1A\x04\x14\x9B\x9F\x55\x86\xD8\x5A\x38\x61\xA2\x2D\x40\
    \x2F\xE7\x89\x66\x9C\x64\x02\x76\x81";

/// What both modes make of it: a line, and the same digest with NULL.
const ANSWERS: [(Mode, Outcome, &[u8]); 2] = [
    (Mode::Check, Outcome::Loose, b"loose 33 -> 35\n"),
    (
        Mode::Rewrite,
        Outcome::Written,
        b"\x30\x21\x30\x09\x06\x05\x2B\x0E\x03\x02\x1A\x05\x00\x04\x14\x9B\x9F\x55\x86\xD8\x5A\x38\x61\
        \xA2\x2D\x40\x2F\xE7\x89\x66\x9C\x64\x02\x76\x81",
    ),
];

/// Asks for an outcome where the source fails after so many reads of a byte, and what is written.
fn is_read(
    alloc: Global,
    (mode, kind): (Mode, Kind),
    reads_left: usize,
    outcome: Outcome,
    written: &[u8],
) -> Result<(), Fail> {
    let mut source = Trickle::new(WITHOUT_NULL, reads_left);
    let mut sink = StdSink::new(Vec::new(alloc));
    let ran = run(alloc, &mut source, &mut sink, mode, kind);
    let failures = u64::from(outcome == Outcome::ReadFailed);
    let is_same = ran == outcome && source.failures() == failures;
    expect(is_same, "another outcome, or other failures")?;
    is_all(&sink.into_inner(), written)
}

fn is_all(taken: &[u8], written: &[u8]) -> Result<(), Fail> {
    expect(taken == written, "something else is written")
}

/// Each read fails in turn, and nothing is written; a source that gives a byte a read makes no difference.
#[test]
fn each_read_fails_in_turn(rt: HostRuntime) -> Result<(), Fail> {
    let kind = Kind::from_word("pkcs12digestinfo").ok_or("no kind")?;
    for (mode, outcome, written) in ANSWERS {
        // one read more than there are bytes says that no more are to come
        let reads = WITHOUT_NULL.len() + 1;
        for reads_left in 0..reads {
            is_read(
                rt.alloc(),
                (mode, kind),
                reads_left,
                Outcome::ReadFailed,
                b"",
            )?;
        }
        is_read(rt.alloc(), (mode, kind), reads, outcome, written)?;
    }
    Ok(())
}

/// Asks that nothing more is written where the sink takes so many bytes alone.
fn is_written_in_part(
    alloc: Global,
    (mode, kind): (Mode, Kind),
    full: Full,
    written: &[u8],
) -> Result<(), Fail> {
    let mut source = StdSource::new(WITHOUT_NULL);
    let mut sink = Narrow::new(alloc, 1, written.len());
    sink.full = full;
    let ran = run(alloc, &mut source, &mut sink, mode, kind);
    let has_failed = ran == Outcome::WriteFailed && sink.failures() == 1;
    expect(has_failed, "another outcome, or other failures")?;
    is_all(&sink.taken, written)
}

/// Each write of one byte fails in turn, or takes nothing, after a beginning of what is written.
#[test]
fn each_write_fails_in_turn(rt: HostRuntime) -> Result<(), Fail> {
    let kind = Kind::from_word("pkcs12digestinfo").ok_or("no kind")?;
    for (mode, _, written) in ANSWERS {
        for writes_left in 0..written.len() {
            let part = &written[..writes_left];
            is_written_in_part(rt.alloc(), (mode, kind), Full::Fails, part)?;
            is_written_in_part(rt.alloc(), (mode, kind), Full::TakesNone, part)?;
        }
    }
    Ok(())
}
