//! Runs of the program's calls over a source and a sink that take no memory.

ghost use Rattle.std.specs.Prelude.{None};

use crate::rounds::{Stop, expect, names};
use crate::texts;
use std::io;
use x509_containers::{Error, Kind, Mode, Outcome, Sink, StdSource, run};

/// Holds the first 96 bytes of what it gets, without memory.
#[derive(Drop)]
pub struct InMemory {
    bytes: [u8; 96],
    len: usize,
}

impl InMemory {
    pub fn new() -> InMemory {
        InMemory {
            bytes: [0; 96],
            len: 0,
        }
    }

    pub fn bytes(&self) -> &[u8] {
        &self.bytes[..self.len.min(96)]
    }
}

impl Sink for InMemory {
    ghost received = { λ _. None };

    ghost failed = { λ _. 0 };

    fn write(&mut self, buf: &[u8]) -> io::Result<usize> {
        for byte in buf {
            if self.len < 96 {
                self.bytes[self.len] = *byte;
                self.len += 1;
            }
        }
        Ok(buf.len())
    }

    fn failures(&self) -> u64 {
        0
    }
}

/// Checks that a run over the loose file writes these bytes with that outcome, and this line where memory is refused.
fn is_run(
    rt: &HostRuntime,
    mode: Mode,
    outcome: Outcome,
    wanted: &[u8],
    line: &[u8],
) -> Result<(), Stop> {
    let mut source = StdSource::new(texts::LOOSE_STORE);
    let mut sink = InMemory::new();
    let Some(kind) = Kind::from_word("pfx") else {
        return Err(Stop::Other("a kind has no word"));
    };
    names(
        rt,
        "run",
        if mode == Mode::Check {
            "check"
        } else {
            "rewrite"
        },
    )?;
    let came = run(rt.alloc(), &mut source, &mut sink, mode, kind);
    if came == Outcome::Refused(Error::Memory) {
        expect(sink.bytes() == line, "what is written without memory")?;
        return Err(Stop::Memory);
    }
    expect(came == outcome, "another outcome of a run")?;
    expect(sink.bytes() == wanted, "a run writes something else")
}

/// Both modes.
pub fn runs(rt: &HostRuntime) -> Result<(), Stop> {
    is_run(
        rt,
        Mode::Check,
        Outcome::Loose,
        b"loose 64 -> 66\n",
        b"refused: no memory\n",
    )?;
    is_run(rt, Mode::Rewrite, Outcome::Written, texts::STORE, b"")
}
