//! Where bytes go to.

ghost use Rattle.std.specs.Prelude.{◌≡◌, ℕ, ◌+◌, ◌<◌, List, Option, OnOk, OnErr};
ghost use Rattle.std.specs.Io.{WritesAtMost};
ghost use Rattle.std.specs.Io.KnownBytes.{WriteAppends, Appends};
ghost use Rattle.asn1_core_streams.specs.Streams.{Counted, CountsErrors, CountsFailedWrites, AppendsBeginning};

use std::io::{self, Write};
use std::marker::Model;
use thiserror::Error;

/// What takes bytes, and counts the writes that failed.
pub trait Sink {
    /// The bytes that were taken, where they are known.
    ghost received: { Self → Option (List ℕ) };

    /// How many writes failed.
    ghost failed: { Self → ℕ };

    /// Takes some bytes off the front of the buffer, as `std::io::Write::write` does. To take none of some bytes is
    /// a failure too.
    fn write(&mut self, buf: &[u8]) -> io::Result<usize>
        requires { failed self.old < u64.MAX }
        ensures bound { WritesAtMost result buf.now }
        ensures bytes { WriteAppends (received self.old) (received self.new) result buf.now }
        ensures count { CountsFailedWrites (failed self.old) (failed self.new) result buf.now };

    /// How many writes failed.
    fn failures(&self) -> u64
        ensures { result ≡ failed self.now };
}

/// A writer of std as a sink.
#[derive(Drop)]
pub struct StdSink<W> {
    writer: W,
    failed: u64,
}

impl<W> Model for StdSink<W> {
    ghost Value = { Counted W };

    ghost view = { λ s. record { inner = s.writer; failed = s.failed } };
}

impl<W> StdSink<W> {
    /// A sink that writes to the writer, and has had no failure.
    pub fn new(writer: W) -> StdSink<W>
        ensures { result ≡ record { inner = writer; failed = 0 } }
    {
        StdSink { writer, failed: 0 }
    }

    /// The writer, where the last write left it.
    pub fn into_inner(self) -> W
        ensures { result ≡ self.inner }
    {
        self.writer
    }
}

impl<W: Write> Sink for StdSink<W> {
    ghost received = { λ s. W.contents s.inner };

    ghost failed = { λ s. s.failed };

    fn write(&mut self, buf: &[u8]) -> io::Result<usize> {
        let result = self.writer.write(buf);
        let is_failure = match &result {
            Ok(0) => !buf.is_empty(),
            Ok(_) => false,
            Err(_) => true,
        };
        if is_failure {
            self.failed += 1;
        }
        result
    }

    fn failures(&self) -> u64 {
        self.failed
    }
}

/// A write failed, or took none of some bytes.
#[derive(Clone, Copy, Debug, PartialEq, Eq, Error)]
#[error("write failed")]
pub struct WriteFailed;

/// Writes all the bytes, in as many writes as it takes. The first write that fails ends it.
pub fn send<S: Sink>(sink: &mut S, bytes: &[u8]) -> Result<(), WriteFailed>
    requires { S.failed sink.old < u64.MAX }
    ensures all { OnOk result (Appends (S.received sink.old) (S.received sink.new) bytes.now) }
    ensures part { OnErr result (AppendsBeginning (S.received sink.old) (S.received sink.new) bytes.now) }
    ensures count { CountsErrors (S.failed sink.old) (S.failed sink.new) result }
{
    let mut rest = bytes;
    while !rest.is_empty() {
        match sink.write(rest) {
            Ok(0) | Err(_) => return Err(WriteFailed),
            Ok(n) => rest = &rest[n..],
        }
    }
    Ok(())
}
