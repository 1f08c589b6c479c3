//! Where bytes come from.

ghost use Rattle.std.specs.Prelude.{◌≡◌, ℕ, ◌+◌, ◌<◌, List, Option, IfOk, OnOk, OnErr, MatchResult};
ghost use Rattle.std.specs.Io.{ReadsAtMost};
ghost use Rattle.std.specs.Io.KnownBytes.{ReadConsumes, Consumes, IsAtEnd};
ghost use Rattle.asn1_core_streams.specs.Streams.{Counted, CountsErrors, ConsumesSome, failed_reads};
ghost use Rattle.asn1_core_streams.specs.declared.source.ReadError.TheVariants.{Memory};

use std::alloc::{AllocError, Global};
use std::io::{self, Read};
use std::marker::Model;
use thiserror::Error;

/// What gives bytes, and counts the reads that failed.
pub trait Source {
    /// The bytes that reads will give from here on, where they are known.
    ghost coming: { Self → Option (List ℕ) };

    /// How many reads failed.
    ghost failed: { Self → ℕ };

    /// Reads some bytes into the front of the buffer, as `std::io::Read::read` does: `Ok(0)` where no byte is left,
    /// or the buffer has none.
    fn read(&mut self, buf: &mut [u8]) -> io::Result<usize>
        requires { failed self.old < u64.MAX }
        ensures bound { ReadsAtMost result buf.new }
        ensures bytes { ReadConsumes (coming self.old) (coming self.new) result buf.new }
        ensures count { CountsErrors (failed self.old) (failed self.new) result };

    /// How many reads failed.
    fn failures(&self) -> u64
        ensures { result ≡ failed self.now };
}

/// A reader of std as a source.
#[derive(Drop)]
pub struct StdSource<R> {
    reader: R,
    failed: u64,
}

impl<R> Model for StdSource<R> {
    ghost Value = { Counted R };

    ghost view = { λ s. record { inner = s.reader; failed = s.failed } };
}

impl<R> StdSource<R> {
    /// A source that reads from the reader, and has had no failure.
    pub fn new(reader: R) -> StdSource<R>
        ensures { result ≡ record { inner = reader; failed = 0 } }
    {
        StdSource { reader, failed: 0 }
    }

    /// The reader, where the last read left it.
    pub fn into_inner(self) -> R
        ensures { result ≡ self.inner }
    {
        self.reader
    }
}

impl<R: Read> Source for StdSource<R> {
    ghost coming = { λ s. R.remaining s.inner };

    ghost failed = { λ s. s.failed };

    fn read(&mut self, buf: &mut [u8]) -> io::Result<usize> {
        let result = self.reader.read(buf);
        if result.is_err() {
            self.failed += 1;
        }
        result
    }

    fn failures(&self) -> u64 {
        self.failed
    }
}

/// Why the bytes of a source were not read to their end.
#[derive(Clone, Copy, Debug, PartialEq, Eq, Error)]
pub enum ReadError {
    /// A read failed.
    #[error("read failed")]
    Failed,
    /// A request for memory was refused.
    #[error("no memory")]
    Memory,
}

impl From<AllocError> for ReadError {
    ghost from_gives = { λ _ e. e ≡ Memory };

    fn from(_e: AllocError) -> ReadError {
        ReadError::Memory
    }
}

/// How many bytes are asked for at a time. They are read into an array on the stack, which `read_all` isn't inlined for:
/// so it is gone while the input is parsed.
const PIECE: usize = 65_536;

/// Reads all that a source gives, 64 KB at a time. The first read that fails ends it. What was read before an error is
/// lost; a source that never ends gets `Memory`, once the vector holds what it may.
#[inline(never)]
pub fn read_all<S: Source>(alloc: Global, source: &mut S) -> Result<Vec<u8>, ReadError>
    requires { S.failed source.old < u64.MAX }
    ensures all { IfOk result (λ v. Consumes (S.coming source.old) (S.coming source.new) v.items) }
    ensures end { OnOk result (IsAtEnd (S.coming source.new)) }
    ensures part { OnErr result (ConsumesSome (S.coming source.old) (S.coming source.new)) }
    ensures count { MatchResult result
        (λ _. S.failed source.new ≡ S.failed source.old)
        (λ e. S.failed source.new ≡ S.failed source.old + failed_reads e) }
{
    let mut bytes = Vec::new(alloc);
    let mut chunk = [0u8; PIECE];
    loop {
        match source.read(&mut chunk) {
            Ok(0) => return Ok(bytes),
            Ok(n) => bytes.extend_from_slice(&chunk[..n])?,
            Err(_) => return Err(ReadError::Failed),
        }
    }
}
