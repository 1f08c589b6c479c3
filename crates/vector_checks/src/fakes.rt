//! Sources and sinks that move few bytes a call, and fail.

ghost use Rattle.std.specs.Prelude.{◌≡◌, None};

use asn1_core_streams::{Sink, Source};
use std::alloc::Global;
use std::io::{self, Error, ErrorKind};

/// Gives one byte a read, and fails after a number of reads.
#[derive(Drop)]
pub struct Trickle<'a> {
    pub rest: &'a [u8],
    pub reads_left: usize,
    pub failed: u64,
}

impl<'a> Trickle<'a> {
    pub fn new(rest: &'a [u8], reads_left: usize) -> Self
        ensures { result.failed ≡ 0 }
    {
        Trickle {
            rest,
            reads_left,
            failed: 0,
        }
    }
}

impl Source for Trickle<'_> {
    ghost coming = { λ _. None };

    ghost failed = { λ s. s.failed };

    fn read(&mut self, buf: &mut [u8]) -> io::Result<usize> {
        if self.reads_left == 0 {
            self.failed += 1;
            return Err(Error::from(ErrorKind::Other));
        }
        self.reads_left -= 1;
        if self.rest.is_empty() || buf.is_empty() {
            return Ok(0);
        }
        buf[0] = self.rest[0];
        self.rest = &self.rest[1..];
        Ok(1)
    }

    fn failures(&self) -> u64 {
        self.failed
    }
}

/// What a sink does once it takes no more.
#[derive(Clone, Copy, Debug)]
pub enum Full {
    TakesNone,
    Fails,
}

/// Takes at most `width` bytes a write, and fails after a number of writes.
#[derive(Drop)]
pub struct Narrow {
    pub taken: Vec<u8>,
    pub width: usize,
    pub writes_left: usize,
    pub full: Full,
    pub failed: u64,
}

impl Narrow {
    pub fn new(alloc: Global, width: usize, writes_left: usize) -> Self
        ensures { result.failed ≡ 0 }
    {
        Narrow {
            taken: Vec::new(alloc),
            width,
            writes_left,
            full: Full::Fails,
            failed: 0,
        }
    }
}

impl Sink for Narrow {
    ghost received = { λ _. None };

    ghost failed = { λ s. s.failed };

    fn write(&mut self, buf: &[u8]) -> io::Result<usize> {
        if buf.is_empty() {
            return Ok(0);
        }
        let size = self.width.min(buf.len());
        if self.writes_left == 0
            || size == 0
            || self.taken.extend_from_slice(&buf[..size]).is_err()
        {
            self.failed += 1;
            return match self.full {
                Full::TakesNone => Ok(0),
                Full::Fails => Err(Error::from(ErrorKind::Other)),
            };
        }
        self.writes_left -= 1;
        Ok(size)
    }

    fn failures(&self) -> u64 {
        self.failed
    }
}
