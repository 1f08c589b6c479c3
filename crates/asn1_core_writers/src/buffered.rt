//! Encodings that a sink gets in few writes, without memory.

ghost use Rattle.std.specs.Prelude.{◌≡◌, ℕ, ◌+◌, ◌-◌, ◌^◌, ◌<◌, ◌≤◌, ◌++◌, [], length, false, OnOk, OnErr};
ghost use Rattle.std.proofs.Common.{refl, rules};
ghost use Rattle.asn1_core_writers.specs.Sinks.{Sends};
ghost use Rattle.asn1_core_writers.specs.Buffers.{Buffers, buffered_nothing};
ghost use Rattle.asn1_core_writers.specs.laws.Buffers.{buffer_forward};

use crate::writer::{WriteError, Writer};
use asn1_core_streams::Sink;
use std::marker::Model;

/// How many bytes wait at most.
const ROOM: usize = 4096;

/// Bytes that wait to be sent.
#[derive(Drop)]
struct Waiting {
    bytes: [u8; ROOM],
    len: usize,
}

impl Model for Waiting {
    ghost use Rattle.std.specs.Prelude.{ℕ, List, ◌≤◌, take};

    ghost Value = { List ℕ };

    ghost view = { λ b. take b.len b.bytes };

    ghost invariant = { λ b. b.len ≤ 4096 };
}

impl Waiting {
    fn new() -> Waiting
        ensures { result ≡ [] }
    {
        Waiting {
            bytes: [0; ROOM],
            len: 0,
        }
    }

    /// How many bytes more have room.
    fn room(&self) -> usize
        ensures { result + length self.now ≡ 4096 }
    {
        ROOM - self.len
    }

    fn as_slice(&self) -> &[u8]
        ensures { result.now ≡ self.now }
    {
        &self.bytes[..self.len]
    }

    fn append(&mut self, more: &[u8])
        requires { length self.old + length more.now ≤ 4096 }
        ensures { self.new ≡ self.old ++ more.now }
    {
        let len = self.len;
        self.bytes[len..len + more.len()].copy_from_slice(more);
        self.len = len + more.len();
    }

    fn clear(&mut self)
        ensures { self.new ≡ [] }
    {
        self.len = 0;
    }
}

/// Takes encodings for a sink, from their front. Small pieces wait in an array, so that the sink gets few writes;
/// `flush` sends what waits. What waits when this is dropped is lost.
pub struct Buffered<'a, S> {
    sink: &'a mut S,
    waiting: Waiting,
}

impl<'a, S> Drop for Buffered<'a, S> {
    fn drop(self)
        ensures { self.exit.0.now ≡ self.entry.sink.now }
    {
        let Self {
            sink: _,
            waiting: _,
        } = self;
    }
}

impl<'a, S: Sink> Buffered<'a, S> {
    /// Nothing waits.
    pub fn new(sink: &'a mut S) -> Buffered<'a, S>
        ensures same_sink { result.sink.ghost_name ≡ sink.entry.ghost_name }
        ensures sink { result.sink.now ≡ sink.old }
        ensures waiting { result.waiting ≡ [] }
    {
        Buffered {
            sink,
            waiting: Waiting::new(),
        }
    }

    /// Sends what waits. After a refusal it still waits, though the sink may have taken a beginning of it.
    pub fn flush(&mut self) -> Result<(), WriteError>
        requires { S.failed self.old.sink.now < 2 ^ 64 - 1 }
        ensures same_sink { self.new.sink.ghost_name ≡ self.old.sink.ghost_name }
        ensures sent { Sends self.old.waiting (S.received self.old.sink.now) (S.received self.new.sink.now) (S.failed self.old.sink.now) (S.failed self.new.sink.now) result }
        ensures none { OnOk result (self.new.waiting ≡ []) }
        ensures kept { OnErr result (self.new.waiting ≡ self.old.waiting) }
    {
        self.sink.bytes(self.waiting.as_slice())?;
        self.waiting.clear();
        Ok(())
    }

    /// Takes bytes that don't fit after those that wait.
    fn pass(&mut self, bytes: &[u8]) -> Result<(), WriteError>
        requires { S.failed self.old.sink.now < 2 ^ 64 - 1 }
        ensures same_sink { self.new.sink.ghost_name ≡ self.old.sink.ghost_name }
        ensures taken { Buffers bytes.now self.old.waiting self.new.waiting (S.received self.old.sink.now) (S.received self.new.sink.now) (S.failed self.old.sink.now) (S.failed self.new.sink.now) result }
    {
        self.flush()?;
        if bytes.len() > ROOM {
            return self.sink.bytes(bytes);
        }
        self.waiting.append(bytes);
        Ok(())
    }
}

impl<'a, S: Sink> Writer for Buffered<'a, S> {
    ghost Takes = { λ text w x r. (x.sink.ghost_name ≡ w.sink.ghost_name)
        × Buffers text w.waiting x.waiting (S.received w.sink.now) (S.received x.sink.now) (S.failed w.sink.now) (S.failed x.sink.now) r };

    ghost MayTake = { λ w. S.failed w.sink.now < 2 ^ 64 - 1 };

    ghost count = { λ _. 0 };

    ghost BACKWARD = { false };

    fn is_backward() -> bool
        ensures { result ≡ false }
    {
        false
    }

    fn bytes(&mut self, bytes: &[u8]) -> Result<(), WriteError> {
        if bytes.len() > self.waiting.room() {
            return self.pass(bytes);
        }
        self.waiting.append(bytes);
        Ok(())
    }

    fn count(&self) -> usize {
        0
    }

    ghost nothing = { λ w _. (refl, buffered_nothing w.waiting (S.received w.sink.now) (S.failed w.sink.now)) };

    ghost goes_on = { λ a w x u h m. Prim.search rules };

    ghost forward = { λ _. buffer_forward (λ w. w.sink.ghost_name) (λ w. w.waiting) (λ w. S.received w.sink.now) (λ w. S.failed w.sink.now) };

    ghost backward = { Prim.search rules };
}
