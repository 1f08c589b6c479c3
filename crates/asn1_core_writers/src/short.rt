//! Short encodings, written into an array from its end: without memory, and each part measured once.

ghost use Rattle.std.specs.Prelude.{◌≡◌, ℕ, ◌≤◌, true, List, [], length};
ghost use Rattle.std.proofs.Common.{rules};
ghost use Rattle.asn1_core_writers.specs.Writers.{Filling, FillingTakes, filled_nothing};
ghost use Rattle.asn1_core_writers.specs.laws.Writers.{filling_backward};

use crate::writer::{WriteError, Writer};
use std::marker::Model;

/// How many bytes a short encoding has at most.
pub const SHORT: usize = 16_384;

/// An array that is filled from its end. After a refusal nothing is promised of what it holds.
#[derive(Drop)]
pub struct Short {
    bytes: [u8; SHORT],
    at: usize,
}

impl Model for Short {
    ghost use Rattle.std.specs.Prelude.{◌≤◌, take, drop};
    ghost use Rattle.asn1_core_writers.specs.Writers.{Filling};

    ghost Value = { Filling };

    ghost view = { λ s. record { front = take s.at s.bytes; text = drop s.at s.bytes; capacity = 16384 } };

    ghost invariant = { λ s. s.at ≤ 16384 };
}

impl Short {
    pub fn new() -> Short
        ensures room { length result.front ≡ 16384 }
        ensures text { result.text ≡ [] }
    {
        Short {
            bytes: [0; SHORT],
            at: SHORT,
        }
    }

    /// What was written.
    pub fn as_slice(&self) -> &[u8]
        ensures { result.now ≡ self.now.text }
    {
        &self.bytes[self.at..]
    }
}

impl Writer for Short {
    ghost Takes = { FillingTakes };

    ghost MayTake = { λ _. Unit {0} };

    ghost count = { λ w. length w.text };

    ghost BACKWARD = { true };

    fn is_backward() -> bool {
        true
    }

    fn bytes(&mut self, bytes: &[u8]) -> Result<(), WriteError> {
        let size = bytes.len();
        if size > self.at {
            return Err(WriteError::Failed);
        }
        let start = self.at - size;
        self.bytes[start..self.at].copy_from_slice(bytes);
        self.at = start;
        Ok(())
    }

    fn count(&self) -> usize {
        SHORT - self.at
    }

    ghost nothing = { λ w _. filled_nothing w };

    ghost goes_on = { λ _ _ _ _ _ _. tt };

    ghost forward = { Prim.search rules };

    ghost backward = { λ _. filling_backward };
}
