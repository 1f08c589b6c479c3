//! Encodings that are written into a buffer from its end.

ghost use Rattle.std.specs.Prelude.{◌≡◌, ℕ, ◌≤◌, true, List, [], ◌++◌, length, take, drop, vec_capacity};
ghost use Rattle.std.proofs.Common.{rules};
ghost use Rattle.asn1_core_writers.specs.Writers.{Filling, FillingTakes, filled_nothing};
ghost use Rattle.asn1_core_writers.specs.laws.Writers.{filling_backward};

use crate::writer::{WriteError, Writer};
use std::marker::Model;

/// A buffer that is filled from its end. After a refusal nothing is promised of what it holds, nor of its position.
#[derive(Drop)]
pub struct Backward {
    out: Vec<u8>,
    at: usize,
}

impl Model for Backward {
    ghost Value = { Filling };

    ghost view = { λ s. record { front = take s.at s.out.items; text = drop s.at s.out.items; capacity = vec_capacity s.out } };

    ghost invariant = { λ s. s.at ≤ length s.out.items };
}

impl Backward {
    pub fn new(out: Vec<u8>) -> Backward
        ensures { result ≡ record { front = out.items; text = []; capacity = vec_capacity out } }
    {
        let at = out.len();
        Backward { out, at }
    }

    pub fn into_inner(self) -> Vec<u8>
        ensures items { result.items ≡ self.front ++ self.text }
        ensures capacity { vec_capacity result ≡ self.capacity }
    {
        self.out
    }
}

impl Writer for Backward {
    ghost Takes = { FillingTakes };

    ghost MayTake = { λ _. Unit {0} };

    ghost count = { λ w. length w.text };

    ghost BACKWARD = { true };

    fn is_backward() -> bool {
        true
    }

    fn bytes(&mut self, bytes: &[u8]) -> Result<(), WriteError> {
        let size = bytes.len();
        if size > self.at {
            return Err(WriteError::Failed);
        }
        let start = self.at - size;
        self.out[start..self.at].copy_from_slice(bytes);
        self.at = start;
        Ok(())
    }

    fn count(&self) -> usize {
        self.out.len() - self.at
    }

    ghost nothing = { λ w _. filled_nothing w };

    ghost goes_on = { λ _ _ _ _ _ _. tt };

    ghost forward = { Prim.search rules };

    ghost backward = { λ _. filling_backward };
}
