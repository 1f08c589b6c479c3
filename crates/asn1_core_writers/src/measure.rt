//! Lengths of encodings, without memory.

ghost use Rattle.std.specs.Prelude.{◌≡◌, ℕ, true};
ghost use Rattle.std.proofs.Common.{rules};
ghost use Rattle.asn1_core_writers.specs.Writers.{MeasureTakes};
ghost use Rattle.asn1_core_writers.specs.laws.Writers.{measure_backward};

use crate::writer::{WriteError, Writer};

/// Counts what it takes. After a refusal nothing is promised of its count.
#[derive(Drop)]
pub struct Measure {
    total: usize,
    pieces: usize,
}

impl Measure {
    /// Nothing was taken.
    pub fn new() -> Measure
        ensures total { result.total ≡ 0 }
        ensures pieces { result.pieces ≡ 0 }
    {
        Measure {
            total: 0,
            pieces: 0,
        }
    }

    /// How many bytes were taken.
    pub fn total(&self) -> usize
        ensures { result ≡ self.now.total }
    {
        self.total
    }

    /// In how many pieces they were taken. The contract of writing doesn't say, since an encoding may be cut anywhere:
    /// it decides how a buffer is filled, and never with what.
    pub fn pieces(&self) -> usize
        ensures { result ≡ self.now.pieces }
    {
        self.pieces
    }
}

impl Writer for Measure {
    ghost Takes = { λ text w x r. MeasureTakes text w.total x.total r };

    ghost MayTake = { λ _. Unit {0} };

    ghost count = { λ w. w.total };

    ghost BACKWARD = { true };

    fn is_backward() -> bool {
        true
    }

    fn bytes(&mut self, bytes: &[u8]) -> Result<(), WriteError> {
        match self.total.checked_add(bytes.len()) {
            Some(total) => {
                self.total = total;
                self.pieces = self.pieces.saturating_add(1);
                Ok(())
            }
            None => Err(WriteError::TooLong),
        }
    }

    fn count(&self) -> usize {
        self.total
    }

    ghost nothing = { Prim.search rules };

    ghost goes_on = { λ _ _ _ _ _ _. tt };

    ghost forward = { Prim.search rules };

    ghost backward = { λ _. measure_backward (λ w. w.total) };
}
