//! Encodings that are appended to a buffer with room.

ghost use Rattle.std.specs.Prelude.{◌≡◌, ℕ, ◌≤◌, ◌++◌, [], vec_capacity, false};
ghost use Rattle.std.proofs.Common.{rules};
ghost use Rattle.asn1_core_writers.specs.Appending.{AppendingTakes, appended_nothing};
ghost use Rattle.asn1_core_writers.specs.laws.Appending.{appending_forward};

use crate::writer::{WriteError, Writer};

/// A buffer that takes encodings after what it holds. After a refusal nothing is promised of what it holds.
#[derive(Drop)]
pub struct Forward {
    out: Vec<u8>,
}

impl Forward {
    pub fn new(out: Vec<u8>) -> Forward
        ensures { result.out ≡ out }
    {
        Forward { out }
    }

    pub fn into_inner(self) -> Vec<u8>
        ensures { result ≡ self.out }
    {
        self.out
    }
}

impl Writer for Forward {
    ghost Takes = { λ text w x r. AppendingTakes text w.out.items (vec_capacity w.out) x.out.items (vec_capacity x.out) r };

    ghost MayTake = { λ _. Unit {0} };

    ghost count = { λ _. 0 };

    ghost BACKWARD = { false };

    fn is_backward() -> bool {
        false
    }

    fn bytes(&mut self, bytes: &[u8]) -> Result<(), WriteError> {
        match self.out.extend_from_slice(bytes) {
            Ok(()) => Ok(()),
            Err(_) => Err(WriteError::Failed),
        }
    }

    fn count(&self) -> usize {
        0
    }

    ghost nothing = { λ w _. appended_nothing w.out.items (vec_capacity w.out) };

    ghost goes_on = { λ _ _ _ _ _ _. tt };

    ghost forward = { λ _. appending_forward (λ w. w.out.items) (λ w. vec_capacity w.out) };

    ghost backward = { Prim.search rules };
}
