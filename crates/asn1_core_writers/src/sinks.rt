//! Every sink takes encodings, from their front.

ghost use Rattle.std.specs.Prelude.{◌≡◌, ℕ, ◌-◌, ◌^◌, ◌<◌, false};
ghost use Rattle.std.proofs.Common.{rules, arith};
ghost use Rattle.asn1_core_writers.specs.Sinks.{Sends, sends_none};
ghost use Rattle.asn1_core_writers.specs.laws.Sinks.{sink_forward};

use crate::writer::{WriteError, Writer};
use asn1_core_streams::{Sink, send};

impl<S: Sink> Writer for S {
    ghost Takes = { λ text w x r. Sends text (S.received w) (S.received x) (S.failed w) (S.failed x) r };

    ghost MayTake = { λ w. S.failed w < 2 ^ 64 - 1 };

    ghost count = { λ _. 0 };

    ghost BACKWARD = { false };

    fn is_backward() -> bool {
        false
    }

    fn bytes(&mut self, bytes: &[u8]) -> Result<(), WriteError> {
        match send(self, bytes) {
            Ok(()) => Ok(()),
            Err(_) => Err(WriteError::Failed),
        }
    }

    fn count(&self) -> usize {
        0
    }

    ghost nothing = { λ w _. sends_none (S.received w) (S.failed w) };

    ghost goes_on = { λ a w x u h m. Prim.search rules };

    ghost forward = { λ _. sink_forward S.received S.failed };

    ghost backward = { Prim.search rules };
}
