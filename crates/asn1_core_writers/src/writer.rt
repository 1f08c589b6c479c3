//! What encodings are written to.

ghost use Rattle.std.specs.Prelude.{◌≡◌, ℕ, Bool, true, false, List, [], Result, Ok};
ghost use Rattle.asn1_core_writers.specs.Writers.{IsForward, IsBackward};
ghost use Rattle.asn1_core_writers.specs.declared.writer.WriteError.{WriteError};

use thiserror::Error as ThisError;

/// Why an encoding was not written.
#[derive(Clone, Copy, Debug, PartialEq, Eq, ThisError)]
pub enum WriteError {
    /// Its length doesn't fit `usize`.
    #[error("too long")]
    TooLong,
    /// The sink failed. (A buffer answers it where the encoding is longer than its room.)
    #[error("failed")]
    Failed,
}

/// Takes an encoding piece by piece: each piece after those that it took, or before them, where it takes encodings
/// from their end. A sink that refuses has taken a beginning; what other writers have taken then is not promised.
pub trait Writer {
    /// What taking an encoding comes to: the encoding, the writer before and after, and the answer.
    ghost Takes: { List ℕ → Self → Self → Result (Unit {0}) WriteError → Type 0 };

    /// Whether it may be given more.
    ghost MayTake: { Self → Type 0 };

    /// How many bytes it took, where it takes encodings from their end.
    ghost count: { Self → ℕ };

    /// Whether it takes encodings from their end.
    ghost BACKWARD: { Bool };

    /// Whether it takes encodings from their end.
    fn is_backward() -> bool
        ensures { result ≡ BACKWARD };

    /// Takes some bytes.
    fn bytes(&mut self, bytes: &[u8]) -> Result<(), WriteError>
        requires { MayTake self.old }
        ensures { Takes bytes.now self.old self.new result };

    /// How many bytes it took, where it takes encodings from their end.
    fn count(&self) -> usize
        ensures { result ≡ count self.now };

    ghost nothing: { (w : Self) (u : Unit {0}) → Takes [] w w (Ok u) };

    ghost goes_on: { (a : List ℕ) (w x : Self) (u : Unit {0}) → Takes a w x (Ok u) → MayTake w → MayTake x };

    ghost forward: { BACKWARD ≡ false → IsForward Takes };

    ghost backward: { BACKWARD ≡ true → IsBackward Takes count };
}
