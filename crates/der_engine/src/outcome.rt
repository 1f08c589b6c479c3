//! What is asked of an input, and what came of it.

ghost use Rattle.std.specs.Prelude.{◌≡◌, ◌≢◌, MatchOption};

use asn1_core_element::Error;

/// What is asked of an input.
#[derive(Clone, Copy, Debug, PartialEq, Eq)]
pub enum Mode {
    /// One line on whether it is canonical (normal).
    Check,
    /// The encoding of its value.
    Rewrite,
}

impl Mode {
    ghost use Rattle.der_engine.specs.Modes.{word_of_mode};

    /// The mode that a word names: its name in lower case.
    pub fn from_word(word: &str) -> Option<Mode>
        ensures { MatchOption result ((mode : Mode) → word.now ≢ word_of_mode mode) (λ mode. word.now ≡ word_of_mode mode) }
    {
        match word {
            "check" => Some(Mode::Check),
            "rewrite" => Some(Mode::Rewrite),
            _ => None,
        }
    }
}

/// What came of an input.
#[derive(Clone, Copy, Debug, PartialEq, Eq)]
pub enum Outcome {
    /// In checking: the encoding of its value is the input.
    Normal,
    /// In checking: the encoding of its value is another, so the input is accepted but not canonical.
    Loose,
    /// In rewriting: the encoding of its value was written.
    Written,
    /// In both: no encoding was made of it, for this reason.
    Refused(Error),
    /// A read failed, and nothing was written.
    ReadFailed,
    /// A write failed, or took none of some bytes. What was written may be cut short.
    WriteFailed,
}
