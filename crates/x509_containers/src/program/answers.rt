//! What comes of a command line, beside the output.

ghost use Rattle.std.specs.Prelude.{◌≡◌};

use crate::kinds::Kind;
use asn1_core_element::Error;
use der_engine::{Mode, Outcome, refusal};

/// What came of a command line.
#[derive(Clone, Copy, Debug, PartialEq, Eq)]
pub enum Answer {
    /// An input was run as its words ask, with this outcome.
    Ran {
        mode: Mode,
        kind: Kind,
        outcome: Outcome,
    },
    /// The words ask for nothing that the program does.
    WrongWords,
    /// A request for memory was refused while the words were read.
    NoMemory,
}

impl Answer {
    ghost use Rattle.x509_containers.specs.Answers.{status_of, complaint_of};

    /// The exit status.
    pub fn status(self) -> u8
        ensures { result ≡ status_of self }
    {
        match self {
            Answer::Ran { outcome, .. } => match outcome {
                Outcome::Normal | Outcome::Written => 0,
                Outcome::Loose => 3,
                Outcome::Refused(_) | Outcome::ReadFailed | Outcome::WriteFailed => 1,
            },
            Answer::WrongWords => 2,
            Answer::NoMemory => 1,
        }
    }

    /// The line for standard error, or nothing.
    pub fn complaint(self) -> &'static str
        ensures { result.now ≡ complaint_of self }
    {
        match self {
            Answer::Ran { mode, outcome, .. } => match (mode, outcome) {
                (_, Outcome::ReadFailed) => "derbox: read failed\n",
                (_, Outcome::WriteFailed) => "derbox: write failed\n",
                (Mode::Rewrite, Outcome::Refused(error)) => refusal(Mode::Check, error),
                _ => "",
            },
            Answer::WrongWords => "usage: derbox check|rewrite KIND\n",
            Answer::NoMemory => refusal(Mode::Check, Error::Memory),
        }
    }
}
