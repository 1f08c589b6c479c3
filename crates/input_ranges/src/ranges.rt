//! Why no ranges are found.

ghost use Rattle.std.specs.Prelude.{◌≡◌};
ghost use Rattle.asn1_core_element.specs.declared.error.Error.TheVariants.{Memory};
ghost use Rattle.input_ranges.specs.Failures.{refusal_of};
ghost use Rattle.input_ranges.specs.declared.ranges.Refusal.TheVariants.{Refused};

use asn1_core::Error;
use std::alloc::{AllocError, AllocFailed};

/// Why no ranges are found.
#[derive(Clone, Copy, Debug, PartialEq, Eq)]
pub enum Refusal {
    /// The input doesn't read as what has the part: why, and where, as `from_bytes_located` says. Or memory was refused.
    Refused(Error, usize),
    /// The input reads, and something in it doesn't read as what it has to be: why, and where.
    Part(Error, usize),
    /// The input reads, and a part has no place in it. No call answers it of what it reads.
    NoRange,
}

/// What is answered where the parts of a file that was read aren't found.
pub fn refusal_of(error: Error) -> Refusal
    ensures { result ≡ refusal_of error }
{
    match error {
        Error::Malformed => Refusal::NoRange,
        Error::Missing => Refusal::NoRange,
        Error::Invalid => Refusal::NoRange,
        Error::TooDeep => Refusal::NoRange,
        Error::TooLong => Refusal::NoRange,
        Error::Memory => Refusal::Refused(Error::Memory, 0),
    }
}

impl From<AllocError> for Refusal {
    ghost from_gives = { λ _ r. r ≡ Refused Memory 0 };

    fn from(_e: AllocError) -> Refusal {
        Refusal::Refused(Error::Memory, 0)
    }
}

impl<T: Drop> From<AllocFailed<T>> for Refusal {
    ghost from_gives = { λ _ r. r ≡ Refused Memory 0 };

    fn from(_e: AllocFailed<T>) -> Refusal {
        Refusal::Refused(Error::Memory, 0)
    }
}
