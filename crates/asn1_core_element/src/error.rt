//! Why a reading or a writing was refused.

ghost use Rattle.std.specs.Prelude.{◌≡◌};
ghost use Rattle.asn1_core_element.specs.declared.error.Error.TheVariants.{Memory};

use std::alloc::{AllocError, AllocFailed};
use thiserror::Error as ThisError;

/// Why a reading or a writing was refused. The grammar fixes whether an input is refused; which kind is answered,
/// `Memory` aside, is only meant to help whoever looks at the input.
#[derive(Clone, Copy, Debug, PartialEq, Eq, ThisError)]
pub enum Error {
    /// Bytes that are no element, or that are left over in contents or after the value.
    #[error("malformed")]
    Malformed,
    /// No byte is left where a required element begins.
    #[error("missing")]
    Missing,
    /// A tag that isn't allowed there, or a version, object identifier, count, character, time or range outside its
    /// rule.
    #[error("invalid")]
    Invalid,
    /// Nesting past the limit.
    #[error("too deep")]
    TooDeep,
    /// In writing alone: a length that doesn't fit `usize`.
    #[error("too long")]
    TooLong,
    /// A request for memory was refused.
    #[error("no memory")]
    Memory,
}

impl Error {
    ghost use Rattle.asn1_core_element.specs.Words.{word_of};

    /// The word of the kind, which `Display` writes too.
    pub fn word(&self) -> &'static str
        ensures { result.now ≡ word_of self.now }
    {
        match self {
            Error::Malformed => "malformed",
            Error::Missing => "missing",
            Error::Invalid => "invalid",
            Error::TooDeep => "too deep",
            Error::TooLong => "too long",
            Error::Memory => "no memory",
        }
    }
}

impl From<AllocError> for Error {
    ghost from_gives = { λ _ e. e ≡ Memory };

    fn from(_e: AllocError) -> Error {
        Error::Memory
    }
}

impl<T: Drop> From<AllocFailed<T>> for Error {
    ghost from_gives = { λ _ e. e ≡ Memory };

    fn from(_e: AllocFailed<T>) -> Error {
        Error::Memory
    }
}
