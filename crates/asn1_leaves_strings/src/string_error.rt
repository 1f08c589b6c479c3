//! Why no string is made from a text.

ghost use Rattle.std.specs.Prelude.{◌≡◌};
ghost use Rattle.asn1_leaves_strings.specs.declared.string_error.StringError.TheVariants.{Memory};

use crate::char_set::CharSetError;
use std::alloc::AllocError;
use thiserror::Error;

/// Why no string is made from a text.
#[derive(Clone, Copy, Debug, PartialEq, Eq, Error)]
pub enum StringError {
    /// A character above U+FFFF.
    #[error("{0}")]
    CharSet(CharSetError),
    /// A request for memory was refused.
    #[error("no memory")]
    Memory,
}

impl From<AllocError> for StringError {
    ghost from_gives = { λ _ e. e ≡ Memory };

    fn from(_e: AllocError) -> StringError {
        StringError::Memory
    }
}
