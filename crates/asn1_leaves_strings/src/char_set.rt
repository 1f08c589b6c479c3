//! Why octets are refused as a string.

use thiserror::Error;

/// The octets are not of the character set.
#[derive(Clone, Copy, Debug, PartialEq, Eq, Error)]
#[error("octets outside the character set")]
pub struct CharSetError;
