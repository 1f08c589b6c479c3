//! What calls answer.

ghost use Rattle.std.specs.Prelude.{◌≡◌};
ghost use Rattle.call_values.specs.Statuses.{status_of};

use asn1_core::Error;

// Those of `der_status` in der.h, which says what each means.
pub const NORMAL: u32 = 0;

pub const LOOSE: u32 = 1;

pub const UNKNOWN_KIND: u32 = 2;

pub const MALFORMED: u32 = 3;

pub const MISSING: u32 = 4;

pub const INVALID: u32 = 5;

pub const TOO_DEEP: u32 = 6;

pub const TOO_LONG: u32 = 7;

pub const NO_MEMORY: u32 = 8;

pub const NO_ROOM: u32 = 9;

pub const NO_RANGE: u32 = 10;

pub const NO_PART: u32 = 11;

pub const BAD_ATTRIBUTES: u32 = 12;

/// The status of an error.
pub fn status_of(error: Error) -> u32
    ensures { result ≡ status_of error }
{
    match error {
        Error::Malformed => MALFORMED,
        Error::Missing => MISSING,
        Error::Invalid => INVALID,
        Error::TooDeep => TOO_DEEP,
        Error::TooLong => TOO_LONG,
        Error::Memory => NO_MEMORY,
    }
}
