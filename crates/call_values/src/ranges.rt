//! Ranges of an input, for callers in C.

ghost use Rattle.std.specs.Prelude.{◌≡◌};
ghost use Rattle.call_values.specs.Ranges.{is_there, octets_of, octets_or_none};

use crate::outputs::Row;
use std::ops::Range;

/// Octets of the input: `len` of them from `start` on. `der_range` of der.h.
#[repr(C)]
#[derive(Clone, Copy)]
pub struct Octets {
    pub start: usize,
    pub len: usize,
}

pub const NOTHING: Octets = Octets { start: 0, len: 0 };

pub fn octets_of(range: &Range<usize>) -> Octets
    ensures { result ≡ octets_of range.now }
{
    Octets {
        start: range.start,
        len: range.end.saturating_sub(range.start),
    }
}

impl Row for Octets {
    type Found = Range<usize>;

    ghost row_of = { octets_of };

    fn of(range: &Range<usize>) -> Octets {
        octets_of(range)
    }
}

pub fn octets_or_none(range: &Option<Range<usize>>) -> Octets
    ensures { result ≡ octets_or_none range.now }
{
    match range {
        Some(range) => octets_of(range),
        None => NOTHING,
    }
}

/// 1 where it is there, otherwise 0.
pub fn is_there<T>(part: &Option<T>) -> usize
    ensures { result ≡ is_there part.now }
{
    match part {
        Some(_) => 1,
        None => 0,
    }
}
