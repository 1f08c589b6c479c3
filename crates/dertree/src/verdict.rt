//! What is said of an input of a kind.

ghost use Rattle.std.specs.Prelude.{◌≡◌, ◌≢◌, ◌↔◌, IfSome, IsSome, IsTrue};
ghost use Rattle.asn1_core_element.specs.declared.error.Error.TheVariants.{Memory, TooLong};
ghost use Rattle.x509_containers.specs.Kinds.{rewriting_as};
ghost use Rattle.dertree.specs.Verdicts.{Says, IsOfEnd, IsOctetOf};

use std::alloc::Global;
use std::fmt;
use x509_containers::{Error, Kind, MAX_NESTING, check_located};

/// What `derbox check` says.
#[derive(Clone, Copy)]
pub enum Verdict {
    Normal { len: usize },
    Loose { len: usize, canonical_len: usize },
    Refused(Error),
}

impl Verdict {
    /// The exit status of `derbox check`.
    pub fn status(self) -> u8 {
        match self {
            Verdict::Normal { .. } => 0,
            Verdict::Loose { .. } => 3,
            Verdict::Refused(_) => 1,
        }
    }

    /// Which side of its place it is about.
    pub fn preposition(self) -> &'static str {
        match self {
            Verdict::Loose { .. } => "before",
            _ => "at",
        }
    }

    /// Whether it is about what ends at its place.
    fn is_of_end(self) -> bool
        ensures { IsTrue result ↔ IsOfEnd self }
    {
        match self {
            Verdict::Normal { .. } => false,
            Verdict::Loose { .. } => true,
            Verdict::Refused(error) => matches!(error, Error::Missing),
        }
    }

    /// The octet of the input that it is about, if that is its place.
    pub fn octet(self, place: usize) -> usize
        ensures { IsOctetOf self place result }
    {
        if self.is_of_end() {
            place.saturating_sub(1)
        } else {
            place
        }
    }
}

impl fmt::Display for Verdict {
    fn fmt<W: fmt::Write>(&self, f: &mut fmt::Formatter<W>) -> fmt::Result {
        match self {
            Verdict::Normal { len } => write!(f, "normal {len}"),
            Verdict::Loose { len, canonical_len } => write!(f, "loose {len} -> {canonical_len}"),
            Verdict::Refused(error) => write!(f, "refused: {error}"),
        }
    }
}

/// What is said of an input of a kind, and the place that it is about: its loose end, or where it is refused.
pub fn judge(alloc: Global, kind: Kind, input: &[u8]) -> (Verdict, Option<usize>)
    ensures { Says (rewriting_as kind) input.now result.0 result.1 }
{
    match check_located(alloc, kind, MAX_NESTING, input) {
        Ok(found) => match found.loose_end {
            None => (
                Verdict::Normal {
                    len: found.encoding_len,
                },
                None,
            ),
            Some(end) => (
                Verdict::Loose {
                    len: input.len(),
                    canonical_len: found.encoding_len,
                },
                Some(end),
            ),
        },
        Err((error, place)) => (Verdict::Refused(error), place_of(error, place)),
    }
}

/// Where a refusal is. An encoding that is too long and memory that was refused have no place in the input.
fn place_of(error: Error, place: usize) -> Option<usize>
    ensures somewhere { IsSome result ↔ (error ≢ TooLong) × (error ≢ Memory) }
    ensures there { IfSome result (λ n. n ≡ place) }
{
    match error {
        Error::TooLong | Error::Memory => None,
        _ => Some(place),
    }
}
