//! Rows of a caller's type, one for each item of a list in an input.

ghost use Rattle.std.specs.Prelude.{◌≢◌, ◌+◌, ◌<◌, ◌^◌, ℕ, List, [], length, MatchResult};
ghost use Rattle.asn1_core_element.specs.declared.error.Error.TheVariants.{Memory};
ghost use Rattle.located_rows.specs.Rows.{AreRows, HasNoList, IsElementRange, LeadsTo};

use asn1_core_element::Error;
use asn1_located::{Place, Step, walk};
use std::alloc::Global;
use std::ops::Range;

/// What is kept of an item.
pub trait Row: Drop {
    /// What a row says of the octets that begin with its item, and of where these begin.
    ghost is_row: { ℕ → List ℕ → Self → Type 0 };

    /// The row of the item with which the octets begin.
    fn of(start: usize, octets: &[u8]) -> Self
        requires { start + length octets.now < 2 ^ 64 }
        ensures { Self.is_row start octets.now result };
}

/// The range of an input to which steps lead from octets that begin at `start` of it. It is empty, and at 0, where they
/// lead nowhere: whoever asks knows that the part is there.
pub fn range_from(start: usize, octets: &[u8], steps: &[Step]) -> Range<usize>
    requires { start + length octets.now < 2 ^ 64 }
    ensures { LeadsTo steps.now start octets.now result.start result.end }
{
    match walk(start, octets, steps) {
        Some(place) => place.start..place.start + place.octets.len(),
        None => 0..0,
    }
}

/// The range of an item.
impl Row for Range<usize> {
    ghost is_row = { IsElementRange };

    fn of(start: usize, octets: &[u8]) -> Self {
        range_from(start, octets, &[Step::Element])
    }
}

/// A row for each of the elements that follow one another.
fn rows_from<T: Row>(alloc: Global, start: usize, octets: &[u8]) -> Result<Vec<T>, Error>
    requires { start + length octets.now < 2 ^ 64 }
    ensures { MatchResult result
        (λ rows. AreRows T.is_row [] start octets.now rows.items)
        (λ e. e ≢ Memory → HasNoList [] start octets.now) }
{
    let mut rows = Vec::new(alloc);
    let mut place = Place { start, octets };
    while place.octets.len() > 0 {
        let Some(next) = walk(place.start, place.octets, &[Step::After]) else {
            return Err(Error::Malformed);
        };
        let row = T::of(place.start, place.octets);
        rows.push(row)?;
        place = next;
    }
    Ok(rows)
}

/// A row for each item of the list to whose contents the steps lead from octets that begin at `start` of an input, in
/// their order. Refuses by `Memory`, and by `Malformed` where no list is there.
pub fn rows_by<T: Row>(
    alloc: Global,
    start: usize,
    octets: &[u8],
    list: &[Step],
) -> Result<Vec<T>, Error>
    requires { start + length octets.now < 2 ^ 64 }
    ensures { MatchResult result
        (λ rows. AreRows T.is_row list.now start octets.now rows.items)
        (λ e. e ≢ Memory → HasNoList list.now start octets.now) }
{
    match walk(start, octets, list) {
        Some(place) => rows_from(alloc, place.start, place.octets),
        None => Err(Error::Malformed),
    }
}
