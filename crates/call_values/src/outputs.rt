//! What calls write to the front of an array, of octets or of rows.

ghost use Rattle.std.specs.Prelude.{◌≡◌, ◌≤◌, ◌++◌, length, drop, map};
ghost use Rattle.call_values.specs.Statuses.{place_of, place_where, status_of_refusal, Puts, PutsFound, PutsSome};

use crate::status;
use crate::status::status_of;
use asn1_core::Error;
use input_ranges::Refusal;

/// Writes octets to the front of `out`, if there is room. `written` is how many they are, in any case.
pub fn put_octets(octets: &[u8], out: &mut [u8], written: &mut usize) -> u32
    ensures { Puts octets.now out.old out.new written.new result }
{
    let needed = octets.len();
    *written = needed;
    if out.len() < needed {
        return status::NO_ROOM;
    }
    out[..needed].copy_from_slice(octets);
    status::NORMAL
}

/// A row that is written of something that was found.
pub trait Row: Copy {
    type Found: Drop;

    ghost row_of: { Self.Found → Self };

    fn of(found: &Self::Found) -> Self
        ensures { result ≡ row_of found.now };
}

/// Writes a row of each to the front of `out`.
#[tactic(auto, using(crate::proofs::Written::one_written, crate::proofs::Written::all_written))]
pub fn write_rows<R: Row>(found: &[R::Found], out: &mut [R])
    requires { length found.now ≤ length out.old }
    ensures { out.new ≡ map R.row_of found.now ++ drop (length found.now) out.old }
{
    for (index, item) in found.iter().enumerate() {
        out[index] = R::of(item);
    }
}

/// Writes a row of each to the front of `out`, if there is room. `count` is how many they are, in any case.
fn put_rows<R: Row>(found: &[R::Found], out: &mut [R], count: &mut usize) -> u32
    ensures { Puts (map R.row_of found.now) out.old out.new count.new result }
{
    let needed = found.len();
    *count = needed;
    if out.len() < needed {
        return status::NO_ROOM;
    }
    write_rows(found, out);
    status::NORMAL
}

pub fn status_of_refusal(refusal: Refusal) -> u32
    ensures { result ≡ status_of_refusal refusal }
{
    match refusal {
        Refusal::Refused(error, _) => status_of(error),
        Refusal::Part(error, _) => status_of(error),
        Refusal::NoRange => status::NO_RANGE,
    }
}

/// The place of an error. What is too long has none.
pub fn place_where(error: Error, place: usize) -> usize
    ensures { result ≡ place_where error place }
{
    match error {
        Error::TooLong => 0,
        _ => place,
    }
}

pub fn place_of(refusal: Refusal) -> usize
    ensures { result ≡ place_of refusal }
{
    match refusal {
        Refusal::Refused(error, place) => place_where(error, place),
        Refusal::Part(error, place) => place_where(error, place),
        Refusal::NoRange => 0,
    }
}

/// Writes a row of each that was found, or says why none was.
pub fn put_found<R: Row>(
    found: Result<Vec<R::Found>, Refusal>,
    out: &mut [R],
    count: &mut usize,
    place: &mut usize,
) -> u32
    ensures { PutsFound (λ v. map R.row_of v.items) found out.old out.new count.new place.new result }
{
    *count = 0;
    *place = 0;
    match found {
        Ok(found) => put_rows(&found, out, count),
        Err(refusal) => {
            *place = place_of(refusal);
            status_of_refusal(refusal)
        }
    }
}

/// The same of rows that may be of nothing that is there.
pub fn put_some<R: Row>(
    found: Result<Option<Vec<R::Found>>, Refusal>,
    out: &mut [R],
    count: &mut usize,
    place: &mut usize,
) -> u32
    ensures { PutsSome (λ v. map R.row_of v.items) found out.old out.new count.new place.new result }
{
    match found {
        Ok(Some(found)) => put_found(Ok(found), out, count, place),
        Ok(None) => {
            *count = 0;
            *place = 0;
            status::NO_PART
        }
        Err(refusal) => put_found(Err(refusal), out, count, place),
    }
}
