//! What follows the year in the contents of both times, as `MMDDHHMMSSZ`.

ghost use Rattle.std.specs.Prelude.{◌≡◌, MatchOption};
ghost use Rattle.asn1_leaves_times.specs.Calendar.{IsMoment};
ghost use Rattle.asn1_leaves_times.specs.TimeContents.{contents_after_year};
ghost use Rattle.asn1_leaves_times.specs.Reading.{SpellsNoMoment};

use crate::calendar::Moment;
use crate::digits::{split_number, two_digits};

pub fn spelled_after_year(moment: &Moment) -> [u8; 11]
    requires { IsMoment moment.now }
    ensures { result ≡ contents_after_year moment.now }
{
    let mut contents = [b'Z'; 11];
    contents[..2].copy_from_slice(&two_digits(moment.month));
    contents[2..4].copy_from_slice(&two_digits(moment.day));
    contents[4..6].copy_from_slice(&two_digits(moment.hour));
    contents[6..8].copy_from_slice(&two_digits(moment.minute));
    contents[8..10].copy_from_slice(&two_digits(moment.second));
    contents
}

/// The numbers of a time in that year. Whether there is such a time isn't checked.
pub fn read_after_year(year: u16, contents: &[u8]) -> Option<Moment>
    ensures { MatchOption result (SpellsNoMoment contents.now)
        (λ m. (m.year ≡ year) × (contents.now ≡ contents_after_year m)) }
{
    let (month, contents) = split_number(contents)?;
    let (day, contents) = split_number(contents)?;
    let (hour, contents) = split_number(contents)?;
    let (minute, contents) = split_number(contents)?;
    let (second, contents) = split_number(contents)?;
    match contents {
        b"Z" => Some(Moment {
            year,
            month,
            day,
            hour,
            minute,
            second,
        }),
        _ => None,
    }
}
