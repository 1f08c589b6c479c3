//! GeneralizedTime.

ghost use Rattle.std.specs.Prelude.{◌≡◌, MatchOption};
ghost use Rattle.asn1_leaves_times.specs.TimeContents.{IsGeneralized, generalized_contents};
ghost use Rattle.asn1_leaves_times.specs.declared.calendar.Moment.{Moment};
ghost use Rattle.asn1_leaves_times.specs.Reading.{SpellsNoGeneralized};

use crate::after_year::{read_after_year, spelled_after_year};
use crate::calendar::Moment;
use crate::digits::{split_number, two_digits};

/// A second of the years 0 to 9999 of the Gregorian calendar, carried back over the years before it was in use
/// (X.690, 11.7; RFC 5280, 4.1.2.5.2).
#[derive(Clone, Copy, Debug, PartialEq, Eq)]
pub struct GeneralizedTime {
    moment: Moment,
    ghost valid: { IsGeneralized moment },
}

impl GeneralizedTime {
    ghost use Rattle.asn1_leaves_times.specs.Times.{moment_of_generalized};

    fn from_moment(moment: Moment) -> Option<Self>
        ensures { MatchOption result (¬ IsGeneralized moment) (λ t. moment_of_generalized t ≡ moment) }
    {
        if moment.is_real() && moment.year <= 9999 {
            Some(GeneralizedTime { moment })
        } else {
            None
        }
    }

    /// `None` where the years have no such day, or a day no such second.
    pub fn new(year: u16, month: u8, day: u8, hour: u8, minute: u8, second: u8) -> Option<Self>
        ensures { let m : Moment = record {
          year = year;
          month = month;
          day = day;
          hour = hour;
          minute = minute;
          second = second;
        } in
            MatchOption result (¬ IsGeneralized m) (λ t. moment_of_generalized t ≡ m) }
    {
        GeneralizedTime::from_moment(Moment {
            year,
            month,
            day,
            hour,
            minute,
            second,
        })
    }

    /// The time that the contents spell as `YYYYMMDDHHMMSSZ`.
    pub fn from_contents(contents: &[u8]) -> Option<Self>
        ensures { MatchOption result (SpellsNoGeneralized contents.now)
            (λ t. contents.now ≡ generalized_contents (moment_of_generalized t)) }
    {
        let (century, rest) = split_number(contents)?;
        let (of_century, rest) = split_number(rest)?;
        let year = 100 * u16::from(century) + u16::from(of_century);
        GeneralizedTime::from_moment(read_after_year(year, rest)?)
    }

    /// The contents `YYYYMMDDHHMMSSZ`.
    pub fn spelled(&self) -> [u8; 15]
        ensures { result ≡ generalized_contents (moment_of_generalized self.now) }
    {
        let mut contents = [0; 15];
        contents[..2].copy_from_slice(&two_digits((self.year() / 100) as u8));
        contents[2..4].copy_from_slice(&two_digits((self.year() % 100) as u8));
        contents[4..].copy_from_slice(&spelled_after_year(&self.moment));
        contents
    }

    /// From 0 to 9999.
    pub fn year(&self) -> u16
        ensures { result ≡ (moment_of_generalized self.now).year }
    {
        self.moment.year
    }

    /// From 1 to 12.
    pub fn month(&self) -> u8
        ensures { result ≡ (moment_of_generalized self.now).month }
    {
        self.moment.month
    }

    /// From 1 to the last day of the month.
    pub fn day(&self) -> u8
        ensures { result ≡ (moment_of_generalized self.now).day }
    {
        self.moment.day
    }

    /// From 0 to 23.
    pub fn hour(&self) -> u8
        ensures { result ≡ (moment_of_generalized self.now).hour }
    {
        self.moment.hour
    }

    /// From 0 to 59.
    pub fn minute(&self) -> u8
        ensures { result ≡ (moment_of_generalized self.now).minute }
    {
        self.moment.minute
    }

    /// From 0 to 59.
    pub fn second(&self) -> u8
        ensures { result ≡ (moment_of_generalized self.now).second }
    {
        self.moment.second
    }
}
