//! UTCTime.

ghost use Rattle.std.specs.Prelude.{◌≡◌, MatchOption};
ghost use Rattle.asn1_leaves_times.specs.TimeContents.{IsUtc, utc_contents};
ghost use Rattle.asn1_leaves_times.specs.declared.calendar.Moment.{Moment};
ghost use Rattle.asn1_leaves_times.specs.Reading.{SpellsNoUtc};

use crate::after_year::{read_after_year, spelled_after_year};
use crate::calendar::Moment;
use crate::digits::{split_number, two_digits};

/// A second of the years 1950 to 2049, whose contents give the last two digits of the year (X.690, 11.8; RFC 5280,
/// 4.1.2.5.1).
#[derive(Clone, Copy, Debug, PartialEq, Eq)]
pub struct UTCTime {
    moment: Moment,
    ghost valid: { IsUtc moment },
}

impl UTCTime {
    ghost use Rattle.asn1_leaves_times.specs.Times.{moment_of};

    fn from_moment(moment: Moment) -> Option<Self>
        ensures { MatchOption result (¬ IsUtc moment) (λ t. moment_of t ≡ moment) }
    {
        if moment.is_real() && (1950..=2049).contains(&moment.year) {
            Some(UTCTime { moment })
        } else {
            None
        }
    }

    /// `None` where the years have no such day, or a day no such second.
    pub fn new(year: u16, month: u8, day: u8, hour: u8, minute: u8, second: u8) -> Option<Self>
        ensures { let m : Moment = record {
          year = year;
          month = month;
          day = day;
          hour = hour;
          minute = minute;
          second = second;
        } in
            MatchOption result (¬ IsUtc m) (λ t. moment_of t ≡ m) }
    {
        UTCTime::from_moment(Moment {
            year,
            month,
            day,
            hour,
            minute,
            second,
        })
    }

    /// The time that the contents spell as `YYMMDDHHMMSSZ`.
    pub fn from_contents(contents: &[u8]) -> Option<Self>
        ensures { MatchOption result (SpellsNoUtc contents.now)
            (λ t. contents.now ≡ utc_contents (moment_of t)) }
    {
        let (of_century, rest) = split_number(contents)?;
        let of_century = u16::from(of_century);
        let year = if of_century < 50 {
            2000 + of_century
        } else {
            1900 + of_century
        };
        UTCTime::from_moment(read_after_year(year, rest)?)
    }

    /// The contents `YYMMDDHHMMSSZ`.
    pub fn spelled(&self) -> [u8; 13]
        ensures { result ≡ utc_contents (moment_of self.now) }
    {
        let mut contents = [0; 13];
        contents[..2].copy_from_slice(&two_digits((self.year() % 100) as u8));
        contents[2..].copy_from_slice(&spelled_after_year(&self.moment));
        contents
    }

    /// From 1950 to 2049.
    pub fn year(&self) -> u16
        ensures { result ≡ (moment_of self.now).year }
    {
        self.moment.year
    }

    /// From 1 to 12.
    pub fn month(&self) -> u8
        ensures { result ≡ (moment_of self.now).month }
    {
        self.moment.month
    }

    /// From 1 to the last day of the month.
    pub fn day(&self) -> u8
        ensures { result ≡ (moment_of self.now).day }
    {
        self.moment.day
    }

    /// From 0 to 23.
    pub fn hour(&self) -> u8
        ensures { result ≡ (moment_of self.now).hour }
    {
        self.moment.hour
    }

    /// From 0 to 59.
    pub fn minute(&self) -> u8
        ensures { result ≡ (moment_of self.now).minute }
    {
        self.moment.minute
    }

    /// From 0 to 59.
    pub fn second(&self) -> u8
        ensures { result ≡ (moment_of self.now).second }
    {
        self.moment.second
    }
}
