//! Times, by their parts and as they are spelled (X.690, 11.7 and 11.8).

use std::test::Fail;
use vector_checks::checks::expect;
use x509_containers::{GeneralizedTime, UTCTime};

/// 20 April 2021, 06:52:24.
#[test]
fn utc(_rt: HostRuntime) -> Result<(), Fail> {
    let time = UTCTime::from_contents(b"210420065224Z").ok_or("no time")?;
    expect(UTCTime::year(&time) == 2021, "another year")?;
    expect(
        UTCTime::month(&time) == 4 && UTCTime::day(&time) == 20,
        "another day",
    )?;
    expect(
        UTCTime::hour(&time) == 6 && UTCTime::minute(&time) == 52,
        "another minute",
    )?;
    expect(UTCTime::second(&time) == 24, "another second")?;
    expect(
        UTCTime::spelled(&time) == *b"210420065224Z",
        "other contents",
    )
}

/// The first second of the years, and the last one.
#[test]
fn utc_years(_rt: HostRuntime) -> Result<(), Fail> {
    let first = UTCTime::new(1950, 1, 1, 0, 0, 0).ok_or("no time")?;
    expect(
        UTCTime::spelled(&first) == *b"500101000000Z",
        "other contents",
    )?;
    let last = UTCTime::new(2049, 12, 31, 23, 59, 59).ok_or("no time")?;
    expect(
        UTCTime::spelled(&last) == *b"491231235959Z",
        "other contents",
    )?;
    let past = UTCTime::new(2050, 1, 1, 0, 0, 0);
    expect(past.is_none(), "a time past the years")
}

/// The last day of a February that has 29, as years divisible by 400 do.
#[test]
fn general(_rt: HostRuntime) -> Result<(), Fail> {
    let time = GeneralizedTime::from_contents(b"20000229235958Z").ok_or("no time")?;
    expect(GeneralizedTime::year(&time) == 2000, "another year")?;
    let (month, day) = (GeneralizedTime::month(&time), GeneralizedTime::day(&time));
    expect(month == 2 && day == 29, "another day")?;
    let (hour, minute) = (GeneralizedTime::hour(&time), GeneralizedTime::minute(&time));
    expect(hour == 23 && minute == 59, "another minute")?;
    expect(GeneralizedTime::second(&time) == 58, "another second")?;
    expect(
        GeneralizedTime::spelled(&time) == *b"20000229235958Z",
        "other contents",
    )
}

#[test]
fn general_years(_rt: HostRuntime) -> Result<(), Fail> {
    let first = GeneralizedTime::new(0, 1, 1, 0, 0, 0).ok_or("no time")?;
    expect(
        GeneralizedTime::spelled(&first) == *b"00000101000000Z",
        "other contents",
    )?;
    let none = GeneralizedTime::new(1900, 2, 29, 0, 0, 0);
    expect(none.is_none(), "a leap day of 1900")
}
