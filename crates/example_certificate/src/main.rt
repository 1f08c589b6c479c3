//! Says what a certificate on standard input holds (RFC 5280): its names, times, alternative names, key usage and basic
//! constraints, and of each other extension whether the octets are those that its value is written as. Of a revocation
//! list it says the entries and the extensions, of a request or an answer of time stamps (RFC 3161) which it is.
#![tactic(auto)]

mod extensions;
mod names;
mod others;

use asn1_core::{Error, StdSource, from_bytes, read_all};
use rfc5280::pkix1_explicit88::{Certificate, TbsCertificate};
use std::io;
use std::process::ExitCode;
use thiserror::Error as ThisError;
use x509_base::Time;

/// Why a list ended.
#[derive(Debug, Drop, ThisError)]
pub enum ListError {
    #[error("standard input can't be read")]
    Read,
    #[error("refused: {0}")]
    Refused(#[from] Error),
    #[error("standard output: {0}")]
    Write(#[from] io::Error),
}

/// Octets in hexadecimal.
pub fn print_hex(rt: &HostRuntime, octets: &[u8]) -> Result<(), ListError> {
    for octet in octets {
        print!(rt; "{octet:02x}")?;
    }
    Ok(())
}

fn print_clock(rt: &HostRuntime, hour: u8, minute: u8, second: u8) -> Result<(), ListError> {
    println!(rt; " {hour:02}:{minute:02}:{second:02}Z")?;
    Ok(())
}

fn list_time(rt: &HostRuntime, time: &Time) -> Result<(), ListError> {
    match time {
        Time::Utc(utc) => {
            let (year, month, day) = (utc.0.year(), utc.0.month(), utc.0.day());
            print!(rt; "{year:04}-{month:02}-{day:02}")?;
            print_clock(rt, utc.0.hour(), utc.0.minute(), utc.0.second())
        }
        Time::Generalized(long) => {
            let (year, month, day) = (long.0.year(), long.0.month(), long.0.day());
            print!(rt; "{year:04}-{month:02}-{day:02}")?;
            print_clock(rt, long.0.hour(), long.0.minute(), long.0.second())
        }
    }
}

fn list_head(rt: &HostRuntime, tbs: &TbsCertificate) -> Result<(), ListError> {
    let version = u32::from(tbs.version.0.0) + 1;
    print!(rt; "version: {version}\nserial number: ")?;
    print_hex(rt, &tbs.serial_number.0)?;
    print!(rt; "\nissuer: ")?;
    names::print_name(rt, &tbs.issuer)?;
    print!(rt; "\nsubject: ")?;
    names::print_name(rt, &tbs.subject)?;
    print!(rt; "\nnot before: ")?;
    list_time(rt, &tbs.validity.not_before)?;
    print!(rt; "not after: ")?;
    list_time(rt, &tbs.validity.not_after)
}

fn list_certificate(rt: &HostRuntime, tbs: &TbsCertificate) -> Result<(), ListError> {
    list_head(rt, tbs)?;
    match &tbs.extensions {
        Some(under) => extensions::list_extensions(rt, &under.0),
        None => Ok(()),
    }
}

fn list(rt: &HostRuntime) -> Result<(), ListError> {
    let Ok(file) = read_all(rt.alloc(), &mut StdSource::new(rt.stdin())) else {
        return Err(ListError::Read);
    };
    let read: Result<Certificate, Error> = from_bytes(rt.alloc(), &file);
    let same = match read {
        Ok(certificate) => {
            list_certificate(rt, &certificate.tbs_certificate)?;
            extensions::is_written_so::<Certificate>(rt.alloc(), &file)?
        }
        Err(error) => others::list_other(rt, &file, error)?,
    };
    println!(rt; "written as it was: {same}")?;
    Ok(())
}

fn main(rt: HostRuntime) -> ExitCode {
    let Err(error) = list(&rt) else {
        return ExitCode::SUCCESS;
    };
    let _ = eprintln!(rt; "example_certificate: {error}");
    ExitCode::FAILURE
}
