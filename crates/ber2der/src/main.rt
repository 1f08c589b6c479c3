//! `ber2der` writes the DER of the BER on standard input.
#![tactic(auto)]

use asn1_core_element::Error;
use asn1_core_streams::{StdSink, StdSource, read_all, send};
use ber_der::to_der_located;
use std::env::{self, Args};
use std::io::{self, ErrorKind};
use std::process::ExitCode;

/// Whether the command line has no words after the program's name.
fn is_bare(words: io::Result<Args>) -> io::Result<bool> {
    match words {
        Ok(mut words) => {
            words.next();
            Ok(words.next().is_none())
        }
        Err(error) if error.kind() == ErrorKind::OutOfMemory => Err(error),
        Err(_) => Ok(false),
    }
}

/// What is said of the input on standard error.
fn refuse(rt: &HostRuntime, input: &[u8], error: Error, place: usize) {
    if input.starts_with(b"-----BEGIN ") {
        let _ = eprintln!(rt; "refused: malformed at 0");
        let _ = eprintln!(rt; "ber2der: the input is PEM: decode its base64 first");
        return;
    }
    let word = error.word();
    let _ = eprintln!(rt; "refused: {word} at {place}");
}

/// Writes the DER of standard input to standard output.
fn convert(rt: &HostRuntime) -> ExitCode {
    let Ok(input) = read_all(rt.alloc(), &mut StdSource::new(rt.stdin())) else {
        let _ = eprintln!(rt; "ber2der: read failed");
        return ExitCode::FAILURE;
    };
    match to_der_located(rt.alloc(), &input) {
        Ok(der) => match send(&mut StdSink::new(rt.stdout()), &der) {
            Ok(()) => ExitCode::SUCCESS,
            Err(_) => {
                let _ = eprintln!(rt; "ber2der: write failed");
                ExitCode::FAILURE
            }
        },
        Err((error, place)) => {
            refuse(rt, &input, error, place);
            ExitCode::FAILURE
        }
    }
}

fn main(rt: HostRuntime) -> ExitCode {
    match is_bare(env::args(&rt)) {
        Ok(true) => convert(&rt),
        Ok(false) => {
            let _ = eprintln!(rt; "usage: ber2der < BER > DER");
            ExitCode::from(2)
        }
        Err(_) => {
            let _ = eprintln!(rt; "ber2der: no memory");
            ExitCode::FAILURE
        }
    }
}
