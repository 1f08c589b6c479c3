//! Says of each line of standard input, an input in hexadecimal, what `ber_der` makes of it: `is DER`, `converted`
//! or `ambiguous`, where only one of the two conversions takes it, with the DER, or `refused`, with the place. Lines that
//! begin with `#` are repeated. A test compares the answers with those of a converter of its own.
#![tactic(auto)]

use asn1_core_streams::{StdSource, read_all};
use ber_der::{is_der, to_der_located, to_der_unambiguous};
use std::io::{self, BufWriter, Write};
use std::process::ExitCode;

/// The value of a hexadecimal digit.
fn digit(byte: u8) -> Option<u8> {
    match byte {
        b'0'..=b'9' => Some(byte - b'0'),
        b'a'..=b'f' => Some(byte - b'a' + 10),
        _ => None,
    }
}

/// The octets of a line, which is `-` where there are none.
fn octets(rt: &HostRuntime, line: &[u8]) -> io::Result<Option<Vec<u8>>> {
    let mut octets = Vec::new(rt.alloc());
    let mut rest = line.strip_prefix(b"-").unwrap_or(line);
    while let [high, low, after @ ..] = rest {
        let (Some(high), Some(low)) = (digit(*high), digit(*low)) else {
            return Ok(None);
        };
        octets.push(high << 4 | low)?;
        rest = after;
    }
    Ok(if rest.is_empty() { Some(octets) } else { None })
}

/// Writes what is made of an input.
fn answer<W: Write>(rt: &HostRuntime, w: &mut W, input: &[u8]) -> io::Result<()> {
    let der = match to_der_located(rt.alloc(), input) {
        Ok(der) => der,
        Err((error, place)) => {
            let word = error.word();
            return writeln!(w, "refused: {word} at {place}");
        }
    };
    if is_der(input) {
        return writeln!(w, "is DER");
    }
    match to_der_unambiguous(rt.alloc(), input) {
        Ok(_) => write!(w, "converted ")?,
        Err(_) => write!(w, "ambiguous ")?,
    }
    for octet in &der {
        write!(w, "{octet:02x}")?;
    }
    writeln!(w)
}

fn answer_all(rt: &HostRuntime, input: &[u8]) -> io::Result<()> {
    let mut w = BufWriter::new(rt.alloc(), io::writer(rt))?;
    for line in input.split(|byte| *byte == b'\n') {
        if line.first() == Some(&b'#') {
            w.write_all(line)?;
            writeln!(w)?;
        } else if !line.is_empty() {
            match octets(rt, line)? {
                Some(octets) => answer(rt, &mut w, &octets)?,
                None => writeln!(w, "no hexadecimal")?,
            }
        }
    }
    w.flush()
}

fn main(rt: HostRuntime) -> ExitCode {
    let Ok(input) = read_all(rt.alloc(), &mut StdSource::new(rt.stdin())) else {
        return ExitCode::FAILURE;
    };
    match answer_all(&rt, &input) {
        Ok(()) => ExitCode::SUCCESS,
        Err(_) => ExitCode::FAILURE,
    }
}
