//! Programs over `x509_containers`, a verb each, whose functions README.md and docs/USING.md quote:
//! `example_containers VERB WORD.. [-- VERB WORD..]..` runs one after the other. README.md, beside this, lists the verbs.
#![tactic(auto)]

mod certificates;
mod check;
mod enveloped;
mod list;
mod rename;
mod repeat;
mod revoked;
mod signed_contents;
mod signers;
mod stamps;
mod stores;

use std::env::args;
use std::process::ExitCode;
use std::{fs, io};
use thiserror::Error as ThisError;
use x509_containers::{
    DerSerialize, DigestInfo, Error, ParsedAuthenticatedSafeDataRepr, Pfx, StdSink, StringError,
    write_to,
};

/// A PKCS #12 file with parsed bags.
pub type Store = Pfx<ParsedAuthenticatedSafeDataRepr>;

/// Why a program ended.
#[derive(Debug, Drop, ThisError)]
pub enum ExampleError {
    #[error("usage: example_containers VERB WORD.. [-- VERB WORD..].., as README.md says")]
    Usage,
    #[error("refused: {0}")]
    Refused(#[from] Error),
    #[error("a name: {0}")]
    Name(#[from] StringError),
    #[error("words, a file or standard output: {0}")]
    Stream(#[from] io::Error),
    #[error("the output can't be written")]
    Output,
    #[error("a file isn't what its type asks for")]
    IllFormed,
    #[error("the content has another type")]
    OtherContent,
    #[error("the store has no octets that a MAC covers")]
    NothingCovered,
    #[error("the file has a MAC, which would not fit what is written")]
    HasMac,
    #[error("no bag that isn't encrypted has that name")]
    NoSuchName,
}

/// Octets in hexadecimal, after a text.
pub fn print_octets(rt: &HostRuntime, before: &str, octets: &[u8]) -> Result<(), ExampleError> {
    print!(rt; "{before}")?;
    for octet in octets {
        print!(rt; "{octet:02x}")?;
    }
    println!(rt)?;
    Ok(())
}

/// Octets after the text of an algorithm.
fn print_after(rt: &HostRuntime, algorithm: &str, octets: &[u8]) -> Result<(), ExampleError> {
    print!(rt; "  {algorithm}")?;
    print_octets(rt, " ", octets)
}

/// A digest after its algorithm in dotted form.
pub fn print_digest(rt: &HostRuntime, info: &DigestInfo) -> Result<(), ExampleError> {
    let algorithm = info.oid.algorithm().to_text(rt.alloc())?;
    print_after(rt, algorithm.as_str(), &info.digest.0)
}

/// Writes a value as it is.
pub fn write_out<T: DerSerialize>(rt: &HostRuntime, value: &T) -> Result<(), ExampleError> {
    write_to(value, &mut StdSink::new(rt.stdout())).map_err(|_| ExampleError::Output)
}

/// Writes a value, where it is well-formed: another one might not be read again.
pub fn send<T: DerSerialize>(rt: &HostRuntime, value: &T) -> Result<(), ExampleError> {
    if !value.well_formed() {
        return Err(ExampleError::IllFormed);
    }
    write_out(rt, value)
}

/// What lists what a file holds.
fn show(rt: &HostRuntime, verb: &str, file: &[u8]) -> Result<(), ExampleError> {
    match verb {
        "list" => list::list(rt, file),
        "check" => check::check(rt, file),
        "signers" => signers::list_signers(rt, file),
        "stamps" => stamps::list_stamps(rt, file),
        "program" => signed_contents::list_program(rt, file),
        "trusted" => signed_contents::list_trusted(rt, file),
        "revoked" => revoked::list_revoked(rt, file),
        "covered" => stores::send_covered(rt, file),
        _ => Err(ExampleError::Usage),
    }
}

/// What writes a file, made of others.
fn build(rt: &HostRuntime, verb: &str, words: &[String]) -> Result<(), ExampleError> {
    match words {
        words if verb == "certificates" => certificates::send_certificates(rt, words),
        [old, new, file] if verb == "rename" => rename::rename(rt, old, new, &fs::read(rt, file)?),
        [store, digest, salt] if verb == "mac" => stores::send_with_mac(rt, store, digest, salt),
        [key, certificate, key_id, name] if verb == "store" => {
            stores::send_store(rt, key, certificate, key_id, name)
        }
        [word, operation, count, file] if verb == "repeat" => {
            repeat::repeat(rt.alloc(), word, operation, count, &fs::read(rt, file)?)
        }
        [key_id, wrapped_key, vector, ciphertext] if verb == "enveloped" => {
            enveloped::send_enveloped(rt, key_id, wrapped_key, vector, ciphertext)
        }
        [file] => show(rt, verb, &fs::read(rt, file)?),
        _ => Err(ExampleError::Usage),
    }
}

fn words(rt: &HostRuntime) -> io::Result<Vec<String>> {
    Ok(args(&(rt, rt.alloc()))?.collect(rt.alloc())?)
}

fn run(rt: &HostRuntime) -> Result<(), ExampleError> {
    let words = words(rt)?;
    for task in words
        .get(1..)
        .unwrap_or(&[])
        .split(|word| word.as_str() == "--")
    {
        let [verb, words @ ..] = task else {
            return Err(ExampleError::Usage);
        };
        build(rt, verb, words)?;
    }
    Ok(())
}

fn main(rt: HostRuntime) -> ExitCode {
    let Err(error) = run(&rt) else {
        return ExitCode::SUCCESS;
    };
    let _ = eprintln!(rt; "example_containers: {error}");
    ExitCode::FAILURE
}
