//! One round of calls that take memory, over values of each shape, and of calls that take none: names each before it
//! makes it, and says what went wrong, if anything. Ends with status 3 where a request was refused with no other effect:
//! a test refuses each in turn. With a word it prints how long calls take instead.
#![tactic(auto)]

mod conversions;
mod rounds;
mod runs;
mod texts;
mod times;
mod without_memory;

use rounds::Stop;
use std::env;
use std::io::{self, ErrorKind};
use std::process::ExitCode;

fn is_for_times(rt: &HostRuntime) -> io::Result<bool> {
    let mut words = env::args(rt)?;
    words.next();
    Ok(words.next().is_some())
}

/// Calls that take memory: reading, writing and cloning, constructors and conversions, and runs.
fn calls(rt: &HostRuntime) -> Result<(), Stop> {
    rounds::macs(rt)?;
    rounds::store_values(rt)?;
    rounds::content_values(rt)?;
    conversions::of_objects(rt)?;
    conversions::of_encryptions(rt)?;
    conversions::of_digests(rt)?;
    conversions::of_functions(rt)?;
    conversions::of_default_links(rt)?;
    conversions::of_defaults(rt)?;
    conversions::of_strings(rt)?;
    conversions::of_data(rt)?;
    conversions::of_contents(rt)?;
    conversions::of_certificates(rt)?;
    conversions::of_ranges(rt)?;
    conversions::of_bags(rt)?;
    runs::runs(rt)
}

/// Calls that take none.
fn calls_without_memory(rt: &HostRuntime) -> Result<(), Stop> {
    without_memory::algorithms(rt)?;
    without_memory::raw_algorithms(rt)?;
    without_memory::words(rt)?;
    without_memory::streams(rt)?;
    without_memory::reads(rt)?;
    without_memory::reader(rt)?;
    without_memory::elements(rt)?;
    without_memory::representations(rt)?;
    without_memory::parts(rt)?;
    without_memory::covered(rt)?;
    without_memory::empty_sets(rt)?;
    without_memory::content(rt)?;
    without_memory::bmp_strings(rt)?;
    without_memory::ia5_strings(rt)?;
    without_memory::utf8_strings(rt)?;
    without_memory::bits(rt)?;
    without_memory::changed_bits(rt)?;
    without_memory::utc_times(rt)?;
    without_memory::general_times(rt)?;
    without_memory::store_values(rt)?;
    without_memory::content_values(rt)?;
    without_memory::tags(rt)
}

/// Does a round of the calls, and says how it ended.
fn say_round(rt: &HostRuntime) -> ExitCode {
    let outcome = calls(rt).and_then(|()| calls_without_memory(rt));
    let said = match outcome {
        Ok(()) => "each call answers as it should",
        Err(Stop::Memory) => return ExitCode::from(3),
        Err(Stop::Other(what)) => what,
    };
    match println!(rt; "{said}") {
        Ok(()) => ExitCode::SUCCESS,
        Err(_) => ExitCode::from(2),
    }
}

/// Prints how long the calls take.
fn say_times(rt: &HostRuntime) -> ExitCode {
    let Err(failure) = times::measure_all(rt) else {
        return ExitCode::SUCCESS;
    };
    let _ = eprintln!(rt; "example_calls: {failure}");
    ExitCode::FAILURE
}

fn main(rt: HostRuntime) -> ExitCode {
    match is_for_times(&rt) {
        Ok(false) => say_round(&rt),
        Ok(true) => say_times(&rt),
        Err(error) if error.kind() == ErrorKind::OutOfMemory => ExitCode::from(3),
        Err(_) => ExitCode::from(2),
    }
}
