//! Rows of the crates that are made of ASN.1 modules: each line of standard input is a type, an input in hexadecimal,
//! whether it is accepted, and what `Debug` or the functions of named bits say of its value. Prints each row that
//! doesn't hold, and counts the others. The inputs are from files that other tools write.
#![tactic(auto)]

mod bits;
mod checks;
mod rows;
mod types;

use std::process::{ExitCode, Termination};
use std::test::Fail;

/// Writes why something doesn't hold to standard error, and returns whether it holds.
fn holds(rt: &HostRuntime, outcome: Result<(), Fail>) -> bool {
    let is_ok = outcome.is_ok();
    let _ = outcome.report(rt);
    is_ok
}

fn all_rows_hold(rt: &HostRuntime) -> Result<(), Fail> {
    let alloc = rt.alloc();
    let mut held = 0u64;
    for line in rt.lines(alloc) {
        let line = line?;
        if line.is_empty() || line.starts_with('#') {
            continue;
        }
        if holds(rt, rows::check_line(alloc, line.as_str())) {
            held = held.saturating_add(1);
        } else {
            println!(rt; "doesn't hold: {line}")?;
        }
    }
    println!(rt; "{held} rows hold")?;
    Ok(())
}

fn main(rt: HostRuntime) -> ExitCode {
    match all_rows_hold(&rt) {
        Ok(()) => ExitCode::SUCCESS,
        Err(fail) => Err::<(), Fail>(fail).report(&rt),
    }
}
