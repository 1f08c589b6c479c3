//! The worked examples that are inputs: each row of standard input is a type, an input in hexadecimal, what a check
//! says of it, its encoding where that is another, and the value where it is said. Prints each row that doesn't hold
//! and each kind that lacks a row, and counts the others.
#![tactic(auto)]

mod checks;
mod coverage;
mod rows;
mod subjects;

use std::process::{ExitCode, Termination};
use std::test::Fail;
use x509_containers::Kind;

/// Writes why something doesn't hold to standard error, and answers whether it holds.
fn holds(rt: &HostRuntime, outcome: Result<(), Fail>) -> bool {
    let is_ok = outcome.is_ok();
    let _ = outcome.report(rt);
    is_ok
}

fn all_rows_hold(rt: &HostRuntime) -> Result<(), Fail> {
    let alloc = rt.alloc();
    let mut seen = Vec::new(alloc);
    let mut held = 0u64;
    for line in rt.lines(alloc) {
        let line = line?;
        if line.is_empty() || line.starts_with('#') {
            continue;
        }
        seen.extend(rows::kind_of(line.as_str()))?;
        if holds(rt, rows::check_line(alloc, line.as_str())) {
            held = held.saturating_add(1);
        } else {
            println!(rt; "doesn't hold: {line}")?;
        }
    }
    let mut known = 0u64;
    for kind in Kind::all() {
        if holds(rt, coverage::has_rows(*kind, &seen)) {
            known = known.saturating_add(1);
        }
    }
    let all = Kind::all().len();
    println!(rt; "{held} rows hold, of {known} of {all} kinds")?;
    Ok(())
}

fn main(rt: HostRuntime) -> ExitCode {
    all_rows_hold(&rt).report(&rt)
}
