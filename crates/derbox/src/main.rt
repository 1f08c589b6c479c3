//! `derbox check KIND` tells whether standard input is canonical (normal) DER; `derbox rewrite KIND` writes it anew.
#![tactic(auto)]

use std::env;
use std::process::ExitCode;
use x509_containers::program::{answer_words, words_of};
use x509_containers::{StdSink, StdSource};

fn main(rt: HostRuntime) -> ExitCode {
    let words = words_of(env::args(&rt), rt.alloc());
    let mut source = StdSource::new(rt.stdin());
    let mut output = StdSink::new(rt.stdout());
    let mut complaints = StdSink::new(rt.stderr());
    let status = answer_words(rt.alloc(), words, &mut source, &mut output, &mut complaints);
    ExitCode::from(status)
}
