//! What the program `derbox` makes of an input: the encoding of the value that it holds, or one line about it. Generic
//! over where the bytes come from, where they go, and the type that is read.
#![tactic(auto)]

pub mod kind;
pub mod lines;
pub mod outcome;
pub mod runs;
pub mod slices;
pub mod verdict;

pub use kind::{KindOfInput, check_by_kind, loose_end_by_kind};
pub use lines::refusal;
pub use outcome::{Mode, Outcome};
pub use runs::run;
pub use slices::{
    check_as, check_as_limited, check_located_as, loose_end_as, rewrite_as, rewrite_as_limited,
};
pub use verdict::Verdict;
