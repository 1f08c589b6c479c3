//! Rows of a caller's type, one for each item of a list in an input, whose headers are read once.
#![tactic(auto)]

pub mod rows;

pub use rows::{Row, range_from, rows_by};
