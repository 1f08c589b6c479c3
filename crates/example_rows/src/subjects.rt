//! The types that rows are of.

pub mod kinds;
mod leaves;
mod raw_shapes;
mod wrappers;
mod x509;

use crate::rows::Row;
use std::alloc::Global;
use std::test::Fail;

/// What comes of a row, if the word names a type of one module.
type CheckRow = fn(Global, &str, &Row) -> Option<Result<(), Fail>>;

/// Asks what a row says of the type that the word names, which is no kind of `derbox`.
pub fn check_row(alloc: Global, word: &str, row: &Row) -> Result<(), Fail> {
    let of_modules: [CheckRow; 5] = [
        leaves::check_row,
        raw_shapes::check_row,
        wrappers::check_list,
        wrappers::check_tag,
        x509::check_row,
    ];
    for check_row in of_modules {
        if let Some(outcome) = check_row(alloc, word, row) {
            return outcome;
        }
    }
    Err(Fail::new("no type has this word"))
}
