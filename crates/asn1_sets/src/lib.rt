//! SET OF in the order of DER, of values that are encoded first or of elements (X.690, 11.6), and of exactly one item.
#![tactic(auto)]

mod encodings;
mod ones;
mod order;

pub use encodings::{encoded, encoded_in_order};
pub use ones::SetOfOne;
pub use order::{put_in_order, put_refs_in_order};
