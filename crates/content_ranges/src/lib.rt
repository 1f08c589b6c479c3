//! Where signed data has the parts of its content, of one type.
#![tactic(auto)]

mod contents;
mod entries;
mod heads;
mod indirect;
pub mod ranges;
mod steps;
mod trust_heads;
mod trust_lists;

pub use entries::trust_rows;
pub use indirect::indirect_ranges;
pub use input_ranges::Refusal;
pub use ranges::{EntryRanges, ImageRanges, IndirectRanges, TrustListRanges};
pub use trust_lists::trust_list_ranges;
