//! The bags of a PKCS #12 store, as ranges of the file, from one reading (RFC 7292, 4).
#![tactic(auto)]

pub mod bags;
mod parts;
mod places;
pub mod ranges;
pub mod raw_content_infos;
pub mod stores;

pub use input_ranges::Refusal;
pub use ranges::{BagKind, BagRanges};
pub use raw_content_infos::RawContentInfo;
pub use stores::bag_ranges;
