//! Where the parts of a certificate are, as ranges of the input, so that a caller reads no DER itself (RFC 5280, 4.1).
#![tactic(auto)]

mod certificates;
mod extensions;
mod key_infos;
mod keys;
mod parts;
pub mod ranges;
mod steps;

pub use certificates::certificate_ranges;
pub use input_ranges::Refusal;
pub use ranges::{CertificateRanges, KeyRanges};
