//! What a verification of each signer of signed data needs, as ranges of the file, so that a verifier hashes its own buffer
//! (RFC 5652, 5.3 to 5.6, 11.1 and 11.2).
#![tactic(auto)]

mod parts;
pub mod ranges;
pub mod signers;

pub use input_ranges::Refusal;
pub use ranges::{SignedRanges, SignerRanges, Signers};
pub use signers::{signed_digest, signer_ranges};
