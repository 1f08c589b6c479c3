//! How data is encrypted with a password: the parameters of RFC 8018 and of RFC 7292, appendix C, as numbers and as ranges
//! of an input.
#![tactic(auto)]

mod algorithms;
mod heads;
mod holders;
pub mod oids;
pub mod ranges;
pub mod salt_kinds;
mod schemes;
mod steps;

pub use holders::{encrypted_contents_ranges, encrypted_key_ranges, password_ranges};
pub use input_ranges::Refusal;
pub use ranges::{EncryptedRanges, PasswordRanges, Pbes2Ranges, Pbkdf2Ranges, SaltRanges};
pub use salt_kinds::{Pbes1Kind, Pkcs12Kind};
