//! Algorithms that encrypt with a password, and what holds them, written from parts that a caller has: the parameters of
//! RFC 8018 and of RFC 7292, appendix C, as numbers and octets.
#![tactic(auto)]

pub mod algorithms;
pub mod holders;
mod write;

pub use algorithms::{Algorithm, Derivation, Encryption, Other, Pbes2, Pbkdf2, Salted, WithVector};
pub use holders::{EncryptedContents, EncryptedKey};
pub use write::{write_algorithm, write_encrypted_contents, write_encrypted_key};
