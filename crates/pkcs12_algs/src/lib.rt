//! The algorithms of PKCS #12 (RFC 7292) and of encryption by passwords (RFC 8018), with their parameters: digests,
//! MACs, key derivation, and encryption, each picked by its object identifier.
#![tactic(auto)]

mod algorithms;
mod digests;
mod encryptions;
mod kinds;
mod macs;
mod oids;
mod pbes1;
mod pbes2;
mod pbkdf2;
mod prfs;
mod rows;

pub use digests::{Pkcs12DigestAlgorithm, Pkcs12DigestInfo};
pub use encryptions::Pkcs12EncryptionAlgorithm;
pub use macs::MacData;
pub use pbes1::{Pbes1AlgorithmKind, Pbes1Params};
pub use pbes2::{
    Pbes2AesCbcEncryption, Pbes2EncryptionScheme, Pbes2KeyDerivationFunc, Pbes2Params,
};
pub use pbkdf2::{Pbkdf2Params, Pbkdf2SaltSource};
pub use prfs::Pbkdf2Prf;
