//! PKCS #12 files (RFC 7292): what they hold, in the representation that the caller picks.
#![tactic(auto)]

pub mod auth_safes;
pub mod content_infos;
pub mod laws;
pub mod mac_inputs;
pub mod mac_ranges;
pub mod parsed;
pub mod pfxs;
pub mod raw;
pub mod raw_bags;
pub mod raw_bags_repr;
pub mod representations;
mod selections;
pub mod utf16_strings;
mod walks;

pub use auth_safes::AuthenticatedSafeContentInfo;
pub use content_infos::SafeContentsContentInfo;
pub use laws::{
    mac_octets_stand_in_the_input, mac_octets_stand_in_the_text, mac_octets_survive_where_normal,
    reads_as_the_raw_one,
};
pub use mac_inputs::{MacInput, NoMac};
pub use mac_ranges::mac_range;
pub use parsed::ParsedAuthenticatedSafeDataRepr;
pub use pfxs::Pfx;
pub use pkcs12_algs::{
    MacData, Pbes1AlgorithmKind, Pbes1Params, Pbes2AesCbcEncryption, Pbes2EncryptionScheme,
    Pbes2KeyDerivationFunc, Pbes2Params, Pbkdf2Params, Pbkdf2Prf, Pbkdf2SaltSource,
    Pkcs12DigestAlgorithm, Pkcs12DigestInfo, Pkcs12EncryptionAlgorithm,
};
pub use pkcs12_bags::parts::{
    CertificateBag, CrlBag, EncryptedKeyBag, EncryptedSafeContents, KeyBag, Pkcs12Attribute,
    SecretBag, X509Bag,
};
pub use pkcs12_bags::safe_bags::{SafeBag, SafeBagKind, SafeContents, first_with_key_id};
pub use pkcs12_bags::{parts, safe_bags};
pub use raw::{RawAuthenticatedSafeContentInfo, RawAuthenticatedSafeDataRepr, RawPfx};
pub use raw_bags::{RawSafeBag, RawSafeContents};
pub use raw_bags_repr::{RawBagsAuthenticatedSafeDataRepr, RawBagsContentInfo, RawBagsPfx};
pub use representations::AuthenticatedSafeDataRepr;
pub use utf16_strings::Utf16String;
