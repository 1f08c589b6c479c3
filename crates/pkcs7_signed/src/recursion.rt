//! Signers, what they hold and signed data, which hold one another: a module for each type, with how it is written,
//! tested, read and cloned.

mod pkcs7_certificate;
mod signed_data;
mod signer_info;
mod unsigned_attribute;
