//! The layer below PKCS #7 and PKCS #12: algorithm identifiers, digests, names, times and extensions; in `spc`, the
//! small types of Authenticode.
#![tactic(auto)]

pub mod algorithms;
pub mod attributes_by_oid;
pub mod digests;
pub mod extensions;
pub mod names;
pub mod spc;
pub mod times;
pub mod versions;

pub use algorithms::{AlgorithmIdentifier, RawAlgorithmIdentifier};
pub use asn1_core::DefaultFalse;
pub use attributes_by_oid::{FirstAttribute, first_attribute, only_value, only_value_as};
pub use digests::{DigestInfo, SubjectKeyIdentifier};
pub use extensions::{Extension, Extensions};
pub use names::{Attribute, Name, NameValue};
pub use times::Time;
pub use versions::Version;
