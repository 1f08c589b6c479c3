//! The small types of Authenticode signatures: strings, links and serialized objects.

pub mod links;
pub mod objects;
pub mod opus_info;
pub mod texts;

pub use asn1_leaves::StringError;
pub use links::{File, Moniker, SpcLink, SpcString, Url};
pub use objects::{SpcSerializedObject, SpcUuid};
pub use opus_info::SpcSpOpusInfo;
