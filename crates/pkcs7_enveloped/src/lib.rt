//! Enveloped data with recipients of every kind (RFC 5652, 6), and protection descriptors.
#![tactic(auto)]

pub mod descriptors;
pub mod enveloped;
pub mod raw_recipients;
pub mod recipients;

pub use descriptors::{GeneralProtectionDescriptor, ProtectionDescriptor};
pub use enveloped::{
    ContentEncryptionAlgorithmIdentifier, ContentType, EncryptedContent, EncryptedContentInfo,
    EnvelopedData, OriginatorInfo, RecipientInfos, UnprotectedAttributes,
};
pub use raw_recipients::{RawEnvelopedData, RawRecipientInfo};
pub use recipients::{
    EncryptedKey, KekIdentifier, KekRecipientInfo, KeyEncryptionAlgorithmIdentifier,
    OtherKeyAttribute, RecipientInfo,
};
