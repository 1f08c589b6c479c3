//! The content of PKCS #7 signatures: plain octets, the indirect data of Authenticode, or a certificate trust list.
#![tactic(auto)]

pub mod contents;
pub mod indirect_data;
mod oids;
pub mod pe_images;
pub mod sip_infos;
pub mod trust_lists;
pub mod versions;

pub use contents::{ContentValue, EncapsulatedContentInfo};
pub use indirect_data::{
    SpcAttributeAndOptionalValue, SpcAttributeAndOptionalValueValue, SpcIndirectDataContent,
};
pub use pe_images::{SpcPeImageData, SpcPeImageFlags};
pub use sip_infos::SpcSipInfo;
pub use trust_lists::{
    CTLEntry, CTLEntryAttribute, CTLEntryAttributeValues, CertPolicy, Ctl, PolicyQualifier,
    RootProgramChainPolicy,
};
pub use versions::CmsVersion;
pub use x509_base::spc::{
    File, Moniker, SpcLink, SpcSerializedObject, SpcSpOpusInfo, SpcString, SpcUuid, StringError,
    Url,
};
