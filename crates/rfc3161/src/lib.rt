//! The types of PKIXTSP, made of `rfc3161.asn1`; not to be edited.
#![tactic(auto)]

pub mod pkixtsp;

pub use pkixtsp::{
    Accuracy, ContentInfo, MessageImprint, PkiFailureInfo, PkiFreeText, PkiStatus, PkiStatusInfo,
    TimeStampReq, TimeStampResp, TimeStampToken, TsaPolicyId, TstInfo,
};
