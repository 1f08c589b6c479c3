//! The types of OCSP-2013-88, made of `rfc6960.asn1`; not to be edited.
#![tactic(auto)]

pub mod ocsp_2013_88;

pub use ocsp_2013_88::{
    AcceptableResponses, ArchiveCutoff, BasicOcspResponse, BasicResponseBytes, CertId, CertStatus,
    CrlId, KeyHash, OcspRequest, OcspResponse, OcspResponseStatus, PreferredSignatureAlgorithm,
    PreferredSignatureAlgorithms, Request, ResponderId, ResponseBytes, ResponseData, RevokedInfo,
    ServiceLocator, Signature, SingleResponse, TbsRequest, UnknownInfo, Version,
};
