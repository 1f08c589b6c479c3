//! Types made of `rfc5280-explicit.asn1` and `rfc5280-implicit.asn1`; not to be edited.
#![tactic(auto)]

pub mod pkix1_explicit88;
pub mod pkix1_implicit88;

pub use pkix1_explicit88::{
    Certificate, CertificateList, CertificateSerialNumber, DirectoryString,
    RelativeDistinguishedName, SubjectPublicKeyInfo, TbsCertList, TbsCertListRevokedCertificates,
    TbsCertificate, UniqueIdentifier, Validity, Version,
};
pub use pkix1_implicit88::{
    AccessDescription, AnotherName, AuthorityInfoAccessSyntax, AuthorityKeyIdentifier,
    BaseCrlNumber, BaseDistance, BasicConstraints, CertPolicyId, CertificateIssuer,
    CertificatePolicies, CpSuri, CrlDistributionPoints, CrlNumber, CrlReason, DisplayText,
    DistributionPoint, DistributionPointName, EdiPartyName, ExtKeyUsageSyntax, FreshestCrl,
    GeneralName, GeneralNames, GeneralSubtree, GeneralSubtrees, InhibitAnyPolicy, InvalidityDate,
    IssuerAltName, IssuingDistributionPoint, KeyIdentifier, KeyPurposeId, KeyUsage,
    NameConstraints, NoticeReference, OrAddress, PolicyConstraints, PolicyInformation,
    PolicyMappings, PolicyMappingsItem, PolicyQualifierId, PolicyQualifierInfo,
    PrivateKeyUsagePeriod, ReasonFlags, SkipCerts, SubjectAltName, SubjectDirectoryAttributes,
    SubjectInfoAccessSyntax, SubjectKeyIdentifier, UserNotice,
};
