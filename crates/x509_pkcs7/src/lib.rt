//! Content under its type (RFC 5652, 3), raw counterparts of signers and signed data of the forms that the typed ones
//! refuse, what a verifier needs of signed data beside its types, and all of the contents, signed data and enveloped data
//! of PKCS #7.
#![tactic(auto)]

pub mod content_infos;
pub mod raw_contents;
pub mod raw_signed;
pub mod raw_signers;
pub mod verifier;

pub use content_infos::ContentInfo;
pub use pkcs7_content::{
    CTLEntry, CTLEntryAttribute, CTLEntryAttributeValues, CertPolicy, CmsVersion, ContentValue,
    Ctl, EncapsulatedContentInfo, File, Moniker, PolicyQualifier, RootProgramChainPolicy,
    SpcAttributeAndOptionalValue, SpcAttributeAndOptionalValueValue, SpcIndirectDataContent,
    SpcLink, SpcPeImageData, SpcPeImageFlags, SpcSerializedObject, SpcSipInfo, SpcSpOpusInfo,
    SpcString, SpcUuid, StringError, Url,
};
pub use pkcs7_enveloped::{
    ContentEncryptionAlgorithmIdentifier, ContentType, EncryptedContent, EncryptedContentInfo,
    EncryptedKey, EnvelopedData, GeneralProtectionDescriptor, KekIdentifier, KekRecipientInfo,
    KeyEncryptionAlgorithmIdentifier, OriginatorInfo, OtherKeyAttribute, ProtectionDescriptor,
    RawEnvelopedData, RawRecipientInfo, RecipientInfo, RecipientInfos, UnprotectedAttributes,
};
pub use pkcs7_signed::{
    Attributes, CertificateChoices, CertificateList, CertificateSerialNumber, CertificateSet,
    DigestAlgorithmIdentifier, DigestAlgorithmIdentifiers, IssuerAndSerialNumber,
    OtherRevocationInfoFormat, Pkcs7Certificate, RevocationInfoChoice, RevocationInfoChoices,
    RevokedCertificate, RevokedCertificates, SignatureAlgorithmIdentifier, SignatureValue,
    SignedData, SignerIdentifier, SignerInfo, SignersInfos, TbsCertList, UnsignedAttribute,
    UnsignedAttributeValue, UnsignedAttributes,
};
pub use raw_contents::RawEncapsulatedContentInfo;
pub use raw_signed::{
    RawPkcs7Certificate, RawRevocationInfoChoices, RawSignedData, RawSignersInfos,
};
pub use raw_signers::{RawSignerInfo, RawUnsignedAttributes};
pub use verifier::{
    Accuracy, CertificateHead, GenTime, PageHashes, SignerCertificate, TbsCertificateHead,
    TimeStampAuthority, TimeStampExtensions, TstInfo, attribute_values, certificate_element,
    certificates, first_extension, hashed_octets, nested_signatures, page_hash_octets,
    signer_certificate, signer_certificates, signer_certificates_at, signers,
};
