//! Signers, what they hold, and signed data: their types.

ghost use Rattle.std.specs.Prelude.{◌≡◌, []};
ghost use Rattle.pkcs7_signed.specs.Components.{kind_of};
ghost use Rattle.pkcs7_signed.specs.declared.signers.UnsignedAttributes.{out-UnsignedAttributes};

use crate::oids::{COUNTERSIGNATURE, MS_COUNTER_SIGN};
use asn1_core::prelude::*;
use pkcs7_content::{CmsVersion, EncapsulatedContentInfo};
use pkcs7_signed_crl::{
    Attributes, CertificateSet, DigestAlgorithmIdentifier, DigestAlgorithmIdentifiers,
    RevocationInfoChoices, SignatureAlgorithmIdentifier, SignatureValue, SignerIdentifier,
};
use std::alloc::Global;

/// `SignerInfo ::= SEQUENCE { version CMSVersion, sid SignerIdentifier, digestAlgorithm DigestAlgorithmIdentifier,
/// signedAttrs [0] IMPLICIT SignedAttributes OPTIONAL, signatureAlgorithm SignatureAlgorithmIdentifier, signature
/// SignatureValue, unsignedAttrs [1] IMPLICIT UnsignedAttributes OPTIONAL }` (RFC 5652, 5.3). Absence is an empty set.
#[cycle(signed)]
#[derive(Debug, Drop, PartialEq)]
pub struct SignerInfo {
    /// 1 and no other.
    pub version: CmsVersion,
    pub sid: SignerIdentifier,
    pub digest_algorithm: DigestAlgorithmIdentifier,
    pub signed_attrs: Optional<Attributes>,
    pub signature_algorithm: SignatureAlgorithmIdentifier,
    pub signature: SignatureValue,
    pub unsigned_attrs: Optional<UnsignedAttributes>,
}

/// `SignerInfos ::= SET OF SignerInfo` (RFC 5652, 5.1).
#[cycle(signed)]
#[derive(Debug, Drop, PartialEq)]
pub struct SignersInfos(pub Asn1SetOf<SignerInfo>);

/// `[1] IMPLICIT SET OF UnsignedAttribute`
#[cycle(signed)]
#[derive(Debug, Drop, PartialEq)]
pub struct UnsignedAttributes(pub Vec<UnsignedAttribute>);

/// `Attribute ::= SEQUENCE { attrType OBJECT IDENTIFIER, attrValues SET OF AttributeValue }` (RFC 5652, 5.3).
#[cycle(signed)]
#[derive(Debug, Drop, PartialEq)]
pub struct UnsignedAttribute {
    pub ty: ObjectIdentifierAsn1,
    pub value: UnsignedAttributeValue,
}

/// The values of an unsigned attribute, as the object identifier before them says. This only writes.
#[cycle(signed)]
#[derive(Debug, Drop, PartialEq)]
pub enum UnsignedAttributeValue {
    /// Time stamps.
    MsCounterSign(Asn1SetOf<Pkcs7Certificate>),
    /// Countersignatures (RFC 5652, 11.4), each one level down.
    CounterSign(Asn1SetOf<SignerInfo>),
    /// The values under any other object identifier.
    Unknown(Asn1SetOf<Asn1RawDer>),
}

/// Signed data with its content type (RFC 5652, 3).
#[cycle(signed)]
#[derive(Debug, Drop, PartialEq)]
pub struct Pkcs7Certificate {
    /// `id-signedData` and no other.
    pub oid: ObjectIdentifierAsn1,
    pub signed_data: ExplicitContextTag0<SignedData>,
}

/// `SignedData ::= SEQUENCE { version CMSVersion, digestAlgorithms DigestAlgorithmIdentifiers, encapContentInfo
/// EncapsulatedContentInfo, certificates [0] IMPLICIT CertificateSet OPTIONAL, crls [1] IMPLICIT RevocationInfoChoices
/// OPTIONAL, signerInfos SignerInfos }` (RFC 5652, 5.1). It takes a nesting level. Absent certificates are none.
#[cycle(signed)]
#[derive(Debug, Drop, PartialEq)]
pub struct SignedData {
    pub version: CmsVersion,
    pub digest_algorithms: DigestAlgorithmIdentifiers,
    pub content_info: EncapsulatedContentInfo,
    pub certificates: Optional<CertificateSet>,
    /// Absent revocation lists and an empty set of them are told apart.
    pub crls: Option<RevocationInfoChoices>,
    pub signers_infos: SignersInfos,
}

/// What the object identifier of an unsigned attribute says that its values are.
#[derive(Clone, Copy, Debug, PartialEq, Eq)]
pub(crate) enum Kind {
    MsCounterSign,
    CounterSign,
    Foreign,
}

impl Kind {
    pub(crate) fn with_oid(oid: &[u8]) -> Kind
        ensures { result ≡ kind_of oid.now }
    {
        if oid == MS_COUNTER_SIGN.as_slice() {
            Kind::MsCounterSign
        } else if oid == COUNTERSIGNATURE.as_slice() {
            Kind::CounterSign
        } else {
            Kind::Foreign
        }
    }
}

impl UnsignedAttributes {
    /// The empty set. Takes no memory.
    pub fn empty(alloc: Global) -> Self
        ensures { (out-UnsignedAttributes result).0.items ≡ [] }
    {
        UnsignedAttributes(Vec::new(alloc))
    }
}
