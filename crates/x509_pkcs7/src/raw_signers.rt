//! Signers of every version, whose unsigned attributes keep their values as they are (RFC 5652, 5.3).

ghost use Rattle.x509_pkcs7.specs.RawSigners.{raw_signer_info, raw_signer_info_value, raw_signer_equal};

use asn1_core::prelude::*;
pub use pkcs7_attributes::RawUnsignedAttributes;
use pkcs7_content::CmsVersion;
use pkcs7_signed_crl::{
    Attributes, DigestAlgorithmIdentifier, SignatureAlgorithmIdentifier, SignatureValue,
    SignerIdentifier,
};
use std::alloc::Global;

/// `SignerInfo ::= SEQUENCE { version CMSVersion, sid SignerIdentifier, digestAlgorithm DigestAlgorithmIdentifier,
/// signedAttrs [0] IMPLICIT SignedAttributes OPTIONAL, signatureAlgorithm SignatureAlgorithmIdentifier, signature
/// SignatureValue, unsignedAttrs [1] IMPLICIT UnsignedAttributes OPTIONAL }`. Absence is an empty set. It holds no
/// further signers, and takes no nesting level.
#[derive(Debug, Drop, PartialEq)]
pub struct RawSignerInfo {
    /// Any of the six. The standard has 1 with an issuer and serial number, 3 with a key identifier.
    pub version: CmsVersion,
    pub sid: SignerIdentifier,
    pub digest_algorithm: DigestAlgorithmIdentifier,
    pub signed_attrs: Optional<Attributes>,
    pub signature_algorithm: SignatureAlgorithmIdentifier,
    pub signature: SignatureValue,
    pub unsigned_attrs: Optional<RawUnsignedAttributes>,
}

impl Sequence for RawSignerInfo {
    ghost asn1 = { raw_signer_info };

    ghost value = { raw_signer_info_value };

    fn with_components<U: ComponentVisitor>(&self, visitor: &mut U) -> U::Out {
        visitor.visit(&body_of!(self;
            version, sid, digest_algorithm, (&self.signed_attrs.0) DEFAULT, signature_algorithm,
            signature, (&self.unsigned_attrs.0) DEFAULT
        ))
    }

    fn read_fields(alloc: Global, r: &mut Reader<'_>, nest: u8) -> Result<Self, Error> {
        let components: types_of!(
            version, sid, digest_algorithm, signed DEFAULT, signature_algorithm, signature,
            unsigned DEFAULT
        ) = ReadComponents::read_components(alloc, r, nest)?;
        let fields_of!(
            version, sid, digest_algorithm, signed DEFAULT, signature_algorithm, signature,
            unsigned DEFAULT
        ) = components;
        Ok(RawSignerInfo {
            version,
            sid,
            digest_algorithm,
            signed_attrs: Optional(signed),
            signature_algorithm,
            signature,
            unsigned_attrs: Optional(unsigned),
        })
    }

    fn clone_fields(&self, alloc: Global) -> Result<Self, Error> {
        clone_fields_of!(self, alloc; RawSignerInfo {
            version, sid, digest_algorithm, signed_attrs, signature_algorithm, signature,
            unsigned_attrs
        })
    }

    ghost equal = { raw_signer_equal };
}
