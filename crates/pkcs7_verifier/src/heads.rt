//! Certificates, as far as a verifier of signed data looks into them (RFC 5280, 4.1).

ghost use Rattle.std.specs.Prelude.{◌≡◌};
ghost use Rattle.asn1_core.specs.Der.{option_value};
ghost use Rattle.x509_base.specs.Versions.{version_value};
ghost use Rattle.pkcs7_verifier.specs.Heads.{tbs_certificate_head, tbs_certificate_head_value, tbs_head_equal, certificate_head, certificate_head_value, certificate_equal};

use asn1_core::prelude::*;
use asn1_leaves::BitStringAsn1;
use pkcs7_signed_crl::CertificateSerialNumber;
use std::alloc::Global;
use x509_base::{AlgorithmIdentifier, Name, Version};

/// The version in its tag, where there is one.
fn tagged(version: Option<Version>) -> Option<ExplicitContextTag0<Version>>
    ensures { option_value (λ x. version_value x.0) result ≡ option_value version_value version }
{
    match version {
        Some(version) => Some(ExplicitContextTag0(version)),
        None => None,
    }
}

/// The version without its tag.
fn untagged(version: Option<ExplicitContextTag0<Version>>) -> Option<Version>
    ensures { option_value version_value result ≡ option_value (λ x. version_value x.0) version }
{
    match version {
        Some(ExplicitContextTag0(version)) => Some(version),
        None => None,
    }
}

/// `TBSCertificate ::= SEQUENCE { version [0] EXPLICIT Version DEFAULT v1, serialNumber CertificateSerialNumber,
/// signature AlgorithmIdentifier, issuer Name, validity Validity, subject Name, subjectPublicKeyInfo
/// SubjectPublicKeyInfo, issuerUniqueID [1] .. OPTIONAL, subjectUniqueID [2] .. OPTIONAL, extensions [3] .. OPTIONAL }`
#[derive(Debug, Drop, PartialEq, Eq)]
pub struct TbsCertificateHead {
    /// `None` is v1. A v1 that is there, as DER has it not, is kept.
    pub version: Option<Version>,
    pub serial_number: CertificateSerialNumber,
    pub signature: AlgorithmIdentifier,
    pub issuer: Name,
    /// As it is.
    pub validity: Asn1RawDer,
    pub subject: Name,
    /// As it is.
    pub subject_public_key_info: Asn1RawDer,
    /// The unique identifiers and the extensions, each element as it is.
    pub rest: Vec<Asn1RawDer>,
}

type HeadComponents = Maybe<
    ExplicitContextTag0<Version>,
    Required<
        CertificateSerialNumber,
        Required<
            AlgorithmIdentifier,
            Required<
                Name,
                Required<Asn1RawDer, Required<Name, Required<Asn1RawDer, Vec<Asn1RawDer>>>>,
            >,
        >,
    >,
>;

impl Sequence for TbsCertificateHead {
    ghost asn1 = { tbs_certificate_head };

    ghost value = { tbs_certificate_head_value };

    fn with_components<U: ComponentVisitor>(&self, visitor: &mut U) -> U::Out {
        let key = Required(Ref(&self.subject_public_key_info), &self.rest);
        let validity = Required(Ref(&self.validity), Required(Ref(&self.subject), key));
        let signature = Required(Ref(&self.signature), Required(Ref(&self.issuer), validity));
        let serial_number = Required(Ref(&self.serial_number), signature);
        visitor.visit(&Maybe(tagged(self.version), serial_number))
    }

    fn read_fields(alloc: Global, r: &mut Reader<'_>, nest: u8) -> Result<Self, Error> {
        let components: HeadComponents = ReadComponents::read_components(alloc, r, nest)?;
        let Maybe(version, Required(serial_number, Required(signature, Required(issuer, rest)))) =
            components;
        let Required(validity, Required(subject, Required(subject_public_key_info, rest))) = rest;
        Ok(TbsCertificateHead {
            version: untagged(version),
            serial_number,
            signature,
            issuer,
            validity,
            subject,
            subject_public_key_info,
            rest,
        })
    }

    fn clone_fields(&self, alloc: Global) -> Result<Self, Error> {
        clone_of!(self, alloc; TbsCertificateHead {
            serial_number, signature, issuer, validity, subject, subject_public_key_info, rest;
            version
        })
    }

    ghost equal = { tbs_head_equal };
}

/// `Certificate ::= SEQUENCE { tbsCertificate TBSCertificate, signatureAlgorithm AlgorithmIdentifier, signature BIT
/// STRING }`. A certificate in signed data is kept as it is; this is read from its octets.
#[derive(Debug, Drop, PartialEq, Eq)]
pub struct CertificateHead {
    pub tbs_certificate: TbsCertificateHead,
    pub signature_algorithm: AlgorithmIdentifier,
    pub signature: BitStringAsn1,
}

impl Sequence for CertificateHead {
    ghost asn1 = { certificate_head };

    ghost value = { certificate_head_value };

    fn with_components<U: ComponentVisitor>(&self, visitor: &mut U) -> U::Out {
        with_components_of!(self, visitor; CertificateHead {
            tbs_certificate, signature_algorithm, signature
        })
    }

    fn read_fields(alloc: Global, r: &mut Reader<'_>, nest: u8) -> Result<Self, Error> {
        read_fields_of!(alloc, r, nest; CertificateHead {
            tbs_certificate, signature_algorithm, signature
        })
    }

    fn clone_fields(&self, alloc: Global) -> Result<Self, Error> {
        clone_fields_of!(self, alloc; CertificateHead {
            tbs_certificate, signature_algorithm, signature
        })
    }

    ghost equal = { certificate_equal };
}
