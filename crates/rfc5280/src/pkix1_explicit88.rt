//! The types of PKIX1Explicit88, made of `rfc5280-explicit.asn1`; not to be edited.

ghost use Rattle.rfc5280.specs.Pkix1Explicit88.{directory_string, directory_string_value, directory_string_equal};
ghost use Rattle.rfc5280.specs.Pkix1Explicit88.{validity, validity_value, validity_equal};
ghost use Rattle.rfc5280.specs.Pkix1Explicit88.{subject_public_key_info, subject_public_key_info_value, subject_public_key_info_equal};
ghost use Rattle.rfc5280.specs.Pkix1Explicit88.{tbs_certificate, tbs_certificate_value, tbs_certificate_equal};
ghost use Rattle.rfc5280.specs.Pkix1Explicit88.{certificate, certificate_value, certificate_equal};
ghost use Rattle.rfc5280.specs.Pkix1Explicit88.{tbs_cert_list_revoked_certificates, tbs_cert_list_revoked_certificates_value, tbs_cert_list_revoked_certificates_equal};
ghost use Rattle.rfc5280.specs.Pkix1Explicit88.{tbs_cert_list, tbs_cert_list_value, tbs_cert_list_equal};
ghost use Rattle.rfc5280.specs.Pkix1Explicit88.{certificate_list, certificate_list_value, certificate_list_equal};

use asn1_core::prelude::*;
use asn1_leaves::{BMPStringAsn1, BitStringAsn1, IntegerAsn1, Utf8StringAsn1};
use asn1_module_leaves::{PrintableStringAsn1, TeletexStringAsn1, UniversalStringAsn1};
use std::alloc::Global;
use x509_base::{AlgorithmIdentifier, Extensions, Name, NameValue, Time};

/// `DirectoryString ::= CHOICE { teletexString TeletexString (SIZE (1..MAX)), printableString PrintableString
/// (SIZE (1..MAX)), universalString UniversalString (SIZE (1..MAX)), utf8String UTF8String (SIZE (1..MAX)),
/// bmpString BMPString (SIZE (1..MAX)) }` (RFC 5280, 4.1.2.4)
///
/// (SIZE (1..MAX)) isn't tested; the characters of TeletexString aren't tested; the characters of PrintableString
/// aren't tested; the characters of UniversalString aren't tested.
#[derive(Debug, Drop, PartialEq, Eq)]
pub enum DirectoryString {
    TeletexString(TeletexStringAsn1),
    PrintableString(PrintableStringAsn1),
    UniversalString(UniversalStringAsn1),
    Utf8String(Utf8StringAsn1),
    BmpString(BMPStringAsn1),
}

type DirectoryStringChoice = Either<
    TeletexStringAsn1,
    Either<PrintableStringAsn1, Either<UniversalStringAsn1, Either<Utf8StringAsn1, BMPStringAsn1>>>,
>;

impl Asn1Type for DirectoryString {
    ghost asn1 = { directory_string };

    ghost value = { directory_string_value };

    fn with_encoded<U: ComponentVisitor>(&self, visitor: &mut U) -> U::Out {
        match self {
            DirectoryString::TeletexString(x) => visitor.visit_value(x),
            DirectoryString::PrintableString(x) => visitor.visit_value(x),
            DirectoryString::UniversalString(x) => visitor.visit_value(x),
            DirectoryString::Utf8String(x) => visitor.visit_value(x),
            DirectoryString::BmpString(x) => visitor.visit_value(x),
        }
    }

    fn read_encoded(alloc: Global, r: &mut Reader<'_>, nest: u8) -> Result<Self, Error> {
        let choice: DirectoryStringChoice = Either::read_one(alloc, r, nest)?;
        match choice {
            Either::First(x) => Ok(DirectoryString::TeletexString(x)),
            Either::Second(Either::First(x)) => Ok(DirectoryString::PrintableString(x)),
            Either::Second(Either::Second(Either::First(x))) => Ok(DirectoryString::UniversalString(
                x,
            )),
            Either::Second(Either::Second(Either::Second(Either::First(x)))) => Ok(
                DirectoryString::Utf8String(x),
            ),
            Either::Second(Either::Second(Either::Second(Either::Second(x)))) => Ok(
                DirectoryString::BmpString(x),
            ),
        }
    }

    fn is_first_tag(tag: u8) -> bool {
        tag == 0x0C || tag == 0x13 || tag == 0x14 || tag == 0x1C || tag == 0x1E
    }

    fn clone_value(&self, alloc: Global) -> Result<Self, Error> {
        match self {
            DirectoryString::TeletexString(x) => Ok(DirectoryString::TeletexString(x.try_clone(
                alloc,
            )?)),
            DirectoryString::PrintableString(x) => Ok(DirectoryString::PrintableString(x.try_clone(
                alloc,
            )?)),
            DirectoryString::UniversalString(x) => Ok(DirectoryString::UniversalString(x.try_clone(
                alloc,
            )?)),
            DirectoryString::Utf8String(x) => Ok(DirectoryString::Utf8String(x.try_clone(alloc)?)),
            DirectoryString::BmpString(x) => Ok(DirectoryString::BmpString(x.try_clone(alloc)?)),
        }
    }

    ghost equal = { directory_string_equal };
}

/// `RelativeDistinguishedName ::= SET SIZE (1..MAX) OF AttributeTypeAndValue` (RFC 5280, 4.1.2.4)
///
/// The size (1..MAX) isn't tested.
pub type RelativeDistinguishedName = Asn1SetOf<NameValue>;

/// `CertificateSerialNumber ::= INTEGER` (RFC 5280, 4.1.2.2)
pub type CertificateSerialNumber = IntegerAsn1;

/// `Validity ::= SEQUENCE { notBefore Time, notAfter Time }` (RFC 5280, 4.1.2.5)
#[derive(Debug, Drop, PartialEq, Eq)]
pub struct Validity {
    pub not_before: Time,
    pub not_after: Time,
}

impl Sequence for Validity {
    ghost asn1 = { validity };

    ghost value = { validity_value };

    fn with_components<U: ComponentVisitor>(&self, visitor: &mut U) -> U::Out {
        with_components_of!(self, visitor; Validity { not_before, not_after })
    }

    fn read_fields(alloc: Global, r: &mut Reader<'_>, nest: u8) -> Result<Self, Error> {
        read_fields_of!(alloc, r, nest; Validity { not_before, not_after })
    }

    fn clone_fields(&self, alloc: Global) -> Result<Self, Error> {
        clone_fields_of!(self, alloc; Validity { not_before, not_after })
    }

    ghost equal = { validity_equal };
}

/// `SubjectPublicKeyInfo ::= SEQUENCE { algorithm AlgorithmIdentifier, subjectPublicKey BIT STRING }` (RFC 5280,
/// 4.1.2.7)
#[derive(Debug, Drop, PartialEq, Eq)]
pub struct SubjectPublicKeyInfo {
    pub algorithm: AlgorithmIdentifier,
    pub subject_public_key: BitStringAsn1,
}

impl Sequence for SubjectPublicKeyInfo {
    ghost asn1 = { subject_public_key_info };

    ghost value = { subject_public_key_info_value };

    fn with_components<U: ComponentVisitor>(&self, visitor: &mut U) -> U::Out {
        with_components_of!(self, visitor; SubjectPublicKeyInfo { algorithm, subject_public_key })
    }

    fn read_fields(alloc: Global, r: &mut Reader<'_>, nest: u8) -> Result<Self, Error> {
        read_fields_of!(alloc, r, nest; SubjectPublicKeyInfo { algorithm, subject_public_key })
    }

    fn clone_fields(&self, alloc: Global) -> Result<Self, Error> {
        clone_fields_of!(self, alloc; SubjectPublicKeyInfo { algorithm, subject_public_key })
    }

    ghost equal = { subject_public_key_info_equal };
}

/// `UniqueIdentifier ::= BIT STRING` (RFC 5280, 4.1.2.8)
pub type UniqueIdentifier = BitStringAsn1;

/// `TBSCertificate ::= SEQUENCE { version [0] Version DEFAULT v1, serialNumber CertificateSerialNumber, signature
/// AlgorithmIdentifier, issuer Name, validity Validity, subject Name, subjectPublicKeyInfo SubjectPublicKeyInfo,
/// issuerUniqueID [1] IMPLICIT UniqueIdentifier OPTIONAL, subjectUniqueID [2] IMPLICIT UniqueIdentifier OPTIONAL,
/// extensions [3] Extensions OPTIONAL }` (RFC 5280, 4.1)
///
/// Version is read from 0 to 255 alone.
#[derive(Debug, Drop, PartialEq, Eq)]
pub struct TbsCertificate {
    pub version: Explicit<0, DefaultNumber<0>>,
    pub serial_number: CertificateSerialNumber,
    pub signature: AlgorithmIdentifier,
    pub issuer: Name,
    pub validity: Validity,
    pub subject: Name,
    pub subject_public_key_info: SubjectPublicKeyInfo,
    pub issuer_unique_id: Option<Implicit<1, UniqueIdentifier>>,
    pub subject_unique_id: Option<Implicit<2, UniqueIdentifier>>,
    pub extensions: Option<Explicit<3, Extensions>>,
}

macro_rules! tbs_certificate_parts {
    ($by:ident($($with:ident),*)) => {
        $by!($($with),*; TbsCertificate {
            version DEFAULT, serial_number, signature, issuer, validity, subject, subject_public_key_info,
            issuer_unique_id OPTIONAL, subject_unique_id OPTIONAL, extensions OPTIONAL
        })
    };
}

impl Sequence for TbsCertificate {
    ghost asn1 = { tbs_certificate };

    ghost value = { tbs_certificate_value };

    fn with_components<U: ComponentVisitor>(&self, visitor: &mut U) -> U::Out {
        tbs_certificate_parts!(with_components_of(self, visitor))
    }

    fn read_fields(alloc: Global, r: &mut Reader<'_>, nest: u8) -> Result<Self, Error> {
        tbs_certificate_parts!(read_fields_of(alloc, r, nest))
    }

    fn clone_fields(&self, alloc: Global) -> Result<Self, Error> {
        tbs_certificate_parts!(clone_fields_of(self, alloc))
    }

    ghost equal = { tbs_certificate_equal };
}

/// `Certificate ::= SEQUENCE { tbsCertificate TBSCertificate, signatureAlgorithm AlgorithmIdentifier, signature
/// BIT STRING }` (RFC 5280, 4.1)
#[derive(Debug, Drop, PartialEq, Eq)]
pub struct Certificate {
    pub tbs_certificate: TbsCertificate,
    pub signature_algorithm: AlgorithmIdentifier,
    pub signature: BitStringAsn1,
}

macro_rules! certificate_parts {
    ($by:ident($($with:ident),*)) => {
        $by!($($with),*; Certificate {
            tbs_certificate, signature_algorithm, signature
        })
    };
}

impl Sequence for Certificate {
    ghost asn1 = { certificate };

    ghost value = { certificate_value };

    fn with_components<U: ComponentVisitor>(&self, visitor: &mut U) -> U::Out {
        certificate_parts!(with_components_of(self, visitor))
    }

    fn read_fields(alloc: Global, r: &mut Reader<'_>, nest: u8) -> Result<Self, Error> {
        certificate_parts!(read_fields_of(alloc, r, nest))
    }

    fn clone_fields(&self, alloc: Global) -> Result<Self, Error> {
        certificate_parts!(clone_fields_of(self, alloc))
    }

    ghost equal = { certificate_equal };
}

/// `Version ::= INTEGER { v1(0), v2(1), v3(2) }` (RFC 5280, 4.1.2.1)
///
/// An INTEGER with named numbers is read from 0 to 255 alone.
pub type Version = u8;

/// `v1`
pub const VERSION_V1: Version = 0;

/// `v2`
pub const VERSION_V2: Version = 1;

/// `v3`
pub const VERSION_V3: Version = 2;

/// `TBSCertList.revokedCertificates ::= SEQUENCE { userCertificate CertificateSerialNumber, revocationDate Time,
/// crlEntryExtensions Extensions OPTIONAL }` (RFC 5280, 5.1)
#[derive(Debug, Drop, PartialEq, Eq)]
pub struct TbsCertListRevokedCertificates {
    pub user_certificate: CertificateSerialNumber,
    pub revocation_date: Time,
    pub crl_entry_extensions: Option<Extensions>,
}

macro_rules! tbs_cert_list_revoked_certificates_parts {
    ($by:ident($($with:ident),*)) => {
        $by!($($with),*; TbsCertListRevokedCertificates {
            user_certificate, revocation_date, crl_entry_extensions OPTIONAL
        })
    };
}

impl Sequence for TbsCertListRevokedCertificates {
    ghost asn1 = { tbs_cert_list_revoked_certificates };

    ghost value = { tbs_cert_list_revoked_certificates_value };

    fn with_components<U: ComponentVisitor>(&self, visitor: &mut U) -> U::Out {
        tbs_cert_list_revoked_certificates_parts!(with_components_of(self, visitor))
    }

    fn read_fields(alloc: Global, r: &mut Reader<'_>, nest: u8) -> Result<Self, Error> {
        tbs_cert_list_revoked_certificates_parts!(read_fields_of(alloc, r, nest))
    }

    fn clone_fields(&self, alloc: Global) -> Result<Self, Error> {
        tbs_cert_list_revoked_certificates_parts!(clone_fields_of(self, alloc))
    }

    ghost equal = { tbs_cert_list_revoked_certificates_equal };
}

/// `TBSCertList ::= SEQUENCE { version Version OPTIONAL, signature AlgorithmIdentifier, issuer Name, thisUpdate
/// Time, nextUpdate Time OPTIONAL, revokedCertificates SEQUENCE OF SEQUENCE { userCertificate
/// CertificateSerialNumber, revocationDate Time, crlEntryExtensions Extensions OPTIONAL } OPTIONAL, crlExtensions
/// [0] Extensions OPTIONAL }` (RFC 5280, 5.1)
#[derive(Debug, Drop, PartialEq, Eq)]
pub struct TbsCertList {
    pub version: Option<Version>,
    pub signature: AlgorithmIdentifier,
    pub issuer: Name,
    pub this_update: Time,
    pub next_update: Option<Time>,
    pub revoked_certificates: Option<Asn1SequenceOf<TbsCertListRevokedCertificates>>,
    pub crl_extensions: Option<Explicit<0, Extensions>>,
}

macro_rules! tbs_cert_list_parts {
    ($by:ident($($with:ident),*)) => {
        $by!($($with),*; TbsCertList {
            version OPTIONAL, signature, issuer, this_update, next_update OPTIONAL, revoked_certificates OPTIONAL,
            crl_extensions OPTIONAL
        })
    };
}

impl Sequence for TbsCertList {
    ghost asn1 = { tbs_cert_list };

    ghost value = { tbs_cert_list_value };

    fn with_components<U: ComponentVisitor>(&self, visitor: &mut U) -> U::Out {
        tbs_cert_list_parts!(with_components_of(self, visitor))
    }

    fn read_fields(alloc: Global, r: &mut Reader<'_>, nest: u8) -> Result<Self, Error> {
        tbs_cert_list_parts!(read_fields_of(alloc, r, nest))
    }

    fn clone_fields(&self, alloc: Global) -> Result<Self, Error> {
        tbs_cert_list_parts!(clone_fields_of(self, alloc))
    }

    ghost equal = { tbs_cert_list_equal };
}

/// `CertificateList ::= SEQUENCE { tbsCertList TBSCertList, signatureAlgorithm AlgorithmIdentifier, signature BIT
/// STRING }` (RFC 5280, 5.1)
#[derive(Debug, Drop, PartialEq, Eq)]
pub struct CertificateList {
    pub tbs_cert_list: TbsCertList,
    pub signature_algorithm: AlgorithmIdentifier,
    pub signature: BitStringAsn1,
}

macro_rules! certificate_list_parts {
    ($by:ident($($with:ident),*)) => {
        $by!($($with),*; CertificateList {
            tbs_cert_list, signature_algorithm, signature
        })
    };
}

impl Sequence for CertificateList {
    ghost asn1 = { certificate_list };

    ghost value = { certificate_list_value };

    fn with_components<U: ComponentVisitor>(&self, visitor: &mut U) -> U::Out {
        certificate_list_parts!(with_components_of(self, visitor))
    }

    fn read_fields(alloc: Global, r: &mut Reader<'_>, nest: u8) -> Result<Self, Error> {
        certificate_list_parts!(read_fields_of(alloc, r, nest))
    }

    fn clone_fields(&self, alloc: Global) -> Result<Self, Error> {
        certificate_list_parts!(clone_fields_of(self, alloc))
    }

    ghost equal = { certificate_list_equal };
}

/// `id-pkix`, 1.3.6.1.5.5.7, by its contents octets.
pub const ID_PKIX: [u8; 6] = [0x2B, 0x06, 0x01, 0x05, 0x05, 0x07];

/// `id-pe`, 1.3.6.1.5.5.7.1, by its contents octets.
pub const ID_PE: [u8; 7] = [0x2B, 0x06, 0x01, 0x05, 0x05, 0x07, 0x01];

/// `id-qt`, 1.3.6.1.5.5.7.2, by its contents octets.
pub const ID_QT: [u8; 7] = [0x2B, 0x06, 0x01, 0x05, 0x05, 0x07, 0x02];

/// `id-kp`, 1.3.6.1.5.5.7.3, by its contents octets.
pub const ID_KP: [u8; 7] = [0x2B, 0x06, 0x01, 0x05, 0x05, 0x07, 0x03];

/// `id-ad`, 1.3.6.1.5.5.7.48, by its contents octets.
pub const ID_AD: [u8; 7] = [0x2B, 0x06, 0x01, 0x05, 0x05, 0x07, 0x30];

/// `id-qt-cps`, 1.3.6.1.5.5.7.2.1, by its contents octets.
pub const ID_QT_CPS: [u8; 8] = [0x2B, 0x06, 0x01, 0x05, 0x05, 0x07, 0x02, 0x01];

/// `id-qt-unotice`, 1.3.6.1.5.5.7.2.2, by its contents octets.
pub const ID_QT_UNOTICE: [u8; 8] = [0x2B, 0x06, 0x01, 0x05, 0x05, 0x07, 0x02, 0x02];

/// `id-ad-ocsp`, 1.3.6.1.5.5.7.48.1, by its contents octets.
pub const ID_AD_OCSP: [u8; 8] = [0x2B, 0x06, 0x01, 0x05, 0x05, 0x07, 0x30, 0x01];

/// `id-ad-caIssuers`, 1.3.6.1.5.5.7.48.2, by its contents octets.
pub const ID_AD_CA_ISSUERS: [u8; 8] = [0x2B, 0x06, 0x01, 0x05, 0x05, 0x07, 0x30, 0x02];

/// `id-at`, 2.5.4, by its contents octets.
pub const ID_AT: [u8; 2] = [0x55, 0x04];

/// `id-at-commonName`, 2.5.4.3, by its contents octets.
pub const ID_AT_COMMON_NAME: [u8; 3] = [0x55, 0x04, 0x03];

/// `id-at-serialNumber`, 2.5.4.5, by its contents octets.
pub const ID_AT_SERIAL_NUMBER: [u8; 3] = [0x55, 0x04, 0x05];

/// `id-at-countryName`, 2.5.4.6, by its contents octets.
pub const ID_AT_COUNTRY_NAME: [u8; 3] = [0x55, 0x04, 0x06];

/// `id-at-localityName`, 2.5.4.7, by its contents octets.
pub const ID_AT_LOCALITY_NAME: [u8; 3] = [0x55, 0x04, 0x07];

/// `id-at-stateOrProvinceName`, 2.5.4.8, by its contents octets.
pub const ID_AT_STATE_OR_PROVINCE_NAME: [u8; 3] = [0x55, 0x04, 0x08];

/// `id-at-organizationName`, 2.5.4.10, by its contents octets.
pub const ID_AT_ORGANIZATION_NAME: [u8; 3] = [0x55, 0x04, 0x0A];

/// `id-at-organizationalUnitName`, 2.5.4.11, by its contents octets.
pub const ID_AT_ORGANIZATIONAL_UNIT_NAME: [u8; 3] = [0x55, 0x04, 0x0B];

/// `id-domainComponent`, 0.9.2342.19200300.100.1.25, by its contents octets.
pub const ID_DOMAIN_COMPONENT: [u8; 10] = [
    0x09, 0x92, 0x26, 0x89, 0x93, 0xF2, 0x2C, 0x64, 0x01, 0x19,
];
