//! The types of OCSP-2013-88, made of `rfc6960.asn1`; not to be edited.

ghost use Rattle.rfc6960.specs.Ocsp201388.{cert_id, cert_id_value, cert_id_equal};
ghost use Rattle.rfc6960.specs.Ocsp201388.{request, request_value, request_equal};
ghost use Rattle.rfc6960.specs.Ocsp201388.{tbs_request, tbs_request_value, tbs_request_equal};
ghost use Rattle.rfc6960.specs.Ocsp201388.{signature, signature_value, signature_equal};
ghost use Rattle.rfc6960.specs.Ocsp201388.{ocsp_request, ocsp_request_value, ocsp_request_equal};
ghost use Rattle.rfc6960.specs.Ocsp201388.{ocsp_response_status, ocsp_response_status_value, ocsp_response_status_equal, ocsp_response_status_numbers};
ghost use Rattle.rfc6960.specs.Ocsp201388.{response_bytes, response_bytes_value, response_bytes_equal};
ghost use Rattle.rfc6960.specs.Ocsp201388.{ocsp_response, ocsp_response_value, ocsp_response_equal};
ghost use Rattle.rfc6960.specs.Ocsp201388.{responder_id, responder_id_value, responder_id_equal};
ghost use Rattle.rfc6960.specs.Ocsp201388.{revoked_info, revoked_info_value, revoked_info_equal};
ghost use Rattle.rfc6960.specs.Ocsp201388.{cert_status, cert_status_value, cert_status_equal};
ghost use Rattle.rfc6960.specs.Ocsp201388.{single_response, single_response_value, single_response_equal};
ghost use Rattle.rfc6960.specs.Ocsp201388.{response_data, response_data_value, response_data_equal};
ghost use Rattle.rfc6960.specs.Ocsp201388.{basic_ocsp_response, basic_ocsp_response_value, basic_ocsp_response_equal};
ghost use Rattle.rfc6960.specs.Ocsp201388.{basic_response_bytes, basic_response_bytes_value, basic_response_bytes_equal};
ghost use Rattle.rfc6960.specs.Ocsp201388.{service_locator, service_locator_value, service_locator_equal};
ghost use Rattle.rfc6960.specs.Ocsp201388.{crl_id, crl_id_value, crl_id_equal};
ghost use Rattle.rfc6960.specs.Ocsp201388.{preferred_signature_algorithm, preferred_signature_algorithm_value, preferred_signature_algorithm_equal};
ghost use Rattle.rfc6960.specs.laws.Ocsp201388.{ocsp_response_status_listed};
ghost use Rattle.std.proofs.Common.{ℕ, refl};
ghost use Rattle.asn1_module_leaves.specs.Enumerations.{numbers_in};

use asn1_core::prelude::*;
use asn1_leaves::{BitStringAsn1, GeneralizedTimeAsn1, IA5StringAsn1, IntegerAsn1};
use asn1_module_leaves::{Enumerated, NullAsn1, Under, enumerated_from_contents};
use rfc5280::pkix1_explicit88::{Certificate, CertificateSerialNumber};
use rfc5280::pkix1_implicit88::{AuthorityInfoAccessSyntax, CrlReason, GeneralName};
use std::alloc::Global;
use x509_base::{AlgorithmIdentifier, Extensions, Name};

/// `CertID ::= SEQUENCE { hashAlgorithm AlgorithmIdentifier, issuerNameHash OCTET STRING, issuerKeyHash OCTET
/// STRING, serialNumber CertificateSerialNumber }` (RFC 6960, 4.1.1)
#[derive(Debug, Drop, PartialEq, Eq)]
pub struct CertId {
    pub hash_algorithm: AlgorithmIdentifier,
    pub issuer_name_hash: OctetStringAsn1,
    pub issuer_key_hash: OctetStringAsn1,
    pub serial_number: CertificateSerialNumber,
}

macro_rules! cert_id_parts {
    ($by:ident($($with:ident),*)) => {
        $by!($($with),*; CertId {
            hash_algorithm, issuer_name_hash, issuer_key_hash, serial_number
        })
    };
}

impl Sequence for CertId {
    ghost asn1 = { cert_id };

    ghost value = { cert_id_value };

    fn with_components<U: ComponentVisitor>(&self, visitor: &mut U) -> U::Out {
        cert_id_parts!(with_components_of(self, visitor))
    }

    fn read_fields(alloc: Global, r: &mut Reader<'_>, nest: u8) -> Result<Self, Error> {
        cert_id_parts!(read_fields_of(alloc, r, nest))
    }

    fn clone_fields(&self, alloc: Global) -> Result<Self, Error> {
        cert_id_parts!(clone_fields_of(self, alloc))
    }

    ghost equal = { cert_id_equal };
}

/// `Request ::= SEQUENCE { reqCert CertID, singleRequestExtensions [0] EXPLICIT Extensions OPTIONAL }` (RFC 6960,
/// 4.1.1)
#[derive(Debug, Drop, PartialEq, Eq)]
pub struct Request {
    pub req_cert: CertId,
    pub single_request_extensions: Option<Explicit<0, Extensions>>,
}

impl Sequence for Request {
    ghost asn1 = { request };

    ghost value = { request_value };

    fn with_components<U: ComponentVisitor>(&self, visitor: &mut U) -> U::Out {
        with_components_of!(self, visitor; Request { req_cert, single_request_extensions OPTIONAL })
    }

    fn read_fields(alloc: Global, r: &mut Reader<'_>, nest: u8) -> Result<Self, Error> {
        read_fields_of!(alloc, r, nest; Request { req_cert, single_request_extensions OPTIONAL })
    }

    fn clone_fields(&self, alloc: Global) -> Result<Self, Error> {
        clone_fields_of!(self, alloc; Request { req_cert, single_request_extensions OPTIONAL })
    }

    ghost equal = { request_equal };
}

/// `TBSRequest ::= SEQUENCE { version [0] EXPLICIT Version DEFAULT v1, requestorName [1] EXPLICIT GeneralName
/// OPTIONAL, requestList SEQUENCE OF Request, requestExtensions [2] EXPLICIT Extensions OPTIONAL }` (RFC 6960,
/// 4.1.1)
///
/// Version is read from 0 to 255 alone.
#[derive(Debug, Drop, PartialEq, Eq)]
pub struct TbsRequest {
    pub version: Explicit<0, DefaultNumber<0>>,
    pub requestor_name: Option<Explicit<1, GeneralName>>,
    pub request_list: Asn1SequenceOf<Request>,
    pub request_extensions: Option<Explicit<2, Extensions>>,
}

macro_rules! tbs_request_parts {
    ($by:ident($($with:ident),*)) => {
        $by!($($with),*; TbsRequest {
            version DEFAULT, requestor_name OPTIONAL, request_list, request_extensions OPTIONAL
        })
    };
}

impl Sequence for TbsRequest {
    ghost asn1 = { tbs_request };

    ghost value = { tbs_request_value };

    fn with_components<U: ComponentVisitor>(&self, visitor: &mut U) -> U::Out {
        tbs_request_parts!(with_components_of(self, visitor))
    }

    fn read_fields(alloc: Global, r: &mut Reader<'_>, nest: u8) -> Result<Self, Error> {
        tbs_request_parts!(read_fields_of(alloc, r, nest))
    }

    fn clone_fields(&self, alloc: Global) -> Result<Self, Error> {
        tbs_request_parts!(clone_fields_of(self, alloc))
    }

    ghost equal = { tbs_request_equal };
}

/// `Signature ::= SEQUENCE { signatureAlgorithm AlgorithmIdentifier, signature BIT STRING, certs [0] EXPLICIT
/// SEQUENCE OF Certificate OPTIONAL }` (RFC 6960, 4.1.1)
#[derive(Debug, Drop, PartialEq, Eq)]
pub struct Signature {
    pub signature_algorithm: AlgorithmIdentifier,
    pub signature: BitStringAsn1,
    pub certs: Option<Explicit<0, Asn1SequenceOf<Certificate>>>,
}

macro_rules! signature_parts {
    ($by:ident($($with:ident),*)) => {
        $by!($($with),*; Signature {
            signature_algorithm, signature, certs OPTIONAL
        })
    };
}

impl Sequence for Signature {
    ghost asn1 = { signature };

    ghost value = { signature_value };

    fn with_components<U: ComponentVisitor>(&self, visitor: &mut U) -> U::Out {
        signature_parts!(with_components_of(self, visitor))
    }

    fn read_fields(alloc: Global, r: &mut Reader<'_>, nest: u8) -> Result<Self, Error> {
        signature_parts!(read_fields_of(alloc, r, nest))
    }

    fn clone_fields(&self, alloc: Global) -> Result<Self, Error> {
        signature_parts!(clone_fields_of(self, alloc))
    }

    ghost equal = { signature_equal };
}

/// `OCSPRequest ::= SEQUENCE { tbsRequest TBSRequest, optionalSignature [0] EXPLICIT Signature OPTIONAL }` (RFC
/// 6960, 4.1.1)
#[derive(Debug, Drop, PartialEq, Eq)]
pub struct OcspRequest {
    pub tbs_request: TbsRequest,
    pub optional_signature: Option<Explicit<0, Signature>>,
}

impl Sequence for OcspRequest {
    ghost asn1 = { ocsp_request };

    ghost value = { ocsp_request_value };

    fn with_components<U: ComponentVisitor>(&self, visitor: &mut U) -> U::Out {
        with_components_of!(self, visitor; OcspRequest { tbs_request, optional_signature OPTIONAL })
    }

    fn read_fields(alloc: Global, r: &mut Reader<'_>, nest: u8) -> Result<Self, Error> {
        read_fields_of!(alloc, r, nest; OcspRequest { tbs_request, optional_signature OPTIONAL })
    }

    fn clone_fields(&self, alloc: Global) -> Result<Self, Error> {
        clone_fields_of!(self, alloc; OcspRequest { tbs_request, optional_signature OPTIONAL })
    }

    ghost equal = { ocsp_request_equal };
}

/// `Version ::= INTEGER { v1(0) }` (RFC 6960, 4.1.1)
///
/// An INTEGER with named numbers is read from 0 to 255 alone.
pub type Version = u8;

/// `v1`
pub const VERSION_V1: Version = 0;

/// `OCSPResponseStatus ::= ENUMERATED { successful(0), malformedRequest(1), internalError(2), tryLater(3),
/// sigRequired(5), unauthorized(6) }` (RFC 6960, 4.2.1)
#[derive(Clone, Copy, Debug, PartialEq, Eq)]
pub enum OcspResponseStatus {
    Successful,
    MalformedRequest,
    InternalError,
    TryLater,
    SigRequired,
    Unauthorized,
}

impl Enumerated for OcspResponseStatus {
    ghost numbers = { ocsp_response_status_numbers };

    ghost number_of = { ocsp_response_status_value };

    fn from_number(number: u8) -> Option<Self> {
        match number {
            0 => Some(OcspResponseStatus::Successful),
            1 => Some(OcspResponseStatus::MalformedRequest),
            2 => Some(OcspResponseStatus::InternalError),
            3 => Some(OcspResponseStatus::TryLater),
            5 => Some(OcspResponseStatus::SigRequired),
            6 => Some(OcspResponseStatus::Unauthorized),
            _ => None,
        }
    }

    fn number(&self) -> u8 {
        match self {
            OcspResponseStatus::Successful => 0,
            OcspResponseStatus::MalformedRequest => 1,
            OcspResponseStatus::InternalError => 2,
            OcspResponseStatus::TryLater => 3,
            OcspResponseStatus::SigRequired => 5,
            OcspResponseStatus::Unauthorized => 6,
        }
    }

    ghost low = { refl };

    ghost listed = { ocsp_response_status_listed };
}

impl Leaf for OcspResponseStatus {
    ghost Value = { ℕ };

    ghost value = { ocsp_response_status_value };

    ghost spelling = { numbers_in ocsp_response_status_numbers };

    fn from_contents(alloc: Global, contents: &[u8]) -> Result<Self, Error> {
        enumerated_from_contents(alloc, contents)
    }
}

impl TaggedType for OcspResponseStatus {
    ghost asn1 = { ocsp_response_status };

    ghost value = { ocsp_response_status_value };

    ghost TAG = { 0x0A };

    const TAG: u8 = 0x0A;

    fn put_tagged<W: Writer>(&self, tag: u8, w: &mut W) -> Result<(), WriteError> {
        put_unsigned(tag, u32::from(self.number()), w)
    }

    #[tactic(auto, using(crate::specs::laws::Ocsp201388::ocsp_response_status_listed))]
    fn is_well_formed_at(&self, _limit: u8) -> bool {
        true
    }

    fn read_open_contents(alloc: Global, r: &mut Reader<'_>, nest: u8) -> Result<Self, Error> {
        read_leaf_contents(alloc, r, nest, 0x0A)
    }

    fn clone_value(&self, _alloc: Global) -> Result<Self, Error> {
        Ok(*self)
    }

    ghost tagged = { ocsp_response_status.tagged };

    ghost equal = { ocsp_response_status_equal };
}

/// `ResponseBytes ::= SEQUENCE { responseType OBJECT IDENTIFIER, response OCTET STRING }` (RFC 6960, 4.2.1)
#[derive(Debug, Drop, PartialEq, Eq)]
pub struct ResponseBytes {
    pub response_type: ObjectIdentifierAsn1,
    pub response: OctetStringAsn1,
}

impl Sequence for ResponseBytes {
    ghost asn1 = { response_bytes };

    ghost value = { response_bytes_value };

    fn with_components<U: ComponentVisitor>(&self, visitor: &mut U) -> U::Out {
        with_components_of!(self, visitor; ResponseBytes { response_type, response })
    }

    fn read_fields(alloc: Global, r: &mut Reader<'_>, nest: u8) -> Result<Self, Error> {
        read_fields_of!(alloc, r, nest; ResponseBytes { response_type, response })
    }

    fn clone_fields(&self, alloc: Global) -> Result<Self, Error> {
        clone_fields_of!(self, alloc; ResponseBytes { response_type, response })
    }

    ghost equal = { response_bytes_equal };
}

/// `OCSPResponse ::= SEQUENCE { responseStatus OCSPResponseStatus, responseBytes [0] EXPLICIT ResponseBytes
/// OPTIONAL }` (RFC 6960, 4.2.1)
#[derive(Debug, Drop, PartialEq, Eq)]
pub struct OcspResponse {
    pub response_status: OcspResponseStatus,
    pub response_bytes: Option<Explicit<0, ResponseBytes>>,
}

impl Sequence for OcspResponse {
    ghost asn1 = { ocsp_response };

    ghost value = { ocsp_response_value };

    fn with_components<U: ComponentVisitor>(&self, visitor: &mut U) -> U::Out {
        with_components_of!(self, visitor; OcspResponse { response_status, response_bytes OPTIONAL })
    }

    fn read_fields(alloc: Global, r: &mut Reader<'_>, nest: u8) -> Result<Self, Error> {
        read_fields_of!(alloc, r, nest; OcspResponse { response_status, response_bytes OPTIONAL })
    }

    fn clone_fields(&self, alloc: Global) -> Result<Self, Error> {
        clone_fields_of!(self, alloc; OcspResponse { response_status, response_bytes OPTIONAL })
    }

    ghost equal = { ocsp_response_equal };
}

/// `KeyHash ::= OCTET STRING` (RFC 6960, 4.2.1)
pub type KeyHash = OctetStringAsn1;

/// `ResponderID ::= CHOICE { byName [1] Name, byKey [2] KeyHash }` (RFC 6960, 4.2.1)
#[derive(Debug, Drop, PartialEq, Eq)]
pub enum ResponderId {
    ByName(Name),
    ByKey(KeyHash),
}

type ResponderIdChoice = Either<Explicit<1, Name>, Explicit<2, KeyHash>>;

impl Asn1Type for ResponderId {
    ghost asn1 = { responder_id };

    ghost value = { responder_id_value };

    fn with_encoded<U: ComponentVisitor>(&self, visitor: &mut U) -> U::Out {
        match self {
            ResponderId::ByName(x) => visitor.visit_within::<0xA1, _>(&Alone(Ref(x))),
            ResponderId::ByKey(x) => visitor.visit_within::<0xA2, _>(&Alone(Ref(x))),
        }
    }

    fn read_encoded(alloc: Global, r: &mut Reader<'_>, nest: u8) -> Result<Self, Error> {
        let choice: ResponderIdChoice = Either::read_one(alloc, r, nest)?;
        match choice {
            Either::First(x) => {
                let Explicit(x) = x;
                Ok(ResponderId::ByName(x))
            }
            Either::Second(x) => {
                let Explicit(x) = x;
                Ok(ResponderId::ByKey(x))
            }
        }
    }

    fn is_first_tag(tag: u8) -> bool {
        tag == 0xA1 || tag == 0xA2
    }

    fn clone_value(&self, alloc: Global) -> Result<Self, Error> {
        match self {
            ResponderId::ByName(x) => Ok(ResponderId::ByName(x.try_clone(alloc)?)),
            ResponderId::ByKey(x) => Ok(ResponderId::ByKey(x.try_clone(alloc)?)),
        }
    }

    ghost equal = { responder_id_equal };
}

/// `RevokedInfo ::= SEQUENCE { revocationTime GeneralizedTime, revocationReason [0] EXPLICIT CRLReason OPTIONAL }`
/// (RFC 6960, 4.2.1)
///
/// A GeneralizedTime with a fraction of a second is refused.
#[derive(Debug, Drop, PartialEq, Eq)]
pub struct RevokedInfo {
    pub revocation_time: GeneralizedTimeAsn1,
    pub revocation_reason: Option<Explicit<0, CrlReason>>,
}

impl Sequence for RevokedInfo {
    ghost asn1 = { revoked_info };

    ghost value = { revoked_info_value };

    fn with_components<U: ComponentVisitor>(&self, visitor: &mut U) -> U::Out {
        with_components_of!(self, visitor; RevokedInfo { revocation_time, revocation_reason OPTIONAL })
    }

    fn read_fields(alloc: Global, r: &mut Reader<'_>, nest: u8) -> Result<Self, Error> {
        read_fields_of!(alloc, r, nest; RevokedInfo { revocation_time, revocation_reason OPTIONAL })
    }

    fn clone_fields(&self, alloc: Global) -> Result<Self, Error> {
        clone_fields_of!(self, alloc; RevokedInfo { revocation_time, revocation_reason OPTIONAL })
    }

    ghost equal = { revoked_info_equal };
}

/// `UnknownInfo ::= NULL` (RFC 6960, 4.2.1)
pub type UnknownInfo = NullAsn1;

/// `CertStatus ::= CHOICE { good [0] IMPLICIT NULL, revoked [1] IMPLICIT RevokedInfo, unknown [2] IMPLICIT
/// UnknownInfo }` (RFC 6960, 4.2.1)
#[derive(Debug, Drop, PartialEq, Eq)]
pub enum CertStatus {
    Good(NullAsn1),
    Revoked(RevokedInfo),
    Unknown(UnknownInfo),
}

type CertStatusChoice = Either<
    Implicit<0, NullAsn1>,
    Either<Implicit<1, RevokedInfo>, Implicit<2, UnknownInfo>>,
>;

impl Asn1Type for CertStatus {
    ghost asn1 = { cert_status };

    ghost value = { cert_status_value };

    fn with_encoded<U: ComponentVisitor>(&self, visitor: &mut U) -> U::Out {
        match self {
            CertStatus::Good(x) => visitor.visit(&Under::<0x80, _>(x)),
            CertStatus::Revoked(x) => visitor.visit(&Under::<0xA1, _>(x)),
            CertStatus::Unknown(x) => visitor.visit(&Under::<0x82, _>(x)),
        }
    }

    fn read_encoded(alloc: Global, r: &mut Reader<'_>, nest: u8) -> Result<Self, Error> {
        let choice: CertStatusChoice = Either::read_one(alloc, r, nest)?;
        match choice {
            Either::First(x) => {
                let Implicit(x) = x;
                Ok(CertStatus::Good(x))
            }
            Either::Second(Either::First(x)) => {
                let Implicit(x) = x;
                Ok(CertStatus::Revoked(x))
            }
            Either::Second(Either::Second(x)) => {
                let Implicit(x) = x;
                Ok(CertStatus::Unknown(x))
            }
        }
    }

    fn is_first_tag(tag: u8) -> bool {
        tag == 0x80 || tag == 0x82 || tag == 0xA1
    }

    fn clone_value(&self, alloc: Global) -> Result<Self, Error> {
        match self {
            CertStatus::Good(x) => Ok(CertStatus::Good(x.try_clone(alloc)?)),
            CertStatus::Revoked(x) => Ok(CertStatus::Revoked(x.try_clone(alloc)?)),
            CertStatus::Unknown(x) => Ok(CertStatus::Unknown(x.try_clone(alloc)?)),
        }
    }

    ghost equal = { cert_status_equal };
}

/// `SingleResponse ::= SEQUENCE { certID CertID, certStatus CertStatus, thisUpdate GeneralizedTime, nextUpdate [0]
/// EXPLICIT GeneralizedTime OPTIONAL, singleExtensions [1] EXPLICIT Extensions OPTIONAL }` (RFC 6960, 4.2.1)
///
/// A GeneralizedTime with a fraction of a second is refused.
#[derive(Debug, Drop, PartialEq, Eq)]
pub struct SingleResponse {
    pub cert_id: CertId,
    pub cert_status: CertStatus,
    pub this_update: GeneralizedTimeAsn1,
    pub next_update: Option<Explicit<0, GeneralizedTimeAsn1>>,
    pub single_extensions: Option<Explicit<1, Extensions>>,
}

macro_rules! single_response_parts {
    ($by:ident($($with:ident),*)) => {
        $by!($($with),*; SingleResponse {
            cert_id, cert_status, this_update, next_update OPTIONAL, single_extensions OPTIONAL
        })
    };
}

impl Sequence for SingleResponse {
    ghost asn1 = { single_response };

    ghost value = { single_response_value };

    fn with_components<U: ComponentVisitor>(&self, visitor: &mut U) -> U::Out {
        single_response_parts!(with_components_of(self, visitor))
    }

    fn read_fields(alloc: Global, r: &mut Reader<'_>, nest: u8) -> Result<Self, Error> {
        single_response_parts!(read_fields_of(alloc, r, nest))
    }

    fn clone_fields(&self, alloc: Global) -> Result<Self, Error> {
        single_response_parts!(clone_fields_of(self, alloc))
    }

    ghost equal = { single_response_equal };
}

/// `ResponseData ::= SEQUENCE { version [0] EXPLICIT Version DEFAULT v1, responderID ResponderID, producedAt
/// GeneralizedTime, responses SEQUENCE OF SingleResponse, responseExtensions [1] EXPLICIT Extensions OPTIONAL }`
/// (RFC 6960, 4.2.1)
///
/// Version is read from 0 to 255 alone; a GeneralizedTime with a fraction of a second is refused.
#[derive(Debug, Drop, PartialEq, Eq)]
pub struct ResponseData {
    pub version: Explicit<0, DefaultNumber<0>>,
    pub responder_id: ResponderId,
    pub produced_at: GeneralizedTimeAsn1,
    pub responses: Asn1SequenceOf<SingleResponse>,
    pub response_extensions: Option<Explicit<1, Extensions>>,
}

macro_rules! response_data_parts {
    ($by:ident($($with:ident),*)) => {
        $by!($($with),*; ResponseData {
            version DEFAULT, responder_id, produced_at, responses, response_extensions OPTIONAL
        })
    };
}

impl Sequence for ResponseData {
    ghost asn1 = { response_data };

    ghost value = { response_data_value };

    fn with_components<U: ComponentVisitor>(&self, visitor: &mut U) -> U::Out {
        response_data_parts!(with_components_of(self, visitor))
    }

    fn read_fields(alloc: Global, r: &mut Reader<'_>, nest: u8) -> Result<Self, Error> {
        response_data_parts!(read_fields_of(alloc, r, nest))
    }

    fn clone_fields(&self, alloc: Global) -> Result<Self, Error> {
        response_data_parts!(clone_fields_of(self, alloc))
    }

    ghost equal = { response_data_equal };
}

/// `BasicOCSPResponse ::= SEQUENCE { tbsResponseData ResponseData, signatureAlgorithm AlgorithmIdentifier,
/// signature BIT STRING, certs [0] EXPLICIT SEQUENCE OF Certificate OPTIONAL }` (RFC 6960, 4.2.1)
#[derive(Debug, Drop, PartialEq, Eq)]
pub struct BasicOcspResponse {
    pub tbs_response_data: ResponseData,
    pub signature_algorithm: AlgorithmIdentifier,
    pub signature: BitStringAsn1,
    pub certs: Option<Explicit<0, Asn1SequenceOf<Certificate>>>,
}

macro_rules! basic_ocsp_response_parts {
    ($by:ident($($with:ident),*)) => {
        $by!($($with),*; BasicOcspResponse {
            tbs_response_data, signature_algorithm, signature, certs OPTIONAL
        })
    };
}

impl Sequence for BasicOcspResponse {
    ghost asn1 = { basic_ocsp_response };

    ghost value = { basic_ocsp_response_value };

    fn with_components<U: ComponentVisitor>(&self, visitor: &mut U) -> U::Out {
        basic_ocsp_response_parts!(with_components_of(self, visitor))
    }

    fn read_fields(alloc: Global, r: &mut Reader<'_>, nest: u8) -> Result<Self, Error> {
        basic_ocsp_response_parts!(read_fields_of(alloc, r, nest))
    }

    fn clone_fields(&self, alloc: Global) -> Result<Self, Error> {
        basic_ocsp_response_parts!(clone_fields_of(self, alloc))
    }

    ghost equal = { basic_ocsp_response_equal };
}

/// `BasicResponseBytes ::= SEQUENCE { responseType OBJECT IDENTIFIER, response OCTET STRING (CONTAINING
/// BasicOCSPResponse) }` (RFC 6960, 4.2.1)
#[derive(Debug, Drop, PartialEq, Eq)]
pub struct BasicResponseBytes {
    pub response_type: ObjectIdentifierAsn1,
    pub response: OctetStringAsn1Container<BasicOcspResponse>,
}

impl Sequence for BasicResponseBytes {
    ghost asn1 = { basic_response_bytes };

    ghost value = { basic_response_bytes_value };

    fn with_components<U: ComponentVisitor>(&self, visitor: &mut U) -> U::Out {
        with_components_of!(self, visitor; BasicResponseBytes { response_type, response })
    }

    fn read_fields(alloc: Global, r: &mut Reader<'_>, nest: u8) -> Result<Self, Error> {
        read_fields_of!(alloc, r, nest; BasicResponseBytes { response_type, response })
    }

    fn clone_fields(&self, alloc: Global) -> Result<Self, Error> {
        clone_fields_of!(self, alloc; BasicResponseBytes { response_type, response })
    }

    ghost equal = { basic_response_bytes_equal };
}

/// `ServiceLocator ::= SEQUENCE { issuer Name, locator AuthorityInfoAccessSyntax }` (RFC 6960, 4.4.6)
#[derive(Debug, Drop, PartialEq, Eq)]
pub struct ServiceLocator {
    pub issuer: Name,
    pub locator: AuthorityInfoAccessSyntax,
}

impl Sequence for ServiceLocator {
    ghost asn1 = { service_locator };

    ghost value = { service_locator_value };

    fn with_components<U: ComponentVisitor>(&self, visitor: &mut U) -> U::Out {
        with_components_of!(self, visitor; ServiceLocator { issuer, locator })
    }

    fn read_fields(alloc: Global, r: &mut Reader<'_>, nest: u8) -> Result<Self, Error> {
        read_fields_of!(alloc, r, nest; ServiceLocator { issuer, locator })
    }

    fn clone_fields(&self, alloc: Global) -> Result<Self, Error> {
        clone_fields_of!(self, alloc; ServiceLocator { issuer, locator })
    }

    ghost equal = { service_locator_equal };
}

/// `CrlID ::= SEQUENCE { crlUrl [0] EXPLICIT IA5String OPTIONAL, crlNum [1] EXPLICIT INTEGER OPTIONAL, crlTime [2]
/// EXPLICIT GeneralizedTime OPTIONAL }` (RFC 6960, 4.4.2)
///
/// A GeneralizedTime with a fraction of a second is refused.
#[derive(Debug, Drop, PartialEq, Eq)]
pub struct CrlId {
    pub crl_url: Option<Explicit<0, IA5StringAsn1>>,
    pub crl_num: Option<Explicit<1, IntegerAsn1>>,
    pub crl_time: Option<Explicit<2, GeneralizedTimeAsn1>>,
}

macro_rules! crl_id_parts {
    ($by:ident($($with:ident),*)) => {
        $by!($($with),*; CrlId {
            crl_url OPTIONAL, crl_num OPTIONAL, crl_time OPTIONAL
        })
    };
}

impl Sequence for CrlId {
    ghost asn1 = { crl_id };

    ghost value = { crl_id_value };

    fn with_components<U: ComponentVisitor>(&self, visitor: &mut U) -> U::Out {
        crl_id_parts!(with_components_of(self, visitor))
    }

    fn read_fields(alloc: Global, r: &mut Reader<'_>, nest: u8) -> Result<Self, Error> {
        crl_id_parts!(read_fields_of(alloc, r, nest))
    }

    fn clone_fields(&self, alloc: Global) -> Result<Self, Error> {
        crl_id_parts!(clone_fields_of(self, alloc))
    }

    ghost equal = { crl_id_equal };
}

/// `AcceptableResponses ::= SEQUENCE OF OBJECT IDENTIFIER` (RFC 6960, 4.4.3)
pub type AcceptableResponses = Asn1SequenceOf<ObjectIdentifierAsn1>;

/// `ArchiveCutoff ::= GeneralizedTime` (RFC 6960, 4.4.4)
///
/// A GeneralizedTime with a fraction of a second is refused.
pub type ArchiveCutoff = GeneralizedTimeAsn1;

/// `PreferredSignatureAlgorithm ::= SEQUENCE { sigIdentifier AlgorithmIdentifier, certIdentifier
/// AlgorithmIdentifier OPTIONAL }` (RFC 6960, 4.4.7.1)
#[derive(Debug, Drop, PartialEq, Eq)]
pub struct PreferredSignatureAlgorithm {
    pub sig_identifier: AlgorithmIdentifier,
    pub cert_identifier: Option<AlgorithmIdentifier>,
}

macro_rules! preferred_signature_algorithm_parts {
    ($by:ident($($with:ident),*)) => {
        $by!($($with),*; PreferredSignatureAlgorithm {
            sig_identifier, cert_identifier OPTIONAL
        })
    };
}

impl Sequence for PreferredSignatureAlgorithm {
    ghost asn1 = { preferred_signature_algorithm };

    ghost value = { preferred_signature_algorithm_value };

    fn with_components<U: ComponentVisitor>(&self, visitor: &mut U) -> U::Out {
        preferred_signature_algorithm_parts!(with_components_of(self, visitor))
    }

    fn read_fields(alloc: Global, r: &mut Reader<'_>, nest: u8) -> Result<Self, Error> {
        preferred_signature_algorithm_parts!(read_fields_of(alloc, r, nest))
    }

    fn clone_fields(&self, alloc: Global) -> Result<Self, Error> {
        preferred_signature_algorithm_parts!(clone_fields_of(self, alloc))
    }

    ghost equal = { preferred_signature_algorithm_equal };
}

/// `PreferredSignatureAlgorithms ::= SEQUENCE OF PreferredSignatureAlgorithm` (RFC 6960, 4.4.7.1)
pub type PreferredSignatureAlgorithms = Asn1SequenceOf<PreferredSignatureAlgorithm>;

/// `id-kp-OCSPSigning`, 1.3.6.1.5.5.7.3.9, by its contents octets.
pub const ID_KP_OCSP_SIGNING: [u8; 8] = [0x2B, 0x06, 0x01, 0x05, 0x05, 0x07, 0x03, 0x09];

/// `id-pkix-ocsp`, 1.3.6.1.5.5.7.48.1, by its contents octets.
pub const ID_PKIX_OCSP: [u8; 8] = [0x2B, 0x06, 0x01, 0x05, 0x05, 0x07, 0x30, 0x01];

/// `id-pkix-ocsp-basic`, 1.3.6.1.5.5.7.48.1.1, by its contents octets.
pub const ID_PKIX_OCSP_BASIC: [u8; 9] = [0x2B, 0x06, 0x01, 0x05, 0x05, 0x07, 0x30, 0x01, 0x01];

/// `id-pkix-ocsp-nonce`, 1.3.6.1.5.5.7.48.1.2, by its contents octets.
pub const ID_PKIX_OCSP_NONCE: [u8; 9] = [0x2B, 0x06, 0x01, 0x05, 0x05, 0x07, 0x30, 0x01, 0x02];

/// `id-pkix-ocsp-crl`, 1.3.6.1.5.5.7.48.1.3, by its contents octets.
pub const ID_PKIX_OCSP_CRL: [u8; 9] = [0x2B, 0x06, 0x01, 0x05, 0x05, 0x07, 0x30, 0x01, 0x03];

/// `id-pkix-ocsp-response`, 1.3.6.1.5.5.7.48.1.4, by its contents octets.
pub const ID_PKIX_OCSP_RESPONSE: [u8; 9] = [0x2B, 0x06, 0x01, 0x05, 0x05, 0x07, 0x30, 0x01, 0x04];

/// `id-pkix-ocsp-nocheck`, 1.3.6.1.5.5.7.48.1.5, by its contents octets.
pub const ID_PKIX_OCSP_NOCHECK: [u8; 9] = [0x2B, 0x06, 0x01, 0x05, 0x05, 0x07, 0x30, 0x01, 0x05];

/// `id-pkix-ocsp-archive-cutoff`, 1.3.6.1.5.5.7.48.1.6, by its contents octets.
pub const ID_PKIX_OCSP_ARCHIVE_CUTOFF: [u8; 9] = [
    0x2B, 0x06, 0x01, 0x05, 0x05, 0x07, 0x30, 0x01, 0x06,
];

/// `id-pkix-ocsp-service-locator`, 1.3.6.1.5.5.7.48.1.7, by its contents octets.
pub const ID_PKIX_OCSP_SERVICE_LOCATOR: [u8; 9] = [
    0x2B, 0x06, 0x01, 0x05, 0x05, 0x07, 0x30, 0x01, 0x07,
];

/// `id-pkix-ocsp-pref-sig-algs`, 1.3.6.1.5.5.7.48.1.8, by its contents octets.
pub const ID_PKIX_OCSP_PREF_SIG_ALGS: [u8; 9] = [
    0x2B, 0x06, 0x01, 0x05, 0x05, 0x07, 0x30, 0x01, 0x08,
];

/// `id-pkix-ocsp-extended-revoke`, 1.3.6.1.5.5.7.48.1.9, by its contents octets.
pub const ID_PKIX_OCSP_EXTENDED_REVOKE: [u8; 9] = [
    0x2B, 0x06, 0x01, 0x05, 0x05, 0x07, 0x30, 0x01, 0x09,
];
