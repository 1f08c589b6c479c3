//! The types of PKIXTSP, made of `rfc3161.asn1`; not to be edited.

ghost use Rattle.rfc3161.specs.Pkixtsp.{message_imprint, message_imprint_value, message_imprint_equal};
ghost use Rattle.rfc3161.specs.Pkixtsp.{time_stamp_req, time_stamp_req_value, time_stamp_req_equal};
ghost use Rattle.rfc3161.specs.Pkixtsp.{pki_status_info, pki_status_info_value, pki_status_info_equal};
ghost use Rattle.rfc3161.specs.Pkixtsp.{content_info, content_info_value, content_info_equal};
ghost use Rattle.rfc3161.specs.Pkixtsp.{time_stamp_resp, time_stamp_resp_value, time_stamp_resp_equal};
ghost use Rattle.rfc3161.specs.Pkixtsp.{accuracy, accuracy_value, accuracy_equal};
ghost use Rattle.rfc3161.specs.Pkixtsp.{tst_info, tst_info_value, tst_info_equal};
ghost use Rattle.std.specs.Prelude.{◌↔◌, IsTrue};
ghost use Rattle.asn1_leaves_strings.specs.Octets.{contents_of};
ghost use Rattle.asn1_module_leaves.specs.NamedBits.{HasBit};

use asn1_core::prelude::*;
use asn1_leaves::{BitStringAsn1, IntegerAsn1, Utf8StringAsn1};
use asn1_module_leaves::{KeptAsn1, has_bit};
use rfc5280::pkix1_implicit88::GeneralName;
use std::alloc::Global;
use x509_base::{AlgorithmIdentifier, Extensions};

/// `MessageImprint ::= SEQUENCE { hashAlgorithm AlgorithmIdentifier, hashedMessage OCTET STRING }` (RFC 3161,
/// 2.4.1)
#[derive(Debug, Drop, PartialEq, Eq)]
pub struct MessageImprint {
    pub hash_algorithm: AlgorithmIdentifier,
    pub hashed_message: OctetStringAsn1,
}

impl Sequence for MessageImprint {
    ghost asn1 = { message_imprint };

    ghost value = { message_imprint_value };

    fn with_components<U: ComponentVisitor>(&self, visitor: &mut U) -> U::Out {
        with_components_of!(self, visitor; MessageImprint { hash_algorithm, hashed_message })
    }

    fn read_fields(alloc: Global, r: &mut Reader<'_>, nest: u8) -> Result<Self, Error> {
        read_fields_of!(alloc, r, nest; MessageImprint { hash_algorithm, hashed_message })
    }

    fn clone_fields(&self, alloc: Global) -> Result<Self, Error> {
        clone_fields_of!(self, alloc; MessageImprint { hash_algorithm, hashed_message })
    }

    ghost equal = { message_imprint_equal };
}

/// `TSAPolicyId ::= OBJECT IDENTIFIER` (RFC 3161, 2.4.1)
pub type TsaPolicyId = ObjectIdentifierAsn1;

/// `TimeStampReq ::= SEQUENCE { version INTEGER { v1(1) }, messageImprint MessageImprint, reqPolicy TSAPolicyId
/// OPTIONAL, nonce INTEGER OPTIONAL, certReq BOOLEAN DEFAULT FALSE, extensions [0] IMPLICIT Extensions OPTIONAL }`
/// (RFC 3161, 2.4.1)
///
/// An INTEGER with named numbers is read from 0 to 255 alone.
#[derive(Debug, Drop, PartialEq, Eq)]
pub struct TimeStampReq {
    pub version: u8,
    pub message_imprint: MessageImprint,
    pub req_policy: Option<TsaPolicyId>,
    pub nonce: Option<IntegerAsn1>,
    pub cert_req: bool,
    pub extensions: Option<Implicit<0, Extensions>>,
}

macro_rules! time_stamp_req_parts {
    ($by:ident($($with:ident),*)) => {
        $by!($($with),*; TimeStampReq {
            version, message_imprint, req_policy OPTIONAL, nonce OPTIONAL, DefaultFalse(cert_req) DEFAULT,
            extensions OPTIONAL
        })
    };
}

impl Sequence for TimeStampReq {
    ghost asn1 = { time_stamp_req };

    ghost value = { time_stamp_req_value };

    fn with_components<U: ComponentVisitor>(&self, visitor: &mut U) -> U::Out {
        time_stamp_req_parts!(with_components_of(self, visitor))
    }

    fn read_fields(alloc: Global, r: &mut Reader<'_>, nest: u8) -> Result<Self, Error> {
        time_stamp_req_parts!(read_fields_of(alloc, r, nest))
    }

    fn clone_fields(&self, alloc: Global) -> Result<Self, Error> {
        time_stamp_req_parts!(clone_fields_of(self, alloc))
    }

    ghost equal = { time_stamp_req_equal };
}

/// `PKIStatus ::= INTEGER { granted(0), grantedWithMods(1), rejection(2), waiting(3), revocationWarning(4),
/// revocationNotification(5) }` (RFC 4210, 5.2.3)
///
/// An INTEGER with named numbers is read from 0 to 255 alone.
pub type PkiStatus = u8;

/// `granted`
pub const PKI_STATUS_GRANTED: PkiStatus = 0;

/// `grantedWithMods`
pub const PKI_STATUS_GRANTED_WITH_MODS: PkiStatus = 1;

/// `rejection`
pub const PKI_STATUS_REJECTION: PkiStatus = 2;

/// `waiting`
pub const PKI_STATUS_WAITING: PkiStatus = 3;

/// `revocationWarning`
pub const PKI_STATUS_REVOCATION_WARNING: PkiStatus = 4;

/// `revocationNotification`
pub const PKI_STATUS_REVOCATION_NOTIFICATION: PkiStatus = 5;

/// `PKIFreeText ::= SEQUENCE SIZE (1..MAX) OF UTF8String` (RFC 4210, 5.2.3)
///
/// The size (1..MAX) isn't tested.
pub type PkiFreeText = Asn1SequenceOf<Utf8StringAsn1>;

/// `PKIFailureInfo ::= BIT STRING { badAlg(0), badRequest(2), badDataFormat(5), timeNotAvailable(14),
/// unacceptedPolicy(15), unacceptedExtension(16), addInfoNotAvailable(17), systemFailure(25) }` (RFC 4210, 5.2.3)
///
/// Zero bits at the end are kept (X.690, 11.2.2).
pub type PkiFailureInfo = BitStringAsn1;

/// The bit `badAlg` of `PKIFailureInfo`.
pub const PKI_FAILURE_INFO_BAD_ALG: usize = 0;

/// The bit `badRequest` of `PKIFailureInfo`.
pub const PKI_FAILURE_INFO_BAD_REQUEST: usize = 2;

/// The bit `badDataFormat` of `PKIFailureInfo`.
pub const PKI_FAILURE_INFO_BAD_DATA_FORMAT: usize = 5;

/// The bit `timeNotAvailable` of `PKIFailureInfo`.
pub const PKI_FAILURE_INFO_TIME_NOT_AVAILABLE: usize = 14;

/// The bit `unacceptedPolicy` of `PKIFailureInfo`.
pub const PKI_FAILURE_INFO_UNACCEPTED_POLICY: usize = 15;

/// The bit `unacceptedExtension` of `PKIFailureInfo`.
pub const PKI_FAILURE_INFO_UNACCEPTED_EXTENSION: usize = 16;

/// The bit `addInfoNotAvailable` of `PKIFailureInfo`.
pub const PKI_FAILURE_INFO_ADD_INFO_NOT_AVAILABLE: usize = 17;

/// The bit `systemFailure` of `PKIFailureInfo`.
pub const PKI_FAILURE_INFO_SYSTEM_FAILURE: usize = 25;

/// Whether the bit `badAlg` of `PKIFailureInfo` is 1.
pub fn pki_failure_info_bad_alg(bits: &PkiFailureInfo) -> bool
    ensures { IsTrue result ↔ HasBit (contents_of bits.now.0) 0 }
{
    has_bit(bits, 0)
}

/// Whether the bit `badRequest` of `PKIFailureInfo` is 1.
pub fn pki_failure_info_bad_request(bits: &PkiFailureInfo) -> bool
    ensures { IsTrue result ↔ HasBit (contents_of bits.now.0) 2 }
{
    has_bit(bits, 2)
}

/// Whether the bit `badDataFormat` of `PKIFailureInfo` is 1.
pub fn pki_failure_info_bad_data_format(bits: &PkiFailureInfo) -> bool
    ensures { IsTrue result ↔ HasBit (contents_of bits.now.0) 5 }
{
    has_bit(bits, 5)
}

/// Whether the bit `timeNotAvailable` of `PKIFailureInfo` is 1.
pub fn pki_failure_info_time_not_available(bits: &PkiFailureInfo) -> bool
    ensures { IsTrue result ↔ HasBit (contents_of bits.now.0) 14 }
{
    has_bit(bits, 14)
}

/// Whether the bit `unacceptedPolicy` of `PKIFailureInfo` is 1.
pub fn pki_failure_info_unaccepted_policy(bits: &PkiFailureInfo) -> bool
    ensures { IsTrue result ↔ HasBit (contents_of bits.now.0) 15 }
{
    has_bit(bits, 15)
}

/// Whether the bit `unacceptedExtension` of `PKIFailureInfo` is 1.
pub fn pki_failure_info_unaccepted_extension(bits: &PkiFailureInfo) -> bool
    ensures { IsTrue result ↔ HasBit (contents_of bits.now.0) 16 }
{
    has_bit(bits, 16)
}

/// Whether the bit `addInfoNotAvailable` of `PKIFailureInfo` is 1.
pub fn pki_failure_info_add_info_not_available(bits: &PkiFailureInfo) -> bool
    ensures { IsTrue result ↔ HasBit (contents_of bits.now.0) 17 }
{
    has_bit(bits, 17)
}

/// Whether the bit `systemFailure` of `PKIFailureInfo` is 1.
pub fn pki_failure_info_system_failure(bits: &PkiFailureInfo) -> bool
    ensures { IsTrue result ↔ HasBit (contents_of bits.now.0) 25 }
{
    has_bit(bits, 25)
}

/// `PKIStatusInfo ::= SEQUENCE { status PKIStatus, statusString PKIFreeText OPTIONAL, failInfo PKIFailureInfo
/// OPTIONAL }` (RFC 4210, 5.2.3)
#[derive(Debug, Drop, PartialEq, Eq)]
pub struct PkiStatusInfo {
    pub status: PkiStatus,
    pub status_string: Option<PkiFreeText>,
    pub fail_info: Option<PkiFailureInfo>,
}

macro_rules! pki_status_info_parts {
    ($by:ident($($with:ident),*)) => {
        $by!($($with),*; PkiStatusInfo {
            status, status_string OPTIONAL, fail_info OPTIONAL
        })
    };
}

impl Sequence for PkiStatusInfo {
    ghost asn1 = { pki_status_info };

    ghost value = { pki_status_info_value };

    fn with_components<U: ComponentVisitor>(&self, visitor: &mut U) -> U::Out {
        pki_status_info_parts!(with_components_of(self, visitor))
    }

    fn read_fields(alloc: Global, r: &mut Reader<'_>, nest: u8) -> Result<Self, Error> {
        pki_status_info_parts!(read_fields_of(alloc, r, nest))
    }

    fn clone_fields(&self, alloc: Global) -> Result<Self, Error> {
        pki_status_info_parts!(clone_fields_of(self, alloc))
    }

    ghost equal = { pki_status_info_equal };
}

/// `ContentInfo ::= SEQUENCE { contentType OBJECT IDENTIFIER, content [0] EXPLICIT ANY DEFINED BY contentType }`
/// (RFC 5652, 3)
#[derive(Debug, Drop, PartialEq, Eq)]
pub struct ContentInfo {
    pub content_type: ObjectIdentifierAsn1,
    pub content: Explicit<0, Asn1RawDer>,
}

impl Sequence for ContentInfo {
    ghost asn1 = { content_info };

    ghost value = { content_info_value };

    fn with_components<U: ComponentVisitor>(&self, visitor: &mut U) -> U::Out {
        with_components_of!(self, visitor; ContentInfo { content_type, content })
    }

    fn read_fields(alloc: Global, r: &mut Reader<'_>, nest: u8) -> Result<Self, Error> {
        read_fields_of!(alloc, r, nest; ContentInfo { content_type, content })
    }

    fn clone_fields(&self, alloc: Global) -> Result<Self, Error> {
        clone_fields_of!(self, alloc; ContentInfo { content_type, content })
    }

    ghost equal = { content_info_equal };
}

/// `TimeStampToken ::= ContentInfo` (RFC 3161, 2.4.2)
pub type TimeStampToken = ContentInfo;

/// `TimeStampResp ::= SEQUENCE { status PKIStatusInfo, timeStampToken TimeStampToken OPTIONAL }` (RFC 3161, 2.4.2)
#[derive(Debug, Drop, PartialEq, Eq)]
pub struct TimeStampResp {
    pub status: PkiStatusInfo,
    pub time_stamp_token: Option<TimeStampToken>,
}

impl Sequence for TimeStampResp {
    ghost asn1 = { time_stamp_resp };

    ghost value = { time_stamp_resp_value };

    fn with_components<U: ComponentVisitor>(&self, visitor: &mut U) -> U::Out {
        with_components_of!(self, visitor; TimeStampResp { status, time_stamp_token OPTIONAL })
    }

    fn read_fields(alloc: Global, r: &mut Reader<'_>, nest: u8) -> Result<Self, Error> {
        read_fields_of!(alloc, r, nest; TimeStampResp { status, time_stamp_token OPTIONAL })
    }

    fn clone_fields(&self, alloc: Global) -> Result<Self, Error> {
        clone_fields_of!(self, alloc; TimeStampResp { status, time_stamp_token OPTIONAL })
    }

    ghost equal = { time_stamp_resp_equal };
}

/// `Accuracy ::= SEQUENCE { seconds INTEGER OPTIONAL, millis [0] INTEGER (1..999) OPTIONAL, micros [1] INTEGER
/// (1..999) OPTIONAL }` (RFC 3161, 2.4.2)
///
/// (1..999) is read as any u32.
#[derive(Debug, Drop, PartialEq, Eq)]
pub struct Accuracy {
    pub seconds: Option<IntegerAsn1>,
    pub millis: Option<Implicit<0, u32>>,
    pub micros: Option<Implicit<1, u32>>,
}

macro_rules! accuracy_parts {
    ($by:ident($($with:ident),*)) => {
        $by!($($with),*; Accuracy {
            seconds OPTIONAL, millis OPTIONAL, micros OPTIONAL
        })
    };
}

impl Sequence for Accuracy {
    ghost asn1 = { accuracy };

    ghost value = { accuracy_value };

    fn with_components<U: ComponentVisitor>(&self, visitor: &mut U) -> U::Out {
        accuracy_parts!(with_components_of(self, visitor))
    }

    fn read_fields(alloc: Global, r: &mut Reader<'_>, nest: u8) -> Result<Self, Error> {
        accuracy_parts!(read_fields_of(alloc, r, nest))
    }

    fn clone_fields(&self, alloc: Global) -> Result<Self, Error> {
        accuracy_parts!(clone_fields_of(self, alloc))
    }

    ghost equal = { accuracy_equal };
}

/// `TSTInfo ::= SEQUENCE { version INTEGER { v1(1) }, policy TSAPolicyId, messageImprint MessageImprint,
/// serialNumber INTEGER, genTime GeneralizedTime, accuracy Accuracy OPTIONAL, ordering BOOLEAN DEFAULT FALSE,
/// nonce INTEGER OPTIONAL, tsa [0] GeneralName OPTIONAL, extensions [1] IMPLICIT Extensions OPTIONAL }` (RFC 3161,
/// 2.4.2)
///
/// An INTEGER with named numbers is read from 0 to 255 alone; a kept GeneralizedTime is its contents octets, of
/// any form, with any fraction of a second.
#[derive(Debug, Drop, PartialEq, Eq)]
pub struct TstInfo {
    pub version: u8,
    pub policy: TsaPolicyId,
    pub message_imprint: MessageImprint,
    pub serial_number: IntegerAsn1,
    pub gen_time: KeptAsn1<0x18>,
    pub accuracy: Option<Accuracy>,
    pub ordering: bool,
    pub nonce: Option<IntegerAsn1>,
    pub tsa: Option<Explicit<0, GeneralName>>,
    pub extensions: Option<Implicit<1, Extensions>>,
}

macro_rules! tst_info_parts {
    ($by:ident($($with:ident),*)) => {
        $by!($($with),*; TstInfo {
            version, policy, message_imprint, serial_number, gen_time, accuracy OPTIONAL, DefaultFalse(ordering)
            DEFAULT, nonce OPTIONAL, tsa OPTIONAL, extensions OPTIONAL
        })
    };
}

impl Sequence for TstInfo {
    ghost asn1 = { tst_info };

    ghost value = { tst_info_value };

    fn with_components<U: ComponentVisitor>(&self, visitor: &mut U) -> U::Out {
        tst_info_parts!(with_components_of(self, visitor))
    }

    fn read_fields(alloc: Global, r: &mut Reader<'_>, nest: u8) -> Result<Self, Error> {
        tst_info_parts!(read_fields_of(alloc, r, nest))
    }

    fn clone_fields(&self, alloc: Global) -> Result<Self, Error> {
        tst_info_parts!(clone_fields_of(self, alloc))
    }

    ghost equal = { tst_info_equal };
}

/// `id-ct-TSTInfo`, 1.2.840.113549.1.9.16.1.4, by its contents octets.
pub const ID_CT_TST_INFO: [u8; 11] = [
    0x2A, 0x86, 0x48, 0x86, 0xF7, 0x0D, 0x01, 0x09, 0x10, 0x01, 0x04,
];
