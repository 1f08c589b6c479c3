//! What Authenticode says of a file that a subject interface package signs.

ghost use Rattle.pkcs7_content.specs.SipInfos.{spc_sip_info, spc_sip_info_value, spc_sip_info_equal};

use asn1_core::prelude::*;
use asn1_leaves::IntegerAsn1;
use std::alloc::Global;

/// `SpcSipInfo ::= SEQUENCE { version INTEGER, uuid OCTET STRING, reserved1 INTEGER, reserved2 INTEGER,
/// reserved3 INTEGER, reserved4 INTEGER, reserved5 INTEGER }`
#[derive(Debug, Drop, PartialEq, Eq)]
pub struct SpcSipInfo {
    pub version: IntegerAsn1,
    pub uuid: OctetStringAsn1,
    reserved1: IntegerAsn1,
    reserved2: IntegerAsn1,
    reserved3: IntegerAsn1,
    reserved4: IntegerAsn1,
    reserved5: IntegerAsn1,
}

macro_rules! sip_info {
    ($by:ident($($with:ident),*)) => {
        $by!($($with),*; SpcSipInfo {
            version, uuid, reserved1, reserved2, reserved3, reserved4, reserved5
        })
    };
}

impl Sequence for SpcSipInfo {
    ghost asn1 = { spc_sip_info };

    ghost value = { spc_sip_info_value };

    fn with_components<U: ComponentVisitor>(&self, visitor: &mut U) -> U::Out {
        sip_info!(with_components_of(self, visitor))
    }

    fn read_fields(alloc: Global, r: &mut Reader<'_>, nest: u8) -> Result<Self, Error> {
        sip_info!(read_fields_of(alloc, r, nest))
    }

    #[inline(always)]
    fn clone_fields(&self, alloc: Global) -> Result<Self, Error> {
        sip_info!(clone_fields_of(self, alloc))
    }

    ghost equal = { spc_sip_info_equal };
}
