//! What Authenticode signs.

ghost use Rattle.std.specs.Prelude.{◌≡◌, ◌↔◌, IsTrue};
ghost use Rattle.asn1_core.specs.Asn1.{SEQUENCE};
ghost use Rattle.pkcs7_content.specs.IndirectData.{SpcValue, spc_values, subject_of, spc_defined_by, spc_attribute, spc_indirect_data_content, spc_is_defined_by, spc_value, spc_attribute_value, spc_indirect_data_content_value, spc_value_equal, spc_attribute_equal, spc_indirect_data_content_equal};

use crate::oids::{PE_IMAGE, SIP_INFO};
use crate::pe_images::SpcPeImageData;
use crate::sip_infos::SpcSipInfo;
use asn1_choices::{AnyDefinedBy, OidAnd, read_inside_defined_by};
use asn1_core::prelude::*;
use std::alloc::Global;
use x509_base::DigestInfo;

/// What an object identifier says is signed.
#[derive(Clone, Copy, Debug, PartialEq, Eq)]
enum Subject {
    PeImage,
    SipInfo,
    /// None that is read.
    Foreign,
}

impl Subject {
    fn with_oid(oid: &[u8]) -> Subject
        ensures { result ≡ subject_of oid.now }
    {
        if oid == PE_IMAGE.as_slice() {
            Subject::PeImage
        } else if oid == SIP_INFO.as_slice() {
            Subject::SipInfo
        } else {
            Subject::Foreign
        }
    }
}

/// What is signed, as the object identifier before it says. This only writes.
#[derive(Debug, Drop, PartialEq, Eq)]
pub enum SpcAttributeAndOptionalValueValue {
    SpcPeImageData(SpcPeImageData),
    SpcSipInfo(SpcSipInfo),
}

impl SpcAttributeAndOptionalValueValue {
    /// Whether this is well-formed after an object identifier with these contents octets.
    fn fits(&self, oid: &[u8], limit: u8) -> bool
        ensures { IsTrue result ↔ (spc_defined_by.components oid.now).IsWellFormed limit (spc_value self.now) }
    {
        let subject = Subject::with_oid(oid);
        match self {
            SpcAttributeAndOptionalValueValue::SpcPeImageData(image) => {
                subject == Subject::PeImage && image.well_formed_at(limit)
            }
            SpcAttributeAndOptionalValueValue::SpcSipInfo(info) => {
                subject == Subject::SipInfo && info.well_formed_at(limit)
            }
        }
    }
}

impl DerSerialize for SpcAttributeAndOptionalValueValue {
    ghost Value = { SpcValue };

    ghost value = { spc_value };

    ghost format = { spc_values };

    fn put<W: Writer>(&self, w: &mut W) -> Result<(), WriteError> {
        match self {
            SpcAttributeAndOptionalValueValue::SpcPeImageData(image) => image.put(w),
            SpcAttributeAndOptionalValueValue::SpcSipInfo(info) => info.put(w),
        }
    }

    fn well_formed_at(&self, limit: u8) -> bool {
        match self {
            SpcAttributeAndOptionalValueValue::SpcPeImageData(image) => image.well_formed_at(limit),
            SpcAttributeAndOptionalValueValue::SpcSipInfo(info) => info.well_formed_at(limit),
        }
    }
}

impl AnyDefinedBy for SpcAttributeAndOptionalValueValue {
    ghost Value = { SpcValue };

    ghost value = { spc_value };

    ghost defined_by = { spc_defined_by };

    fn read_defined_by(
        alloc: Global,
        oid: &[u8],
        r: &mut Reader<'_>,
        nest: u8,
    ) -> Result<Self, Error> {
        match Subject::with_oid(oid) {
            Subject::PeImage => {
                let Alone(image) = Alone::read_components(alloc, r, nest)?;
                Ok(SpcAttributeAndOptionalValueValue::SpcPeImageData(image))
            }
            Subject::SipInfo => {
                let Alone(info) = Alone::read_components(alloc, r, nest)?;
                Ok(SpcAttributeAndOptionalValueValue::SpcSipInfo(info))
            }
            Subject::Foreign => Err(Error::Invalid),
        }
    }

    ghost lawful = { spc_is_defined_by };
}

impl EqualByText for SpcAttributeAndOptionalValueValue {
    ghost equal_by_text = { spc_value_equal };
}

impl TryClone for SpcAttributeAndOptionalValueValue {
    #[inline(always)]
    fn try_clone(&self, alloc: Global) -> Result<Self, Error> {
        match self {
            SpcAttributeAndOptionalValueValue::SpcPeImageData(image) => Ok(
                SpcAttributeAndOptionalValueValue::SpcPeImageData(image.try_clone(alloc)?),
            ),
            SpcAttributeAndOptionalValueValue::SpcSipInfo(info) => Ok(
                SpcAttributeAndOptionalValueValue::SpcSipInfo(info.try_clone(alloc)?),
            ),
        }
    }
}

/// `SpcAttributeTypeAndOptionalValue ::= SEQUENCE { type OBJECT IDENTIFIER, value [0] EXPLICIT ANY DEFINED BY type
/// OPTIONAL }` in Microsoft's words. In signatures the value is always present, without the tag [0]; so it is here.
#[derive(Debug, Drop, PartialEq, Eq)]
pub struct SpcAttributeAndOptionalValue {
    pub ty: ObjectIdentifierAsn1,
    pub value: SpcAttributeAndOptionalValueValue,
}

impl TaggedType for SpcAttributeAndOptionalValue {
    ghost asn1 = { SEQUENCE spc_attribute };

    ghost value = { spc_attribute_value };

    ghost TAG = { 0x30 };

    const TAG: u8 = 0x30;

    fn put_tagged<W: Writer>(&self, tag: u8, w: &mut W) -> Result<(), WriteError> {
        put_within(tag, &Required(Ref(&self.ty), Alone(Ref(&self.value))), w)
    }

    fn is_well_formed_at(&self, limit: u8) -> bool {
        self.value.fits(self.ty.0.octets(), limit)
    }

    fn read_open_contents(alloc: Global, r: &mut Reader<'_>, nest: u8) -> Result<Self, Error> {
        let OidAnd(ty, value) = read_inside_defined_by(alloc, r, nest)?;
        Ok(SpcAttributeAndOptionalValue { ty, value })
    }

    #[inline(always)]
    fn clone_value(&self, alloc: Global) -> Result<Self, Error> {
        clone_of!(self, alloc; SpcAttributeAndOptionalValue { ty, value })
    }

    ghost tagged = { (SEQUENCE spc_attribute).tagged };

    ghost equal = { spc_attribute_equal };
}

/// `SpcIndirectDataContent ::= SEQUENCE { data SpcAttributeTypeAndOptionalValue, messageDigest DigestInfo }`
#[derive(Debug, Drop, PartialEq, Eq)]
pub struct SpcIndirectDataContent {
    /// `data`
    pub spc_data: SpcAttributeAndOptionalValue,
    pub message_digest: DigestInfo,
}

impl Sequence for SpcIndirectDataContent {
    ghost asn1 = { spc_indirect_data_content };

    ghost value = { spc_indirect_data_content_value };

    fn with_components<U: ComponentVisitor>(&self, visitor: &mut U) -> U::Out {
        with_components_of!(self, visitor; SpcIndirectDataContent { spc_data, message_digest })
    }

    fn read_fields(alloc: Global, r: &mut Reader<'_>, nest: u8) -> Result<Self, Error> {
        read_fields_of!(alloc, r, nest; SpcIndirectDataContent { spc_data, message_digest })
    }

    #[inline(always)]
    fn clone_fields(&self, alloc: Global) -> Result<Self, Error> {
        clone_fields_of!(self, alloc; SpcIndirectDataContent { spc_data, message_digest })
    }

    ghost equal = { spc_indirect_data_content_equal };
}
