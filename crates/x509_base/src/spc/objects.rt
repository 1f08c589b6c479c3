//! Serialized objects, and the identifiers of their classes.

ghost use Rattle.std.specs.Prelude.{◌≡◌, [], MatchResult};
ghost use Rattle.std.proofs.Common.{rules};
ghost use Rattle.asn1_core_element.specs.declared.error.Error.TheVariants.{Memory};
ghost use Rattle.x509_base.specs.SpcObjects.{spc_uuid, spc_uuid_value, spc_serialized_object, spc_serialized_object_value, page_hash_class};

use asn1_core::prelude::*;
use std::alloc::Global;

/// The class of page hashes.
const PAGE_HASH_CLASS: [u8; 16] = [
    0xA6, 0xB5, 0x86, 0xD5, 0xB4, 0xA1, 0x24, 0x66, 0xAE, 0x05, 0xA2, 0x17, 0xDA, 0x8E, 0x60, 0xD6,
];

/// `SpcUuid ::= OCTET STRING`
#[derive(Debug, Drop, PartialEq, Eq)]
pub struct SpcUuid(pub OctetStringAsn1);

impl SpcUuid {
    /// The class of page hashes.
    pub fn default_in(alloc: Global) -> Result<Self, Error>
        ensures { MatchResult result (λ x. x.0.0.items ≡ page_hash_class) (λ e. e ≡ Memory) }
    {
        Ok(SpcUuid(OctetStringAsn1(Vec::from_slice(alloc, &PAGE_HASH_CLASS)?)))
    }
}

impl TaggedType for SpcUuid {
    ghost asn1 = { spc_uuid };

    ghost value = { spc_uuid_value };

    ghost TAG = { 0x04 };

    const TAG: u8 = 0x04;

    fn put_tagged<W: Writer>(&self, tag: u8, w: &mut W) -> Result<(), WriteError> {
        self.0.put_as(tag, w)
    }

    fn is_well_formed_at(&self, limit: u8) -> bool {
        self.0.well_formed_at(limit)
    }

    fn read_open_contents(alloc: Global, r: &mut Reader<'_>, nest: u8) -> Result<Self, Error> {
        Ok(SpcUuid(OctetStringAsn1::read_contents(alloc, r, nest)?))
    }

    #[inline(always)]
    fn clone_value(&self, alloc: Global) -> Result<Self, Error> {
        Ok(SpcUuid(self.0.try_clone(alloc)?))
    }

    ghost tagged = { spc_uuid.tagged };

    ghost equal = { Prim.search rules };
}

/// `SpcSerializedObject ::= SEQUENCE { classId SpcUuid, serializedData OCTET STRING }`
#[derive(Debug, Drop, PartialEq, Eq)]
pub struct SpcSerializedObject {
    pub class_id: SpcUuid,
    pub serialized_data: OctetStringAsn1,
}

impl SpcSerializedObject {
    /// The class of page hashes, with no data.
    pub fn default_in(alloc: Global) -> Result<Self, Error>
        ensures { MatchResult result
            (λ x. (x.class_id.0.0.items ≡ page_hash_class) × (x.serialized_data.0.items ≡ []))
            (λ e. e ≡ Memory) }
    {
        let class_id = SpcUuid::default_in(alloc)?;
        Ok(SpcSerializedObject {
            class_id,
            serialized_data: OctetStringAsn1(Vec::new(alloc)),
        })
    }
}

impl Sequence for SpcSerializedObject {
    ghost asn1 = { spc_serialized_object };

    ghost value = { spc_serialized_object_value };

    fn with_components<U: ComponentVisitor>(&self, visitor: &mut U) -> U::Out {
        with_components_of!(self, visitor; SpcSerializedObject { class_id, serialized_data })
    }

    fn read_fields(alloc: Global, r: &mut Reader<'_>, nest: u8) -> Result<Self, Error> {
        read_fields_of!(alloc, r, nest; SpcSerializedObject { class_id, serialized_data })
    }

    #[inline(always)]
    fn clone_fields(&self, alloc: Global) -> Result<Self, Error> {
        clone_fields_of!(self, alloc; SpcSerializedObject { class_id, serialized_data })
    }

    ghost equal = { Prim.search rules };
}
