//! Recipients of enveloped data who have a key encryption key (RFC 5652, 6.2.3).

ghost use Rattle.pkcs7_enveloped.specs.Recipients.{other_key_attribute, other_key_attribute_value, kek_identifier, kek_identifier_value, kek_recipient_info, kek_recipient_info_value, recipient_info, recipient_info_value, other_key_equal, kek_id_equal, kek_recipient_equal, recipient_equal};

use asn1_core::prelude::*;
use asn1_leaves::GeneralizedTimeAsn1;
use pkcs7_content::CmsVersion;
use std::alloc::Global;
use x509_base::AlgorithmIdentifier;

/// `KeyEncryptionAlgorithmIdentifier ::= AlgorithmIdentifier` (RFC 5652, 10.1.3)
pub type KeyEncryptionAlgorithmIdentifier = AlgorithmIdentifier;

/// `EncryptedKey ::= OCTET STRING`
pub type EncryptedKey = OctetStringAsn1;

/// `OtherKeyAttribute ::= SEQUENCE { keyAttrId OBJECT IDENTIFIER, keyAttr ANY DEFINED BY keyAttrId OPTIONAL }`
/// (RFC 5652, 10.2.7)
#[derive(Debug, Drop, PartialEq)]
pub struct OtherKeyAttribute {
    pub key_attr_id: ObjectIdentifierAsn1,
    pub key_attr: Option<Asn1RawDer>,
}

impl Sequence for OtherKeyAttribute {
    ghost asn1 = { other_key_attribute };

    ghost value = { other_key_attribute_value };

    fn with_components<U: ComponentVisitor>(&self, visitor: &mut U) -> U::Out {
        with_components_of!(self, visitor; OtherKeyAttribute { key_attr_id, key_attr OPTIONAL })
    }

    fn read_fields(alloc: Global, r: &mut Reader<'_>, nest: u8) -> Result<Self, Error> {
        read_fields_of!(alloc, r, nest; OtherKeyAttribute { key_attr_id, key_attr OPTIONAL })
    }

    #[inline(always)]
    fn clone_fields(&self, alloc: Global) -> Result<Self, Error> {
        clone_fields_of!(self, alloc; OtherKeyAttribute { key_attr_id, key_attr OPTIONAL })
    }

    ghost equal = { other_key_equal };
}

/// `KEKIdentifier ::= SEQUENCE { keyIdentifier OCTET STRING, date GeneralizedTime OPTIONAL, other OtherKeyAttribute
/// OPTIONAL }`
#[derive(Debug, Drop, PartialEq)]
pub struct KekIdentifier {
    pub key_identifier: OctetStringAsn1,
    pub date: Optional<Option<GeneralizedTimeAsn1>>,
    pub other: Optional<Option<OtherKeyAttribute>>,
}

impl Sequence for KekIdentifier {
    ghost asn1 = { kek_identifier };

    ghost value = { kek_identifier_value };

    fn with_components<U: ComponentVisitor>(&self, visitor: &mut U) -> U::Out {
        let optional = MaybeRef(&self.date.0, MaybeRef(&self.other.0, End));
        visitor.visit(&Required(Ref(&self.key_identifier), optional))
    }

    fn read_fields(alloc: Global, r: &mut Reader<'_>, nest: u8) -> Result<Self, Error> {
        let components: types_of!(key_identifier, date OPTIONAL, other OPTIONAL) =
            ReadComponents::read_components(alloc, r, nest)?;
        let fields_of!(key_identifier, date OPTIONAL, other OPTIONAL) = components;
        Ok(KekIdentifier {
            key_identifier,
            date: Optional(date),
            other: Optional(other),
        })
    }

    #[inline(always)]
    fn clone_fields(&self, alloc: Global) -> Result<Self, Error> {
        clone_fields_of!(self, alloc; KekIdentifier { key_identifier, date, other })
    }

    ghost equal = { kek_id_equal };
}

/// `KEKRecipientInfo ::= SEQUENCE { version CMSVersion, kekid KEKIdentifier, keyEncryptionAlgorithm
/// KeyEncryptionAlgorithmIdentifier, encryptedKey EncryptedKey }`. The standard has version 4; any of the six is kept.
#[derive(Debug, Drop, PartialEq)]
pub struct KekRecipientInfo {
    pub version: CmsVersion,
    pub kek_id: KekIdentifier,
    pub key_encryption_algorithm: KeyEncryptionAlgorithmIdentifier,
    pub encrypted_key: EncryptedKey,
}

impl Sequence for KekRecipientInfo {
    ghost asn1 = { kek_recipient_info };

    ghost value = { kek_recipient_info_value };

    fn with_components<U: ComponentVisitor>(&self, visitor: &mut U) -> U::Out {
        with_components_of!(self, visitor; KekRecipientInfo {
            version, kek_id, key_encryption_algorithm, encrypted_key
        })
    }

    fn read_fields(alloc: Global, r: &mut Reader<'_>, nest: u8) -> Result<Self, Error> {
        read_fields_of!(alloc, r, nest; KekRecipientInfo {
            version, kek_id, key_encryption_algorithm, encrypted_key
        })
    }

    #[inline(always)]
    fn clone_fields(&self, alloc: Global) -> Result<Self, Error> {
        clone_fields_of!(self, alloc; KekRecipientInfo {
            version, kek_id, key_encryption_algorithm, encrypted_key
        })
    }

    ghost equal = { kek_recipient_equal };
}

/// `RecipientInfo ::= CHOICE { ktri .., kari [1] .., kekri [2] KEKRecipientInfo, pwri [3] .., ori [4] .. }` (RFC 5652,
/// 6.2), of which `kekri` alone is supported: the four parts of its SEQUENCE are the whole contents of `[2]`.
#[derive(Debug, Drop, PartialEq)]
pub enum RecipientInfo {
    Kek(KekRecipientInfo),
}

impl TaggedType for RecipientInfo {
    ghost asn1 = { recipient_info };

    ghost value = { recipient_info_value };

    ghost TAG = { 0xA2 };

    const TAG: u8 = 0xA2;

    fn put_tagged<W: Writer>(&self, tag: u8, w: &mut W) -> Result<(), WriteError> {
        match self {
            RecipientInfo::Kek(recipient) => recipient.put_as(tag, w),
        }
    }

    fn is_well_formed_at(&self, limit: u8) -> bool {
        match self {
            RecipientInfo::Kek(recipient) => recipient.well_formed_at(limit),
        }
    }

    fn read_open_contents(alloc: Global, r: &mut Reader<'_>, nest: u8) -> Result<Self, Error> {
        Ok(RecipientInfo::Kek(KekRecipientInfo::read_contents(alloc, r, nest)?))
    }

    #[inline(always)]
    fn clone_value(&self, alloc: Global) -> Result<Self, Error> {
        match self {
            RecipientInfo::Kek(recipient) => Ok(RecipientInfo::Kek(recipient.try_clone(alloc)?)),
        }
    }

    ghost tagged = { recipient_info.tagged };

    ghost equal = { recipient_equal };
}
