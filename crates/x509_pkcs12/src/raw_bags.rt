//! Bags of which the values are not parsed.

ghost use Rattle.std.specs.Prelude.{◌≡◌, [], MatchOption, map};
ghost use Rattle.std.proofs.Common.{refl};
ghost use Rattle.asn1_core.specs.Asn1.{SEQUENCE};
ghost use Rattle.asn1_core.specs.Der.{AnswersInput, octet_string};
ghost use Rattle.x509_base.specs.AttributesByOid.{with_oid, IsFirst, GivesOnly};
ghost use Rattle.x509_base.specs.Names.{attribute_value};
ghost use Rattle.x509_pkcs12.specs.RawBags.{raw_safe_bag, raw_safe_bag_value, raw_safe_contents, raw_safe_contents_value, attributes_of};
ghost use Rattle.x509_pkcs12.specs.RawBagsEqual.{raw_safe_bag_equal, raw_safe_contents_equal};
ghost use Rattle.x509_pkcs12.specs.Utf16.{utf16_string};
ghost use Rattle.x509_pkcs12.specs.Utf16Octets.{octets_of_utf16};
ghost use Rattle.pkcs12_bags.specs.Oids.{oid};
ghost use Rattle.pkcs12_bags.specs.declared.parts.oids.TheConstants.{FRIENDLY_NAME, LOCAL_KEY_ID};

use crate::representations::AuthenticatedSafeDataRepr;
use crate::utf16_strings::Utf16String;
use asn1_core::from_bytes;
use asn1_core::prelude::*;
use pkcs12_bags::parts::oids::{FRIENDLY_NAME, LOCAL_KEY_ID, octets_of_known};
use std::alloc::Global;
use x509_base::{Attribute, FirstAttribute, first_attribute, only_value_as};

/// `SafeBag ::= SEQUENCE { bagId BAG-TYPE.&id, bagValue [0] EXPLICIT BAG-TYPE.&Type, bagAttributes SET OF
/// PKCS12Attribute OPTIONAL }` (RFC 7292, 4.2), of any kind, with any attributes. A friendly name may have characters
/// past U+FFFF, which a `SafeBag` refuses.
#[derive(Debug, Drop, PartialEq, Eq)]
pub struct RawSafeBag {
    pub bag_id: ObjectIdentifierAsn1,
    /// One element, octet for octet.
    pub bag_value: ExplicitContextTag0<Asn1RawDer>,
    /// Absent attributes and an empty set of them are told apart.
    pub bag_attributes: Option<Asn1SetOf<Attribute>>,
}

impl RawSafeBag {
    /// The bytes of the value's element with its header, without the tag `[0]` around it.
    pub fn value(&self) -> &[u8]
        ensures { result.now ≡ self.now.bag_value.0.0.items }
    {
        self.bag_value.0.0.as_slice()
    }

    /// The value as a `T`: what `from_bytes` gives of the bytes that `value` gives. Refused is what that refuses; which
    /// error it is, is not proved, as of `from_bytes`. The kind of the bag is not examined.
    pub fn value_typed<T: DerDeserialize>(&self, alloc: Global) -> Result<T, Error>
        ensures { AnswersInput T.value T.format 64 self.now.bag_value.0.0.items result }
    {
        from_bytes(alloc, self.value())
    }

    /// The attributes, none where they are absent.
    pub fn attributes(&self) -> &[Attribute]
        ensures { map attribute_value result.now ≡ attributes_of (raw_safe_bag_value self.now) }
    {
        match &self.bag_attributes {
            Some(attributes) => attributes.0.as_slice(),
            None => &[],
        }
    }

    /// The first attribute with an object identifier, which is given by its contents octets.
    pub fn attribute(&self, oid: &[u8]) -> Option<FirstAttribute<'_>>
        ensures { MatchOption result (with_oid oid.now (attributes_of (raw_safe_bag_value self.now)) ≡ [])
            (λ first. IsFirst (with_oid oid.now (attributes_of (raw_safe_bag_value self.now))) (attribute_value first.attribute.now) first.is_only) }
    {
        first_attribute(self.attributes(), oid)
    }

    /// The name that is shown to a user (RFC 2985, 5.5.1). `None` where there is no such attribute; what is no BMPString
    /// in UTF-16 is refused, as is a second one, or one without value or with several.
    pub fn friendly_name(&self, alloc: Global) -> Result<Option<Utf16String>, Error>
        ensures { GivesOnly octets_of_utf16 utf16_string.format (with_oid (oid FRIENDLY_NAME) (attributes_of (raw_safe_bag_value self.now))) result }
    {
        only_value_as(alloc, self.attributes(), octets_of_known(FRIENDLY_NAME))
    }

    /// What ties a key to its certificate (RFC 2985, 5.5.2), alike.
    pub fn local_key_id(&self, alloc: Global) -> Result<Option<OctetStringAsn1>, Error>
        ensures { GivesOnly (λ octets. octets.0.items) octet_string (with_oid (oid LOCAL_KEY_ID) (attributes_of (raw_safe_bag_value self.now))) result }
    {
        only_value_as(alloc, self.attributes(), octets_of_known(LOCAL_KEY_ID))
    }
}

impl Sequence for RawSafeBag {
    ghost asn1 = { raw_safe_bag };

    ghost value = { raw_safe_bag_value };

    fn with_components<U: ComponentVisitor>(&self, visitor: &mut U) -> U::Out {
        with_components_of!(self, visitor; RawSafeBag { bag_id, bag_value, bag_attributes OPTIONAL })
    }

    fn read_fields(alloc: Global, r: &mut Reader<'_>, nest: u8) -> Result<Self, Error> {
        read_fields_of!(alloc, r, nest; RawSafeBag { bag_id, bag_value, bag_attributes OPTIONAL })
    }

    #[inline(always)]
    fn clone_fields(&self, alloc: Global) -> Result<Self, Error> {
        clone_fields_of!(self, alloc; RawSafeBag { bag_id, bag_value, bag_attributes OPTIONAL })
    }

    ghost equal = { raw_safe_bag_equal };
}

/// `SafeContents ::= SEQUENCE OF SafeBag` (RFC 7292, 4.2), of bags that are not parsed: bags in a bag are its value.
#[derive(Debug, Drop, PartialEq, Eq)]
pub struct RawSafeContents(pub Vec<RawSafeBag>);

impl DerSerialize for RawSafeContents {
    ghost Value = { raw_safe_contents.Value };

    ghost value = { raw_safe_contents_value };

    ghost format = { (SEQUENCE raw_safe_contents).format };

    fn put<W: Writer>(&self, w: &mut W) -> Result<(), WriteError> {
        put_within(0x30, &self.0, w)
    }

    fn well_formed_at(&self, limit: u8) -> bool {
        self.0.components_well_formed_at(limit)
    }
}

impl DerDeserialize for RawSafeContents {
    fn read(alloc: Global, r: &mut Reader<'_>, nest: u8) -> Result<Self, Error> {
        Ok(RawSafeContents(read_within(alloc, r, nest, 0x30)?))
    }

    fn begins(tag: u8) -> bool {
        tag == 0x30
    }

    ghost lawful = { (SEQUENCE raw_safe_contents).law };
}

impl EqualByText for RawSafeContents {
    ghost equal_by_text = { raw_safe_contents_equal };
}

impl TryClone for RawSafeContents {
    #[inline(always)]
    fn try_clone(&self, alloc: Global) -> Result<Self, Error> {
        Ok(RawSafeContents(self.0.try_clone(alloc)?))
    }
}

impl AuthenticatedSafeDataRepr for RawSafeContents {
    type Repr = RawSafeContents;

    ghost into = { λ x. x };

    ghost from = { λ x. x };

    fn into_repr(self) -> RawSafeContents {
        self
    }

    fn from_repr(repr: RawSafeContents) -> Self {
        repr
    }

    fn put_repr<W: Writer>(repr: &RawSafeContents, w: &mut W) -> Result<(), WriteError> {
        repr.put(w)
    }

    fn repr_well_formed_at(repr: &RawSafeContents, limit: u8) -> bool {
        repr.well_formed_at(limit)
    }

    ghost there = { λ x. refl };

    ghost back = { λ x. refl };

    ghost seen = { λ x y. (λ e. e, λ e. e) };
}
