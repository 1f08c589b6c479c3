//! Encapsulated content (RFC 5652, 5.2).

ghost use Rattle.std.specs.Prelude.{◌≡◌, ◌↔◌, Some, false, IsTrue, MatchResult};
ghost use Rattle.asn1_core.specs.Asn1.{SEQUENCE};
ghost use Rattle.asn1_core.specs.Der.{option_value, octets_of, GivesComponents};
ghost use Rattle.std.proofs.Common.{inl, inr};
ghost use Rattle.asn1_core_element.specs.declared.error.Error.TheVariants.{Memory};
ghost use Rattle.pkcs7_content.specs.Contents.{ContentValues, content_values, ContentComponents, content_kind, IsPlain, octets_components, content_components, content_defined_by, content_value, content_components_value, encapsulated_content_info_value, content_value_equal, encapsulated_content_info_equal};
ghost use Rattle.pkcs7_content.specs.ContentLaws.{content_is_defined_by, encapsulated_content_info};
ghost use Rattle.pkcs7_content.specs.Oids.{data_oid};

use crate::indirect_data::SpcIndirectDataContent;
use crate::oids::{DATA, INDIRECT_DATA, TRUST_LIST};
use crate::trust_lists::Ctl;
use asn1_choices::{AnyDefinedBy, OidAnd, read_inside_defined_by};
use asn1_core::prelude::*;
use std::alloc::Global;

/// What a content type says the content is.
#[derive(Clone, Copy, Debug, PartialEq, Eq)]
enum Kind {
    IndirectData,
    TrustList,
    PlainData,
    Foreign,
}

impl Kind {
    fn with_oid(oid: &[u8]) -> Kind
        ensures { result ≡ content_kind oid.now }
    {
        if oid == INDIRECT_DATA.as_slice() {
            Kind::IndirectData
        } else if oid == TRUST_LIST.as_slice() {
            Kind::TrustList
        } else if oid == DATA.as_slice() {
            Kind::PlainData
        } else {
            Kind::Foreign
        }
    }

    /// Whether the content is plain octets, or none.
    fn is_plain(self) -> bool
        ensures { IsTrue result ↔ IsPlain self }
    {
        matches!(self, Kind::PlainData | Kind::Foreign)
    }
}

/// The content, as the content type before it says. This only writes.
#[derive(Debug, Drop, PartialEq, Eq)]
pub enum ContentValue {
    SpcIndirectDataContent(SpcIndirectDataContent),
    /// Plain octets under a content type that isn't known.
    OctetString(OctetStringAsn1),
    /// Plain octets under `id-data`.
    Data(OctetStringAsn1),
    CertificateTrustList(Ctl),
}

impl ContentValue {
    /// Whether this is well-formed where the content type says that it is of that kind.
    fn fits(&self, kind: Kind, limit: u8) -> bool
        ensures { IsTrue result ↔ (content_components kind).IsWellFormed limit (Some (content_value self.now), tt) }
    {
        match self {
            ContentValue::SpcIndirectDataContent(content) => {
                kind == Kind::IndirectData && content.well_formed_at(limit)
            }
            ContentValue::OctetString(_) => kind.is_plain(),
            ContentValue::Data(_) => kind.is_plain(),
            ContentValue::CertificateTrustList(list) => {
                kind == Kind::TrustList && list.well_formed_at(limit)
            }
        }
    }
}

impl DerSerialize for ContentValue {
    ghost Value = { ContentValues };

    ghost value = { content_value };

    ghost format = { content_values };

    fn put<W: Writer>(&self, w: &mut W) -> Result<(), WriteError> {
        match self {
            ContentValue::SpcIndirectDataContent(content) => content.put(w),
            ContentValue::OctetString(octets) => octets.put(w),
            ContentValue::Data(octets) => octets.put(w),
            ContentValue::CertificateTrustList(list) => list.put(w),
        }
    }

    fn well_formed_at(&self, limit: u8) -> bool {
        match self {
            ContentValue::SpcIndirectDataContent(content) => content.well_formed_at(limit),
            ContentValue::OctetString(octets) => octets.well_formed_at(limit),
            ContentValue::Data(octets) => octets.well_formed_at(limit),
            ContentValue::CertificateTrustList(list) => list.well_formed_at(limit),
        }
    }
}

impl EqualByText for ContentValue {
    ghost equal_by_text = { content_value_equal };
}

impl TryClone for ContentValue {
    #[inline(always)]
    fn try_clone(&self, alloc: Global) -> Result<Self, Error> {
        match self {
            ContentValue::SpcIndirectDataContent(content) => {
                Ok(ContentValue::SpcIndirectDataContent(content.try_clone(alloc)?))
            }
            ContentValue::OctetString(octets) => {
                Ok(ContentValue::OctetString(octets.try_clone(alloc)?))
            }
            ContentValue::Data(octets) => Ok(ContentValue::Data(octets.try_clone(alloc)?)),
            ContentValue::CertificateTrustList(list) => {
                Ok(ContentValue::CertificateTrustList(list.try_clone(alloc)?))
            }
        }
    }
}

type Tagged = ExplicitContextTag0<ContentValue>;

/// Content, or none.
#[derive(Drop)]
struct Content(Option<Tagged>);

impl AnyDefinedBy for Content {
    ghost Value = { ContentComponents };

    ghost value = { λ c. content_components_value c.0 };

    ghost defined_by = { content_defined_by };

    fn read_defined_by(
        alloc: Global,
        oid: &[u8],
        r: &mut Reader<'_>,
        nest: u8,
    ) -> Result<Self, Error> {
        match Kind::with_oid(oid) {
            Kind::IndirectData => {
                let Required(ExplicitContextTag0(content), End) = Required::<
                    ExplicitContextTag0<SpcIndirectDataContent>,
                    End,
                >::read_components(alloc, r, nest)?;
                let value = ContentValue::SpcIndirectDataContent(content);
                Ok(Content(Some(ExplicitContextTag0(value))))
            }
            Kind::TrustList => {
                let Required(ExplicitContextTag0(list), End) = Required::<
                    ExplicitContextTag0<Ctl>,
                    End,
                >::read_components(alloc, r, nest)?;
                let value = ContentValue::CertificateTrustList(list);
                Ok(Content(Some(ExplicitContextTag0(value))))
            }
            Kind::PlainData => match read_octets(alloc, r, nest)? {
                Some(octets) => Ok(Content(Some(ExplicitContextTag0(ContentValue::Data(octets))))),
                None => Ok(Content(None)),
            },
            Kind::Foreign => match read_octets(alloc, r, nest)? {
                Some(octets) => Ok(Content(Some(ExplicitContextTag0(ContentValue::OctetString(
                    octets,
                ))))),
                None => Ok(Content(None)),
            },
        }
    }

    ghost lawful = { content_is_defined_by };
}

/// Reads octets, or none, to the end of the open contents.
fn read_octets(
    alloc: Global,
    r: &mut Reader<'_>,
    nest: u8,
) -> Result<Option<OctetStringAsn1>, Error>
    requires { r.old.refused ≡ false }
    ensures { GivesComponents (λ x. (option_value (λ o. o.0.items) x, tt)) octets_components nest r.old r.new result }
{
    let Maybe(tagged, End) = Maybe::<ExplicitContextTag0<OctetStringAsn1>, End>::read_components(
        alloc, r, nest,
    )?;
    match tagged {
        Some(ExplicitContextTag0(octets)) => Ok(Some(octets)),
        None => Ok(None),
    }
}

/// Whether the content, or its absence, is well-formed after a content type with these contents octets.
fn fits(content: &Option<Tagged>, oid: &[u8], limit: u8) -> bool
    ensures { IsTrue result ↔ (content_defined_by.components oid.now).IsWellFormed limit (content_components_value content.now) }
{
    let kind = Kind::with_oid(oid);
    match content {
        Some(tagged) => tagged.0.fits(kind, limit),
        None => kind.is_plain(),
    }
}

/// `EncapsulatedContentInfo ::= SEQUENCE { eContentType ContentType, eContent [0] EXPLICIT OCTET STRING OPTIONAL }`
/// (RFC 5652, 5.2). Where the content type is that of Authenticode's indirect data or of trust lists, the content is
/// present, and is no octet string but that type itself.
#[derive(Debug, Drop, PartialEq, Eq)]
pub struct EncapsulatedContentInfo {
    pub content_type: ObjectIdentifierAsn1,
    pub content: Option<ExplicitContextTag0<ContentValue>>,
}

impl EncapsulatedContentInfo {
    /// Octets of that content type, or none. They are put into `Data`, whatever the content type is, and are read back
    /// as the alternative that the content type picks. Takes no memory.
    pub fn new(content_type: ObjectIdentifier, content: Option<Vec<u8>>) -> Self
        ensures content_type { result.content_type.0 ≡ content_type }
        ensures content { content_components_value result.content ≡ (option_value (λ octets. inr (inr (inl octets.items))) content, tt) }
    {
        let content = match content {
            Some(octets) => Some(ExplicitContextTag0(ContentValue::Data(OctetStringAsn1(octets)))),
            None => None,
        };
        EncapsulatedContentInfo {
            content_type: ObjectIdentifierAsn1(content_type),
            content,
        }
    }

    /// Data (`id-data`), or none. Refuses by `Memory` alone.
    #[tactic(auto, using(crate::specs::laws::ContentLaws::data_oid_is))]
    pub fn new_pkcs7_data(alloc: Global, content: Option<Vec<u8>>) -> Result<Self, Error>
        ensures { MatchResult result
            (λ x. encapsulated_content_info_value x ≡ (data_oid, (option_value (λ octets. inr (inr (inl octets.items))) content, tt)))
            (λ e. e ≡ Memory) }
    {
        let octets = Vec::from_slice(alloc, &DATA)?;
        Ok(EncapsulatedContentInfo::new(ObjectIdentifier::from_checked(octets), content))
    }
}

impl TaggedType for EncapsulatedContentInfo {
    ghost asn1 = { SEQUENCE encapsulated_content_info };

    ghost value = { encapsulated_content_info_value };

    ghost TAG = { 0x30 };

    const TAG: u8 = 0x30;

    fn put_tagged<W: Writer>(&self, tag: u8, w: &mut W) -> Result<(), WriteError> {
        let content = MaybeRef(&self.content, End);
        put_within(tag, &Required(Ref(&self.content_type), content), w)
    }

    fn is_well_formed_at(&self, limit: u8) -> bool {
        fits(&self.content, self.content_type.0.octets(), limit)
    }

    fn read_open_contents(alloc: Global, r: &mut Reader<'_>, nest: u8) -> Result<Self, Error> {
        let OidAnd(content_type, Content(content)) = read_inside_defined_by(alloc, r, nest)?;
        Ok(EncapsulatedContentInfo {
            content_type,
            content,
        })
    }

    #[inline(always)]
    fn clone_value(&self, alloc: Global) -> Result<Self, Error> {
        clone_of!(self, alloc; EncapsulatedContentInfo { content_type, content })
    }

    ghost tagged = { (SEQUENCE encapsulated_content_info).tagged };

    ghost equal = { encapsulated_content_info_equal };
}
