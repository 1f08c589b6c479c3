//! Bags, which may hold bags: their types, and how these are read, written, tested, compared and cloned.

ghost use Rattle.std.specs.Prelude.{◌≡◌, ◌++◌, ◌<◌, ◌⊎◌, ◌↔◌, ◌∷◌, [], IsTrue, List, MatchResult, map, false};
ghost use Rattle.std.proofs.Common.{inl, inr};
ghost use Rattle.asn1_core.specs.Der.{Gives, less, element, octets_of};
ghost use Rattle.asn1_core_element.specs.declared.error.Error.TheVariants.{Memory};
ghost use Rattle.asn1_core_format.specs.declared.eithers.Either.TheVariants.{First, Second};
ghost use Rattle.pkcs12_bags.specs.Attributes.{attributes_value};
ghost use Rattle.pkcs12_bags.specs.Oids.{oid};
ghost use Rattle.pkcs12_bags.specs.declared.parts.oids.TheConstants.{KEY_BAG, SHROUDED_KEY_BAG, CERTIFICATE_BAG, CRL_BAG, SECRET_BAG, SAFE_CONTENTS_BAG};
ghost use Rattle.pkcs12_bags.specs.PlainBags.{bag_alternative};
ghost use Rattle.pkcs12_bags.specs.Bags.{Bag, BagComponents, bag_out, safe_bag, safe_contents, nested_choice};
ghost use Rattle.pkcs12_bags.specs.laws.BagEqual.{bag_equal, kind_equal, contents_equal};
ghost use Rattle.pkcs12_bags.specs.laws.BagsLaws.{lawful_safe_bag, lawful_safe_contents};
ghost use Rattle.pkcs12_bags.specs.BagValues.{Kind, bag_value, kind_value, contents_value};

use crate::parts::oids::{
    CERTIFICATE_BAG, CRL_BAG, KEY_BAG, OidNumber, SAFE_CONTENTS_BAG, SECRET_BAG, SHROUDED_KEY_BAG,
    is_oid_of, octets_of_known,
};
use crate::parts::{
    BagAttributes, BagAttributesRef, CertificateBag, CrlBag, EncryptedKeyBag, KeyBag,
    Pkcs12Attribute, SecretBag,
};
use asn1_choices::{Alternative, AnyOid, WriteChoice, read_nested_or};
use asn1_core::OidRef;
use asn1_core::prelude::*;
use asn1_core_element::element::open_element;
use asn1_core_format::Either::{self, First, Second};
use asn1_core_format::{SameLevel, read_list_with};
use std::alloc::Global;

/// `SafeBag ::= SEQUENCE { bagId BAG-TYPE.&id, bagValue [0] EXPLICIT BAG-TYPE.&Type, bagAttributes SET OF
/// PKCS12Attribute OPTIONAL }` (RFC 7292, 4.2).
#[cycle(bag)]
#[derive(Debug, Drop, PartialEq, Eq)]
pub struct SafeBag {
    /// Gives `bagId` and `bagValue`.
    pub kind: SafeBagKind,
    /// Absent attributes and an empty set of them are told apart.
    pub attributes: Option<Vec<Pkcs12Attribute>>,
}

/// What a bag holds.
#[cycle(bag)]
#[derive(Debug, Drop, PartialEq, Eq)]
pub enum SafeBagKind {
    Key(KeyBag),
    EncryptedKey(EncryptedKeyBag),
    Certificate(CertificateBag),
    Crl(CrlBag),
    Secret(SecretBag),
    /// Further bags, one level down.
    SafeContents(SafeContents),
    /// Any other element.
    Unknown {
        type_id: ObjectIdentifier,
        value: Asn1RawDer,
    },
}

/// `SafeContents ::= SEQUENCE OF SafeBag` (RFC 7292, 4.2).
#[cycle(bag)]
#[derive(Debug, Drop, PartialEq, Eq)]
pub struct SafeContents(pub Vec<SafeBag>);

/// What follows the object identifier of a bag.
type BagBody<T> = Required<ExplicitContextTag0<T>, BagAttributes>;

type Nested = OidNumber<SAFE_CONTENTS_BAG>;

/// A bag that holds no bags.
type SecretOr = Either<
    Alternative<OidNumber<SECRET_BAG>, BagBody<SecretBag>>,
    AnyOid<BagBody<Asn1RawDer>>,
>;

type CrlOr = Either<Alternative<OidNumber<CRL_BAG>, BagBody<CrlBag>>, SecretOr>;

type CertificateOr = Either<
    Alternative<OidNumber<CERTIFICATE_BAG>, BagBody<CertificateBag>>,
    CrlOr,
>;

type ShroudedOr = Either<
    Alternative<OidNumber<SHROUDED_KEY_BAG>, BagBody<EncryptedKeyBag>>,
    CertificateOr,
>;

type PlainBag = Either<Alternative<OidNumber<KEY_BAG>, BagBody<KeyBag>>, ShroudedOr>;

impl SafeBag {
    /// The bag that was read.
    fn of_components(components: Either<(SafeContents, BagAttributes), PlainBag>) -> SafeBag
        ensures { bag_out (bag_value result) ≡ elim components [ First p ↦ inl (contents_value p.0, attributes_value p.1.0) | Second c ↦ inr (⟦<PlainBag as WriteChoice>⟧.value c) ] }
    {
        match components {
            First((bags, attributes)) => made(SafeBagKind::SafeContents(bags), attributes),
            Second(First(alternative)) => {
                let Required(ExplicitContextTag0(bag), attributes) = alternative.into_components();
                made(SafeBagKind::Key(bag), attributes)
            }
            Second(Second(First(alternative))) => {
                let Required(ExplicitContextTag0(bag), attributes) = alternative.into_components();
                made(SafeBagKind::EncryptedKey(bag), attributes)
            }
            Second(Second(Second(First(alternative)))) => {
                let Required(ExplicitContextTag0(bag), attributes) = alternative.into_components();
                made(SafeBagKind::Certificate(bag), attributes)
            }
            Second(Second(Second(Second(First(alternative))))) => {
                let Required(ExplicitContextTag0(bag), attributes) = alternative.into_components();
                made(SafeBagKind::Crl(bag), attributes)
            }
            Second(Second(Second(Second(Second(First(alternative)))))) => {
                let Required(ExplicitContextTag0(bag), attributes) = alternative.into_components();
                made(SafeBagKind::Secret(bag), attributes)
            }
            Second(Second(Second(Second(Second(Second(other)))))) => {
                let AnyOid(type_id, Required(ExplicitContextTag0(value), attributes)) = other;
                made(SafeBagKind::Unknown { type_id, value }, attributes)
            }
        }
    }
}

fn made(kind: SafeBagKind, attributes: BagAttributes) -> SafeBag
    ensures kind { result.kind ≡ kind }
    ensures attributes { result.attributes ≡ attributes.0 }
{
    let BagAttributes(attributes) = attributes;
    SafeBag { kind, attributes }
}

/// Whether the object identifier is that of a kind of bag that isn't `Unknown`.
fn is_bag_oid(type_id: &ObjectIdentifier) -> bool
    ensures { IsTrue result ↔ ((octets_of type_id.now ≡ oid KEY_BAG) ⊎ (octets_of type_id.now ≡ oid SHROUDED_KEY_BAG)
        ⊎ (octets_of type_id.now ≡ oid CERTIFICATE_BAG) ⊎ (octets_of type_id.now ≡ oid CRL_BAG)
        ⊎ (octets_of type_id.now ≡ oid SECRET_BAG) ⊎ (octets_of type_id.now ≡ oid SAFE_CONTENTS_BAG)) }
{
    is_oid_of(type_id, octets_of_known(KEY_BAG))
        || is_oid_of(type_id, octets_of_known(SHROUDED_KEY_BAG))
        || is_oid_of(type_id, octets_of_known(CERTIFICATE_BAG))
        || is_oid_of(type_id, octets_of_known(CRL_BAG))
        || is_oid_of(type_id, octets_of_known(SECRET_BAG))
        || is_oid_of(type_id, octets_of_known(SAFE_CONTENTS_BAG))
}

/// Writes the contents of a bag: the object identifier with that number, its value and its attributes.
fn put_bag<T: DerSerialize, W: Writer>(
    number: usize,
    value: &T,
    attributes: &Option<Vec<Pkcs12Attribute>>,
    w: &mut W,
) -> Result<(), WriteError>
    requires { W.MayTake w.old }
    ensures { W.Takes (element 0x06 (oid number) ++ (bag_alternative T.format).text (T.value value.now, attributes_value attributes.now)) w.old w.new result }
{
    let components = Required(
        ExplicitContextTag0(Ref(value)),
        BagAttributesRef(attributes),
    );
    Required(KnownOid(octets_of_known(number)), components).put_components(w)
}

impl WriteComponents for SafeBag {
    ghost Value = { BagComponents (List Bag) };

    ghost value = { λ b. bag_out (bag_value b) };

    ghost format = { nested_choice.components };

    #[cycle(put)]
    fn put_components<W: Writer>(&self, w: &mut W) -> Result<(), WriteError> {
        let attributes = &self.attributes;
        match &self.kind {
            SafeBagKind::Key(bag) => put_bag(KEY_BAG, bag, attributes, w),
            SafeBagKind::EncryptedKey(bag) => put_bag(SHROUDED_KEY_BAG, bag, attributes, w),
            SafeBagKind::Certificate(bag) => put_bag(CERTIFICATE_BAG, bag, attributes, w),
            SafeBagKind::Crl(bag) => put_bag(CRL_BAG, bag, attributes, w),
            SafeBagKind::Secret(bag) => put_bag(SECRET_BAG, bag, attributes, w),
            SafeBagKind::SafeContents(bags) => put_bag(SAFE_CONTENTS_BAG, bags, attributes, w),
            SafeBagKind::Unknown { type_id, value } => {
                let components = Required(
                    ExplicitContextTag0(Ref(value)),
                    BagAttributesRef(attributes),
                );
                Required(OidRef(type_id), components).put_components(w)
            }
        }
    }

    fn components_well_formed_at(&self, limit: u8) -> bool {
        self.well_formed_at(limit)
    }
}

impl DerSerialize for SafeBag {
    ghost Value = { Bag };

    ghost value = { bag_value };

    ghost format = { safe_bag };

    #[cycle(put)]
    fn put<W: Writer>(&self, w: &mut W) -> Result<(), WriteError> {
        put_within(0x30, self, w)
    }

    #[cycle(formed)]
    fn well_formed_at(&self, limit: u8) -> bool {
        if !BagAttributesRef(&self.attributes).components_well_formed_at(limit) {
            return false;
        }
        match &self.kind {
            SafeBagKind::Key(key) => key.well_formed_at(limit),
            SafeBagKind::EncryptedKey(key) => key.well_formed_at(limit),
            SafeBagKind::Certificate(value) => value.well_formed_at(limit),
            SafeBagKind::Crl(value) => value.well_formed_at(limit),
            SafeBagKind::Secret(value) => value.well_formed_at(limit),
            SafeBagKind::SafeContents(inner) => inner_formed_at(inner, limit),
            SafeBagKind::Unknown { type_id, value } => {
                if is_bag_oid(type_id) {
                    return false;
                }
                value.well_formed_at(limit)
            }
        }
    }
}

impl DerSerialize for SafeContents {
    ghost Value = { List Bag };

    ghost value = { contents_value };

    ghost format = { safe_contents };

    #[cycle(put)]
    fn put<W: Writer>(&self, w: &mut W) -> Result<(), WriteError> {
        put_within(0x30, &self.0, w)
    }

    #[cycle(formed)]
    fn well_formed_at(&self, limit: u8) -> bool {
        for bag in &self.0 {
            if !bag.well_formed_at(limit) {
                return false;
            }
        }
        true
    }
}

/// Whether contents one level down are well-formed.
#[cycle(formed)]
fn inner_formed_at(inner: &SafeContents, limit: u8) -> bool
    ensures { IsTrue result ↔ (less safe_contents).IsWellFormed limit (contents_value inner.now) }
{
    if limit == 0 {
        return false;
    }
    inner.well_formed_at(limit - 1)
}

impl DerDeserialize for SafeContents {
    #[cycle(read)]
    fn read(alloc: Global, r: &mut Reader<'_>, nest: u8) -> Result<Self, Error> {
        let bags = read_list_with::<SameLevel, _, _>(
            alloc,
            r,
            nest,
            0x30,
            &|s: &mut Reader<'_>|
                requires { s.old.refused ≡ false }
                ensures { Gives bag_value safe_bag nest s.old s.new result }
            { SafeBag::read(alloc, s, nest) },
        )?;
        Ok(SafeContents(bags))
    }

    fn begins(tag: u8) -> bool {
        tag == 0x30
    }

    ghost lawful = { lawful_safe_contents };
}

impl DerDeserialize for SafeBag {
    #[cycle(read)]
    fn read(alloc: Global, r: &mut Reader<'_>, nest: u8) -> Result<Self, Error> {
        let outer = open_element(r, 0x30)?;
        let components = read_nested_or::<Nested, SafeContents, BagAttributes, PlainBag, _>(
            alloc,
            r,
            nest,
            0xA0,
            &|s: &mut Reader<'_>, below: u8|
                requires sound { s.old.refused ≡ false }
                requires less { below < nest }
                ensures { Gives contents_value safe_contents below s.old s.new result }
            {
                prove!(below < nest);
                SafeContents::read(alloc, s, below)
            },
        )?;
        r.end(outer)?;
        Ok(SafeBag::of_components(components))
    }

    fn begins(tag: u8) -> bool {
        tag == 0x30
    }

    ghost lawful = { lawful_safe_bag };
}

impl EqualByText for SafeBag {
    ghost equal_by_text = { bag_equal };
}

impl EqualByText for SafeContents {
    ghost equal_by_text = { contents_equal };
}

impl Viewed for SafeBagKind {
    ghost View = { Kind };

    ghost view = { kind_value };

    ghost equal = { kind_equal };
}

impl TryClone for SafeBag {
    fn try_clone(&self, alloc: Global) -> Result<Self, Error> {
        clone_of!(self, alloc; SafeBag { kind, attributes })
    }
}

impl TryClone for SafeBagKind {
    #[cycle(copy)]
    fn try_clone(&self, alloc: Global) -> Result<Self, Error> {
        match self {
            Self::Key(key) => Ok(Self::Key(key.try_clone(alloc)?)),
            Self::EncryptedKey(key) => Ok(Self::EncryptedKey(key.try_clone(alloc)?)),
            Self::Certificate(value) => Ok(Self::Certificate(value.try_clone(alloc)?)),
            Self::Crl(value) => Ok(Self::Crl(value.try_clone(alloc)?)),
            Self::Secret(value) => Ok(Self::Secret(value.try_clone(alloc)?)),
            Self::SafeContents(bags) => Ok(Self::SafeContents(bags.try_clone(alloc)?)),
            Self::Unknown { type_id, value } => {
                let type_id = type_id.try_clone(alloc)?;
                let value = value.try_clone(alloc)?;
                Ok(Self::Unknown { type_id, value })
            }
        }
    }
}

/// Appends a bag that is equal to another one. It is made where it is kept.
#[inline(always)]
#[tactic(auto, using(crate::specs::laws::BagLevels::same_bag))]
fn push_like(
    bag: &SafeBag,
    kind: SafeBagKind,
    attributes: Option<Vec<Pkcs12Attribute>>,
    bags: &mut Vec<SafeBag>,
) -> Result<(), Error>
    requires kind { kind_value kind ≡ kind_value bag.now.kind }
    requires attributes { attributes_value attributes ≡ attributes_value bag.now.attributes }
    ensures { MatchResult result
        (λ _. map bag_value bags.new.items ≡ map bag_value bags.old.items ++ bag_value bag.now ∷ [])
        (λ e. e ≡ Memory) }
{
    bags.push(SafeBag { kind, attributes })?;
    Ok(())
}

impl TryClone for SafeContents {
    #[cycle(copy)]
    fn try_clone(&self, alloc: Global) -> Result<Self, Error> {
        let mut bags = Vec::with_capacity(alloc, self.0.len())?;
        for bag in &self.0 {
            let attributes = bag.attributes.try_clone(alloc)?;
            match &bag.kind {
                SafeBagKind::Key(key) => {
                    let kind = SafeBagKind::Key(key.try_clone(alloc)?);
                    push_like(bag, kind, attributes, &mut bags)?;
                }
                SafeBagKind::Certificate(CertificateBag::X509(octets)) => {
                    let certificate = CertificateBag::X509(octets.try_clone(alloc)?);
                    let kind = SafeBagKind::Certificate(certificate);
                    push_like(bag, kind, attributes, &mut bags)?;
                }
                kind => push_like(bag, kind.try_clone(alloc)?, attributes, &mut bags)?,
            }
        }
        Ok(SafeContents(bags))
    }
}
