//! The attributes of a bag.

ghost use Rattle.std.specs.Prelude.{◌≡◌, ℕ, List};
ghost use Rattle.asn1_leaves.specs.Strings.{bmp_string};
ghost use Rattle.asn1_leaves_strings.specs.Octets.{octets_of_bmp};
ghost use Rattle.pkcs12_bags.specs.Attributes.{pkcs12_attribute, pkcs12_attribute_value, AttributesValue, attributes, attributes_value};
ghost use Rattle.pkcs12_bags.specs.AttributesEqual.{pkcs12_attribute_equal};

use crate::parts::oids::{FRIENDLY_NAME, LOCAL_KEY_ID, OidNumber};
use crate::parts::sets::SetRef;
use asn1_choices::{Alternative, AnyOid, AnyOidRef, Chosen, WriteChoice};
use asn1_core::prelude::*;
use asn1_leaves::{BmpString, BmpStringAsn1};
use asn1_sets::SetOfOne;
use std::alloc::Global;

/// `PKCS12Attribute ::= SEQUENCE { attrId ATTRIBUTE.&id, attrValues SET OF ATTRIBUTE.&Type }` (RFC 7292, 4.2), of which
/// the two that RFC 2985, 5.5 defines have exactly one value each.
#[derive(Debug, Drop, PartialEq, Eq)]
pub enum Pkcs12Attribute {
    /// The name that is shown to a user.
    FriendlyName(BmpString),
    /// What ties a key to its certificate.
    LocalKeyId(OctetStringAsn1),
    /// Any other attribute.
    Unknown {
        oid: ObjectIdentifier,
        value: Vec<Asn1RawDer>,
    },
}

/// A borrowed string, as a part for writing.
#[derive(Drop)]
struct BmpRef<'a>(&'a BmpString);

impl DerSerialize for BmpRef<'_> {
    ghost Value = { List ℕ };

    ghost value = { λ x. octets_of_bmp x.0.now };

    ghost format = { bmp_string };

    fn put<W: Writer>(&self, w: &mut W) -> Result<(), WriteError> {
        put_element(0x1E, self.0.as_bytes(), w)
    }

    #[tactic(auto, using(asn1_leaves_strings::specs::laws::StringLaws::bmp_octets))]
    fn well_formed_at(&self, _limit: u8) -> bool {
        true
    }
}

type AttributeChoice = Either<
    Alternative<OidNumber<FRIENDLY_NAME>, Alone<SetOfOne<BmpStringAsn1>>>,
    Either<
        Alternative<OidNumber<LOCAL_KEY_ID>, Alone<SetOfOne<OctetStringAsn1>>>,
        AnyOid<Alone<Asn1SetOf<Asn1RawDer>>>,
    >,
>;

type AttributeRef<'a> = Either<
    Alternative<OidNumber<FRIENDLY_NAME>, Alone<SetOfOne<BmpRef<'a>>>>,
    Either<
        Alternative<OidNumber<LOCAL_KEY_ID>, Alone<SetOfOne<Ref<&'a OctetStringAsn1>>>>,
        AnyOidRef<'a, Alone<SetRef<'a, Asn1RawDer>>>,
    >,
>;

impl Pkcs12Attribute {
    fn choice(&self) -> AttributeRef<'_>
        ensures { ⟦<AttributeRef<'static> as WriteChoice>⟧.value result ≡ pkcs12_attribute_value self.now }
    {
        match self {
            Self::FriendlyName(name) => Either::First(Alternative::new(Alone(SetOfOne(BmpRef(
                name,
            ))))),
            Self::LocalKeyId(id) => Either::Second(Either::First(Alternative::new(Alone(SetOfOne(
                Ref(id),
            ))))),
            Self::Unknown { oid, value } => {
                Either::Second(Either::Second(AnyOidRef(oid, Alone(SetRef(value)))))
            }
        }
    }
}

impl Sequence for Pkcs12Attribute {
    ghost asn1 = { pkcs12_attribute };

    ghost value = { pkcs12_attribute_value };

    fn with_components<U: ComponentVisitor>(&self, visitor: &mut U) -> U::Out {
        visitor.visit(&Chosen(self.choice()))
    }

    fn read_fields(alloc: Global, r: &mut Reader<'_>, nest: u8) -> Result<Self, Error> {
        let Chosen(choice) = Chosen::<AttributeChoice>::read_components(alloc, r, nest)?;
        match choice {
            Either::First(alternative) => Ok(Self::FriendlyName(
                alternative.into_components().0.0.0,
            )),
            Either::Second(Either::First(alternative)) => Ok(Self::LocalKeyId(
                alternative.into_components().0.0,
            )),
            Either::Second(Either::Second(other)) => {
                let AnyOid(oid, Alone(Asn1SetOf(value))) = other;
                Ok(Self::Unknown { oid, value })
            }
        }
    }

    fn clone_fields(&self, alloc: Global) -> Result<Self, Error> {
        match self {
            Self::FriendlyName(name) => Ok(Self::FriendlyName(name.try_clone(alloc)?)),
            Self::LocalKeyId(id) => Ok(Self::LocalKeyId(id.try_clone(alloc)?)),
            Self::Unknown { oid, value } => {
                let oid = oid.try_clone(alloc)?;
                let value = value.try_clone(alloc)?;
                Ok(Self::Unknown { oid, value })
            }
        }
    }

    ghost equal = { pkcs12_attribute_equal };
}

/// `bagAttributes SET OF PKCS12Attribute OPTIONAL`, at the end of a bag.
#[derive(Drop)]
pub struct BagAttributes(pub Option<Vec<Pkcs12Attribute>>);

impl WriteComponents for BagAttributes {
    ghost Value = { AttributesValue };

    ghost value = { λ x. attributes_value x.0 };

    ghost format = { attributes.format };

    fn put_components<W: Writer>(&self, w: &mut W) -> Result<(), WriteError> {
        BagAttributesRef(&self.0).put_components(w)
    }

    fn components_well_formed_at(&self, limit: u8) -> bool {
        BagAttributesRef(&self.0).components_well_formed_at(limit)
    }
}

impl ReadComponents for BagAttributes {
    fn read_components(alloc: Global, r: &mut Reader<'_>, nest: u8) -> Result<Self, Error> {
        let Maybe(set, End) = Maybe::<Asn1SetOf<Pkcs12Attribute>, End>::read_components(
            alloc, r, nest,
        )?;
        match set {
            Some(Asn1SetOf(items)) => Ok(BagAttributes(Some(items))),
            None => Ok(BagAttributes(None)),
        }
    }

    ghost lawful = { λ _. attributes.law };
}

/// The borrowed attributes of a bag, for writing.
#[derive(Drop)]
pub struct BagAttributesRef<'a>(pub &'a Option<Vec<Pkcs12Attribute>>);

impl WriteComponents for BagAttributesRef<'_> {
    ghost Value = { AttributesValue };

    ghost value = { λ x. attributes_value x.0.now };

    ghost format = { attributes.format };

    fn put_components<W: Writer>(&self, w: &mut W) -> Result<(), WriteError> {
        match self.0 {
            Some(items) => put_within(0x31, items, w),
            None => End.put_components(w),
        }
    }

    fn components_well_formed_at(&self, limit: u8) -> bool {
        match self.0 {
            Some(items) => items.components_well_formed_at(limit),
            None => true,
        }
    }
}
