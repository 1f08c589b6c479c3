//! The values of attributes.

ghost use Rattle.std.specs.Prelude.{◌≡◌, ◌↔◌, IsTrue};
ghost use Rattle.std.proofs.Common.{rules, inl, inr};
ghost use Rattle.asn1_core.specs.Der.{GivesComponents};
ghost use Rattle.pkcs7_content.specs.AttributeValues.{AttributeValues, attribute_values, values_defined_by, octets_in, usages_in, attribute_values_value, attribute_values_equal};
ghost use Rattle.pkcs7_content.specs.laws.AttributeValues.{values_are_defined_by};
ghost use Rattle.pkcs7_content.specs.Properties.{shape_of};
ghost use Rattle.pkcs7_content.specs.Borrowed.{borrowed_values, IsBorrowed};
ghost use Rattle.pkcs7_content.specs.declared.trust_lists.properties.Shape.TheVariants.{Octets, Usages};

use crate::trust_lists::policies::{CertPolicy, RootProgramChainPolicy};
use crate::trust_lists::properties::{
    DISALLOWED_KEY_USAGES, DISALLOWED_TIME, FRIENDLY_NAME, KEY_IDENTIFIER, KEY_USAGES,
    RESERVED_126, RESERVED_127, ROOT_SHA256, SUBJECT_NAME_MD5, Shape, property_number,
};
use asn1_choices::AnyDefinedBy;
use asn1_core::prelude::*;
use std::alloc::Global;

type OctetsSet = Asn1SetOf<OctetStringAsn1>;

type UsagesSet = Asn1SetOf<OctetStringAsn1Container<Asn1SequenceOf<ObjectIdentifierAsn1>>>;

type ChainPoliciesSet = Asn1SetOf<OctetStringAsn1Container<RootProgramChainPolicy>>;

type CertPoliciesSet = Asn1SetOf<OctetStringAsn1Container<Asn1SequenceOf<CertPolicy>>>;

type RawsSet = Asn1SetOf<Asn1RawDer>;

/// The values of a trust list's attribute. Its object identifier picks the alternative: a known property of
/// certificates, or any other. This only writes.
#[derive(Debug, Drop, PartialEq, Eq)]
pub enum CTLEntryAttributeValues {
    CertAuthRootSha256HashPropId(Asn1SetOf<OctetStringAsn1>),
    CertDisallowedFileTimePropId(Asn1SetOf<OctetStringAsn1>),
    CertFriendlyName(Asn1SetOf<OctetStringAsn1>),
    CertKeyIdentifierPropId(Asn1SetOf<OctetStringAsn1>),
    CertSubjectNameMd5HashPropId(Asn1SetOf<OctetStringAsn1>),
    UnknownReservedPropId126(Asn1SetOf<OctetStringAsn1>),
    DisallowedEnhkeyUsage(
        Asn1SetOf<OctetStringAsn1Container<Asn1SequenceOf<ObjectIdentifierAsn1>>>,
    ),
    CertEnhkeyUsagePropId(
        Asn1SetOf<OctetStringAsn1Container<Asn1SequenceOf<ObjectIdentifierAsn1>>>,
    ),
    UnknownReservedPropId127(
        Asn1SetOf<OctetStringAsn1Container<Asn1SequenceOf<ObjectIdentifierAsn1>>>,
    ),
    CertRootProgramChainPolicy(Asn1SetOf<OctetStringAsn1Container<RootProgramChainPolicy>>),
    CertRootProgramCertPoliciesPropId(
        Asn1SetOf<OctetStringAsn1Container<Asn1SequenceOf<CertPolicy>>>,
    ),
    /// The values of an attribute that is none of these properties.
    Unknown(Asn1SetOf<Asn1RawDer>),
}

/// Borrowed values, by what they are. Octets and usages come with the number of their property.
#[derive(Clone, Copy)]
enum Borrowed<'a> {
    Octets(u8, &'a OctetsSet),
    Usages(u8, &'a UsagesSet),
    ChainPolicies(&'a ChainPoliciesSet),
    CertPolicies(&'a CertPoliciesSet),
    Raws(&'a RawsSet),
}

/// The octets of the property with that number.
fn octets_of_property(number: u8, values: OctetsSet) -> CTLEntryAttributeValues
    requires { shape_of number ≡ Octets }
    ensures { attribute_values_value result ≡ inl (number, octets_in values) }
{
    match number {
        ROOT_SHA256 => CTLEntryAttributeValues::CertAuthRootSha256HashPropId(values),
        DISALLOWED_TIME => CTLEntryAttributeValues::CertDisallowedFileTimePropId(values),
        FRIENDLY_NAME => CTLEntryAttributeValues::CertFriendlyName(values),
        KEY_IDENTIFIER => CTLEntryAttributeValues::CertKeyIdentifierPropId(values),
        SUBJECT_NAME_MD5 => CTLEntryAttributeValues::CertSubjectNameMd5HashPropId(values),
        _ => CTLEntryAttributeValues::UnknownReservedPropId126(values),
    }
}

/// The usages of the property with that number.
fn usages_of_property(number: u8, values: UsagesSet) -> CTLEntryAttributeValues
    requires { shape_of number ≡ Usages }
    ensures { attribute_values_value result ≡ inr (inl (number, usages_in values)) }
{
    match number {
        DISALLOWED_KEY_USAGES => CTLEntryAttributeValues::DisallowedEnhkeyUsage(values),
        KEY_USAGES => CTLEntryAttributeValues::CertEnhkeyUsagePropId(values),
        _ => CTLEntryAttributeValues::UnknownReservedPropId127(values),
    }
}

impl CTLEntryAttributeValues {
    fn borrowed(&self) -> Borrowed<'_>
        ensures same { borrowed_values result ≡ attribute_values_value self.now }
        ensures is { IsBorrowed result }
    {
        match self {
            Self::CertAuthRootSha256HashPropId(values) => Borrowed::Octets(ROOT_SHA256, values),
            Self::CertDisallowedFileTimePropId(values) => Borrowed::Octets(DISALLOWED_TIME, values),
            Self::CertFriendlyName(values) => Borrowed::Octets(FRIENDLY_NAME, values),
            Self::CertKeyIdentifierPropId(values) => Borrowed::Octets(KEY_IDENTIFIER, values),
            Self::CertSubjectNameMd5HashPropId(values) => Borrowed::Octets(
                SUBJECT_NAME_MD5,
                values,
            ),
            Self::UnknownReservedPropId126(values) => Borrowed::Octets(RESERVED_126, values),
            Self::DisallowedEnhkeyUsage(values) => Borrowed::Usages(DISALLOWED_KEY_USAGES, values),
            Self::CertEnhkeyUsagePropId(values) => Borrowed::Usages(KEY_USAGES, values),
            Self::UnknownReservedPropId127(values) => Borrowed::Usages(RESERVED_127, values),
            Self::CertRootProgramChainPolicy(values) => Borrowed::ChainPolicies(values),
            Self::CertRootProgramCertPoliciesPropId(values) => { Borrowed::CertPolicies(values) }
            Self::Unknown(values) => Borrowed::Raws(values),
        }
    }

    /// Whether these are well-formed values of an attribute whose object identifier has these contents octets.
    pub(crate) fn fits(&self, oid: &[u8], limit: u8) -> bool
        ensures { IsTrue result ↔ (values_defined_by.components oid.now).IsWellFormed limit (attribute_values_value self.now) }
    {
        let number = property_number(oid);
        let shape = Shape::of_property(number);
        match self.borrowed() {
            Borrowed::Octets(own, values) => {
                shape == Shape::Octets && own == number && values.well_formed_at(limit)
            }
            Borrowed::Usages(own, values) => {
                shape == Shape::Usages && own == number && values.well_formed_at(limit)
            }
            Borrowed::ChainPolicies(values) => {
                shape == Shape::ChainPolicies && values.well_formed_at(limit)
            }
            Borrowed::CertPolicies(values) => {
                shape == Shape::CertPolicies && values.well_formed_at(limit)
            }
            Borrowed::Raws(values) => shape == Shape::Raws && values.well_formed_at(limit),
        }
    }
}

impl DerSerialize for CTLEntryAttributeValues {
    ghost Value = { AttributeValues };

    ghost value = { attribute_values_value };

    ghost format = { attribute_values };

    fn put<W: Writer>(&self, w: &mut W) -> Result<(), WriteError> {
        match self.borrowed() {
            Borrowed::Octets(_, values) => values.put(w),
            Borrowed::Usages(_, values) => values.put(w),
            Borrowed::ChainPolicies(values) => values.put(w),
            Borrowed::CertPolicies(values) => values.put(w),
            Borrowed::Raws(values) => values.put(w),
        }
    }

    fn well_formed_at(&self, limit: u8) -> bool {
        match self.borrowed() {
            Borrowed::Octets(_, values) => values.well_formed_at(limit),
            Borrowed::Usages(_, values) => values.well_formed_at(limit),
            Borrowed::ChainPolicies(values) => values.well_formed_at(limit),
            Borrowed::CertPolicies(values) => values.well_formed_at(limit),
            Borrowed::Raws(values) => values.well_formed_at(limit),
        }
    }
}

impl AnyDefinedBy for CTLEntryAttributeValues {
    ghost Value = { AttributeValues };

    ghost value = { attribute_values_value };

    ghost defined_by = { values_defined_by };

    fn read_defined_by(
        alloc: Global,
        oid: &[u8],
        r: &mut Reader<'_>,
        nest: u8,
    ) -> Result<Self, Error> {
        let number = property_number(oid);
        match Shape::of_property(number) {
            Shape::Octets => {
                let Alone(values) = Alone::read_components(alloc, r, nest)?;
                Ok(octets_of_property(number, values))
            }
            Shape::Usages => {
                let Alone(values) = Alone::read_components(alloc, r, nest)?;
                Ok(usages_of_property(number, values))
            }
            Shape::ChainPolicies => {
                let Alone(values) = Alone::read_components(alloc, r, nest)?;
                Ok(CTLEntryAttributeValues::CertRootProgramChainPolicy(values))
            }
            Shape::CertPolicies => {
                let Alone(values) = Alone::read_components(alloc, r, nest)?;
                Ok(CTLEntryAttributeValues::CertRootProgramCertPoliciesPropId(values))
            }
            Shape::Raws => {
                let Alone(values) = Alone::read_components(alloc, r, nest)?;
                Ok(CTLEntryAttributeValues::Unknown(values))
            }
        }
    }

    ghost lawful = { values_are_defined_by };
}

impl EqualByText for CTLEntryAttributeValues {
    ghost equal_by_text = { attribute_values_equal };
}

impl TryClone for CTLEntryAttributeValues {
    #[inline(always)]
    fn try_clone(&self, alloc: Global) -> Result<Self, Error> {
        match self.borrowed() {
            Borrowed::Octets(number, values) => {
                Ok(octets_of_property(number, values.try_clone(alloc)?))
            }
            Borrowed::Usages(number, values) => {
                Ok(usages_of_property(number, values.try_clone(alloc)?))
            }
            Borrowed::ChainPolicies(values) => Ok(
                CTLEntryAttributeValues::CertRootProgramChainPolicy(values.try_clone(alloc)?),
            ),
            Borrowed::CertPolicies(values) => Ok(
                CTLEntryAttributeValues::CertRootProgramCertPoliciesPropId(values.try_clone(
                    alloc,
                )?),
            ),
            Borrowed::Raws(values) => Ok(CTLEntryAttributeValues::Unknown(values.try_clone(
                alloc,
            )?)),
        }
    }
}
