//! Trust lists, with all that one may have.

ghost use Rattle.content_ranges.specs.TrustHeads.{trust_list_head, trust_list_head_equal, trust_list_head_value, trusted_subject, trusted_subject_equal, trusted_subject_value};

use asn1_core::prelude::*;
use asn1_leaves::IntegerAsn1;
use std::alloc::Global;
use x509_base::{AlgorithmIdentifier, Attribute, Time};

/// `TrustedSubject ::= SEQUENCE { subjectIdentifier OCTET STRING, subjectAttributes SET OF Attribute OPTIONAL }`
#[derive(Debug, Drop, PartialEq, Eq)]
pub(crate) struct TrustedSubject {
    pub identifier: OctetStringAsn1,
    pub attributes: Option<Asn1SetOf<Attribute>>,
}

impl Sequence for TrustedSubject {
    ghost asn1 = { trusted_subject };

    ghost value = { trusted_subject_value };

    fn with_components<U: ComponentVisitor>(&self, visitor: &mut U) -> U::Out {
        with_components_of!(self, visitor; TrustedSubject { identifier, attributes OPTIONAL })
    }

    fn read_fields(alloc: Global, r: &mut Reader<'_>, nest: u8) -> Result<Self, Error> {
        read_fields_of!(alloc, r, nest; TrustedSubject { identifier, attributes OPTIONAL })
    }

    fn clone_fields(&self, alloc: Global) -> Result<Self, Error> {
        clone_fields_of!(self, alloc; TrustedSubject { identifier, attributes OPTIONAL })
    }

    ghost equal = { trusted_subject_equal };
}

/// `CertificateTrustList ::= SEQUENCE { version CTLVersion DEFAULT v1, subjectUsage SubjectUsage, listIdentifier OCTET STRING
/// OPTIONAL, sequenceNumber INTEGER OPTIONAL, ctlThisUpdate ChoiceOfTime, ctlNextUpdate ChoiceOfTime OPTIONAL,
/// subjectAlgorithm AlgorithmIdentifier, trustedSubjects SEQUENCE OF TrustedSubject OPTIONAL, ctlExtensions [0] EXPLICIT
/// Extensions OPTIONAL }`
#[derive(Debug, Drop, PartialEq, Eq)]
pub(crate) struct TrustListHead {
    /// Of any number. `None` is v1.
    pub version: Option<IntegerAsn1>,
    pub usages: Asn1SequenceOf<ObjectIdentifierAsn1>,
    pub list_identifier: Option<OctetStringAsn1>,
    pub sequence_number: Option<IntegerAsn1>,
    pub this_update: Time,
    pub next_update: Option<Time>,
    pub algorithm: AlgorithmIdentifier,
    pub subjects: Option<Asn1SequenceOf<TrustedSubject>>,
    /// As they are.
    pub extensions: Option<ExplicitContextTag0<Asn1RawDer>>,
}

macro_rules! list_of {
    ($by:ident($($with:ident),*)) => {
        $by!($($with),*; TrustListHead {
            version OPTIONAL, usages, list_identifier OPTIONAL, sequence_number OPTIONAL, this_update,
            next_update OPTIONAL, algorithm, subjects OPTIONAL, extensions OPTIONAL
        })
    };
}

impl Sequence for TrustListHead {
    ghost asn1 = { trust_list_head };

    ghost value = { trust_list_head_value };

    fn with_components<U: ComponentVisitor>(&self, visitor: &mut U) -> U::Out {
        list_of!(with_components_of(self, visitor))
    }

    fn read_fields(alloc: Global, r: &mut Reader<'_>, nest: u8) -> Result<Self, Error> {
        list_of!(read_fields_of(alloc, r, nest))
    }

    fn clone_fields(&self, alloc: Global) -> Result<Self, Error> {
        list_of!(clone_fields_of(self, alloc))
    }

    ghost equal = { trust_list_head_equal };
}
