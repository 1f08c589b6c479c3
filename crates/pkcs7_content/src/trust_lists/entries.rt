//! Trust lists and their entries.

ghost use Rattle.pkcs7_content.specs.TrustLists.{ctl_entry, ctl_entry_value, ctl, ctl_value, ctl_entry_equal, ctl_equal};

use crate::trust_lists::attributes::CTLEntryAttribute;
use asn1_core::prelude::*;
use asn1_leaves::{IntegerAsn1, UTCTimeAsn1};
use std::alloc::Global;
use x509_base::AlgorithmIdentifier;

/// `TrustedSubject ::= SEQUENCE { subjectIdentifier OCTET STRING, subjectAttributes SET OF Attribute }`
#[derive(Debug, Drop, PartialEq, Eq)]
pub struct CTLEntry {
    pub cert_fingerprint: OctetStringAsn1,
    pub attributes: Asn1SetOf<CTLEntryAttribute>,
}

impl Sequence for CTLEntry {
    ghost asn1 = { ctl_entry };

    ghost value = { ctl_entry_value };

    fn with_components<U: ComponentVisitor>(&self, visitor: &mut U) -> U::Out {
        with_components_of!(self, visitor; CTLEntry { cert_fingerprint, attributes })
    }

    fn read_fields(alloc: Global, r: &mut Reader<'_>, nest: u8) -> Result<Self, Error> {
        read_fields_of!(alloc, r, nest; CTLEntry { cert_fingerprint, attributes })
    }

    #[inline(always)]
    fn clone_fields(&self, alloc: Global) -> Result<Self, Error> {
        clone_fields_of!(self, alloc; CTLEntry { cert_fingerprint, attributes })
    }

    ghost equal = { ctl_entry_equal };
}

/// `CertificateTrustList ::= SEQUENCE { version DEFAULT v1, subjectUsage, listIdentifier OPTIONAL, sequenceNumber
/// OPTIONAL, ctlThisUpdate, ctlNextUpdate OPTIONAL, subjectAlgorithm, trustedSubjects OPTIONAL, ctlExtensions OPTIONAL
/// }`, of which those are read that have a sequence number, a UTCTime and subjects, and no version, list identifier,
/// next update or extensions.
#[derive(Debug, Drop, PartialEq, Eq)]
pub struct Ctl {
    /// `subjectUsage`
    pub signers: Asn1SequenceOf<ObjectIdentifierAsn1>,
    pub sequence_number: IntegerAsn1,
    /// `ctlThisUpdate`
    pub effective_date: UTCTimeAsn1,
    /// `subjectAlgorithm`
    pub digest_algorithm: AlgorithmIdentifier,
    /// `trustedSubjects`
    pub crl_entries: Asn1SequenceOf<CTLEntry>,
}

macro_rules! ctl {
    ($by:ident($($with:ident),*)) => {
        $by!($($with),*; Ctl {
            signers, sequence_number, effective_date, digest_algorithm, crl_entries
        })
    };
}

impl Sequence for Ctl {
    ghost asn1 = { ctl };

    ghost value = { ctl_value };

    fn with_components<U: ComponentVisitor>(&self, visitor: &mut U) -> U::Out {
        ctl!(with_components_of(self, visitor))
    }

    fn read_fields(alloc: Global, r: &mut Reader<'_>, nest: u8) -> Result<Self, Error> {
        ctl!(read_fields_of(alloc, r, nest))
    }

    #[inline(always)]
    fn clone_fields(&self, alloc: Global) -> Result<Self, Error> {
        ctl!(clone_fields_of(self, alloc))
    }

    ghost equal = { ctl_equal };
}
