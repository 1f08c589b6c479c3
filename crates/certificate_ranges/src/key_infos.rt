//! The key of a certificate (RFC 5280, 4.1.2.7).

ghost use Rattle.certificate_ranges.specs.Certificates.{subject_public_key_info};
ghost use Rattle.certificate_ranges.specs.KeyInfos.{key_equal, key_value};

use asn1_core::prelude::*;
use asn1_leaves::BitStringAsn1;
use std::alloc::Global;
use x509_base::AlgorithmIdentifier;

/// `SubjectPublicKeyInfo ::= SEQUENCE { algorithm AlgorithmIdentifier, subjectPublicKey BIT STRING }`
#[derive(Debug, Drop, PartialEq, Eq)]
pub(crate) struct SubjectPublicKeyInfo {
    pub algorithm: AlgorithmIdentifier,
    pub subject_public_key: BitStringAsn1,
}

impl Sequence for SubjectPublicKeyInfo {
    ghost asn1 = { subject_public_key_info };

    ghost value = { key_value };

    fn with_components<U: ComponentVisitor>(&self, visitor: &mut U) -> U::Out {
        with_components_of!(self, visitor; SubjectPublicKeyInfo { algorithm, subject_public_key })
    }

    fn read_fields(alloc: Global, r: &mut Reader<'_>, nest: u8) -> Result<Self, Error> {
        read_fields_of!(alloc, r, nest; SubjectPublicKeyInfo { algorithm, subject_public_key })
    }

    fn clone_fields(&self, alloc: Global) -> Result<Self, Error> {
        clone_fields_of!(self, alloc; SubjectPublicKeyInfo { algorithm, subject_public_key })
    }

    ghost equal = { key_equal };
}
