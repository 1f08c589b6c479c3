//! Digests, and the identifier of a key (RFC 2315, 9.4; RFC 5280, 4.2.1.2).

ghost use Rattle.std.proofs.Common.{rules};
ghost use Rattle.asn1_core.specs.Der.{der_equal};
ghost use Rattle.x509_base.specs.AlgorithmParts.{algorithm_identifier_equal};
ghost use Rattle.x509_base.specs.Digests.{digest_info, digest_info_value, subject_key_identifier, subject_key_identifier_value};

use crate::algorithms::AlgorithmIdentifier;
use asn1_core::prelude::*;
use std::alloc::Global;

/// `DigestInfo ::= SEQUENCE { digestAlgorithm AlgorithmIdentifier, digest OCTET STRING }`
#[derive(Debug, Drop, PartialEq, Eq)]
pub struct DigestInfo {
    pub oid: AlgorithmIdentifier,
    pub digest: OctetStringAsn1,
}

impl Sequence for DigestInfo {
    ghost asn1 = { digest_info };

    ghost value = { digest_info_value };

    fn with_components<U: ComponentVisitor>(&self, visitor: &mut U) -> U::Out {
        with_components_of!(self, visitor; DigestInfo { oid, digest })
    }

    fn read_fields(alloc: Global, r: &mut Reader<'_>, nest: u8) -> Result<Self, Error> {
        read_fields_of!(alloc, r, nest; DigestInfo { oid, digest })
    }

    #[inline(always)]
    fn clone_fields(&self, alloc: Global) -> Result<Self, Error> {
        clone_fields_of!(self, alloc; DigestInfo { oid, digest })
    }

    ghost equal = { λ x y. Prim.search (der_equal, algorithm_identifier_equal, rules) depth 20 };
}

/// `SubjectKeyIdentifier ::= OCTET STRING`
#[derive(Debug, Drop, PartialEq, Eq)]
pub struct SubjectKeyIdentifier(pub OctetStringAsn1);

impl TaggedType for SubjectKeyIdentifier {
    ghost asn1 = { subject_key_identifier };

    ghost value = { subject_key_identifier_value };

    ghost TAG = { 0x04 };

    const TAG: u8 = 0x04;

    fn put_tagged<W: Writer>(&self, tag: u8, w: &mut W) -> Result<(), WriteError> {
        self.0.put_as(tag, w)
    }

    fn is_well_formed_at(&self, limit: u8) -> bool {
        self.0.well_formed_at(limit)
    }

    fn read_open_contents(alloc: Global, r: &mut Reader<'_>, nest: u8) -> Result<Self, Error> {
        Ok(SubjectKeyIdentifier(OctetStringAsn1::read_contents(alloc, r, nest)?))
    }

    #[inline(always)]
    fn clone_value(&self, alloc: Global) -> Result<Self, Error> {
        Ok(SubjectKeyIdentifier(self.0.try_clone(alloc)?))
    }

    ghost tagged = { subject_key_identifier.tagged };

    ghost equal = { Prim.search rules };
}
