//! Policies, as attributes of trust lists hold them.

ghost use Rattle.pkcs7_content.specs.Policies.{root_program_chain_policy, root_program_chain_policy_value, policy_qualifier, policy_qualifier_value, cert_policy, cert_policy_value, root_program_chain_policy_equal, policy_qualifier_equal, cert_policy_equal};

use asn1_core::prelude::*;
use asn1_leaves::BitStringAsn1;
use std::alloc::Global;

/// `RootProgramChainPolicy ::= SEQUENCE { oid OBJECT IDENTIFIER }`
#[derive(Debug, Drop, PartialEq, Eq)]
pub struct RootProgramChainPolicy {
    pub oid: ObjectIdentifierAsn1,
}

impl Sequence for RootProgramChainPolicy {
    ghost asn1 = { root_program_chain_policy };

    ghost value = { root_program_chain_policy_value };

    fn with_components<U: ComponentVisitor>(&self, visitor: &mut U) -> U::Out {
        with_components_of!(self, visitor; RootProgramChainPolicy { oid })
    }

    fn read_fields(alloc: Global, r: &mut Reader<'_>, nest: u8) -> Result<Self, Error> {
        read_fields_of!(alloc, r, nest; RootProgramChainPolicy { oid })
    }

    #[inline(always)]
    fn clone_fields(&self, alloc: Global) -> Result<Self, Error> {
        clone_fields_of!(self, alloc; RootProgramChainPolicy { oid })
    }

    ghost equal = { root_program_chain_policy_equal };
}

/// `PolicyQualifier ::= SEQUENCE { oid OBJECT IDENTIFIER, bits BIT STRING }`
#[derive(Debug, Drop, PartialEq, Eq)]
pub struct PolicyQualifier {
    pub oid: ObjectIdentifierAsn1,
    pub bits: BitStringAsn1,
}

impl Sequence for PolicyQualifier {
    ghost asn1 = { policy_qualifier };

    ghost value = { policy_qualifier_value };

    fn with_components<U: ComponentVisitor>(&self, visitor: &mut U) -> U::Out {
        with_components_of!(self, visitor; PolicyQualifier { oid, bits })
    }

    fn read_fields(alloc: Global, r: &mut Reader<'_>, nest: u8) -> Result<Self, Error> {
        read_fields_of!(alloc, r, nest; PolicyQualifier { oid, bits })
    }

    #[inline(always)]
    fn clone_fields(&self, alloc: Global) -> Result<Self, Error> {
        clone_fields_of!(self, alloc; PolicyQualifier { oid, bits })
    }

    ghost equal = { policy_qualifier_equal };
}

/// `CertPolicy ::= SEQUENCE { oid OBJECT IDENTIFIER, qualifier SEQUENCE OF PolicyQualifier }`
#[derive(Debug, Drop, PartialEq, Eq)]
pub struct CertPolicy {
    pub oid: ObjectIdentifierAsn1,
    pub qualifier: Asn1SequenceOf<PolicyQualifier>,
}

impl Sequence for CertPolicy {
    ghost asn1 = { cert_policy };

    ghost value = { cert_policy_value };

    fn with_components<U: ComponentVisitor>(&self, visitor: &mut U) -> U::Out {
        with_components_of!(self, visitor; CertPolicy { oid, qualifier })
    }

    fn read_fields(alloc: Global, r: &mut Reader<'_>, nest: u8) -> Result<Self, Error> {
        read_fields_of!(alloc, r, nest; CertPolicy { oid, qualifier })
    }

    #[inline(always)]
    fn clone_fields(&self, alloc: Global) -> Result<Self, Error> {
        clone_fields_of!(self, alloc; CertPolicy { oid, qualifier })
    }

    ghost equal = { cert_policy_equal };
}
