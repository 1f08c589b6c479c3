//! MACs with what they were made from.

ghost use Rattle.std.specs.Prelude.{◌≡◌, unwrap_or};
ghost use Rattle.std.proofs.Common.{rules};
ghost use Rattle.pkcs12_algs.specs.Digests.{mac_data, mac_data_value};
ghost use Rattle.pkcs12_algs.specs.AlgorithmsEqual.{mac_data_equal};

use crate::digests::Pkcs12DigestInfo;
use asn1_core::prelude::*;
use std::alloc::Global;

/// `MacData ::= SEQUENCE { mac DigestInfo, macSalt OCTET STRING, iterations INTEGER DEFAULT 1 }` (RFC 7292, 4). A
/// count that is left out and one that is 1 are told apart, and written as they were read; a count past 32 bits is
/// refused.
#[derive(Debug, Drop, PartialEq, Eq)]
pub struct MacData {
    /// The MAC, as a digest.
    pub mac: Pkcs12DigestInfo,
    /// `macSalt`: what the key of the MAC is made from beside the password, of any length (RFC 7292, 4).
    pub salt: OctetStringAsn1,
    /// How often the key derivation hashes; 1 where it is left out.
    pub iterations: Option<u32>,
}

impl MacData {
    /// How often the key derivation hashes: 1 where the count is left out (`DEFAULT 1` in RFC 7292, 4).
    pub fn effective_iterations(&self) -> u32
        ensures { result ≡ unwrap_or self.now.iterations 1 }
    {
        self.iterations.unwrap_or(1)
    }
}

impl Sequence for MacData {
    ghost asn1 = { mac_data };

    ghost value = { mac_data_value };

    fn with_components<U: ComponentVisitor>(&self, visitor: &mut U) -> U::Out {
        with_components_of!(self, visitor; MacData { mac, salt, iterations OPTIONAL })
    }

    fn read_fields(alloc: Global, r: &mut Reader<'_>, nest: u8) -> Result<Self, Error> {
        read_fields_of!(alloc, r, nest; MacData { mac, salt, iterations OPTIONAL })
    }

    #[inline(always)]
    fn clone_fields(&self, alloc: Global) -> Result<Self, Error> {
        clone_fields_of!(self, alloc; MacData { mac, salt, iterations OPTIONAL })
    }

    ghost equal = { mac_data_equal };
}
