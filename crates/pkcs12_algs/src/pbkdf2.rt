//! The parameters of PBKDF2.

ghost use Rattle.std.proofs.Common.{rules};
ghost use Rattle.pkcs12_algs.specs.Pbkdf2.{pbkdf2_salt_source, pbkdf2_salt_source_value, pbkdf2_params, pbkdf2_params_value};
ghost use Rattle.pkcs12_algs.specs.AlgorithmsEqual.{pbkdf2_params_equal};

use crate::prfs::Pbkdf2Prf;
use asn1_core::prelude::*;
use std::alloc::Global;
use x509_base::RawAlgorithmIdentifier;

/// `salt CHOICE { specified OCTET STRING, otherSource AlgorithmIdentifier {{PBKDF2-SaltSources}} }` (RFC 8018,
/// appendix A.2). The standard knows no other source, so one is kept as it is.
#[derive(Debug, Drop, PartialEq, Eq)]
pub enum Pbkdf2SaltSource {
    /// `specified`: the salt itself, of any length (RFC 8018, 4.1)
    Specified(OctetStringAsn1),
    /// `otherSource`: where it comes from, with any parameters (RFC 8018, appendix A.2)
    OtherSource(RawAlgorithmIdentifier),
}

impl Asn1Type for Pbkdf2SaltSource {
    ghost asn1 = { pbkdf2_salt_source };

    ghost value = { pbkdf2_salt_source_value };

    fn with_encoded<U: ComponentVisitor>(&self, visitor: &mut U) -> U::Out {
        match self {
            Self::Specified(salt) => visitor.visit_value(salt),
            Self::OtherSource(raw) => visitor.visit_value(raw),
        }
    }

    fn read_encoded(alloc: Global, r: &mut Reader<'_>, nest: u8) -> Result<Self, Error> {
        match Either::read_one(alloc, r, nest)? {
            Either::First(salt) => Ok(Self::Specified(salt)),
            Either::Second(raw) => Ok(Self::OtherSource(raw)),
        }
    }

    fn is_first_tag(tag: u8) -> bool {
        tag == 0x04 || tag == 0x30
    }

    #[inline(always)]
    fn clone_value(&self, alloc: Global) -> Result<Self, Error> {
        match self {
            Self::Specified(salt) => Ok(Self::Specified(salt.try_clone(alloc)?)),
            Self::OtherSource(raw) => Ok(Self::OtherSource(raw.try_clone(alloc)?)),
        }
    }

    ghost equal = { Prim.search rules };
}

/// `PBKDF2-params ::= SEQUENCE { salt CHOICE { .. }, iterationCount INTEGER (1..MAX), keyLength INTEGER (1..MAX)
/// OPTIONAL, prf AlgorithmIdentifier {{PBKDF2-PRFs}} DEFAULT algid-hmacWithSHA1 }` (RFC 8018, appendix A.2). A count or
/// length of 0 is read, and one past 32 bits is refused. A PRF that is left out and one that is the default are told
/// apart, and written as they were read.
#[derive(Debug, Drop, PartialEq, Eq)]
pub struct Pbkdf2Params {
    /// `salt`, or where it comes from (RFC 8018, 4.1).
    pub salt: Pbkdf2SaltSource,
    /// `iterationCount`: how often the PRF is applied for each block of the key (RFC 8018, 4.2 and 5.2).
    pub iteration_count: u32,
    /// `keyLength`, in octets (RFC 8018, appendix A.2).
    pub key_length: Option<u32>,
    /// `prf`; HMAC with SHA-1 where it is left out (RFC 8018, appendix A.2).
    pub prf: Option<Pbkdf2Prf>,
}

/// The components.
macro_rules! pbkdf2_params {
    ($by:ident($($by_what:ident),*)) => {
        $by!($($by_what),*; Pbkdf2Params { salt, iteration_count, key_length OPTIONAL, prf OPTIONAL })
    };
}

impl Sequence for Pbkdf2Params {
    ghost asn1 = { pbkdf2_params };

    ghost value = { pbkdf2_params_value };

    fn with_components<U: ComponentVisitor>(&self, visitor: &mut U) -> U::Out {
        pbkdf2_params!(with_components_of(self, visitor))
    }

    fn read_fields(alloc: Global, r: &mut Reader<'_>, nest: u8) -> Result<Self, Error> {
        pbkdf2_params!(read_fields_of(alloc, r, nest))
    }

    #[inline(always)]
    fn clone_fields(&self, alloc: Global) -> Result<Self, Error> {
        pbkdf2_params!(clone_fields_of(self, alloc))
    }

    ghost equal = { pbkdf2_params_equal };
}
