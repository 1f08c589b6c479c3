//! The pseudorandom functions of PBKDF2.

ghost use Rattle.std.specs.Prelude.{◌≡◌, Bool, true, MatchResult, Some};
ghost use Rattle.std.proofs.Common.{refl};
ghost use Rattle.asn1_core_element.specs.declared.error.Error.TheVariants.{Memory};
ghost use Rattle.x509_base.specs.AlgorithmParts.{raw_algorithm_identifier_value};
ghost use Rattle.pkcs12_algs.specs.Algorithms.{from_raw, into_raw};
ghost use Rattle.pkcs12_algs.specs.Pbkdf2.{prf_oids, pbkdf2_prf, pbkdf2_prf_value};
ghost use Rattle.pkcs12_algs.specs.declared.prfs.Pbkdf2Prf.TheVariants.{HmacWithSha1};
ghost use Rattle.pkcs12_algs.specs.AlgorithmsEqual.{pbkdf2_prf_equal};
ghost use Rattle.pkcs12_algs.specs.Names.{prf_name};

use crate::algorithms::{
    Algorithm, AlgorithmRef, algorithm_from_raw, clone_algorithm, raw_of_algorithm, read_algorithm,
};
use crate::oids::{
    HMAC_WITH_SHA1, HMAC_WITH_SHA224, HMAC_WITH_SHA256, HMAC_WITH_SHA384, HMAC_WITH_SHA512,
};
use crate::rows::{alternative_by_rows, parts_by_rows};
use asn1_core::prelude::*;
use std::alloc::Global;
use std::fmt;
use x509_base::RawAlgorithmIdentifier;

/// `prf AlgorithmIdentifier {{PBKDF2-PRFs}}` (RFC 8018, appendices A.2 and B.1): a function that is known by its object
/// identifier, whatever its parameters are, or any other, such as those over SHA-512/224 and SHA-512/256. A known one
/// is written with NULL as its parameters.
#[derive(Debug, Drop, PartialEq, Eq)]
pub enum Pbkdf2Prf {
    /// `id-hmacWithSHA1` (RFC 8018, appendix B.1.1)
    HmacWithSha1,
    /// `id-hmacWithSHA224` (RFC 8018, appendix B.1.2)
    HmacWithSha224,
    /// `id-hmacWithSHA256` (the same)
    HmacWithSha256,
    /// `id-hmacWithSHA384` (the same)
    HmacWithSha384,
    /// `id-hmacWithSHA512` (the same)
    HmacWithSha512,
    /// Any other, with its parameters. With the object identifier of a known one it isn't well-formed.
    Unknown(RawAlgorithmIdentifier),
}

/// The known functions, by their object identifiers: one row for each.
macro_rules! known_functions {
    ($by:ident($value:expr)) => {
        $by! {
            $value,
            HmacWithSha1 = HMAC_WITH_SHA1,
            HmacWithSha224 = HMAC_WITH_SHA224,
            HmacWithSha256 = HMAC_WITH_SHA256,
            HmacWithSha384 = HMAC_WITH_SHA384,
            HmacWithSha512 = HMAC_WITH_SHA512,
        }
    };
}

impl Default for Pbkdf2Prf {
    /// `algid-hmacWithSHA1`, the DEFAULT of an absent PRF.
    fn default() -> Self
        ensures { result ≡ HmacWithSha1 }
    {
        Self::HmacWithSha1
    }
}

impl Algorithm for Pbkdf2Prf {
    ghost OIDS = { prf_oids };

    ghost value = { pbkdf2_prf_value };

    fn parts(&self) -> Result<&'static [u8], &RawAlgorithmIdentifier> {
        known_functions!(parts_by_rows(self))
    }

    fn known(octets: &[u8]) -> Option<Self> {
        known_functions!(alternative_by_rows(octets))
    }

    fn other(raw: RawAlgorithmIdentifier) -> Self {
        Self::Unknown(raw)
    }

    ghost valid = { refl };
}

impl Pbkdf2Prf {
    /// The function that an algorithm identifier names. The parameters of a known one are dropped.
    pub fn from_raw(raw: RawAlgorithmIdentifier) -> Self
        ensures { pbkdf2_prf_value result ≡ from_raw prf_oids (raw_algorithm_identifier_value raw) }
    {
        algorithm_from_raw(raw)
    }

    /// Its algorithm identifier: of a known one, without parameters. Refuses by `Memory` alone.
    pub fn into_raw(self, alloc: Global) -> Result<RawAlgorithmIdentifier, Error>
        ensures { MatchResult result (λ raw. raw_algorithm_identifier_value raw ≡ into_raw prf_oids (pbkdf2_prf_value self)) (λ e. e ≡ Memory) }
    {
        match self {
            Self::Unknown(raw) => Ok(raw),
            known => raw_of_algorithm(alloc, &known),
        }
    }

    /// The word for it as OpenSSL writes it, which `Display` writes too; `unknown` for any other.
    pub fn name(&self) -> &'static str
        ensures { result.now ≡ prf_name self.now }
    {
        match self {
            Self::HmacWithSha1 => "hmacWithSHA1",
            Self::HmacWithSha224 => "hmacWithSHA224",
            Self::HmacWithSha256 => "hmacWithSHA256",
            Self::HmacWithSha384 => "hmacWithSHA384",
            Self::HmacWithSha512 => "hmacWithSHA512",
            Self::Unknown(_) => "unknown",
        }
    }
}

impl fmt::Display for Pbkdf2Prf {
    ghost output = { λ x. Some (prf_name x) };

    fn fmt<W: fmt::Write>(&self, f: &mut fmt::Formatter<W>) -> fmt::Result {
        f.write_str(self.name())
    }
}

impl Sequence for Pbkdf2Prf {
    ghost asn1 = { pbkdf2_prf };

    ghost value = { pbkdf2_prf_value };

    fn with_components<U: ComponentVisitor>(&self, visitor: &mut U) -> U::Out {
        visitor.visit(&AlgorithmRef(self))
    }

    fn read_fields(alloc: Global, r: &mut Reader<'_>, nest: u8) -> Result<Self, Error> {
        read_algorithm(alloc, r, nest)
    }

    #[inline(always)]
    fn clone_fields(&self, alloc: Global) -> Result<Self, Error> {
        clone_algorithm(alloc, self)
    }

    ghost equal = { pbkdf2_prf_equal };
}
