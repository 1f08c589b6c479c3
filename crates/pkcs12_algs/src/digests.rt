//! Digests with their algorithms.

ghost use Rattle.std.specs.Prelude.{◌≡◌, Bool, true, MatchResult, Some};
ghost use Rattle.std.proofs.Common.{refl, rules};
ghost use Rattle.asn1_core_element.specs.declared.error.Error.TheVariants.{Memory};
ghost use Rattle.x509_base.specs.AlgorithmParts.{raw_algorithm_identifier_value};
ghost use Rattle.pkcs12_algs.specs.Algorithms.{from_raw, into_raw};
ghost use Rattle.pkcs12_algs.specs.Digests.{digest_oids, pkcs12_digest_algorithm, pkcs12_digest_algorithm_value, pkcs12_digest_info, pkcs12_digest_info_value};
ghost use Rattle.pkcs12_algs.specs.AlgorithmsEqual.{pkcs12_digest_algorithm_equal, pkcs12_digest_info_equal};
ghost use Rattle.pkcs12_algs.specs.Names.{digest_name};

use crate::algorithms::{
    Algorithm, AlgorithmRef, algorithm_from_raw, clone_algorithm, raw_of_algorithm, read_algorithm,
};
use crate::oids::{SHA1, SHA224, SHA256, SHA384, SHA512};
use crate::rows::{alternative_by_rows, parts_by_rows};
use asn1_core::prelude::*;
use std::alloc::Global;
use std::fmt;
use x509_base::RawAlgorithmIdentifier;

/// `DigestAlgorithmIdentifier ::= AlgorithmIdentifier` (RFC 2315, 6.3), as the digest algorithm of a MAC (RFC 7292, 4):
/// an algorithm that is known by its object identifier (RFC 8017, appendix B.1), whatever its parameters are, or any
/// other. An `Unknown` with a known object identifier isn't well-formed: its encoding is read as the known algorithm.
#[derive(Debug, Drop, PartialEq, Eq)]
pub enum Pkcs12DigestAlgorithm {
    /// `id-sha1` (RFC 8017, appendix B.1)
    Sha1,
    /// `id-sha224` (the same)
    Sha224,
    /// `id-sha256` (the same)
    Sha256,
    /// `id-sha384` (the same)
    Sha384,
    /// `id-sha512` (the same)
    Sha512,
    /// Any other, with its parameters.
    Unknown(RawAlgorithmIdentifier),
}

/// The known digests, by their object identifiers: one row for each.
macro_rules! known_digests {
    ($by:ident($value:expr)) => {
        $by! {
            $value,
            Sha1 = SHA1,
            Sha224 = SHA224,
            Sha256 = SHA256,
            Sha384 = SHA384,
            Sha512 = SHA512,
        }
    };
}

impl Algorithm for Pkcs12DigestAlgorithm {
    ghost OIDS = { digest_oids };

    ghost value = { pkcs12_digest_algorithm_value };

    fn parts(&self) -> Result<&'static [u8], &RawAlgorithmIdentifier> {
        known_digests!(parts_by_rows(self))
    }

    fn known(octets: &[u8]) -> Option<Self> {
        known_digests!(alternative_by_rows(octets))
    }

    fn other(raw: RawAlgorithmIdentifier) -> Self {
        Self::Unknown(raw)
    }

    ghost valid = { refl };
}

impl Pkcs12DigestAlgorithm {
    /// The algorithm that an algorithm identifier names. The parameters of a known one are dropped.
    pub fn from_raw(raw: RawAlgorithmIdentifier) -> Self
        ensures { pkcs12_digest_algorithm_value result ≡ from_raw digest_oids (raw_algorithm_identifier_value raw) }
    {
        algorithm_from_raw(raw)
    }

    /// Its algorithm identifier: of a known one, without parameters. Refuses by `Memory` alone.
    pub fn into_raw(self, alloc: Global) -> Result<RawAlgorithmIdentifier, Error>
        ensures { MatchResult result (λ raw. raw_algorithm_identifier_value raw ≡ into_raw digest_oids (pkcs12_digest_algorithm_value self)) (λ e. e ≡ Memory) }
    {
        match self {
            Self::Unknown(raw) => Ok(raw),
            known => raw_of_algorithm(alloc, &known),
        }
    }

    /// The word for it as OpenSSL writes it, which `Display` writes too; `unknown` for any other.
    pub fn name(&self) -> &'static str
        ensures { result.now ≡ digest_name self.now }
    {
        match self {
            Self::Sha1 => "SHA1",
            Self::Sha224 => "SHA224",
            Self::Sha256 => "SHA256",
            Self::Sha384 => "SHA384",
            Self::Sha512 => "SHA512",
            Self::Unknown(_) => "unknown",
        }
    }
}

impl fmt::Display for Pkcs12DigestAlgorithm {
    ghost output = { λ x. Some (digest_name x) };

    fn fmt<W: fmt::Write>(&self, f: &mut fmt::Formatter<W>) -> fmt::Result {
        f.write_str(self.name())
    }
}

impl Sequence for Pkcs12DigestAlgorithm {
    ghost asn1 = { pkcs12_digest_algorithm };

    ghost value = { pkcs12_digest_algorithm_value };

    fn with_components<U: ComponentVisitor>(&self, visitor: &mut U) -> U::Out {
        visitor.visit(&AlgorithmRef(self))
    }

    fn read_fields(alloc: Global, r: &mut Reader<'_>, nest: u8) -> Result<Self, Error> {
        read_algorithm(alloc, r, nest)
    }

    #[inline(always)]
    fn clone_fields(&self, alloc: Global) -> Result<Self, Error> {
        clone_algorithm(alloc, self)
    }

    ghost equal = { pkcs12_digest_algorithm_equal };
}

/// `DigestInfo ::= SEQUENCE { digestAlgorithm DigestAlgorithmIdentifier, digest Digest }`, as RFC 7292 takes it from
/// RFC 2315, 9.4, with `Digest ::= OCTET STRING`. A known algorithm is written with NULL as its parameters.
#[derive(Debug, Drop, PartialEq, Eq)]
pub struct Pkcs12DigestInfo {
    /// `digestAlgorithm`: by which the digest was made (RFC 2315, 9.4).
    pub digest_algorithm: Pkcs12DigestAlgorithm,
    /// `digest`, of any length (RFC 2315, 9.4).
    pub digest: OctetStringAsn1,
}

impl Sequence for Pkcs12DigestInfo {
    ghost asn1 = { pkcs12_digest_info };

    ghost value = { pkcs12_digest_info_value };

    fn with_components<U: ComponentVisitor>(&self, visitor: &mut U) -> U::Out {
        with_components_of!(self, visitor; Pkcs12DigestInfo { digest_algorithm, digest })
    }

    fn read_fields(alloc: Global, r: &mut Reader<'_>, nest: u8) -> Result<Self, Error> {
        read_fields_of!(alloc, r, nest; Pkcs12DigestInfo { digest_algorithm, digest })
    }

    #[inline(always)]
    fn clone_fields(&self, alloc: Global) -> Result<Self, Error> {
        clone_fields_of!(self, alloc; Pkcs12DigestInfo { digest_algorithm, digest })
    }

    ghost equal = { pkcs12_digest_info_equal };
}
