//! Encryption by a password with parameters of the first kind.

ghost use Rattle.std.specs.Prelude.{◌≡◌, MatchResult, Some};
ghost use Rattle.std.proofs.Common.{rules};
ghost use Rattle.asn1_core_element.specs.declared.error.Error.TheVariants.{Memory};
ghost use Rattle.asn1_core.specs.Der.{octets_of};
ghost use Rattle.pkcs12_algs.specs.Pbes1.{pbe_oid, pbe_table, pbes1_params, pbes1_params_value};
ghost use Rattle.pkcs12_algs.specs.laws.Pbes1.{pbe_is_table, pbe_valid};
ghost use Rattle.pkcs12_algs.specs.declared.pbes1.Pbes1AlgorithmKind.{Pbes1AlgorithmKind};
ghost use Rattle.pkcs12_algs.specs.Names.{pbe_name};

use crate::kinds::{Kind, oid_of_kind};
use crate::oids::{SHA_AND_3_KEY_3_DES_CBC, SHA_AND_40_BIT_RC2_CBC};
use crate::rows::{alternative_by_rows, octets_by_rows};
use asn1_choices::OidTable;
use asn1_core::prelude::*;
use std::alloc::Global;
use std::fmt;

/// The algorithms of `pkcs-12PbeIds` (RFC 7292, appendix C) that are known.
#[derive(Clone, Copy, Debug, PartialEq, Eq)]
pub enum Pbes1AlgorithmKind {
    /// `pbewithSHAAnd40BitRC2-CBC`
    ShaAnd40BitRc2Cbc,
    /// `pbeWithSHAAnd3-KeyTripleDES-CBC`
    ShaAnd3Key3DesCbc,
}

/// The kinds, by their object identifiers: one row for each.
macro_rules! pbe_kinds {
    ($by:ident($value:expr)) => {
        $by! {
            $value,
            ShaAnd40BitRc2Cbc = SHA_AND_40_BIT_RC2_CBC,
            ShaAnd3Key3DesCbc = SHA_AND_3_KEY_3_DES_CBC,
        }
    };
}

impl OidTable for Pbes1AlgorithmKind {
    ghost table = { pbe_table };

    fn octets(self) -> &'static [u8] {
        pbe_kinds!(octets_by_rows(self))
    }

    fn with_octets(octets: &[u8]) -> Option<Self> {
        pbe_kinds!(alternative_by_rows(octets))
    }

    ghost is_table = { pbe_is_table };
}

impl Kind for Pbes1AlgorithmKind {
    ghost valid = { pbe_valid };
}

impl Pbes1AlgorithmKind {
    /// Its object identifier. Refuses by `Memory` alone.
    pub fn to_oid(&self, alloc: Global) -> Result<ObjectIdentifier, Error>
        ensures { MatchResult result (λ oid. octets_of oid ≡ pbe_oid self.now) (λ e. e ≡ Memory) }
    {
        oid_of_kind(alloc, *self)
    }

    /// The word for it as OpenSSL writes it, which `Display` writes too.
    pub fn name(&self) -> &'static str
        ensures { result.now ≡ pbe_name self.now }
    {
        match self {
            Self::ShaAnd40BitRc2Cbc => "pbeWithSHA1And40BitRC2-CBC",
            Self::ShaAnd3Key3DesCbc => "pbeWithSHA1And3-KeyTripleDES-CBC",
        }
    }
}

impl fmt::Display for Pbes1AlgorithmKind {
    ghost output = { λ x. Some (pbe_name x) };

    fn fmt<W: fmt::Write>(&self, f: &mut fmt::Formatter<W>) -> fmt::Result {
        f.write_str(self.name())
    }
}

impl Viewed for Pbes1AlgorithmKind {
    ghost View = { Pbes1AlgorithmKind };

    ghost view = { λ x. x };

    ghost equal = { Prim.search rules };
}

impl TryClone for Pbes1AlgorithmKind {
    #[inline(always)]
    fn try_clone(&self, _alloc: Global) -> Result<Self, Error> {
        Ok(*self)
    }
}

/// `pkcs-12PbeParams ::= SEQUENCE { salt OCTET STRING, iterations INTEGER }` (RFC 7292, appendix C). A count of 0 is
/// read, and one past 32 bits is refused.
#[derive(Debug, Drop, PartialEq, Eq)]
pub struct Pbes1Params {
    /// What the key is made from beside the password, of any length (RFC 7292, appendix C).
    pub salt: OctetStringAsn1,
    /// How often the key derivation hashes (RFC 7292, appendix C).
    pub iterations: u32,
}

impl Sequence for Pbes1Params {
    ghost asn1 = { pbes1_params };

    ghost value = { pbes1_params_value };

    fn with_components<U: ComponentVisitor>(&self, visitor: &mut U) -> U::Out {
        with_components_of!(self, visitor; Pbes1Params { salt, iterations })
    }

    fn read_fields(alloc: Global, r: &mut Reader<'_>, nest: u8) -> Result<Self, Error> {
        read_fields_of!(alloc, r, nest; Pbes1Params { salt, iterations })
    }

    #[inline(always)]
    fn clone_fields(&self, alloc: Global) -> Result<Self, Error> {
        clone_fields_of!(self, alloc; Pbes1Params { salt, iterations })
    }

    ghost equal = { Prim.search rules };
}
