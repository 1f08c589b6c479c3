//! Encryption by PBES2: key derivation, and then an encryption scheme.

ghost use Rattle.std.specs.Prelude.{◌≡◌, MatchResult, Some};
ghost use Rattle.std.proofs.Common.{rules};
ghost use Rattle.asn1_core_element.specs.declared.error.Error.TheVariants.{Memory};
ghost use Rattle.asn1_core.specs.Der.{octets_of};
ghost use Rattle.pkcs12_algs.specs.Pbes2.{aes_oid, aes_table, aes_is_table, pbes2_key_derivation_func, pbes2_key_derivation_func_value, pbes2_encryption_scheme, pbes2_encryption_scheme_value, pbes2_params, pbes2_params_value};
ghost use Rattle.pkcs12_algs.specs.laws.Pbes2.{aes_valid};
ghost use Rattle.pkcs12_algs.specs.declared.pbes2.Pbes2AesCbcEncryption.{Pbes2AesCbcEncryption};
ghost use Rattle.pkcs12_algs.specs.AlgorithmsEqual.{pbes2_key_derivation_func_equal, pbes2_params_equal};
ghost use Rattle.pkcs12_algs.specs.Names.{aes_name};

use crate::kinds::{Kind, oid_of_kind};
use crate::oids::{AES128_CBC_PAD, AES192_CBC_PAD, AES256_CBC_PAD, Pbkdf2};
use crate::pbkdf2::Pbkdf2Params;
use crate::rows::{alternative_by_rows, octets_by_rows};
use asn1_choices::{Alternative, Among, Chosen, OidTable, WriteChoice};
use asn1_core::prelude::*;
use std::alloc::Global;
use std::fmt;
use x509_base::RawAlgorithmIdentifier;

/// `AlgorithmIdentifier {{PBES2-KDFs}}` (RFC 8018, appendix A.4). PBKDF2 with other parameters, or with none, is
/// refused and not `Unknown`.
#[derive(Debug, Drop, PartialEq, Eq)]
pub enum Pbes2KeyDerivationFunc {
    /// `id-PBKDF2` with its parameters (RFC 8018, 5.2 and appendix A.2)
    Pbkdf2(Pbkdf2Params),
    /// Any other, with its parameters. With the object identifier of PBKDF2 it isn't well-formed.
    Unknown(RawAlgorithmIdentifier),
}

type KdfChoice = Either<Alternative<Pbkdf2, Alone<Pbkdf2Params>>, RawAlgorithmIdentifier>;

type KdfRef<'a> = Either<
    Alternative<Pbkdf2, Alone<Ref<&'a Pbkdf2Params>>>,
    &'a RawAlgorithmIdentifier,
>;

impl Pbes2KeyDerivationFunc {
    fn choice(&self) -> KdfRef<'_>
        ensures { ⟦<KdfRef<'static> as WriteChoice>⟧.value result ≡ pbes2_key_derivation_func_value self.now }
    {
        match self {
            Self::Pbkdf2(params) => Either::First(Alternative::new(Alone(Ref(params)))),
            Self::Unknown(raw) => Either::Second(raw),
        }
    }
}

impl Sequence for Pbes2KeyDerivationFunc {
    ghost asn1 = { pbes2_key_derivation_func };

    ghost value = { pbes2_key_derivation_func_value };

    fn with_components<U: ComponentVisitor>(&self, visitor: &mut U) -> U::Out {
        visitor.visit(&Chosen(self.choice()))
    }

    fn read_fields(alloc: Global, r: &mut Reader<'_>, nest: u8) -> Result<Self, Error> {
        let Chosen(choice) = Chosen::<KdfChoice>::read_components(alloc, r, nest)?;
        match choice {
            Either::First(alternative) => Ok(Self::Pbkdf2(alternative.into_components().0)),
            Either::Second(raw) => Ok(Self::Unknown(raw)),
        }
    }

    #[inline(always)]
    fn clone_fields(&self, alloc: Global) -> Result<Self, Error> {
        match self {
            Self::Pbkdf2(params) => Ok(Self::Pbkdf2(params.try_clone(alloc)?)),
            Self::Unknown(raw) => Ok(Self::Unknown(raw.try_clone(alloc)?)),
        }
    }

    ghost equal = { pbes2_key_derivation_func_equal };
}

/// AES in CBC mode with padding (RFC 8018, appendix B.2.5), by the length of its key in bits.
#[derive(Clone, Copy, Debug, PartialEq, Eq)]
pub enum Pbes2AesCbcEncryption {
    /// `aes128-CBC-PAD`
    Aes128,
    /// `aes192-CBC-PAD`
    Aes192,
    /// `aes256-CBC-PAD`
    Aes256,
}

/// The kinds, by their object identifiers: one row for each.
macro_rules! aes_kinds {
    ($by:ident($value:expr)) => {
        $by! {
            $value,
            Aes128 = AES128_CBC_PAD,
            Aes192 = AES192_CBC_PAD,
            Aes256 = AES256_CBC_PAD,
        }
    };
}

impl OidTable for Pbes2AesCbcEncryption {
    ghost table = { aes_table };

    fn octets(self) -> &'static [u8] {
        aes_kinds!(octets_by_rows(self))
    }

    fn with_octets(octets: &[u8]) -> Option<Self> {
        aes_kinds!(alternative_by_rows(octets))
    }

    ghost is_table = { aes_is_table };
}

impl Kind for Pbes2AesCbcEncryption {
    ghost valid = { aes_valid };
}

impl Pbes2AesCbcEncryption {
    /// Its object identifier. Refuses by `Memory` alone.
    pub fn to_oid(&self, alloc: Global) -> Result<ObjectIdentifier, Error>
        ensures { MatchResult result (λ oid. octets_of oid ≡ aes_oid self.now) (λ e. e ≡ Memory) }
    {
        oid_of_kind(alloc, *self)
    }

    /// The word for it as OpenSSL writes it, which `Display` writes too.
    pub fn name(&self) -> &'static str
        ensures { result.now ≡ aes_name self.now }
    {
        match self {
            Self::Aes128 => "AES-128-CBC",
            Self::Aes192 => "AES-192-CBC",
            Self::Aes256 => "AES-256-CBC",
        }
    }
}

impl fmt::Display for Pbes2AesCbcEncryption {
    ghost output = { λ x. Some (aes_name x) };

    fn fmt<W: fmt::Write>(&self, f: &mut fmt::Formatter<W>) -> fmt::Result {
        f.write_str(self.name())
    }
}

impl Viewed for Pbes2AesCbcEncryption {
    ghost View = { Pbes2AesCbcEncryption };

    ghost view = { λ x. x };

    ghost equal = { Prim.search rules };
}

impl TryClone for Pbes2AesCbcEncryption {
    #[inline(always)]
    fn try_clone(&self, _alloc: Global) -> Result<Self, Error> {
        Ok(*self)
    }
}

/// `AlgorithmIdentifier {{PBES2-Encs}}` (RFC 8018, appendix A.4). AES with other parameters, or with none, is refused
/// and not `Unknown`.
#[derive(Debug, Drop, PartialEq, Eq)]
pub enum Pbes2EncryptionScheme {
    /// AES in CBC mode (RFC 8018, appendix B.2.5)
    AesCbc {
        /// Which one, by the length of its key.
        kind: Pbes2AesCbcEncryption,
        /// The initialization vector, of 16 octets by the standard; its length is not checked.
        iv: OctetStringAsn1,
    },
    /// Any other, with its parameters. With the object identifier of a kind of AES it isn't well-formed.
    Unknown(RawAlgorithmIdentifier),
}

type SchemeRef<'a> = Among<
    Pbes2AesCbcEncryption,
    Alone<Ref<&'a OctetStringAsn1>>,
    &'a RawAlgorithmIdentifier,
>;

type SchemeChoice = Among<Pbes2AesCbcEncryption, Alone<OctetStringAsn1>, RawAlgorithmIdentifier>;

impl Pbes2EncryptionScheme {
    fn choice(&self) -> SchemeRef<'_>
        ensures { ⟦<SchemeRef<'static> as WriteChoice>⟧.value result ≡ pbes2_encryption_scheme_value self.now }
    {
        match self {
            Self::AesCbc { kind, iv } => Among::Alternative(*kind, Alone(Ref(iv))),
            Self::Unknown(raw) => Among::Other(raw),
        }
    }
}

impl Sequence for Pbes2EncryptionScheme {
    ghost asn1 = { pbes2_encryption_scheme };

    ghost value = { pbes2_encryption_scheme_value };

    fn with_components<U: ComponentVisitor>(&self, visitor: &mut U) -> U::Out {
        visitor.visit(&Chosen(self.choice()))
    }

    fn read_fields(alloc: Global, r: &mut Reader<'_>, nest: u8) -> Result<Self, Error> {
        let Chosen(choice) = Chosen::<SchemeChoice>::read_components(alloc, r, nest)?;
        match choice {
            Among::Alternative(kind, Alone(iv)) => Ok(Self::AesCbc { kind, iv }),
            Among::Other(raw) => Ok(Self::Unknown(raw)),
        }
    }

    #[inline(always)]
    fn clone_fields(&self, alloc: Global) -> Result<Self, Error> {
        match self {
            Self::AesCbc { kind, iv } => Ok(Self::AesCbc {
                kind: *kind,
                iv: iv.try_clone(alloc)?,
            }),
            Self::Unknown(raw) => Ok(Self::Unknown(raw.try_clone(alloc)?)),
        }
    }

    ghost equal = { Prim.search rules };
}

/// `PBES2-params ::= SEQUENCE { keyDerivationFunc AlgorithmIdentifier {{PBES2-KDFs}}, encryptionScheme
/// AlgorithmIdentifier {{PBES2-Encs}} }` (RFC 8018, appendix A.4)
#[derive(Debug, Drop, PartialEq, Eq)]
pub struct Pbes2Params {
    /// `keyDerivationFunc`: how the key is made from the password (RFC 8018, appendix A.4).
    pub key_derivation_func: Pbes2KeyDerivationFunc,
    /// `encryptionScheme`: what the key encrypts by (RFC 8018, appendix A.4).
    pub encryption_scheme: Pbes2EncryptionScheme,
}

impl Sequence for Pbes2Params {
    ghost asn1 = { pbes2_params };

    ghost value = { pbes2_params_value };

    fn with_components<U: ComponentVisitor>(&self, visitor: &mut U) -> U::Out {
        with_components_of!(self, visitor; Pbes2Params { key_derivation_func, encryption_scheme })
    }

    fn read_fields(alloc: Global, r: &mut Reader<'_>, nest: u8) -> Result<Self, Error> {
        read_fields_of!(alloc, r, nest; Pbes2Params { key_derivation_func, encryption_scheme })
    }

    #[inline(always)]
    fn clone_fields(&self, alloc: Global) -> Result<Self, Error> {
        clone_fields_of!(self, alloc; Pbes2Params { key_derivation_func, encryption_scheme })
    }

    ghost equal = { pbes2_params_equal };
}
