//! Algorithms whose parts are borrowed.

ghost use Rattle.std.specs.Prelude.{◌≡◌};
ghost use Rattle.std.proofs.Common.{inl, inr};
ghost use Rattle.asn1_core.specs.Asn1.{SEQUENCE};
ghost use Rattle.asn1_core.specs.Der.{option_value};
ghost use Rattle.password_ranges.specs.Heads.{ALGORITHM};
ghost use Rattle.password_ranges.specs.Parameters.{AlgorithmValue};
ghost use Rattle.password_writers.specs.Given.{DerivationValue, EncryptionValue, GivenValue, WithPbes2Value, derivation, encryption, given, salted_pbkdf2, with_pbes2, with_salt, with_vector};
ghost use Rattle.pkcs12_algs.specs.Oids.{pbkdf2_oid};
ghost use Rattle.password_writers.specs.Values.{algorithm_value, derivation_value, encryption_value, other_value, pbes2_value, pbkdf2_value, prf_value, salted_value, vector_value};

use asn1_borrowed::{Body, ElementRef, OctetsRef};
use asn1_core::prelude::*;
use password_ranges::oids::{PBES2, PBKDF2};

/// NULL
const NULL: &[u8] = &[0x05, 0x00];

/// An algorithm with its parameters as an element, or without any.
#[derive(Clone, Copy)]
pub struct Other<'a> {
    /// The contents octets of the object identifier.
    pub algorithm: &'a [u8],
    /// The element of the parameters.
    pub parameters: Option<&'a [u8]>,
}

impl DerSerialize for Other<'_> {
    ghost Value = { AlgorithmValue };

    ghost value = { other_value };

    ghost format = { ALGORITHM.format };

    fn put<W: Writer>(&self, w: &mut W) -> Result<(), WriteError> {
        match self.parameters {
            Some(element) => put_within(
                0x30,
                &Required(KnownOid(self.algorithm), Required(ElementRef(element), End)),
                w,
            ),
            None => put_within(0x30, &Required(KnownOid(self.algorithm), End), w),
        }
    }

    fn well_formed_at(&self, limit: u8) -> bool {
        let is_oid = KnownOid(self.algorithm).well_formed_at(limit);
        match self.parameters {
            Some(element) => is_oid && ElementRef(element).well_formed_at(limit),
            None => is_oid,
        }
    }
}

/// An algorithm of PBES1 (RFC 8018, appendix A.3) or of `pkcs-12PbeIds` (RFC 7292, appendix C).
#[derive(Clone, Copy)]
pub struct Salted<'a> {
    /// The contents octets of the object identifier.
    pub algorithm: &'a [u8],
    /// The octets of the salt.
    pub salt: &'a [u8],
    /// How often the key derivation hashes.
    pub iterations: u32,
}

impl DerSerialize for Salted<'_> {
    ghost Value = { with_salt.Value };

    ghost value = { salted_value };

    ghost format = { (SEQUENCE with_salt).format };

    fn put<W: Writer>(&self, w: &mut W) -> Result<(), WriteError> {
        let parameters = Body(Required(OctetsRef(self.salt), Required(self.iterations, End)));
        put_within(
            0x30,
            &Required(KnownOid(self.algorithm), Required(parameters, End)),
            w,
        )
    }

    fn well_formed_at(&self, limit: u8) -> bool {
        let _iterations = self.iterations;
        KnownOid(self.algorithm).well_formed_at(limit)
    }
}

/// The parameters of PBKDF2, with a salt that is specified (RFC 8018, appendix A.2).
#[derive(Clone, Copy)]
pub struct Pbkdf2<'a> {
    /// The octets of the salt.
    pub salt: &'a [u8],
    /// How often the PRF is applied for each block of the key.
    pub iterations: u32,
    /// The length of the key, in octets, unless it is left out.
    pub key_length: Option<u32>,
    /// The contents octets of the PRF's object identifier, whose parameters are NULL (RFC 8018, appendix B.1). Where it is
    /// `None`, it is left out, and HMAC with SHA-1 is meant. One that is given is written, whichever it is.
    pub prf: Option<&'a [u8]>,
}

/// The parts of PBKDF2's parameters.
type Pbkdf2Parts<'a> = Required<OctetsRef<'a>, Required<u32, Maybe<u32, Maybe<Other<'a>, End>>>>;

impl<'a> Pbkdf2<'a> {
    fn prf_with_null(&self) -> Option<Other<'a>>
        ensures { option_value other_value result ≡ prf_value self.now }
    {
        match self.prf {
            Some(algorithm) => Some(Other {
                algorithm,
                parameters: Some(NULL),
            }),
            None => None,
        }
    }

    fn parts(&self) -> Pbkdf2Parts<'a>
        ensures { ⟦<Pbkdf2Parts<'static> as WriteComponents>⟧.value result ≡ pbkdf2_value self.now }
    {
        Required(
            OctetsRef(self.salt),
            Required(
                self.iterations,
                Maybe(self.key_length, Maybe(self.prf_with_null(), End)),
            ),
        )
    }
}

impl DerSerialize for Pbkdf2<'_> {
    ghost Value = { salted_pbkdf2.Value };

    ghost value = { pbkdf2_value };

    ghost format = { (SEQUENCE salted_pbkdf2).format };

    fn put<W: Writer>(&self, w: &mut W) -> Result<(), WriteError> {
        put_within(0x30, &self.parts(), w)
    }

    fn well_formed_at(&self, limit: u8) -> bool {
        self.parts().components_well_formed_at(limit)
    }
}

/// `keyDerivationFunc` of PBES2 (RFC 8018, appendix A.4).
#[derive(Clone, Copy)]
pub enum Derivation<'a> {
    /// `id-PBKDF2` with its parameters.
    Pbkdf2(Pbkdf2<'a>),
    /// Any other, or PBKDF2 with its parameters as an element.
    Other(Other<'a>),
}

/// An algorithm with parameters of a type.
type WithParameters<'a, P> = Required<KnownOid<'a>, Required<P, End>>;

/// PBKDF2 with its parameters.
fn with_pbkdf2<'a>(parameters: &Pbkdf2<'a>) -> WithParameters<'a, Pbkdf2<'a>>
    ensures { ⟦<WithParameters<'static, Pbkdf2<'static>> as WriteComponents>⟧.value result ≡ (pbkdf2_oid, (pbkdf2_value parameters.now, tt)) }
{
    Required(KnownOid(&PBKDF2), Required(*parameters, End))
}

impl DerSerialize for Derivation<'_> {
    ghost Value = { DerivationValue };

    ghost value = { derivation_value };

    ghost format = { derivation };

    fn put<W: Writer>(&self, w: &mut W) -> Result<(), WriteError> {
        match self {
            Derivation::Pbkdf2(parameters) => put_within(0x30, &with_pbkdf2(parameters), w),
            Derivation::Other(other) => other.put(w),
        }
    }

    fn well_formed_at(&self, limit: u8) -> bool {
        match self {
            Derivation::Pbkdf2(parameters) => {
                with_pbkdf2(parameters).components_well_formed_at(limit)
            }
            Derivation::Other(other) => other.well_formed_at(limit),
        }
    }
}

/// An encryption scheme whose parameters are its initialization vector, as AES, DES and triple DES in CBC mode (RFC 8018,
/// appendix B.2).
#[derive(Clone, Copy)]
pub struct WithVector<'a> {
    /// The contents octets of the object identifier.
    pub algorithm: &'a [u8],
    /// The octets of the initialization vector.
    pub vector: &'a [u8],
}

impl DerSerialize for WithVector<'_> {
    ghost Value = { with_vector.Value };

    ghost value = { vector_value };

    ghost format = { (SEQUENCE with_vector).format };

    fn put<W: Writer>(&self, w: &mut W) -> Result<(), WriteError> {
        put_within(
            0x30,
            &Required(
                KnownOid(self.algorithm),
                Required(OctetsRef(self.vector), End),
            ),
            w,
        )
    }

    fn well_formed_at(&self, limit: u8) -> bool {
        KnownOid(self.algorithm).well_formed_at(limit)
    }
}

/// `encryptionScheme` of PBES2 (RFC 8018, appendix A.4).
#[derive(Clone, Copy)]
pub enum Encryption<'a> {
    WithVector(WithVector<'a>),
    /// Any other, or one with its parameters as an element.
    Other(Other<'a>),
}

impl DerSerialize for Encryption<'_> {
    ghost Value = { EncryptionValue };

    ghost value = { encryption_value };

    ghost format = { encryption };

    fn put<W: Writer>(&self, w: &mut W) -> Result<(), WriteError> {
        match self {
            Encryption::WithVector(scheme) => scheme.put(w),
            Encryption::Other(other) => other.put(w),
        }
    }

    fn well_formed_at(&self, limit: u8) -> bool {
        match self {
            Encryption::WithVector(scheme) => scheme.well_formed_at(limit),
            Encryption::Other(other) => other.well_formed_at(limit),
        }
    }
}

/// `id-PBES2` with its parameters (RFC 8018, appendix A.4).
#[derive(Clone, Copy)]
pub struct Pbes2<'a> {
    /// How the key is made from the password.
    pub derivation: Derivation<'a>,
    /// What the key encrypts by.
    pub encryption: Encryption<'a>,
}

/// The parts of PBES2's parameters.
type Parameters<'a> = Body<Required<Derivation<'a>, Required<Encryption<'a>, End>>>;

impl<'a> Pbes2<'a> {
    fn parts(&self) -> WithParameters<'a, Parameters<'a>>
        ensures { ⟦<WithParameters<'static, Parameters<'static>> as WriteComponents>⟧.value result ≡ pbes2_value self.now }
    {
        let parameters = Body(Required(self.derivation, Required(self.encryption, End)));
        Required(KnownOid(&PBES2), Required(parameters, End))
    }
}

impl DerSerialize for Pbes2<'_> {
    ghost Value = { WithPbes2Value };

    ghost value = { pbes2_value };

    ghost format = { with_pbes2 };

    fn put<W: Writer>(&self, w: &mut W) -> Result<(), WriteError> {
        put_within(0x30, &self.parts(), w)
    }

    fn well_formed_at(&self, limit: u8) -> bool {
        self.parts().components_well_formed_at(limit)
    }
}

/// An algorithm that encrypts with a password.
#[derive(Clone, Copy)]
pub enum Algorithm<'a> {
    Salted(Salted<'a>),
    Pbes2(Pbes2<'a>),
    /// Any other, or one of these with its parameters as an element.
    Other(Other<'a>),
}

impl DerSerialize for Algorithm<'_> {
    ghost Value = { GivenValue };

    ghost value = { algorithm_value };

    ghost format = { given };

    fn put<W: Writer>(&self, w: &mut W) -> Result<(), WriteError> {
        match self {
            Algorithm::Salted(algorithm) => algorithm.put(w),
            Algorithm::Pbes2(algorithm) => algorithm.put(w),
            Algorithm::Other(algorithm) => algorithm.put(w),
        }
    }

    fn well_formed_at(&self, limit: u8) -> bool {
        match self {
            Algorithm::Salted(algorithm) => algorithm.well_formed_at(limit),
            Algorithm::Pbes2(algorithm) => algorithm.well_formed_at(limit),
            Algorithm::Other(algorithm) => algorithm.well_formed_at(limit),
        }
    }
}
