//! What a PKCS #12 file is encrypted by.

ghost use Rattle.std.specs.Prelude.{◌≡◌};
ghost use Rattle.pkcs12_algs.specs.Encryption.{pkcs12_encryption_algorithm, pkcs12_encryption_algorithm_value};
ghost use Rattle.pkcs12_algs.specs.AlgorithmsEqual.{pkcs12_encryption_algorithm_equal};

use crate::oids::Pbes2;
use crate::pbes1::{Pbes1AlgorithmKind, Pbes1Params};
use crate::pbes2::Pbes2Params;
use asn1_choices::{Alternative, Among, Chosen, WriteChoice};
use asn1_core::prelude::*;
use std::alloc::Global;
use x509_base::RawAlgorithmIdentifier;

/// `ContentEncryptionAlgorithmIdentifier ::= AlgorithmIdentifier` (RFC 2315, 6.2), as PKCS #12 uses it: PBES2
/// (RFC 8018, 6.2), one of `pkcs-12PbeIds` (RFC 7292, appendix C), or any other, such as the schemes that RFC 8018
/// itself calls PBES1. A known object identifier with other parameters, or with none, is refused and not `Unknown`.
#[derive(Debug, Drop, PartialEq, Eq)]
pub enum Pkcs12EncryptionAlgorithm {
    /// One of `pkcs-12PbeIds` (RFC 7292, appendix C)
    Pbes1 {
        /// Which one.
        kind: Pbes1AlgorithmKind,
        /// `pkcs-12PbeParams`, which all of them have.
        params: Pbes1Params,
    },
    /// `id-PBES2` with its parameters (RFC 8018, 6.2 and appendix A.4)
    Pbes2(Pbes2Params),
    /// Any other, with its parameters. With the object identifier of a known one it isn't well-formed.
    Unknown(RawAlgorithmIdentifier),
}

type Pbes1Ref<'a> = Among<
    Pbes1AlgorithmKind,
    Alone<Ref<&'a Pbes1Params>>,
    &'a RawAlgorithmIdentifier,
>;

type EncryptionRef<'a> = Either<Alternative<Pbes2, Alone<Ref<&'a Pbes2Params>>>, Pbes1Ref<'a>>;

type Pbes1Choice = Among<Pbes1AlgorithmKind, Alone<Pbes1Params>, RawAlgorithmIdentifier>;

type EncryptionChoice = Either<Alternative<Pbes2, Alone<Pbes2Params>>, Pbes1Choice>;

impl Pkcs12EncryptionAlgorithm {
    fn choice(&self) -> EncryptionRef<'_>
        ensures { ⟦<EncryptionRef<'static> as WriteChoice>⟧.value result ≡ pkcs12_encryption_algorithm_value self.now }
    {
        match self {
            Self::Pbes1 { kind, params } => Either::Second(Among::Alternative(
                *kind,
                Alone(Ref(params)),
            )),
            Self::Pbes2(params) => Either::First(Alternative::new(Alone(Ref(params)))),
            Self::Unknown(raw) => Either::Second(Among::Other(raw)),
        }
    }
}

impl Sequence for Pkcs12EncryptionAlgorithm {
    ghost asn1 = { pkcs12_encryption_algorithm };

    ghost value = { pkcs12_encryption_algorithm_value };

    fn with_components<U: ComponentVisitor>(&self, visitor: &mut U) -> U::Out {
        visitor.visit(&Chosen(self.choice()))
    }

    fn read_fields(alloc: Global, r: &mut Reader<'_>, nest: u8) -> Result<Self, Error> {
        let Chosen(choice) = Chosen::<EncryptionChoice>::read_components(alloc, r, nest)?;
        match choice {
            Either::First(alternative) => Ok(Self::Pbes2(alternative.into_components().0)),
            Either::Second(Among::Alternative(kind, Alone(params))) => Ok(Self::Pbes1 {
                kind,
                params,
            }),
            Either::Second(Among::Other(raw)) => Ok(Self::Unknown(raw)),
        }
    }

    #[inline(always)]
    fn clone_fields(&self, alloc: Global) -> Result<Self, Error> {
        match self {
            Self::Pbes1 { kind, params } => {
                Ok(Self::Pbes1 {
                    kind: *kind,
                    params: params.try_clone(alloc)?,
                })
            }
            Self::Pbes2(params) => Ok(Self::Pbes2(params.try_clone(alloc)?)),
            Self::Unknown(raw) => Ok(Self::Unknown(raw.try_clone(alloc)?)),
        }
    }

    ghost equal = { pkcs12_encryption_algorithm_equal };
}
