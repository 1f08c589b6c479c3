//! Algorithms of PKCS #12 and of encryption by passwords.

ghost use Rattle.x509_containers.specs.AlgorithmKinds.{entry_of};

use crate::at_type;
use crate::kinds::table::word_of_kind;
use asn1_core::Error;
use der_engine::{KindOfInput, Verdict, check_located_as, rewrite_as_limited};
use std::alloc::Global;

/// Algorithms of PKCS #12 and of encryption by passwords.
#[derive(Clone, Copy, Debug, PartialEq, Eq)]
pub enum AlgorithmKind {
    MacData,
    Pbes1Params,
    Pbes2EncryptionScheme,
    Pbes2KeyDerivationFunc,
    Pbes2Params,
    Pbkdf2Params,
    Pkcs12DigestInfo,
    Pkcs12EncryptionAlgorithm,
}

/// The table of these kinds.
#[macro_export]
macro_rules! algorithm_kinds {
    ($by:ident $arguments:tt) => {
        $crate::table_of_kinds! { $by $arguments AlgorithmKind
            MacData = "macdata",
            Pbes1Params = "pbes1params",
            Pbes2EncryptionScheme = "pbes2encryptionscheme",
            Pbes2KeyDerivationFunc = "pbes2keyderivationfunc",
            Pbes2Params = "pbes2params",
            Pbkdf2Params = "pbkdf2params",
            Pkcs12DigestInfo = "pkcs12digestinfo",
            Pkcs12EncryptionAlgorithm = "pkcs12encryptionalgorithm",
        }
    };
}

impl KindOfInput for AlgorithmKind {
    ghost word_of = { λ kind. (entry_of kind).word };

    ghost rewriting_at = { λ kind limit. (entry_of kind).rewriting limit };

    fn word(self) -> &'static str {
        algorithm_kinds!(word_of_kind(self))
    }

    fn check_located(
        self,
        alloc: Global,
        limit: u8,
        input: &[u8],
    ) -> Result<Verdict, (Error, usize)> {
        algorithm_kinds!(at_type(self, check_located_as, (alloc, limit, input)))
    }

    fn rewrite(
        self,
        alloc: Global,
        limit: u8,
        input: &[u8],
        out: &mut Vec<u8>,
    ) -> Result<(), Error> {
        algorithm_kinds!(at_type(self, rewrite_as_limited, (alloc, limit, input, out)))
    }
}
