//! Signed data, signers, and what they hold.

ghost use Rattle.x509_containers.specs.SignedDataKinds.{entry_of};

use crate::at_type;
use crate::kinds::table::word_of_kind;
use asn1_core::Error;
use der_engine::{KindOfInput, Verdict, check_located_as, rewrite_as_limited};
use std::alloc::Global;

/// Signed data, signers, and what they hold.
#[derive(Clone, Copy, Debug, PartialEq, Eq)]
pub enum SignedDataKind {
    Pkcs7Certificate,
    SignedData,
    SignerInfo,
    SignersInfos,
    UnsignedAttribute,
    UnsignedAttributes,
}

/// The table of these kinds.
#[macro_export]
macro_rules! signed_data_kinds {
    ($by:ident $arguments:tt) => {
        $crate::table_of_kinds! { $by $arguments SignedDataKind
            Pkcs7Certificate = "pkcs7certificate",
            SignedData = "signeddata",
            SignerInfo = "signerinfo",
            SignersInfos = "signersinfos",
            UnsignedAttribute = "unsignedattribute",
            UnsignedAttributes = "unsignedattributes",
        }
    };
}

impl KindOfInput for SignedDataKind {
    ghost word_of = { λ kind. (entry_of kind).word };

    ghost rewriting_at = { λ kind limit. (entry_of kind).rewriting limit };

    fn word(self) -> &'static str {
        signed_data_kinds!(word_of_kind(self))
    }

    fn check_located(
        self,
        alloc: Global,
        limit: u8,
        input: &[u8],
    ) -> Result<Verdict, (Error, usize)> {
        signed_data_kinds!(at_type(self, check_located_as, (alloc, limit, input)))
    }

    fn rewrite(
        self,
        alloc: Global,
        limit: u8,
        input: &[u8],
        out: &mut Vec<u8>,
    ) -> Result<(), Error> {
        signed_data_kinds!(at_type(self, rewrite_as_limited, (alloc, limit, input, out)))
    }
}
