//! Trust lists and their parts.

ghost use Rattle.x509_containers.specs.TrustListKinds.{entry_of};

use crate::at_type;
use crate::kinds::table::word_of_kind;
use asn1_core::Error;
use der_engine::{KindOfInput, Verdict, check_located_as, rewrite_as_limited};
use std::alloc::Global;

/// Trust lists and their parts.
#[derive(Clone, Copy, Debug, PartialEq, Eq)]
pub enum TrustListKind {
    CertPolicy,
    Ctl,
    CTLEntry,
    CTLEntryAttribute,
    PolicyQualifier,
    RootProgramChainPolicy,
}

/// The table of these kinds.
#[macro_export]
macro_rules! trust_list_kinds {
    ($by:ident $arguments:tt) => {
        $crate::table_of_kinds! { $by $arguments TrustListKind
            CertPolicy = "certpolicy",
            Ctl = "ctl",
            CTLEntry = "ctlentry",
            CTLEntryAttribute = "ctlentryattribute",
            PolicyQualifier = "policyqualifier",
            RootProgramChainPolicy = "rootprogramchainpolicy",
        }
    };
}

impl KindOfInput for TrustListKind {
    ghost word_of = { λ kind. (entry_of kind).word };

    ghost rewriting_at = { λ kind limit. (entry_of kind).rewriting limit };

    fn word(self) -> &'static str {
        trust_list_kinds!(word_of_kind(self))
    }

    fn check_located(
        self,
        alloc: Global,
        limit: u8,
        input: &[u8],
    ) -> Result<Verdict, (Error, usize)> {
        trust_list_kinds!(at_type(self, check_located_as, (alloc, limit, input)))
    }

    fn rewrite(
        self,
        alloc: Global,
        limit: u8,
        input: &[u8],
        out: &mut Vec<u8>,
    ) -> Result<(), Error> {
        trust_list_kinds!(at_type(self, rewrite_as_limited, (alloc, limit, input, out)))
    }
}
