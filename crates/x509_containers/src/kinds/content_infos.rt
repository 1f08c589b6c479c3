//! Contents of PKCS #7.

ghost use Rattle.x509_containers.specs.ContentKinds.{entry_of};

use crate::at_type;
use crate::kinds::table::word_of_kind;
use asn1_core::Error;
use der_engine::{KindOfInput, Verdict, check_located_as, rewrite_as_limited};
use std::alloc::Global;

/// Contents of PKCS #7.
#[derive(Clone, Copy, Debug, PartialEq, Eq)]
pub enum ContentKind {
    CmsVersion,
    EncapsulatedContentInfo,
}

/// The table of these kinds.
#[macro_export]
macro_rules! content_kinds {
    ($by:ident $arguments:tt) => {
        $crate::table_of_kinds! { $by $arguments ContentKind
            CmsVersion = "cmsversion",
            EncapsulatedContentInfo = "encapsulatedcontentinfo",
        }
    };
}

impl KindOfInput for ContentKind {
    ghost word_of = { λ kind. (entry_of kind).word };

    ghost rewriting_at = { λ kind limit. (entry_of kind).rewriting limit };

    fn word(self) -> &'static str {
        content_kinds!(word_of_kind(self))
    }

    fn check_located(
        self,
        alloc: Global,
        limit: u8,
        input: &[u8],
    ) -> Result<Verdict, (Error, usize)> {
        content_kinds!(at_type(self, check_located_as, (alloc, limit, input)))
    }

    fn rewrite(
        self,
        alloc: Global,
        limit: u8,
        input: &[u8],
        out: &mut Vec<u8>,
    ) -> Result<(), Error> {
        content_kinds!(at_type(self, rewrite_as_limited, (alloc, limit, input, out)))
    }
}
