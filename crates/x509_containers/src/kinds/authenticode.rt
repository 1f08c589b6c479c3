//! What Authenticode signs.

ghost use Rattle.x509_containers.specs.AuthenticodeKinds.{entry_of};

use crate::at_type;
use crate::kinds::table::word_of_kind;
use asn1_core::Error;
use der_engine::{KindOfInput, Verdict, check_located_as, rewrite_as_limited};
use std::alloc::Global;

/// What Authenticode signs.
#[derive(Clone, Copy, Debug, PartialEq, Eq)]
pub enum AuthenticodeKind {
    File,
    Moniker,
    SpcAttributeAndOptionalValue,
    SpcIndirectDataContent,
    SpcLink,
    SpcPeImageData,
    SpcPeImageFlags,
    SpcSerializedObject,
    SpcSipInfo,
    SpcSpOpusInfo,
    SpcString,
    SpcUuid,
    Url,
}

/// The table of these kinds.
#[macro_export]
macro_rules! authenticode_kinds {
    ($by:ident $arguments:tt) => {
        $crate::table_of_kinds! { $by $arguments AuthenticodeKind
            File = "file",
            Moniker = "moniker",
            SpcAttributeAndOptionalValue = "spcattributeandoptionalvalue",
            SpcIndirectDataContent = "spcindirectdatacontent",
            SpcLink = "spclink",
            SpcPeImageData = "spcpeimagedata",
            SpcPeImageFlags = "spcpeimageflags",
            SpcSerializedObject = "spcserializedobject",
            SpcSipInfo = "spcsipinfo",
            SpcSpOpusInfo = "spcspopusinfo",
            SpcString = "spcstring",
            SpcUuid = "spcuuid",
            Url = "url",
        }
    };
}

impl KindOfInput for AuthenticodeKind {
    ghost word_of = { λ kind. (entry_of kind).word };

    ghost rewriting_at = { λ kind limit. (entry_of kind).rewriting limit };

    fn word(self) -> &'static str {
        authenticode_kinds!(word_of_kind(self))
    }

    fn check_located(
        self,
        alloc: Global,
        limit: u8,
        input: &[u8],
    ) -> Result<Verdict, (Error, usize)> {
        authenticode_kinds!(at_type(self, check_located_as, (alloc, limit, input)))
    }

    fn rewrite(
        self,
        alloc: Global,
        limit: u8,
        input: &[u8],
        out: &mut Vec<u8>,
    ) -> Result<(), Error> {
        authenticode_kinds!(at_type(self, rewrite_as_limited, (alloc, limit, input, out)))
    }
}
