//! Content under its type, enveloped data, and protection descriptors.

ghost use Rattle.x509_containers.specs.EnvelopedKinds.{entry_of};

use crate::at_type;
use crate::kinds::table::word_of_kind;
use asn1_core::Error;
use der_engine::{KindOfInput, Verdict, check_located_as, rewrite_as_limited};
use std::alloc::Global;

/// Content under its type, enveloped data, and protection descriptors.
#[derive(Clone, Copy, Debug, PartialEq, Eq)]
pub enum EnvelopedKind {
    ContentInfo,
    EncryptedContentInfo,
    EnvelopedData,
    GeneralProtectionDescriptor,
    KekIdentifier,
    KekRecipientInfo,
    OriginatorInfo,
    OtherKeyAttribute,
    ProtectionDescriptor,
    RecipientInfo,
}

/// The table of these kinds.
#[macro_export]
macro_rules! enveloped_kinds {
    ($by:ident $arguments:tt) => {
        $crate::table_of_kinds! { $by $arguments EnvelopedKind
            ContentInfo = "contentinfo",
            EncryptedContentInfo = "encryptedcontentinfo",
            EnvelopedData = "envelopeddata",
            GeneralProtectionDescriptor = "generalprotectiondescriptor",
            KekIdentifier = "kekidentifier",
            KekRecipientInfo = "kekrecipientinfo",
            OriginatorInfo = "originatorinfo",
            OtherKeyAttribute = "otherkeyattribute",
            ProtectionDescriptor = "protectiondescriptor",
            RecipientInfo = "recipientinfo",
        }
    };
}

impl KindOfInput for EnvelopedKind {
    ghost word_of = { λ kind. (entry_of kind).word };

    ghost rewriting_at = { λ kind limit. (entry_of kind).rewriting limit };

    fn word(self) -> &'static str {
        enveloped_kinds!(word_of_kind(self))
    }

    fn check_located(
        self,
        alloc: Global,
        limit: u8,
        input: &[u8],
    ) -> Result<Verdict, (Error, usize)> {
        enveloped_kinds!(at_type(self, check_located_as, (alloc, limit, input)))
    }

    fn rewrite(
        self,
        alloc: Global,
        limit: u8,
        input: &[u8],
        out: &mut Vec<u8>,
    ) -> Result<(), Error> {
        enveloped_kinds!(at_type(self, rewrite_as_limited, (alloc, limit, input, out)))
    }
}
