//! PKCS #12 files and their parts.

ghost use Rattle.x509_containers.specs.StoreKinds.{entry_of};

use crate::at_type;
use crate::kinds::table::word_of_kind;
use asn1_core::Error;
use der_engine::{KindOfInput, Verdict, check_located_as, rewrite_as_limited};
use std::alloc::Global;

/// PKCS #12 files and their parts.
#[derive(Clone, Copy, Debug, PartialEq, Eq)]
pub enum StoreKind {
    AuthenticatedSafeContentInfo,
    CertificateBag,
    CrlBag,
    EncryptedKeyBag,
    EncryptedSafeContents,
    ParsedAuthenticatedSafeDataRepr,
    Pfx,
    Pkcs12Attribute,
    RawAuthenticatedSafeContentInfo,
    RawAuthenticatedSafeDataRepr,
    RawPfx,
    SafeBag,
    SafeContents,
    SafeContentsContentInfo,
    SecretBag,
}

/// The table of these kinds.
#[macro_export]
macro_rules! store_kinds {
    ($by:ident $arguments:tt) => {
        $crate::table_of_kinds! { $by $arguments StoreKind
            AuthenticatedSafeContentInfo<ParsedAuthenticatedSafeDataRepr> = "authenticatedsafecontentinfo",
            CertificateBag = "certificatebag",
            CrlBag = "crlbag",
            EncryptedKeyBag = "encryptedkeybag",
            EncryptedSafeContents = "encryptedsafecontents",
            ParsedAuthenticatedSafeDataRepr = "parsedauthenticatedsafedatarepr",
            Pfx<ParsedAuthenticatedSafeDataRepr> = "pfx",
            Pkcs12Attribute = "pkcs12attribute",
            RawAuthenticatedSafeContentInfo = "rawauthenticatedsafecontentinfo",
            RawAuthenticatedSafeDataRepr = "rawauthenticatedsafedatarepr",
            RawPfx = "rawpfx",
            SafeBag = "safebag",
            SafeContents = "safecontents",
            SafeContentsContentInfo = "safecontentscontentinfo",
            SecretBag = "secretbag",
        }
    };
}

impl KindOfInput for StoreKind {
    ghost word_of = { λ kind. (entry_of kind).word };

    ghost rewriting_at = { λ kind limit. (entry_of kind).rewriting limit };

    fn word(self) -> &'static str {
        store_kinds!(word_of_kind(self))
    }

    fn check_located(
        self,
        alloc: Global,
        limit: u8,
        input: &[u8],
    ) -> Result<Verdict, (Error, usize)> {
        store_kinds!(at_type(self, check_located_as, (alloc, limit, input)))
    }

    fn rewrite(
        self,
        alloc: Global,
        limit: u8,
        input: &[u8],
        out: &mut Vec<u8>,
    ) -> Result<(), Error> {
        store_kinds!(at_type(self, rewrite_as_limited, (alloc, limit, input, out)))
    }
}
