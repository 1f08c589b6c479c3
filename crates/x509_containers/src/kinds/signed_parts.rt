//! Revocation lists, certificates, signers.

ghost use Rattle.x509_containers.specs.SignedPartKinds.{entry_of};

use crate::at_type;
use crate::kinds::table::word_of_kind;
use asn1_core::Error;
use der_engine::{KindOfInput, Verdict, check_located_as, rewrite_as_limited};
use std::alloc::Global;

/// Revocation lists, certificates, signers.
#[derive(Clone, Copy, Debug, PartialEq, Eq)]
pub enum SignedPartKind {
    Attributes,
    CertificateChoices,
    CertificateList,
    CertificateSerialNumber,
    CertificateSet,
    DigestAlgorithmIdentifier,
    DigestAlgorithmIdentifiers,
    IssuerAndSerialNumber,
    OtherRevocationInfoFormat,
    RevocationInfoChoice,
    RevocationInfoChoices,
    RevokedCertificate,
    RevokedCertificates,
    SignatureAlgorithmIdentifier,
    SignatureValue,
    SignerIdentifier,
    TbsCertList,
}

/// The table of these kinds.
#[macro_export]
macro_rules! signed_part_kinds {
    ($by:ident $arguments:tt) => {
        $crate::table_of_kinds! { $by $arguments SignedPartKind
            Attributes = "attributes",
            CertificateChoices = "certificatechoices",
            CertificateList = "certificatelist",
            CertificateSerialNumber = "certificateserialnumber",
            CertificateSet = "certificateset",
            DigestAlgorithmIdentifier = "digestalgorithmidentifier",
            DigestAlgorithmIdentifiers = "digestalgorithmidentifiers",
            IssuerAndSerialNumber = "issuerandserialnumber",
            OtherRevocationInfoFormat = "otherrevocationinfoformat",
            RevocationInfoChoice = "revocationinfochoice",
            RevocationInfoChoices = "revocationinfochoices",
            RevokedCertificate = "revokedcertificate",
            RevokedCertificates = "revokedcertificates",
            SignatureAlgorithmIdentifier = "signaturealgorithmidentifier",
            SignatureValue = "signaturevalue",
            SignerIdentifier = "signeridentifier",
            TbsCertList = "tbscertlist",
        }
    };
}

impl KindOfInput for SignedPartKind {
    ghost word_of = { λ kind. (entry_of kind).word };

    ghost rewriting_at = { λ kind limit. (entry_of kind).rewriting limit };

    fn word(self) -> &'static str {
        signed_part_kinds!(word_of_kind(self))
    }

    fn check_located(
        self,
        alloc: Global,
        limit: u8,
        input: &[u8],
    ) -> Result<Verdict, (Error, usize)> {
        signed_part_kinds!(at_type(self, check_located_as, (alloc, limit, input)))
    }

    fn rewrite(
        self,
        alloc: Global,
        limit: u8,
        input: &[u8],
        out: &mut Vec<u8>,
    ) -> Result<(), Error> {
        signed_part_kinds!(at_type(self, rewrite_as_limited, (alloc, limit, input, out)))
    }
}
