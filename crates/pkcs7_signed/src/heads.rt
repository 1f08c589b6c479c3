//! Signers and signed data without what holds further signers, borrowed, as they are written and tested.

ghost use Rattle.std.specs.Prelude.{◌≡◌, ◌++◌, List};
ghost use Rattle.asn1_core.specs.Der.{nothing, element};
ghost use Rattle.asn1_choices.specs.DefinedBy.{only_written};
ghost use Rattle.pkcs7_signed.specs.Parts.{SignerParts, signer_parts, SignedParts, signed_parts};
ghost use Rattle.pkcs7_signed.specs.Heads.{signer_head_value, signed_head_value};

use asn1_core::prelude::*;
use pkcs7_content::{CmsVersion, EncapsulatedContentInfo};
use pkcs7_signed_crl::{
    Attributes, CertificateSet, DigestAlgorithmIdentifier, DigestAlgorithmIdentifiers,
    RevocationInfoChoices, SignatureAlgorithmIdentifier, SignatureValue, SignerIdentifier,
};

/// A signer before its unsigned attributes.
#[derive(Drop)]
pub(crate) struct SignerHead<'a> {
    pub version: CmsVersion,
    pub sid: &'a SignerIdentifier,
    pub digest_algorithm: &'a DigestAlgorithmIdentifier,
    pub signed_attrs: &'a Attributes,
    pub signature_algorithm: &'a SignatureAlgorithmIdentifier,
    pub signature: &'a SignatureValue,
}

impl DerSerialize for SignerHead<'_> {
    ghost Value = { SignerParts (Unit {0}) };

    ghost value = { signer_head_value };

    ghost format = { only_written (signer_parts nothing) };

    fn put<W: Writer>(&self, w: &mut W) -> Result<(), WriteError> {
        let signature = Required(
            Ref(self.signature_algorithm),
            Required(Ref(self.signature), End),
        );
        let signed = OmittedRef(self.signed_attrs, signature);
        Required(
            self.version,
            Required(Ref(self.sid), Required(Ref(self.digest_algorithm), signed)),
        )
        .put_components(w)
    }

    fn well_formed_at(&self, limit: u8) -> bool {
        let signature = Required(
            Ref(self.signature_algorithm),
            Required(Ref(self.signature), End),
        );
        let signed = OmittedRef(self.signed_attrs, signature);
        match self.version {
            CmsVersion::V1 => {
                Required(
                    Ref(self.sid),
                    Required(Ref(self.digest_algorithm), signed),
                ).components_well_formed_at(limit)
            }
            _ => false,
        }
    }
}

/// Signed data before their signers.
#[derive(Drop)]
pub(crate) struct SignedHead<'a> {
    pub version: CmsVersion,
    pub digest_algorithms: &'a DigestAlgorithmIdentifiers,
    pub content_info: &'a EncapsulatedContentInfo,
    pub certificates: &'a CertificateSet,
    pub crls: &'a Option<RevocationInfoChoices>,
}

impl DerSerialize for SignedHead<'_> {
    ghost Value = { SignedParts (Unit {0}) };

    ghost value = { signed_head_value };

    ghost format = { only_written (signed_parts nothing) };

    fn put<W: Writer>(&self, w: &mut W) -> Result<(), WriteError> {
        let certificates = OmittedRef(self.certificates, MaybeRef(self.crls, End));
        let content = Required(Ref(self.content_info), certificates);
        Required(self.version, Required(Ref(self.digest_algorithms), content)).put_components(w)
    }

    fn well_formed_at(&self, limit: u8) -> bool {
        let certificates = OmittedRef(self.certificates, MaybeRef(self.crls, End));
        let content = Required(Ref(self.content_info), certificates);
        Required(
            self.version,
            Required(Ref(self.digest_algorithms), content),
        ).components_well_formed_at(limit)
    }
}

/// Writes a SEQUENCE of two parts. The second may hold signers: this function is outside of their cycle of calls.
pub(crate) fn put_two<A: DerSerialize, B: DerSerialize, W: Writer>(
    first: &A,
    second: &B,
    w: &mut W,
) -> Result<(), WriteError>
    requires { W.MayTake w.old }
    ensures { W.Takes (element 0x30 (A.format.text (A.value first.now) ++ B.format.text (B.value second.now))) w.old w.new result }
{
    put_within(0x30, &Required(Ref(first), Alone(Ref(second))), w)
}
