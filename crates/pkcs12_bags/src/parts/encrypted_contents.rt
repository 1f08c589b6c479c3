//! Encrypted contents.

ghost use Rattle.std.specs.Prelude.{◌≡◌, ℕ, List};
ghost use Rattle.pkcs12_bags.specs.EncryptedContents.{encrypted_octets, encrypted_safe_contents, encrypted_safe_contents_value};
ghost use Rattle.pkcs12_bags.specs.EncryptedContentsEqual.{encrypted_safe_contents_equal};

use crate::parts::oids::{OidNumber, PKCS7_DATA};
use asn1_choices::OnlyOid;
use asn1_core::prelude::*;
use pkcs12_algs::Pkcs12EncryptionAlgorithm;
use std::alloc::Global;

/// The content type `pkcs7-data`. Any other is refused.
type DataType = OnlyOid<OidNumber<PKCS7_DATA>>;

/// `[0] IMPLICIT OCTET STRING`, of borrowed octets, for writing.
#[derive(Drop)]
struct EncryptedRef<'a>(&'a OctetStringAsn1);

impl DerSerialize for EncryptedRef<'_> {
    ghost Value = { List ℕ };

    ghost value = { λ x. x.0.now.0.items };

    ghost format = { encrypted_octets };

    fn put<W: Writer>(&self, w: &mut W) -> Result<(), WriteError> {
        self.0.put_as(0x80, w)
    }

    fn well_formed_at(&self, _limit: u8) -> bool {
        true
    }
}

/// `EncryptedContentInfo ::= SEQUENCE { contentType ContentType, contentEncryptionAlgorithm AlgorithmIdentifier,
/// encryptedContent [0] IMPLICIT OCTET STRING OPTIONAL }` (RFC 2315, 10.1), whose content type is `pkcs7-data`
/// (RFC 7292, 4.1).
#[derive(Debug, Drop, PartialEq, Eq)]
pub struct EncryptedSafeContents {
    pub algorithm: Pkcs12EncryptionAlgorithm,
    pub encrypted_content: Option<OctetStringAsn1>,
}

type ContentsRef<'a> = Required<
    DataType,
    Required<Ref<&'a Pkcs12EncryptionAlgorithm>, Maybe<EncryptedRef<'a>, End>>,
>;

impl EncryptedSafeContents {
    fn components(&self) -> ContentsRef<'_>
        ensures { ⟦<ContentsRef<'static> as WriteComponents>⟧.value result ≡ encrypted_safe_contents_value self.now }
    {
        let content = match &self.encrypted_content {
            Some(octets) => Some(EncryptedRef(octets)),
            None => None,
        };
        Required(
            DataType::new(),
            Required(Ref(&self.algorithm), Maybe(content, End)),
        )
    }
}

impl Sequence for EncryptedSafeContents {
    ghost asn1 = { encrypted_safe_contents };

    ghost value = { encrypted_safe_contents_value };

    fn with_components<U: ComponentVisitor>(&self, visitor: &mut U) -> U::Out {
        visitor.visit(&self.components())
    }

    fn read_fields(alloc: Global, r: &mut Reader<'_>, nest: u8) -> Result<Self, Error> {
        let fields_of!((_), algorithm, content OPTIONAL) = Required::<DataType, _>::read_components(
            alloc, r, nest,
        )?;
        let encrypted_content = match content {
            Some(ImplicitContextTag0(octets)) => Some(octets),
            None => None,
        };
        Ok(EncryptedSafeContents {
            algorithm,
            encrypted_content,
        })
    }

    fn clone_fields(&self, alloc: Global) -> Result<Self, Error> {
        clone_fields_of!(self, alloc; EncryptedSafeContents { algorithm, encrypted_content })
    }

    ghost equal = { encrypted_safe_contents_equal };
}
