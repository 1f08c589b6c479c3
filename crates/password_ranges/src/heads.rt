//! What the parameters and those that hold an algorithm are read as, with algorithms of every kind.

ghost use Rattle.std.proofs.Common.{refl};
ghost use Rattle.asn1_core.specs.Asn1.{SEQUENCE};
ghost use Rattle.asn1_core.specs.Der.{followed_by, lawful_nothing, lawful_sequence, oid_from_test, sequence};
ghost use Rattle.password_ranges.specs.Heads.{encrypted_content_head, encrypted_data_oid, pbkdf2_head};
ghost use Rattle.password_ranges.specs.HeadValues.{encrypted_content_value, pbkdf2_value};

use crate::oids::ENCRYPTED_DATA;
use asn1_choices::{Named, OnlyOid};
use asn1_core::prelude::*;
use pkcs12_algs::Pbkdf2SaltSource;
use std::alloc::Global;
use x509_base::AlgorithmIdentifier;

/// Names `encryptedData`.
#[derive(Drop)]
pub(crate) struct EncryptedDataType;

impl Named for EncryptedDataType {
    ghost OID = { encrypted_data_oid };

    fn octets() -> &'static [u8] {
        &ENCRYPTED_DATA
    }

    ghost valid = { oid_from_test encrypted_data_oid refl };
}

/// A SEQUENCE of these components.
#[derive(Drop)]
pub(crate) struct Body<R>(pub R);

impl<R: WriteComponents> DerSerialize for Body<R> {
    ghost Value = { R.Value };

    ghost value = { λ x. R.value x.0 };

    ghost format = { sequence R.format };

    fn put<W: Writer>(&self, w: &mut W) -> Result<(), WriteError> {
        put_within(0x30, &self.0, w)
    }

    fn well_formed_at(&self, limit: u8) -> bool {
        self.0.components_well_formed_at(limit)
    }
}

impl<A: DerDeserialize, B: DerDeserialize> DerDeserialize for Body<Required<A, Required<B, End>>> {
    fn read(alloc: Global, r: &mut Reader<'_>, nest: u8) -> Result<Self, Error> {
        Ok(Body(read_within(alloc, r, nest, 0x30)?))
    }

    fn begins(tag: u8) -> bool {
        tag == 0x30
    }

    ghost lawful = { lawful_sequence (followed_by A.lawful (followed_by B.lawful lawful_nothing)) };
}

/// `PBES2-params ::= SEQUENCE { keyDerivationFunc AlgorithmIdentifier {{PBES2-KDFs}}, encryptionScheme
/// AlgorithmIdentifier {{PBES2-Encs}} }` (RFC 8018, appendix A.4)
pub(crate) type Pbes2Head = Body<Required<AlgorithmIdentifier, Required<AlgorithmIdentifier, End>>>;

type Pbkdf2Components = Required<
    Pbkdf2SaltSource,
    Required<u32, Maybe<u32, Maybe<AlgorithmIdentifier, End>>>,
>;

/// `PBKDF2-params ::= SEQUENCE { salt CHOICE { specified OCTET STRING, otherSource AlgorithmIdentifier }, iterationCount
/// INTEGER, keyLength INTEGER OPTIONAL, prf AlgorithmIdentifier DEFAULT algid-hmacWithSHA1 }` (RFC 8018, appendix A.2)
#[derive(Drop)]
pub(crate) struct Pbkdf2Head(pub Pbkdf2Components);

impl DerSerialize for Pbkdf2Head {
    ghost Value = { pbkdf2_head.Value };

    ghost value = { pbkdf2_value };

    ghost format = { (SEQUENCE pbkdf2_head).format };

    fn put<W: Writer>(&self, w: &mut W) -> Result<(), WriteError> {
        put_within(0x30, &self.0, w)
    }

    fn well_formed_at(&self, limit: u8) -> bool {
        self.0.components_well_formed_at(limit)
    }
}

impl DerDeserialize for Pbkdf2Head {
    fn read(alloc: Global, r: &mut Reader<'_>, nest: u8) -> Result<Self, Error> {
        Ok(Pbkdf2Head(read_within(alloc, r, nest, 0x30)?))
    }

    fn begins(tag: u8) -> bool {
        tag == 0x30
    }

    ghost lawful = { (SEQUENCE pbkdf2_head).law };
}

/// `EncryptedPrivateKeyInfo ::= SEQUENCE { encryptionAlgorithm AlgorithmIdentifier, encryptedData OCTET STRING }`
/// (RFC 5958, 3)
pub(crate) type EncryptedKeyHead = Body<
    Required<AlgorithmIdentifier, Required<OctetStringAsn1, End>>,
>;

type EncryptedComponents = Required<
    ObjectIdentifierAsn1,
    Required<AlgorithmIdentifier, Maybe<ImplicitContextTag0<OctetStringAsn1>, End>>,
>;

/// `EncryptedContentInfo ::= SEQUENCE { contentType ContentType, contentEncryptionAlgorithm AlgorithmIdentifier,
/// encryptedContent [0] IMPLICIT OCTET STRING OPTIONAL }` (RFC 5652, 6.1)
#[derive(Drop)]
pub(crate) struct EncryptedContentHead(pub EncryptedComponents);

impl DerSerialize for EncryptedContentHead {
    ghost Value = { encrypted_content_head.Value };

    ghost value = { encrypted_content_value };

    ghost format = { (SEQUENCE encrypted_content_head).format };

    fn put<W: Writer>(&self, w: &mut W) -> Result<(), WriteError> {
        put_within(0x30, &self.0, w)
    }

    fn well_formed_at(&self, limit: u8) -> bool {
        self.0.components_well_formed_at(limit)
    }
}

impl DerDeserialize for EncryptedContentHead {
    fn read(alloc: Global, r: &mut Reader<'_>, nest: u8) -> Result<Self, Error> {
        Ok(EncryptedContentHead(read_within(alloc, r, nest, 0x30)?))
    }

    fn begins(tag: u8) -> bool {
        tag == 0x30
    }

    ghost lawful = { (SEQUENCE encrypted_content_head).law };
}

/// `EncryptedData ::= SEQUENCE { version Version (0), encryptedContentInfo EncryptedContentInfo }` (RFC 2315, 13)
pub(crate) type EncryptedDataHead = Body<
    Required<FixedVersion<0>, Required<EncryptedContentHead, End>>,
>;

/// `ContentInfo ::= SEQUENCE { contentType ContentType, content [0] EXPLICIT EncryptedData }` (RFC 2315, 7), of
/// `encryptedData`
pub(crate) type EncryptedInfoHead = Body<
    Required<OnlyOid<EncryptedDataType>, Required<ExplicitContextTag0<EncryptedDataHead>, End>>,
>;
