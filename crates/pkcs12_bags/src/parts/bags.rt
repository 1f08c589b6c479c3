//! Certificates, revocation lists, secrets and encrypted keys, as bags hold them.

ghost use Rattle.std.specs.Prelude.{◌≡◌};
ghost use Rattle.std.proofs.Common.{rules};
ghost use Rattle.asn1_core.specs.Asn1.{SEQUENCE};
ghost use Rattle.pkcs12_bags.specs.BagParts.{OctetsOrAny, x509_bag_value, x509_bag, secret_bag, secret_bag_value, encrypted_key_bag, encrypted_key_bag_value};
ghost use Rattle.pkcs12_bags.specs.BagPartsEqual.{secret_equal, encrypted_key_equal};

use crate::parts::oids::{OidNumber, X509_CERTIFICATE, X509_CRL};
use asn1_choices::{Alternative, AnyOid, AnyOidRef, Chosen, WriteChoice};
use asn1_core::OidRef;
use asn1_core::prelude::*;
use pkcs12_algs::Pkcs12EncryptionAlgorithm;
use std::alloc::Global;

/// `KeyBag ::= PrivateKeyInfo`, which is not parsed (RFC 7292, 4.2.1).
pub type KeyBag = Asn1RawDer;

/// The octets of the type that `N` names, or an element of any other.
type OctetsOrAny<N> = Either<
    Alternative<N, Alone<ExplicitContextTag0<OctetStringAsn1>>>,
    AnyOid<Alone<ExplicitContextTag0<Asn1RawDer>>>,
>;

type OctetsOrAnyRef<'a, N> = Either<
    Alternative<N, Alone<ExplicitContextTag0<Ref<&'a OctetStringAsn1>>>>,
    AnyOidRef<'a, Alone<ExplicitContextTag0<Ref<&'a Asn1RawDer>>>>,
>;

/// `CertBag ::= SEQUENCE { certId BAG-TYPE.&id, certValue [0] EXPLICIT BAG-TYPE.&Type }` (RFC 7292, 4.2.3).
pub type CertificateBag = X509Bag<X509_CERTIFICATE>;

/// `CRLBag ::= SEQUENCE { crlId BAG-TYPE.&id, crlValue [0] EXPLICIT BAG-TYPE.&Type }` (RFC 7292, 4.2.4).
pub type CrlBag = X509Bag<X509_CRL>;

/// A certificate or a revocation list as a bag holds it: `CertificateBag` or `CrlBag`, by the number of the object
/// identifier that an X.509 one has.
#[derive(Debug, Drop, PartialEq, Eq)]
pub enum X509Bag<const KNOWN: usize> {
    /// The DER of an X.509 certificate or revocation list, which is not parsed.
    X509(OctetStringAsn1),
    /// Any other.
    Unknown {
        type_id: ObjectIdentifier,
        value: Asn1RawDer,
    },
}

impl<const KNOWN: usize> X509Bag<KNOWN> {
    fn choice(&self) -> OctetsOrAnyRef<'_, OidNumber<KNOWN>>
        ensures { ⟦<OctetsOrAnyRef<'static, OidNumber<KNOWN>> as WriteChoice>⟧.value result ≡ x509_bag_value self.now }
    {
        match self {
            Self::X509(octets) => Either::First(Alternative::new(Alone(ExplicitContextTag0(Ref(
                octets,
            ))))),
            Self::Unknown { type_id, value } => {
                Either::Second(AnyOidRef(type_id, Alone(ExplicitContextTag0(Ref(value)))))
            }
        }
    }
}

impl<const KNOWN: usize> DerSerialize for X509Bag<KNOWN> {
    ghost Value = { OctetsOrAny };

    ghost value = { x509_bag_value };

    ghost format = { (SEQUENCE (x509_bag KNOWN)).format };

    fn put<W: Writer>(&self, w: &mut W) -> Result<(), WriteError> {
        put_within(0x30, &Chosen(self.choice()), w)
    }

    fn well_formed_at(&self, limit: u8) -> bool {
        self.choice().choice_well_formed_at(limit)
    }
}

impl<const KNOWN: usize> DerDeserialize for X509Bag<KNOWN> {
    fn read(alloc: Global, r: &mut Reader<'_>, nest: u8) -> Result<Self, Error> {
        let Chosen(choice) = read_within::<Chosen<OctetsOrAny<OidNumber<KNOWN>>>>(
            alloc, r, nest, 0x30,
        )?;
        match choice {
            Either::First(alternative) => Ok(Self::X509(alternative.into_components().0.0)),
            Either::Second(other) => {
                let AnyOid(type_id, Alone(ExplicitContextTag0(value))) = other;
                Ok(Self::Unknown { type_id, value })
            }
        }
    }

    fn begins(tag: u8) -> bool {
        tag == 0x30
    }

    ghost lawful = { (SEQUENCE (x509_bag KNOWN)).law };
}

impl<const KNOWN: usize> EqualByText for X509Bag<KNOWN> {
    ghost equal_by_text = { Prim.search rules };
}

impl<const KNOWN: usize> TryClone for X509Bag<KNOWN> {
    fn try_clone(&self, alloc: Global) -> Result<Self, Error> {
        match self {
            Self::X509(octets) => Ok(Self::X509(octets.try_clone(alloc)?)),
            Self::Unknown { type_id, value } => {
                let type_id = type_id.try_clone(alloc)?;
                let value = value.try_clone(alloc)?;
                Ok(Self::Unknown { type_id, value })
            }
        }
    }
}

/// `SecretBag ::= SEQUENCE { secretTypeId BAG-TYPE.&id, secretValue [0] EXPLICIT BAG-TYPE.&Type }` (RFC 7292, 4.2.5).
#[derive(Debug, Drop, PartialEq, Eq)]
pub struct SecretBag {
    pub type_id: ObjectIdentifier,
    pub value: Asn1RawDer,
}

impl Sequence for SecretBag {
    ghost asn1 = { secret_bag };

    ghost value = { secret_bag_value };

    fn with_components<U: ComponentVisitor>(&self, visitor: &mut U) -> U::Out {
        with_components_of!(self, visitor; SecretBag { (OidRef(&self.type_id)), (ExplicitContextTag0(Ref(&self.value))) })
    }

    fn read_fields(alloc: Global, r: &mut Reader<'_>, nest: u8) -> Result<Self, Error> {
        let fields_of!(
            (ObjectIdentifierAsn1(type_id)),
            (ExplicitContextTag0(value))
        ) = ReadComponents::read_components(alloc, r, nest)?;
        Ok(SecretBag { type_id, value })
    }

    fn clone_fields(&self, alloc: Global) -> Result<Self, Error> {
        clone_fields_of!(self, alloc; SecretBag { type_id, value })
    }

    ghost equal = { secret_equal };
}

/// `PKCS8ShroudedKeyBag ::= EncryptedPrivateKeyInfo`, `EncryptedPrivateKeyInfo ::= SEQUENCE { encryptionAlgorithm
/// AlgorithmIdentifier, encryptedData OCTET STRING }` (RFC 7292, 4.2.2; RFC 5958, 3).
#[derive(Debug, Drop, PartialEq, Eq)]
pub struct EncryptedKeyBag {
    pub algorithm: Pkcs12EncryptionAlgorithm,
    pub encrypted_data: OctetStringAsn1,
}

impl Sequence for EncryptedKeyBag {
    ghost asn1 = { encrypted_key_bag };

    ghost value = { encrypted_key_bag_value };

    fn with_components<U: ComponentVisitor>(&self, visitor: &mut U) -> U::Out {
        with_components_of!(self, visitor; EncryptedKeyBag { algorithm, encrypted_data })
    }

    fn read_fields(alloc: Global, r: &mut Reader<'_>, nest: u8) -> Result<Self, Error> {
        read_fields_of!(alloc, r, nest; EncryptedKeyBag { algorithm, encrypted_data })
    }

    fn clone_fields(&self, alloc: Global) -> Result<Self, Error> {
        clone_fields_of!(self, alloc; EncryptedKeyBag { algorithm, encrypted_data })
    }

    ghost equal = { encrypted_key_equal };
}
