//! The algorithms of signers (RFC 5652, 10.1).

ghost use Rattle.x509_base.specs.Algorithms.{algorithm_identifier};
ghost use Rattle.x509_base.specs.AlgorithmParts.{algorithm_identifier_value, algorithm_identifier_equal};
ghost use Rattle.pkcs7_signed_crl.specs.Algorithms.{digest_algorithm_identifiers, digest_algorithm_identifiers_value};
ghost use Rattle.pkcs7_signed_crl.specs.PartsEqual.{digest_algorithm_identifiers_equal};

use asn1_core::prelude::*;
use pkcs7_attributes::Attributes;
use std::alloc::Global;
use x509_base::AlgorithmIdentifier;

/// `DigestAlgorithmIdentifier ::= AlgorithmIdentifier`
#[derive(Debug, Drop, PartialEq, Eq)]
pub struct DigestAlgorithmIdentifier(pub AlgorithmIdentifier);

impl Sequence for DigestAlgorithmIdentifier {
    ghost asn1 = { algorithm_identifier };

    ghost value = { λ x. algorithm_identifier_value x.0 };

    fn with_components<U: ComponentVisitor>(&self, visitor: &mut U) -> U::Out {
        self.0.with_components(visitor)
    }

    fn read_fields(alloc: Global, r: &mut Reader<'_>, nest: u8) -> Result<Self, Error> {
        Ok(DigestAlgorithmIdentifier(AlgorithmIdentifier::read_fields(alloc, r, nest)?))
    }

    fn clone_fields(&self, alloc: Global) -> Result<Self, Error> {
        Ok(DigestAlgorithmIdentifier(self.0.clone_fields(alloc)?))
    }

    ghost equal = { λ x y. algorithm_identifier_equal x.0 y.0 };
}

/// `DigestAlgorithmIdentifiers ::= SET OF DigestAlgorithmIdentifier`
#[derive(Debug, Drop, PartialEq, Eq)]
pub struct DigestAlgorithmIdentifiers(pub Asn1SetOf<AlgorithmIdentifier>);

impl TaggedType for DigestAlgorithmIdentifiers {
    ghost asn1 = { digest_algorithm_identifiers };

    ghost value = { digest_algorithm_identifiers_value };

    ghost TAG = { 0x31 };

    const TAG: u8 = 0x31;

    fn put_tagged<W: Writer>(&self, tag: u8, w: &mut W) -> Result<(), WriteError> {
        self.0.put_as(tag, w)
    }

    fn is_well_formed_at(&self, limit: u8) -> bool {
        self.0.well_formed_at(limit)
    }

    fn read_open_contents(alloc: Global, r: &mut Reader<'_>, nest: u8) -> Result<Self, Error> {
        Ok(DigestAlgorithmIdentifiers(Asn1SetOf::read_contents(alloc, r, nest)?))
    }

    fn clone_value(&self, alloc: Global) -> Result<Self, Error> {
        Ok(DigestAlgorithmIdentifiers(self.0.try_clone(alloc)?))
    }

    ghost tagged = { digest_algorithm_identifiers.tagged };

    ghost equal = { digest_algorithm_identifiers_equal };
}

/// `SignatureAlgorithmIdentifier ::= AlgorithmIdentifier`
#[derive(Debug, Drop, PartialEq, Eq)]
pub struct SignatureAlgorithmIdentifier(pub AlgorithmIdentifier);

impl Sequence for SignatureAlgorithmIdentifier {
    ghost asn1 = { algorithm_identifier };

    ghost value = { λ x. algorithm_identifier_value x.0 };

    fn with_components<U: ComponentVisitor>(&self, visitor: &mut U) -> U::Out {
        self.0.with_components(visitor)
    }

    fn read_fields(alloc: Global, r: &mut Reader<'_>, nest: u8) -> Result<Self, Error> {
        Ok(SignatureAlgorithmIdentifier(AlgorithmIdentifier::read_fields(alloc, r, nest)?))
    }

    fn clone_fields(&self, alloc: Global) -> Result<Self, Error> {
        Ok(SignatureAlgorithmIdentifier(self.0.clone_fields(alloc)?))
    }

    ghost equal = { λ x y. algorithm_identifier_equal x.0 y.0 };
}
