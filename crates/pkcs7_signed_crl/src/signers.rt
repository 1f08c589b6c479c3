//! What identifies the signer of a signature, and the signature (RFC 5652, 5.3 and 10.2.4).

ghost use Rattle.asn1_core.specs.Asn1.{OCTET_STRING};
ghost use Rattle.asn1_core.specs.Der.{octets_equal};
ghost use Rattle.pkcs7_signed_crl.specs.PartsEqual.{certificate_serial_number_equal, issuer_and_serial_number_equal, signer_identifier_equal};
ghost use Rattle.pkcs7_signed_crl.specs.SignerParts.{certificate_serial_number, certificate_serial_number_value, issuer_and_serial_number, issuer_and_serial_number_value, signer_identifier, signer_identifier_value};

use asn1_core::prelude::*;
use asn1_leaves::IntegerAsn1;
use std::alloc::Global;
use x509_base::{Name, SubjectKeyIdentifier};

/// `CertificateSerialNumber ::= INTEGER`, of any size and spelling.
#[derive(Debug, Drop, PartialEq, Eq)]
pub struct CertificateSerialNumber(pub IntegerAsn1);

impl TaggedType for CertificateSerialNumber {
    ghost asn1 = { certificate_serial_number };

    ghost value = { certificate_serial_number_value };

    ghost TAG = { 0x02 };

    const TAG: u8 = 0x02;

    fn put_tagged<W: Writer>(&self, tag: u8, w: &mut W) -> Result<(), WriteError> {
        self.0.put_as(tag, w)
    }

    fn is_well_formed_at(&self, limit: u8) -> bool {
        self.0.well_formed_at(limit)
    }

    fn read_open_contents(alloc: Global, r: &mut Reader<'_>, nest: u8) -> Result<Self, Error> {
        Ok(CertificateSerialNumber(IntegerAsn1::read_contents(alloc, r, nest)?))
    }

    fn clone_value(&self, alloc: Global) -> Result<Self, Error> {
        Ok(CertificateSerialNumber(self.0.try_clone(alloc)?))
    }

    ghost tagged = { certificate_serial_number.tagged };

    ghost equal = { certificate_serial_number_equal };
}

/// `IssuerAndSerialNumber ::= SEQUENCE { issuer Name, serialNumber CertificateSerialNumber }`
#[derive(Debug, Drop, PartialEq, Eq)]
pub struct IssuerAndSerialNumber {
    pub issuer: Name,
    pub serial_number: CertificateSerialNumber,
}

impl Sequence for IssuerAndSerialNumber {
    ghost asn1 = { issuer_and_serial_number };

    ghost value = { issuer_and_serial_number_value };

    fn with_components<U: ComponentVisitor>(&self, visitor: &mut U) -> U::Out {
        with_components_of!(self, visitor; IssuerAndSerialNumber { issuer, serial_number })
    }

    fn read_fields(alloc: Global, r: &mut Reader<'_>, nest: u8) -> Result<Self, Error> {
        read_fields_of!(alloc, r, nest; IssuerAndSerialNumber { issuer, serial_number })
    }

    fn clone_fields(&self, alloc: Global) -> Result<Self, Error> {
        clone_fields_of!(self, alloc; IssuerAndSerialNumber { issuer, serial_number })
    }

    ghost equal = { issuer_and_serial_number_equal };
}

/// `SignerIdentifier ::= CHOICE { issuerAndSerialNumber IssuerAndSerialNumber, subjectKeyIdentifier [0]
/// SubjectKeyIdentifier }`
#[derive(Debug, Drop, PartialEq, Eq)]
pub enum SignerIdentifier {
    IssuerAndSerialNumber(IssuerAndSerialNumber),
    SubjectKeyIdentifier(ImplicitContextTag0<SubjectKeyIdentifier>),
}

impl Asn1Type for SignerIdentifier {
    ghost asn1 = { signer_identifier };

    ghost value = { signer_identifier_value };

    fn with_encoded<U: ComponentVisitor>(&self, visitor: &mut U) -> U::Out {
        match self {
            Self::IssuerAndSerialNumber(certificate) => visitor.visit_value(certificate),
            Self::SubjectKeyIdentifier(key) => visitor.visit_value(key),
        }
    }

    fn read_encoded(alloc: Global, r: &mut Reader<'_>, nest: u8) -> Result<Self, Error> {
        match Either::read_one(alloc, r, nest)? {
            Either::First(certificate) => Ok(Self::IssuerAndSerialNumber(certificate)),
            Either::Second(key) => Ok(Self::SubjectKeyIdentifier(key)),
        }
    }

    fn is_first_tag(tag: u8) -> bool {
        tag == 0x30 || tag == 0x80
    }

    fn clone_value(&self, alloc: Global) -> Result<Self, Error> {
        match self {
            Self::IssuerAndSerialNumber(certificate) => {
                Ok(Self::IssuerAndSerialNumber(certificate.try_clone(alloc)?))
            }
            Self::SubjectKeyIdentifier(key) => {
                Ok(Self::SubjectKeyIdentifier(key.try_clone(alloc)?))
            }
        }
    }

    ghost equal = { signer_identifier_equal };
}

/// `SignatureValue ::= OCTET STRING`
#[derive(Debug, Drop, PartialEq, Eq)]
pub struct SignatureValue(pub OctetStringAsn1);

impl TaggedType for SignatureValue {
    ghost asn1 = { OCTET_STRING };

    ghost value = { λ x. x.0.0.items };

    ghost TAG = { 0x04 };

    const TAG: u8 = 0x04;

    fn put_tagged<W: Writer>(&self, tag: u8, w: &mut W) -> Result<(), WriteError> {
        self.0.put_as(tag, w)
    }

    fn is_well_formed_at(&self, limit: u8) -> bool {
        self.0.well_formed_at(limit)
    }

    fn read_open_contents(alloc: Global, r: &mut Reader<'_>, nest: u8) -> Result<Self, Error> {
        Ok(SignatureValue(OctetStringAsn1::read_contents(alloc, r, nest)?))
    }

    fn clone_value(&self, alloc: Global) -> Result<Self, Error> {
        Ok(SignatureValue(self.0.try_clone(alloc)?))
    }

    ghost tagged = { OCTET_STRING.tagged };

    ghost equal = { λ x y. octets_equal x.0 y.0 };
}
