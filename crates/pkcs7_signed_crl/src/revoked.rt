//! Entries of revocation lists (RFC 5280, 5.1).

ghost use Rattle.pkcs7_signed_crl.specs.PartsEqual.{revoked_certificate_equal, revoked_certificates_equal};
ghost use Rattle.pkcs7_signed_crl.specs.Revoked.{revoked_certificate, revoked_certificate_value, revoked_certificates, revoked_certificates_value};

use crate::signers::CertificateSerialNumber;
use asn1_core::prelude::*;
use std::alloc::Global;
use x509_base::{Extensions, Time};

/// `SEQUENCE { userCertificate CertificateSerialNumber, revocationDate Time, crlEntryExtensions Extensions OPTIONAL }`
#[derive(Debug, Drop, PartialEq, Eq)]
pub struct RevokedCertificate {
    pub user_certificate: CertificateSerialNumber,
    /// `revocationDate`
    pub revocation_data: Time,
    pub crl_entry_extensions: Option<Extensions>,
}

impl Sequence for RevokedCertificate {
    ghost asn1 = { revoked_certificate };

    ghost value = { revoked_certificate_value };

    fn with_components<U: ComponentVisitor>(&self, visitor: &mut U) -> U::Out {
        with_components_of!(self, visitor; RevokedCertificate {
            user_certificate, revocation_data, crl_entry_extensions OPTIONAL
        })
    }

    fn read_fields(alloc: Global, r: &mut Reader<'_>, nest: u8) -> Result<Self, Error> {
        read_fields_of!(alloc, r, nest; RevokedCertificate {
            user_certificate, revocation_data, crl_entry_extensions OPTIONAL
        })
    }

    fn clone_fields(&self, alloc: Global) -> Result<Self, Error> {
        clone_fields_of!(self, alloc; RevokedCertificate {
            user_certificate, revocation_data, crl_entry_extensions OPTIONAL
        })
    }

    ghost equal = { revoked_certificate_equal };
}

/// `revokedCertificates SEQUENCE OF SEQUENCE { .. }`
#[derive(Debug, Drop, PartialEq, Eq)]
pub struct RevokedCertificates(pub Asn1SequenceOf<RevokedCertificate>);

impl Sequence for RevokedCertificates {
    ghost asn1 = { revoked_certificates };

    ghost value = { revoked_certificates_value };

    fn with_components<U: ComponentVisitor>(&self, visitor: &mut U) -> U::Out {
        visitor.visit(&self.0.0)
    }

    fn read_fields(alloc: Global, r: &mut Reader<'_>, nest: u8) -> Result<Self, Error> {
        Ok(RevokedCertificates(Asn1SequenceOf(ReadComponents::read_components(alloc, r, nest)?)))
    }

    fn clone_fields(&self, alloc: Global) -> Result<Self, Error> {
        Ok(RevokedCertificates(self.0.try_clone(alloc)?))
    }

    ghost equal = { revoked_certificates_equal };
}
