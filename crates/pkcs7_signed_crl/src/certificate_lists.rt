//! Revocation lists (RFC 5280, 5.1).

ghost use Rattle.std.specs.Prelude.{◌≡◌, ℕ};
ghost use Rattle.asn1_core.specs.Der.{option_value, version};
ghost use Rattle.x509_base.specs.Extensions.{extensions_value};
ghost use Rattle.x509_base.specs.Versions.{version_value};
ghost use Rattle.pkcs7_signed_crl.specs.CertificateLists.{tbs_cert_list, tbs_cert_list_value, certificate_list, certificate_list_value};
ghost use Rattle.pkcs7_signed_crl.specs.PartsEqual.{tbs_cert_list_equal, certificate_list_equal};

use crate::revoked::RevokedCertificates;
use asn1_core::prelude::*;
use asn1_leaves::BitStringAsn1;
use std::alloc::Global;
use x509_base::{AlgorithmIdentifier, Extensions, Name, Time, Version};

/// `TBSCertList ::= SEQUENCE { version Version OPTIONAL, signature AlgorithmIdentifier, issuer Name, thisUpdate Time,
/// nextUpdate Time OPTIONAL, revokedCertificates SEQUENCE OF .. OPTIONAL, crlExtensions [0] EXPLICIT Extensions
/// OPTIONAL }`. A version that is present is v2; another is refused, and is not well-formed.
#[derive(Debug, Drop, PartialEq, Eq)]
pub struct TbsCertList {
    pub version: Option<Version>,
    pub signature: AlgorithmIdentifier,
    pub issuer: Name,
    pub this_update: Time,
    pub next_update: Option<Time>,
    pub revoked_certificates: Option<RevokedCertificates>,
    /// `crlExtensions`. `None` is written as nothing, without the tag.
    pub crl_extension: ExplicitContextTag0<Option<Extensions>>,
}

/// A version as a component, which is well-formed only if it is v2.
#[derive(Drop)]
struct OnlyV2(Version);

impl DerSerialize for OnlyV2 {
    ghost Value = { ℕ };

    ghost value = { λ x. version_value x.0 };

    ghost format = { version 1 };

    fn put<W: Writer>(&self, w: &mut W) -> Result<(), WriteError> {
        self.0.put(w)
    }

    fn well_formed_at(&self, _limit: u8) -> bool {
        matches!(self.0, Version::V2)
    }
}

/// The version as a component, where there is one.
fn as_v2(version: Option<Version>) -> Option<OnlyV2>
    ensures { option_value (λ x. version_value x.0) result ≡ option_value version_value version }
{
    match version {
        Some(version) => Some(OnlyV2(version)),
        None => None,
    }
}

/// The version that was read, where one was.
fn version_of(read: Option<FixedVersion<1>>) -> Option<Version>
    ensures { option_value version_value result ≡ option_value (λ _. 1) read }
{
    match read {
        Some(FixedVersion) => Some(Version::V2),
        None => None,
    }
}

/// The extensions in their tag, where there are any.
fn tagged(extensions: &Option<Extensions>) -> Option<ExplicitContextTag0<Ref<&Extensions>>>
    ensures { option_value (λ x. extensions_value x.0.0.now) result ≡ option_value extensions_value extensions.now }
{
    match extensions {
        Some(extensions) => Some(ExplicitContextTag0(Ref(extensions))),
        None => None,
    }
}

/// The extensions without their tag.
fn untagged(extensions: Option<ExplicitContextTag0<Extensions>>) -> Option<Extensions>
    ensures { option_value extensions_value result ≡ option_value (λ x. extensions_value x.0) extensions }
{
    match extensions {
        Some(ExplicitContextTag0(extensions)) => Some(extensions),
        None => None,
    }
}

impl Sequence for TbsCertList {
    ghost asn1 = { tbs_cert_list };

    ghost value = { tbs_cert_list_value };

    fn with_components<U: ComponentVisitor>(&self, visitor: &mut U) -> U::Out {
        visitor.visit(&body_of!(self;
            (as_v2(self.version)) OPTIONAL, signature, issuer, this_update, next_update OPTIONAL,
            revoked_certificates OPTIONAL, (tagged(&self.crl_extension.0)) OPTIONAL
        ))
    }

    fn read_fields(alloc: Global, r: &mut Reader<'_>, nest: u8) -> Result<Self, Error> {
        let fields_of!(
            version OPTIONAL, signature, issuer, this_update, next_update OPTIONAL,
            revoked_certificates OPTIONAL, extensions OPTIONAL
        ) = ReadComponents::read_components(alloc, r, nest)?;
        Ok(TbsCertList {
            version: version_of(version),
            signature,
            issuer,
            this_update,
            next_update,
            revoked_certificates,
            crl_extension: ExplicitContextTag0(untagged(extensions)),
        })
    }

    fn clone_fields(&self, alloc: Global) -> Result<Self, Error> {
        Ok(TbsCertList {
            version: self.version,
            signature: self.signature.try_clone(alloc)?,
            issuer: self.issuer.try_clone(alloc)?,
            this_update: self.this_update.try_clone(alloc)?,
            next_update: self.next_update.try_clone(alloc)?,
            revoked_certificates: self.revoked_certificates.try_clone(alloc)?,
            crl_extension: ExplicitContextTag0(self.crl_extension.0.try_clone(alloc)?),
        })
    }

    ghost equal = { tbs_cert_list_equal };
}

/// `CertificateList ::= SEQUENCE { tbsCertList TBSCertList, signatureAlgorithm AlgorithmIdentifier, signatureValue BIT
/// STRING }`
#[derive(Debug, Drop, PartialEq, Eq)]
pub struct CertificateList {
    pub tbs_cert_list: TbsCertList,
    pub signature_algorithm: AlgorithmIdentifier,
    pub signature_value: BitStringAsn1,
}

impl Sequence for CertificateList {
    ghost asn1 = { certificate_list };

    ghost value = { certificate_list_value };

    fn with_components<U: ComponentVisitor>(&self, visitor: &mut U) -> U::Out {
        with_components_of!(self, visitor; CertificateList {
            tbs_cert_list, signature_algorithm, signature_value
        })
    }

    fn read_fields(alloc: Global, r: &mut Reader<'_>, nest: u8) -> Result<Self, Error> {
        read_fields_of!(alloc, r, nest; CertificateList {
            tbs_cert_list, signature_algorithm, signature_value
        })
    }

    fn clone_fields(&self, alloc: Global) -> Result<Self, Error> {
        clone_fields_of!(self, alloc; CertificateList {
            tbs_cert_list, signature_algorithm, signature_value
        })
    }

    ghost equal = { certificate_list_equal };
}
