//! Certificates alone as signed data without signers (.p7b).

use crate::{ExampleError, send};
use std::alloc::Global;
use std::fs;
use x509_containers::{
    Asn1RawDer, Asn1SetOf, CertificateChoices, CertificateSet, CmsVersion,
    DigestAlgorithmIdentifiers, EncapsulatedContentInfo, Error, ExplicitContextTag0,
    ObjectIdentifier, ObjectIdentifierAsn1, Optional, Pkcs7Certificate, SignedData, SignersInfos,
};

const SIGNED_DATA: &str = "1.2.840.113549.1.7.2";

/// Adds a certificate after the others.
fn add(set: &mut CertificateSet, certificate: Vec<u8>) -> Result<(), Error> {
    let certificate = CertificateChoices::Certificate(Asn1RawDer(certificate));
    Ok(set.0.push(certificate)?)
}

/// The certificates in their order, which no reader minds.
fn bundle(alloc: Global, certificates: CertificateSet) -> Result<Pkcs7Certificate, Error> {
    Ok(Pkcs7Certificate {
        oid: ObjectIdentifierAsn1(ObjectIdentifier::from_text(alloc, SIGNED_DATA)?),
        signed_data: ExplicitContextTag0(SignedData {
            version: CmsVersion::V1,
            digest_algorithms: DigestAlgorithmIdentifiers(Asn1SetOf(Vec::new(alloc))),
            content_info: EncapsulatedContentInfo::new_pkcs7_data(alloc, None)?,
            certificates: Optional(certificates),
            crls: None,
            signers_infos: SignersInfos(Asn1SetOf(Vec::new(alloc))),
        }),
    })
}

/// Writes the certificates of some files.
pub fn send_certificates(rt: &HostRuntime, files: &[String]) -> Result<(), ExampleError> {
    let mut set = CertificateSet::empty(rt.alloc());
    for file in files {
        add(&mut set, fs::read(rt, file)?)?;
    }
    send(rt, &bundle(rt.alloc(), set)?)
}
