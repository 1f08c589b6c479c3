//! Values of PKCS #7 that are built and not well-formed: most are values that were read, with a field changed.

use crate::values::{is_ill_formed, is_refused};
use asn1_core::{Asn1RawDer, Error, ObjectIdentifier, ObjectIdentifierAsn1, from_bytes};
use std::alloc::Global;
use std::test::Fail;
use vector_checks::checks::expect;
use x509_containers::{
    CertificateChoices, CertificateSet, CmsVersion, EncapsulatedContentInfo, Pkcs7Certificate,
    SignerInfo, TbsCertList, UnsignedAttribute, Version,
};

fn object(alloc: Global, octets: &[u8]) -> Result<ObjectIdentifierAsn1, Error> {
    Ok(ObjectIdentifierAsn1(ObjectIdentifier::from_octets(alloc, octets)?))
}

/// A set of NULL.
const NULL_ALONE: &[u8] = b"\xA0\x02\x05\x00";

/// NULL as a certificate is read as something else.
#[test]
fn a_certificate_that_is_none(rt: HostRuntime) -> Result<(), Fail> {
    let mut set = CertificateSet::empty(rt.alloc());
    let null = Vec::from_slice(rt.alloc(), b"\x05\x00")?;
    set.0
        .push(CertificateChoices::Certificate(Asn1RawDer(null)))?;
    is_ill_formed(rt.alloc(), &set, NULL_ALONE)?;
    holds_null(&from_bytes(rt.alloc(), NULL_ALONE)?)
}

/// Asks that the set is NULL and no certificate.
fn holds_null(set: &CertificateSet) -> Result<(), Fail> {
    match set.0.as_slice() {
        [CertificateChoices::Other(element)] => {
            expect(
                element.0.as_slice() == b"\x05\x00".as_slice(),
                "another element",
            )
        }
        _ => Err(Fail::new("another set")),
    }
}

/// The object identifier of Authenticode's indirect data, 1.3.6.1.4.1.311.2.1.4.
const INDIRECT_DATA: &[u8] = b"\x2B\x06\x01\x04\x01\x82\x37\x02\x01\x04";

/// One octet with that content type.
const OCTET_AS_INDIRECT_DATA: &[u8] = b"\
    \x30\x11\x06\x0A\x2B\x06\x01\x04\x01\x82\x37\x02\x01\x04\xA0\x03\x04\x01\x01";

fn octet_as_indirect_data(alloc: Global) -> Result<EncapsulatedContentInfo, Error> {
    let octets = Vec::from_slice(alloc, b"\x01")?;
    let content_type = ObjectIdentifier::from_octets(alloc, INDIRECT_DATA)?;
    Ok(EncapsulatedContentInfo::new(content_type, Some(octets)))
}

#[test]
fn octets_as_indirect_data(rt: HostRuntime) -> Result<(), Fail> {
    let info = octet_as_indirect_data(rt.alloc())?;
    is_refused(rt.alloc(), &info, OCTET_AS_INDIRECT_DATA, Error::Invalid)
}

/// A signer by a key identifier of no octets, of version 1 and of version 3.
const SIGNER: &[u8] = b"\
    \x30\x15\x02\x01\x01\x80\x00\x30\x05\x06\x03\x2A\x03\x04\x30\x05\x06\x03\x2A\x03\x04\x04\x00";

const SIGNER_OF_VERSION_3: &[u8] = b"\
    \x30\x15\x02\x01\x03\x80\x00\x30\x05\x06\x03\x2A\x03\x04\x30\x05\x06\x03\x2A\x03\x04\x04\x00";

fn with_version_3(mut signer: SignerInfo) -> SignerInfo {
    signer.version = CmsVersion::V3;
    signer
}

#[test]
fn a_signer_of_version_3(rt: HostRuntime) -> Result<(), Fail> {
    let signer = with_version_3(from_bytes(rt.alloc(), SIGNER)?);
    is_refused(rt.alloc(), &signer, SIGNER_OF_VERSION_3, Error::Invalid)
}

/// A revocation list without a version, and the same of version 1, which is to be left out.
const LIST: &[u8] = b"\
    \x30\x18\x30\x05\x06\x03\x2A\x03\x04\x30\x00\x17\x0D210420065224Z";

const LIST_OF_VERSION_1: &[u8] = b"\
    \x30\x1B\x02\x01\x00\x30\x05\x06\x03\x2A\x03\x04\x30\x00\x17\x0D210420065224Z";

fn with_version_1(mut list: TbsCertList) -> TbsCertList {
    list.version = Some(Version::V1);
    list
}

#[test]
fn a_revocation_list_of_version_1(rt: HostRuntime) -> Result<(), Fail> {
    let list = with_version_1(from_bytes(rt.alloc(), LIST)?);
    is_refused(rt.alloc(), &list, LIST_OF_VERSION_1, Error::Invalid)
}

/// Signed data of no signers with their own content type, and with that of data.
const SIGNED_DATA: &[u8] = b"\
    \x30\x23\x06\x09\x2A\x86\x48\x86\xF7\x0D\x01\x07\x02\xA0\x16\x30\x14\x02\x01\x01\x31\x00\x30\x0B\
    \x06\x09\x2A\x86\x48\x86\xF7\x0D\x01\x07\x01\x31\x00";

const SIGNED_AS_DATA: &[u8] = b"\
    \x30\x23\x06\x09\x2A\x86\x48\x86\xF7\x0D\x01\x07\x01\xA0\x16\x30\x14\x02\x01\x01\x31\x00\x30\x0B\
    \x06\x09\x2A\x86\x48\x86\xF7\x0D\x01\x07\x01\x31\x00";

/// The object identifier of data.
const DATA: &[u8] = b"\x2A\x86\x48\x86\xF7\x0D\x01\x07\x01";

fn with_oid(mut signed: Pkcs7Certificate, oid: ObjectIdentifierAsn1) -> Pkcs7Certificate {
    signed.oid = oid;
    signed
}

#[test]
fn signed_data_as_data(rt: HostRuntime) -> Result<(), Fail> {
    let oid = object(rt.alloc(), DATA)?;
    let signed = with_oid(from_bytes(rt.alloc(), SIGNED_DATA)?, oid);
    is_refused(rt.alloc(), &signed, SIGNED_AS_DATA, Error::Invalid)
}

/// NULL under 1.2.3.4, and under the object identifier of counter signatures.
const UNKNOWN: &[u8] = b"\x30\x09\x06\x03\x2A\x03\x04\x31\x02\x05\x00";

const NULL_AS_COUNTER_SIGNATURE: &[u8] = b"\
    \x30\x0F\x06\x09\x2A\x86\x48\x86\xF7\x0D\x01\x09\x06\x31\x02\x05\x00";

/// The object identifier of counter signatures (RFC 5652, 11.4).
const COUNTER_SIGNATURE: &[u8] = b"\x2A\x86\x48\x86\xF7\x0D\x01\x09\x06";

fn with_type(mut attribute: UnsignedAttribute, ty: ObjectIdentifierAsn1) -> UnsignedAttribute {
    attribute.ty = ty;
    attribute
}

/// `Unknown` with the object identifier of counter signatures.
#[test]
fn an_unknown_attribute_of_a_known_kind(rt: HostRuntime) -> Result<(), Fail> {
    let ty = object(rt.alloc(), COUNTER_SIGNATURE)?;
    let attribute = with_type(from_bytes(rt.alloc(), UNKNOWN)?, ty);
    is_refused(
        rt.alloc(),
        &attribute,
        NULL_AS_COUNTER_SIGNATURE,
        Error::Invalid,
    )
}
