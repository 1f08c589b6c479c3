//! Enveloped data (RFC 5652, 6) of content that is encrypted by AES-256 in CBC mode, for whoever has the AES-128 key
//! that wraps the content's key (RFC 3565).

use crate::{ExampleError, send};
use std::alloc::Global;
use std::fs;
use x509_containers::{
    AlgorithmIdentifier, Asn1RawDer, Asn1SetOf, CmsVersion, ContentInfo, EncryptedContentInfo,
    EnvelopedData, Error, ExplicitContextTag0, ImplicitContextTag0, KekIdentifier,
    KekRecipientInfo, ObjectIdentifier, ObjectIdentifierAsn1, OctetStringAsn1, Optional,
    RecipientInfo, to_vec,
};

const DATA: &str = "1.2.840.113549.1.7.1";

const ENVELOPED_DATA: &str = "1.2.840.113549.1.7.3";

const AES_128_WRAP: &str = "2.16.840.1.101.3.4.1.5";

const AES_256_CBC: &str = "2.16.840.1.101.3.4.1.42";

/// Whoever knows the key with this identifier, by which the content's key is wrapped.
fn recipient(alloc: Global, key_id: Vec<u8>, wrapped_key: Vec<u8>) -> Result<RecipientInfo, Error> {
    let wrap = ObjectIdentifier::from_text(alloc, AES_128_WRAP)?;
    Ok(RecipientInfo::Kek(KekRecipientInfo {
        version: CmsVersion::V4,
        kek_id: KekIdentifier {
            key_identifier: OctetStringAsn1(key_id),
            date: Optional(None),
            other: Optional(None),
        },
        key_encryption_algorithm: AlgorithmIdentifier::from_parts(wrap, None),
        encrypted_key: OctetStringAsn1(wrapped_key),
    }))
}

/// The encrypted content, with the initialization vector as the algorithm's parameters.
fn content(
    alloc: Global,
    vector: Vec<u8>,
    ciphertext: Vec<u8>,
) -> Result<EncryptedContentInfo, Error> {
    let vector = Asn1RawDer(to_vec(alloc, &OctetStringAsn1(vector))?);
    let cbc = ObjectIdentifier::from_text(alloc, AES_256_CBC)?;
    Ok(EncryptedContentInfo {
        content_type: ObjectIdentifierAsn1(ObjectIdentifier::from_text(alloc, DATA)?),
        content_encryption_algorithm: AlgorithmIdentifier::from_parts(cbc, Some(vector)),
        encrypted_content: Optional(Some(ImplicitContextTag0(OctetStringAsn1(ciphertext)))),
    })
}

/// Enveloped data for one recipient.
fn data(
    alloc: Global,
    recipient: RecipientInfo,
    encrypted_content_info: EncryptedContentInfo,
) -> Result<EnvelopedData, Error> {
    Ok(EnvelopedData {
        version: CmsVersion::V2,
        originator_info: Optional(None),
        recipient_infos: Asn1SetOf(Vec::from_array(alloc, [recipient])?),
        encrypted_content_info,
        unprotected_attrs: Optional(None),
    })
}

/// Enveloped data as content of its type.
fn enveloped(alloc: Global, data: &EnvelopedData) -> Result<ContentInfo, Error> {
    let octets = Asn1RawDer(to_vec(alloc, data)?);
    Ok(ContentInfo {
        content_type: ObjectIdentifierAsn1(ObjectIdentifier::from_text(alloc, ENVELOPED_DATA)?),
        content: ExplicitContextTag0(octets),
    })
}

fn recipient_of(
    rt: &HostRuntime,
    key_id: &str,
    wrapped_key: &str,
) -> Result<RecipientInfo, ExampleError> {
    let (key_id, wrapped_key) = (fs::read(rt, key_id)?, fs::read(rt, wrapped_key)?);
    Ok(recipient(rt.alloc(), key_id, wrapped_key)?)
}

fn content_of(
    rt: &HostRuntime,
    vector: &str,
    ciphertext: &str,
) -> Result<EncryptedContentInfo, ExampleError> {
    let (vector, ciphertext) = (fs::read(rt, vector)?, fs::read(rt, ciphertext)?);
    Ok(content(rt.alloc(), vector, ciphertext)?)
}

/// Writes enveloped data of the files of a key identifier, a wrapped key, an initialization vector and the ciphertext.
pub fn send_enveloped(
    rt: &HostRuntime,
    key_id: &str,
    wrapped_key: &str,
    vector: &str,
    ciphertext: &str,
) -> Result<(), ExampleError> {
    let recipient = recipient_of(rt, key_id, wrapped_key)?;
    let content = content_of(rt, vector, ciphertext)?;
    let data = data(rt.alloc(), recipient, content)?;
    send(rt, &enveloped(rt.alloc(), &data)?)
}
