//! Signed content that isn't an OCTET STRING: what Authenticode signs, and trust lists.

use crate::{ExampleError, print_digest, print_octets};
use x509_containers::{CTLEntry, ContentValue, Pkcs7Certificate, from_bytes};

/// The digest of the program that the signature is of.
pub fn list_program(rt: &HostRuntime, signature: &[u8]) -> Result<(), ExampleError> {
    let file: Pkcs7Certificate = from_bytes(rt.alloc(), signature)?;
    list_indirect(rt, &file)
}

fn list_indirect(rt: &HostRuntime, file: &Pkcs7Certificate) -> Result<(), ExampleError> {
    let Some(content) = &file.signed_data.0.content_info.content else {
        return Err(ExampleError::OtherContent);
    };
    let ContentValue::SpcIndirectDataContent(indirect) = &content.0 else {
        return Err(ExampleError::OtherContent);
    };
    print_digest(rt, &indirect.message_digest)
}

/// The digest of a trusted certificate, or a name of it, and the types of its attributes.
fn list_entry(rt: &HostRuntime, entry: &CTLEntry) -> Result<(), ExampleError> {
    print_octets(rt, "  ", &entry.cert_fingerprint.0)?;
    for attribute in &entry.attributes.0 {
        let ty = attribute.oid.0.to_text(rt.alloc())?;
        println!(rt; "    {ty}")?;
    }
    Ok(())
}

/// The entries of a trust list.
pub fn list_trusted(rt: &HostRuntime, file: &[u8]) -> Result<(), ExampleError> {
    let file: Pkcs7Certificate = from_bytes(rt.alloc(), file)?;
    list_entries(rt, &file)
}

fn list_entries(rt: &HostRuntime, file: &Pkcs7Certificate) -> Result<(), ExampleError> {
    let Some(content) = &file.signed_data.0.content_info.content else {
        return Err(ExampleError::OtherContent);
    };
    let ContentValue::CertificateTrustList(list) = &content.0 else {
        return Err(ExampleError::OtherContent);
    };
    for entry in &list.crl_entries.0 {
        list_entry(rt, entry)?;
    }
    Ok(())
}
