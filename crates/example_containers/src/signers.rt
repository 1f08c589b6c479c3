//! Lists the signers of signed data with their content type: how each names its certificate, whether that is in the
//! file, its digest algorithm, the types of its signed attributes, and the octets that its signature is over, after those
//! of the content.

use crate::{ExampleError, print_octets};
use x509_containers::{
    CertificateChoices, Name, Pkcs7Certificate, SignedData, SignerIdentifier, SignerInfo,
    certificates, from_bytes, hashed_octets, signer_certificate, signers, to_vec,
};

/// Each part of a name: its type in dotted form, and its value, an element, in hexadecimal.
fn list_name(rt: &HostRuntime, name: &Name) -> Result<(), ExampleError> {
    for set in &name.0.0 {
        for part in &set.0 {
            let ty = part.ty.0.to_text(rt.alloc())?;
            print!(rt; "  {ty} = ")?;
            print_octets(rt, "", &part.value.0)?;
        }
    }
    Ok(())
}

fn list_identifier(rt: &HostRuntime, identifier: &SignerIdentifier) -> Result<(), ExampleError> {
    match identifier {
        SignerIdentifier::IssuerAndSerialNumber(named) => {
            println!(rt; "signer, by issuer and serial number")?;
            list_name(rt, &named.issuer)?;
            print_octets(rt, "  serial number: ", &named.serial_number.0.0)
        }
        SignerIdentifier::SubjectKeyIdentifier(key) => {
            println!(rt; "signer, by key")?;
            print_octets(rt, "  key identifier: ", &key.0.0.0)
        }
    }
}

fn list_signer(
    rt: &HostRuntime,
    signer: &SignerInfo,
    certificates: &[CertificateChoices],
) -> Result<(), ExampleError> {
    list_identifier(rt, &signer.sid)?;
    match signer_certificate(rt.alloc(), certificates, &signer.sid)? {
        Some(certificate) => println!(rt; "  certificate: {} octets", certificate.0.len())?,
        None => println!(rt; "  certificate: not in the file")?,
    }
    let digest = signer.digest_algorithm.0.algorithm().to_text(rt.alloc())?;
    println!(rt; "  digest algorithm: {digest}")?;
    list_attributes(rt, signer)
}

/// The types of the signed attributes, and what the signature is over.
fn list_attributes(rt: &HostRuntime, signer: &SignerInfo) -> Result<(), ExampleError> {
    for attribute in &signer.signed_attrs.0.0.0 {
        let ty = attribute.ty.0.to_text(rt.alloc())?;
        println!(rt; "  signed attribute: {ty}")?;
    }
    // RFC 5652, 5.4: the attributes as a SET, or the content where there are none
    print!(rt; "  signature over: ")?;
    match signer.signed_attrs.0.as_set() {
        Some(attributes) => print_octets(rt, "", &to_vec(rt.alloc(), &attributes)?),
        None => Ok(println!(rt; "the content")?),
    }
}

/// The octets of the content that are hashed.
fn list_content(rt: &HostRuntime, signed: &SignedData) -> Result<(), ExampleError> {
    print!(rt; "content: ")?;
    match hashed_octets(rt.alloc(), &signed.content_info)? {
        Some(octets) => print_octets(rt, "", &octets),
        None => Ok(println!(rt; "not in the file")?),
    }
}

fn list_signed(rt: &HostRuntime, signed: &SignedData) -> Result<(), ExampleError> {
    list_content(rt, signed)?;
    for signer in signers(signed) {
        list_signer(rt, signer, certificates(signed))?;
    }
    Ok(())
}

pub fn list_signers(rt: &HostRuntime, file: &[u8]) -> Result<(), ExampleError> {
    let certificate: Pkcs7Certificate = from_bytes(rt.alloc(), file)?;
    list_signed(rt, &certificate.signed_data.0)
}
