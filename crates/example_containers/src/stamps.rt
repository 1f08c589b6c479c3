//! Time stamps over the signatures of signed data (RFC 3161).

use crate::{ExampleError, print_digest};
use x509_containers::{RawPkcs7Certificate, TstInfo, from_bytes};

/// What a time stamp says: when it was made, and the digest of the signature that it is of.
fn list_stamp(rt: &HostRuntime, stamp: &[u8]) -> Result<(), ExampleError> {
    let signed: RawPkcs7Certificate = from_bytes(rt.alloc(), stamp)?;
    let Some(octets) = signed.signed_data.0.content_info.hashed_octets()? else {
        return Err(ExampleError::OtherContent);
    };
    let info: TstInfo = from_bytes(rt.alloc(), octets)?;
    list_info(rt, &info)
}

fn list_info(rt: &HostRuntime, info: &TstInfo) -> Result<(), ExampleError> {
    print!(rt; "  ")?;
    for octet in &info.gen_time.0 {
        let character = char::from(*octet);
        print!(rt; "{character}")?;
    }
    println!(rt)?;
    print_digest(rt, &info.message_imprint)
}

/// The time stamps of each signer.
pub fn list_stamps(rt: &HostRuntime, file: &[u8]) -> Result<(), ExampleError> {
    let file: RawPkcs7Certificate = from_bytes(rt.alloc(), file)?;
    list_stamps_of(rt, &file)
}

fn list_stamps_of(rt: &HostRuntime, file: &RawPkcs7Certificate) -> Result<(), ExampleError> {
    for signer in &file.signed_data.0.signers_infos.0.0 {
        for stamp in &signer.time_stamps(rt.alloc())? {
            list_stamp(rt, &stamp.0)?;
        }
    }
    Ok(())
}
