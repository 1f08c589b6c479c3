//! Inputs that aren't certificates.

use crate::extensions::{is_written_so, list_extensions};
use crate::{ListError, names, print_hex};
use asn1_core::{Error, from_bytes};
use rfc3161::pkixtsp::{TimeStampReq, TimeStampResp, TstInfo};
use rfc5280::pkix1_explicit88::{CertificateList, TbsCertList, TbsCertListRevokedCertificates};

fn list_revoked(rt: &HostRuntime, entry: &TbsCertListRevokedCertificates) -> Result<(), ListError> {
    print!(rt; "revoked: ")?;
    print_hex(rt, &entry.user_certificate.0)?;
    println!(rt)?;
    match &entry.crl_entry_extensions {
        Some(extensions) => list_extensions(rt, extensions),
        None => Ok(()),
    }
}

fn list_revocations(rt: &HostRuntime, list: &TbsCertList) -> Result<(), ListError> {
    print!(rt; "revocation list of: ")?;
    names::print_name(rt, &list.issuer)?;
    println!(rt)?;
    if let Some(entries) = &list.revoked_certificates {
        for entry in &entries.0 {
            list_revoked(rt, entry)?;
        }
    }
    match &list.crl_extensions {
        Some(under) => list_extensions(rt, &under.0),
        None => Ok(()),
    }
}

/// Whether the input is written as it was, after what it is. `error` where it is nothing that this example knows.
pub fn list_other(rt: &HostRuntime, file: &[u8], error: Error) -> Result<bool, ListError> {
    let read: Result<CertificateList, Error> = from_bytes(rt.alloc(), file);
    if let Ok(list) = read {
        list_revocations(rt, &list.tbs_cert_list)?;
        return Ok(is_written_so::<CertificateList>(rt.alloc(), file)?);
    }
    list_time_stamp(rt, file, error)
}

fn list_time_stamp(rt: &HostRuntime, file: &[u8], error: Error) -> Result<bool, ListError> {
    let (what, same) = if let Ok(same) = is_written_so::<TimeStampReq>(rt.alloc(), file) {
        ("time stamp request", same)
    } else if let Ok(same) = is_written_so::<TimeStampResp>(rt.alloc(), file) {
        ("time stamp response", same)
    } else if let Ok(same) = is_written_so::<TstInfo>(rt.alloc(), file) {
        ("time stamp", same)
    } else {
        return Err(ListError::Refused(error));
    };
    println!(rt; "{what}")?;
    Ok(same)
}
