//! Revocation lists (RFC 5280, 5).

use crate::{ExampleError, print_octets};
use x509_containers::{CertificateList, RevokedCertificate, Time, from_bytes};

fn print_date(rt: &HostRuntime, time: &Time) -> Result<(), ExampleError> {
    let (year, month, day) = match time {
        Time::Utc(short) => (short.0.year(), short.0.month(), short.0.day()),
        Time::Generalized(long) => (long.0.year(), long.0.month(), long.0.day()),
    };
    println!(rt; "    {year:04}-{month:02}-{day:02}")?;
    Ok(())
}

/// The serial number, the day of the revocation, and the types of the extensions.
fn list_entry(rt: &HostRuntime, entry: &RevokedCertificate) -> Result<(), ExampleError> {
    print_octets(rt, "  ", &entry.user_certificate.0.0)?;
    print_date(rt, &entry.revocation_data)?;
    if let Some(extensions) = &entry.crl_entry_extensions {
        for extension in &extensions.0 {
            let id = extension.extn_id.0.to_text(rt.alloc())?;
            println!(rt; "    {id}")?;
        }
    }
    Ok(())
}

/// The entries of a revocation list.
pub fn list_revoked(rt: &HostRuntime, file: &[u8]) -> Result<(), ExampleError> {
    let list: CertificateList = from_bytes(rt.alloc(), file)?;
    list_entries(rt, &list)
}

fn list_entries(rt: &HostRuntime, list: &CertificateList) -> Result<(), ExampleError> {
    if let Some(entries) = &list.tbs_cert_list.revoked_certificates {
        for entry in &entries.0.0 {
            list_entry(rt, entry)?;
        }
    }
    Ok(())
}
