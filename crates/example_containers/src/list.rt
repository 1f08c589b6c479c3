//! Lists what a PKCS #12 file holds, in DER or in BER as NSS writes it, without its password: each bag, those in bags too,
//! the contents that are encrypted, the MAC, and how many octets that covers.

use crate::{ExampleError, Store, print_octets};
use pkcs12_ber::{BerPfx, read_ber_pfx};
use std::alloc::Global;
use x509_containers::{
    AuthenticatedSafeContentInfo, BmpString, CertificateBag, CrlBag, Error,
    ParsedAuthenticatedSafeDataRepr, Pbes2EncryptionScheme, Pbes2KeyDerivationFunc, Pbes2Params,
    Pkcs12EncryptionAlgorithm, RawPfx, SafeBag, SafeBagKind, SafeContentsContentInfo, from_bytes,
    to_vec,
};

fn pbes2_text(alloc: Global, params: &Pbes2Params) -> Result<String, Error> {
    let scheme = match &params.encryption_scheme {
        Pbes2EncryptionScheme::AesCbc { kind, .. } => kind.name(),
        Pbes2EncryptionScheme::Unknown(_) => "unknown scheme",
    };
    let Pbes2KeyDerivationFunc::Pbkdf2(derivation) = &params.key_derivation_func else {
        return Ok(format!(in alloc; "{scheme}, unknown key derivation")?);
    };
    let count = derivation.iteration_count;
    match &derivation.prf {
        Some(prf) => Ok(format!(in alloc; "{scheme}, PBKDF2 with {prf}, {count} iterations")?),
        None => Ok(format!(in alloc; "{scheme}, PBKDF2, {count} iterations")?),
    }
}

fn algorithm_text(alloc: Global, algorithm: &Pkcs12EncryptionAlgorithm) -> Result<String, Error> {
    match algorithm {
        Pkcs12EncryptionAlgorithm::Pbes1 { kind, params } => {
            let count = params.iterations;
            Ok(format!(in alloc; "{kind}, {count} iterations")?)
        }
        Pkcs12EncryptionAlgorithm::Pbes2(params) => pbes2_text(alloc, params),
        Pkcs12EncryptionAlgorithm::Unknown(_) => Ok(String::from_str(alloc, "unknown")?),
    }
}

/// The kind of a bag, and how many octets it holds.
fn kind_text(alloc: Global, kind: &SafeBagKind) -> Result<String, Error> {
    let (word, count) = match kind {
        SafeBagKind::Key(key) => ("key", key.0.len()),
        SafeBagKind::EncryptedKey(key) => {
            let text = algorithm_text(alloc, &key.algorithm)?;
            let count = key.encrypted_data.0.len();
            return Ok(format!(in alloc; "encrypted key: {count} octets, {text}")?);
        }
        SafeBagKind::Certificate(CertificateBag::X509(held)) => ("certificate", held.0.len()),
        SafeBagKind::Crl(CrlBag::X509(held)) => ("revocation list", held.0.len()),
        SafeBagKind::Secret(secret) => ("secret", secret.value.0.len()),
        SafeBagKind::SafeContents(_) => return Ok(String::from_str(alloc, "bags:")?),
        SafeBagKind::Unknown { value, .. } => ("unknown", value.0.len()),
        _ => return Ok(String::from_str(alloc, "certificate or list of another type")?),
    };
    Ok(format!(in alloc; "{word}: {count} octets")?)
}

fn list_name(rt: &HostRuntime, name: &BmpString) -> Result<(), ExampleError> {
    let text = name.to_text(rt.alloc())?;
    println!(rt; "  friendly name: {text}")?;
    Ok(())
}

fn list_bag(rt: &HostRuntime, bag: &SafeBag) -> Result<(), ExampleError> {
    let kind = kind_text(rt.alloc(), &bag.kind)?;
    println!(rt; "{kind}")?;
    if let Some(name) = bag.friendly_name() {
        list_name(rt, name)?;
    }
    if let Some(octets) = bag.local_key_id() {
        print_octets(rt, "  key identifier: ", octets)?;
    }
    Ok(())
}

/// How many octets the MAC of a file covers, where it covers any, and the file written again.
fn covered(alloc: Global, file: &[u8]) -> Result<(Option<usize>, Vec<u8>), Error> {
    let pfx: RawPfx = from_bytes(alloc, file)?;
    let octets: Option<&[u8]> = pfx.mac_octets();
    let count = octets.map(|octets| octets.len());
    let text = to_vec(alloc, &pfx)?;
    Ok((count, text))
}

fn list_bags(rt: &HostRuntime, pfx: &Store) -> Result<(), ExampleError> {
    for bag in &pfx.all_bags(rt.alloc())? {
        list_bag(rt, bag)?;
    }
    Ok(())
}

fn list_encrypted(rt: &HostRuntime, content: &SafeContentsContentInfo) -> Result<(), ExampleError> {
    if let SafeContentsContentInfo::EncryptedData(encrypted) = content {
        let text = algorithm_text(rt.alloc(), &encrypted.algorithm)?;
        println!(rt; "encrypted contents: {text}")?;
    }
    Ok(())
}

fn list_store(
    rt: &HostRuntime,
    file: &[u8],
    octets: &BerPfx,
    pfx: &Store,
) -> Result<(), ExampleError> {
    list_bags(rt, pfx)?;
    if let AuthenticatedSafeContentInfo::Data(contents) = &pfx.auth_safe {
        for content in contents {
            list_encrypted(rt, content)?;
        }
    }
    if let Some(mac) = &pfx.mac_data {
        let (digest, count) = (&mac.mac.digest_algorithm, mac.effective_iterations());
        println!(rt; "MAC: {digest}, {count} iterations")?;
        list_covered(rt, file, octets.mac_octets())?;
    }
    Ok(())
}

pub fn list(rt: &HostRuntime, file: &[u8]) -> Result<(), ExampleError> {
    match read_ber_pfx::<ParsedAuthenticatedSafeDataRepr>(rt.alloc(), file) {
        Ok((octets, pfx)) => list_store(rt, file, &octets, &pfx),
        Err((error, _)) => Err(ExampleError::Refused(error)),
    }
}

/// How many octets the MAC covers, and whether the file is written as it was: one in BER isn't.
fn list_covered(rt: &HostRuntime, file: &[u8], octets: Option<&[u8]>) -> Result<(), ExampleError> {
    let Some(octets) = octets else {
        return Ok(());
    };
    match covered(rt.alloc(), file) {
        Ok((_, text)) => {
            let (count, same) = (octets.len(), text.as_slice() == file);
            println!(rt; "the MAC covers {count} octets; written as it was: {same}")?;
        }
        Err(Error::Malformed) => {
            let count = octets.len();
            println!(rt; "the MAC covers {count} octets; in BER")?;
        }
        Err(error) => return Err(ExampleError::Refused(error)),
    }
    Ok(())
}
