//! Extensions, each read as the type that its object identifier says.

use crate::{ListError, names, print_hex};
use asn1_core::{DerDeserialize, Error, ObjectIdentifier, TryClone, from_bytes, to_vec};
use asn1_core_oid::known::is_oid_of;
use asn1_leaves::BitStringAsn1;
use oid_names::object_name;
use rfc5280::pkix1_implicit88::*;
use std::alloc::Global;
use x509_base::{Extension, Extensions};

const USAGES: [(usize, &str); 9] = [
    (KEY_USAGE_DIGITAL_SIGNATURE, "digitalSignature"),
    (KEY_USAGE_NON_REPUDIATION, "nonRepudiation"),
    (KEY_USAGE_KEY_ENCIPHERMENT, "keyEncipherment"),
    (KEY_USAGE_DATA_ENCIPHERMENT, "dataEncipherment"),
    (KEY_USAGE_KEY_AGREEMENT, "keyAgreement"),
    (KEY_USAGE_KEY_CERT_SIGN, "keyCertSign"),
    (KEY_USAGE_CRL_SIGN, "cRLSign"),
    (KEY_USAGE_ENCIPHER_ONLY, "encipherOnly"),
    (KEY_USAGE_DECIPHER_ONLY, "decipherOnly"),
];

/// Whether a bit is there and set: those at the end that aren't set are left out (X.690, 11.2.2).
fn is_set(bits: &BitStringAsn1, bit: usize) -> bool {
    match bits.0.payload().get(bit / 8) {
        Some(octet) => octet & (0x80 >> (bit % 8)) != 0,
        None => false,
    }
}

fn list_usage(rt: &HostRuntime, octets: &[u8]) -> Result<(), ListError> {
    let usage: KeyUsage = from_bytes(rt.alloc(), octets)?;
    for (bit, word) in &USAGES {
        if is_set(&usage, *bit) {
            println!(rt; "key usage: {word}")?;
        }
    }
    Ok(())
}

fn list_constraints(rt: &HostRuntime, octets: &[u8]) -> Result<(), ListError> {
    let constraints: BasicConstraints = from_bytes(rt.alloc(), octets)?;
    let ca = constraints.ca;
    println!(rt; "basic constraints: CA {ca}")?;
    if let Some(length) = &constraints.path_len_constraint {
        print!(rt; "path length: ")?;
        print_hex(rt, &length.0)?;
        println!(rt)?;
    }
    Ok(())
}

fn list_alternative_names(rt: &HostRuntime, octets: &[u8]) -> Result<(), ListError> {
    let names: SubjectAltName = from_bytes(rt.alloc(), octets)?;
    names::list_names(rt, "alternative name", &names)
}

fn is_cloned_so<T: DerDeserialize + TryClone + PartialEq>(
    alloc: Global,
    value: &T,
    octets: &[u8],
) -> Result<bool, Error> {
    let clone = value.try_clone(alloc)?;
    Ok(clone == *value && to_vec(alloc, &clone)?.as_slice() == octets)
}

/// Whether the octets are what a clone of the value is written as, and the clone equals the value.
pub fn is_written_so<T: DerDeserialize + TryClone + PartialEq>(
    alloc: Global,
    octets: &[u8],
) -> Result<bool, Error> {
    let value: T = from_bytes(alloc, octets)?;
    is_cloned_so(alloc, &value, octets)
}

/// The same, of a value of the type that the object identifier says. `None` where the example knows none.
fn is_normal(alloc: Global, id: &ObjectIdentifier, octets: &[u8]) -> Result<Option<bool>, Error> {
    let normal = if is_oid_of(id, &ID_CE_KEY_USAGE) {
        is_written_so::<KeyUsage>(alloc, octets)
    } else if is_oid_of(id, &ID_CE_BASIC_CONSTRAINTS) {
        is_written_so::<BasicConstraints>(alloc, octets)
    } else if is_oid_of(id, &ID_CE_SUBJECT_ALT_NAME) {
        is_written_so::<SubjectAltName>(alloc, octets)
    } else if is_oid_of(id, &ID_CE_AUTHORITY_KEY_IDENTIFIER) {
        is_written_so::<AuthorityKeyIdentifier>(alloc, octets)
    } else if is_oid_of(id, &ID_CE_SUBJECT_KEY_IDENTIFIER) {
        is_written_so::<SubjectKeyIdentifier>(alloc, octets)
    } else if is_oid_of(id, &ID_CE_CRL_DISTRIBUTION_POINTS) {
        is_written_so::<CrlDistributionPoints>(alloc, octets)
    } else if is_oid_of(id, &ID_CE_CERTIFICATE_POLICIES) {
        is_written_so::<CertificatePolicies>(alloc, octets)
    } else if is_oid_of(id, &ID_CE_EXT_KEY_USAGE) {
        is_written_so::<ExtKeyUsageSyntax>(alloc, octets)
    } else if is_oid_of(id, &ID_PE_AUTHORITY_INFO_ACCESS) {
        is_written_so::<AuthorityInfoAccessSyntax>(alloc, octets)
    } else {
        return is_rare_normal(alloc, id, octets);
    };
    Ok(Some(normal?))
}

fn is_rare_normal(
    alloc: Global,
    id: &ObjectIdentifier,
    octets: &[u8],
) -> Result<Option<bool>, Error> {
    let normal = if is_oid_of(id, &ID_CE_NAME_CONSTRAINTS) {
        is_written_so::<NameConstraints>(alloc, octets)
    } else if is_oid_of(id, &ID_CE_POLICY_CONSTRAINTS) {
        is_written_so::<PolicyConstraints>(alloc, octets)
    } else if is_oid_of(id, &ID_CE_POLICY_MAPPINGS) {
        is_written_so::<PolicyMappings>(alloc, octets)
    } else if is_oid_of(id, &ID_CE_INHIBIT_ANY_POLICY) {
        is_written_so::<InhibitAnyPolicy>(alloc, octets)
    } else if is_oid_of(id, &ID_CE_ISSUER_ALT_NAME) {
        is_written_so::<IssuerAltName>(alloc, octets)
    } else if is_oid_of(id, &ID_CE_PRIVATE_KEY_USAGE_PERIOD) {
        is_written_so::<PrivateKeyUsagePeriod>(alloc, octets)
    } else if is_oid_of(id, &ID_CE_SUBJECT_DIRECTORY_ATTRIBUTES) {
        is_written_so::<SubjectDirectoryAttributes>(alloc, octets)
    } else {
        return is_revocation_normal(alloc, id, octets);
    };
    Ok(Some(normal?))
}

/// The same of extensions of revocation lists and of their entries.
fn is_revocation_normal(
    alloc: Global,
    id: &ObjectIdentifier,
    octets: &[u8],
) -> Result<Option<bool>, Error> {
    let normal = if is_oid_of(id, &ID_CE_CRL_NUMBER) {
        is_written_so::<CrlNumber>(alloc, octets)
    } else if is_oid_of(id, &ID_CE_DELTA_CRL_INDICATOR) {
        is_written_so::<BaseCrlNumber>(alloc, octets)
    } else if is_oid_of(id, &ID_CE_CRL_REASONS) {
        is_written_so::<CrlReason>(alloc, octets)
    } else if is_oid_of(id, &ID_CE_INVALIDITY_DATE) {
        is_written_so::<InvalidityDate>(alloc, octets)
    } else if is_oid_of(id, &ID_CE_ISSUING_DISTRIBUTION_POINT) {
        is_written_so::<IssuingDistributionPoint>(alloc, octets)
    } else if is_oid_of(id, &ID_CE_CERTIFICATE_ISSUER) {
        is_written_so::<CertificateIssuer>(alloc, octets)
    } else if is_oid_of(id, &ID_CE_FRESHEST_CRL) {
        is_written_so::<FreshestCrl>(alloc, octets)
    } else {
        return Ok(None);
    };
    Ok(Some(normal?))
}

/// An object identifier with dots, and its name, where it has one.
fn named(alloc: Global, id: &ObjectIdentifier) -> Result<String, Error> {
    let dotted = id.to_text(alloc)?;
    match object_name(id.octets()) {
        Some(name) => Ok(format!(in alloc; "{dotted} ({name})")?),
        None => Ok(dotted),
    }
}

fn list_head(rt: &HostRuntime, extension: &Extension) -> Result<(), ListError> {
    let (id, octets) = (&extension.extn_id.0, extension.extn_value.0.as_slice());
    let text = named(rt.alloc(), id)?;
    let critical = if extension.critical { ", critical" } else { "" };
    match is_normal(rt.alloc(), id, octets)? {
        Some(same) => println!(rt; "extension: {text}{critical}, written as it was: {same}")?,
        None => println!(rt; "extension: {text}{critical}")?,
    }
    Ok(())
}

fn list_extension(rt: &HostRuntime, extension: &Extension) -> Result<(), ListError> {
    list_head(rt, extension)?;
    let (id, octets) = (&extension.extn_id.0, extension.extn_value.0.as_slice());
    if is_oid_of(id, &ID_CE_KEY_USAGE) {
        list_usage(rt, octets)
    } else if is_oid_of(id, &ID_CE_BASIC_CONSTRAINTS) {
        list_constraints(rt, octets)
    } else if is_oid_of(id, &ID_CE_SUBJECT_ALT_NAME) {
        list_alternative_names(rt, octets)
    } else {
        Ok(())
    }
}

pub fn list_extensions(rt: &HostRuntime, extensions: &Extensions) -> Result<(), ListError> {
    for extension in &extensions.0 {
        list_extension(rt, extension)?;
    }
    Ok(())
}
