//! Names, with the short names of attribute types that are well known.

use crate::{ListError, print_hex};
use asn1_core::{Error, ObjectIdentifier, from_bytes};
use asn1_core_oid::known::is_oid_of;
use asn1_leaves::IA5StringAsn1;
use rfc5280::pkix1_explicit88::{
    DirectoryString, ID_AT_COMMON_NAME, ID_AT_COUNTRY_NAME, ID_AT_LOCALITY_NAME,
    ID_AT_ORGANIZATION_NAME, ID_AT_ORGANIZATIONAL_UNIT_NAME, ID_AT_SERIAL_NUMBER,
    ID_AT_STATE_OR_PROVINCE_NAME, ID_DOMAIN_COMPONENT,
};
use rfc5280::pkix1_implicit88::{GeneralName, GeneralNames};
use std::str;
use x509_base::{Name, NameValue};

fn short_name(ty: &ObjectIdentifier) -> Option<&'static str> {
    if is_oid_of(ty, &ID_AT_COMMON_NAME) {
        Some("CN")
    } else if is_oid_of(ty, &ID_AT_COUNTRY_NAME) {
        Some("C")
    } else if is_oid_of(ty, &ID_AT_LOCALITY_NAME) {
        Some("L")
    } else if is_oid_of(ty, &ID_AT_STATE_OR_PROVINCE_NAME) {
        Some("ST")
    } else if is_oid_of(ty, &ID_AT_ORGANIZATION_NAME) {
        Some("O")
    } else if is_oid_of(ty, &ID_AT_ORGANIZATIONAL_UNIT_NAME) {
        Some("OU")
    } else if is_oid_of(ty, &ID_AT_SERIAL_NUMBER) {
        Some("serialNumber")
    } else if is_oid_of(ty, &ID_DOMAIN_COMPONENT) {
        Some("DC")
    } else {
        None
    }
}

/// Octets as text where they are UTF-8, else in hexadecimal after `#`.
fn print_text(rt: &HostRuntime, octets: &[u8]) -> Result<(), ListError> {
    match str::from_utf8(octets) {
        Ok(text) => Ok(print!(rt; "{text}")?),
        Err(_) => {
            print!(rt; "#")?;
            print_hex(rt, octets)
        }
    }
}

fn print_string(rt: &HostRuntime, string: &DirectoryString) -> Result<(), ListError> {
    match string {
        DirectoryString::PrintableString(text) => print_text(rt, &text.0),
        DirectoryString::Utf8String(text) => print_text(rt, text.0.as_bytes()),
        DirectoryString::TeletexString(text) => print_text(rt, &text.0),
        DirectoryString::UniversalString(text) => {
            print!(rt; "#")?;
            print_hex(rt, &text.0)
        }
        DirectoryString::BmpString(text) => {
            print!(rt; "#")?;
            print_hex(rt, text.0.as_bytes())
        }
    }
}

/// A value that is neither a DirectoryString nor an IA5String is printed as its element, in hexadecimal.
fn print_value(rt: &HostRuntime, element: &[u8]) -> Result<(), ListError> {
    let read: Result<DirectoryString, Error> = from_bytes(rt.alloc(), element);
    if let Ok(string) = read {
        return print_string(rt, &string);
    }
    let read: Result<IA5StringAsn1, Error> = from_bytes(rt.alloc(), element);
    match read {
        Ok(text) => print_text(rt, text.0.as_bytes()),
        Err(_) => {
            print!(rt; "#")?;
            print_hex(rt, element)
        }
    }
}

fn print_part(rt: &HostRuntime, part: &NameValue) -> Result<(), ListError> {
    match short_name(&part.ty.0) {
        Some(word) => print!(rt; "{word}=")?,
        None => {
            let ty = part.ty.0.to_text(rt.alloc())?;
            print!(rt; "{ty}=")?;
        }
    }
    print_value(rt, &part.value.0)
}

/// The parts of a name in their order, ` + ` between those of one set.
pub fn print_name(rt: &HostRuntime, name: &Name) -> Result<(), ListError> {
    let mut between = "";
    for set in &name.0.0 {
        print!(rt; "{between}")?;
        between = "";
        for part in &set.0 {
            print!(rt; "{between}")?;
            print_part(rt, part)?;
            between = " + ";
        }
        between = ", ";
    }
    Ok(())
}

fn print_general_name(rt: &HostRuntime, name: &GeneralName) -> Result<(), ListError> {
    match name {
        GeneralName::OtherName(other) => {
            let ty = other.type_id.0.to_text(rt.alloc())?;
            print!(rt; "other {ty}=")?;
            print_hex(rt, &other.value.0.0)
        }
        GeneralName::Rfc822Name(text) => {
            print!(rt; "email ")?;
            print_text(rt, text.0.as_bytes())
        }
        GeneralName::DnsName(text) => {
            print!(rt; "DNS ")?;
            print_text(rt, text.0.as_bytes())
        }
        GeneralName::DirectoryName(name) => {
            print!(rt; "directory ")?;
            print_name(rt, name)
        }
        GeneralName::UniformResourceIdentifier(text) => {
            print!(rt; "URI ")?;
            print_text(rt, text.0.as_bytes())
        }
        GeneralName::IpAddress(octets) => {
            print!(rt; "IP ")?;
            print_hex(rt, &octets.0)
        }
        GeneralName::RegisteredId(oid) => {
            let text = oid.0.to_text(rt.alloc())?;
            print!(rt; "registered {text}")?;
            Ok(())
        }
        GeneralName::X400Address(_) => Ok(print!(rt; "X.400 address")?),
        GeneralName::EdiPartyName(_) => Ok(print!(rt; "EDI party")?),
    }
}

pub fn list_names(rt: &HostRuntime, what: &str, names: &GeneralNames) -> Result<(), ListError> {
    for name in &names.0 {
        print!(rt; "{what}: ")?;
        print_general_name(rt, name)?;
        println!(rt)?;
    }
    Ok(())
}
