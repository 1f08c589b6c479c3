//! Names of types of attributes in names. Made of asn1/object_identifiers.txt.

ghost use Rattle.std.specs.Prelude.{ℕ, List, MatchOption};
ghost use Rattle.oid_names.specs.Tables.{IsNamed};
ghost use Rattle.oid_names.specs.NameTypes.{name_types_names};

use crate::tables::{NamedOid, name_in};

const ROWS: [NamedOid; 32] = [
    NamedOid {
        octets: &[0x55, 0x04, 0x03],
        name: "commonName",
    },
    NamedOid {
        octets: &[0x55, 0x04, 0x04],
        name: "surname",
    },
    NamedOid {
        octets: &[0x55, 0x04, 0x05],
        name: "serialNumber",
    },
    NamedOid {
        octets: &[0x55, 0x04, 0x06],
        name: "countryName",
    },
    NamedOid {
        octets: &[0x55, 0x04, 0x07],
        name: "localityName",
    },
    NamedOid {
        octets: &[0x55, 0x04, 0x08],
        name: "stateOrProvinceName",
    },
    NamedOid {
        octets: &[0x55, 0x04, 0x09],
        name: "streetAddress",
    },
    NamedOid {
        octets: &[0x55, 0x04, 0x0A],
        name: "organizationName",
    },
    NamedOid {
        octets: &[0x55, 0x04, 0x0B],
        name: "organizationalUnitName",
    },
    NamedOid {
        octets: &[0x55, 0x04, 0x0C],
        name: "title",
    },
    NamedOid {
        octets: &[0x55, 0x04, 0x0D],
        name: "description",
    },
    NamedOid {
        octets: &[0x55, 0x04, 0x0F],
        name: "businessCategory",
    },
    NamedOid {
        octets: &[0x55, 0x04, 0x10],
        name: "postalAddress",
    },
    NamedOid {
        octets: &[0x55, 0x04, 0x11],
        name: "postalCode",
    },
    NamedOid {
        octets: &[0x55, 0x04, 0x12],
        name: "postOfficeBox",
    },
    NamedOid {
        octets: &[0x55, 0x04, 0x14],
        name: "telephoneNumber",
    },
    NamedOid {
        octets: &[0x55, 0x04, 0x29],
        name: "name",
    },
    NamedOid {
        octets: &[0x55, 0x04, 0x2A],
        name: "givenName",
    },
    NamedOid {
        octets: &[0x55, 0x04, 0x2B],
        name: "initials",
    },
    NamedOid {
        octets: &[0x55, 0x04, 0x2C],
        name: "generationQualifier",
    },
    NamedOid {
        octets: &[0x55, 0x04, 0x2D],
        name: "x500UniqueIdentifier",
    },
    NamedOid {
        octets: &[0x55, 0x04, 0x2E],
        name: "dnQualifier",
    },
    NamedOid {
        octets: &[0x55, 0x04, 0x31],
        name: "distinguishedName",
    },
    NamedOid {
        octets: &[0x55, 0x04, 0x41],
        name: "pseudonym",
    },
    NamedOid {
        octets: &[0x55, 0x04, 0x48],
        name: "role",
    },
    NamedOid {
        octets: &[0x55, 0x04, 0x61],
        name: "organizationIdentifier",
    },
    NamedOid {
        octets: &[0x09, 0x92, 0x26, 0x89, 0x93, 0xF2, 0x2C, 0x64, 0x01, 0x01],
        name: "userId",
    },
    NamedOid {
        octets: &[0x09, 0x92, 0x26, 0x89, 0x93, 0xF2, 0x2C, 0x64, 0x01, 0x03],
        name: "rfc822Mailbox",
    },
    NamedOid {
        octets: &[0x09, 0x92, 0x26, 0x89, 0x93, 0xF2, 0x2C, 0x64, 0x01, 0x19],
        name: "domainComponent",
    },
    NamedOid {
        octets: &[
            0x2B, 0x06, 0x01, 0x04, 0x01, 0x82, 0x37, 0x3C, 0x02, 0x01, 0x01,
        ],
        name: "jurisdictionLocalityName",
    },
    NamedOid {
        octets: &[
            0x2B, 0x06, 0x01, 0x04, 0x01, 0x82, 0x37, 0x3C, 0x02, 0x01, 0x02,
        ],
        name: "jurisdictionStateOrProvinceName",
    },
    NamedOid {
        octets: &[
            0x2B, 0x06, 0x01, 0x04, 0x01, 0x82, 0x37, 0x3C, 0x02, 0x01, 0x03,
        ],
        name: "jurisdictionCountryName",
    },
];

/// The name of one of types of attributes in names, by its contents octets.
pub fn name(octets: &[u8]) -> Option<&'static str>
    ensures { MatchOption result
        ((name : List ℕ) → ¬ (IsNamed name_types_names octets.now name))
        (λ name. IsNamed name_types_names octets.now name.now) }
{
    name_in(&ROWS, octets)
}
