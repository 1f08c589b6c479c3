//! The short names of attribute types.

ghost use Rattle.std.specs.Prelude.{ℕ, List, MatchOption};
ghost use Rattle.oid_names.specs.Tables.{IsNamed};
ghost use Rattle.x509_text.specs.AttributeTypes.{short_names};

use oid_names::tables::{NamedOid, name_in};

const SHORT_NAMES: [NamedOid; 9] = [
    NamedOid {
        octets: &[0x55, 0x04, 0x03],
        name: "CN",
    },
    NamedOid {
        octets: &[0x55, 0x04, 0x07],
        name: "L",
    },
    NamedOid {
        octets: &[0x55, 0x04, 0x08],
        name: "ST",
    },
    NamedOid {
        octets: &[0x55, 0x04, 0x0A],
        name: "O",
    },
    NamedOid {
        octets: &[0x55, 0x04, 0x0B],
        name: "OU",
    },
    NamedOid {
        octets: &[0x55, 0x04, 0x06],
        name: "C",
    },
    NamedOid {
        octets: &[0x55, 0x04, 0x09],
        name: "STREET",
    },
    NamedOid {
        octets: &[0x09, 0x92, 0x26, 0x89, 0x93, 0xF2, 0x2C, 0x64, 0x01, 0x19],
        name: "DC",
    },
    NamedOid {
        octets: &[0x09, 0x92, 0x26, 0x89, 0x93, 0xF2, 0x2C, 0x64, 0x01, 0x01],
        name: "UID",
    },
];

/// The short name of an attribute type, by its contents octets (RFC 4514, 3).
pub fn short_name(octets: &[u8]) -> Option<&'static str>
    ensures { MatchOption result
        ((name : List ℕ) → ¬ (IsNamed short_names octets.now name))
        (λ name. IsNamed short_names octets.now name.now) }
{
    name_in(&SHORT_NAMES, octets)
}
