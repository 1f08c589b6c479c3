//! Names of extensions of certificates and of revocation lists. Made of asn1/object_identifiers.txt.

ghost use Rattle.std.specs.Prelude.{ℕ, List, MatchOption};
ghost use Rattle.oid_names.specs.Tables.{IsNamed};
ghost use Rattle.oid_names.specs.Extensions.{extensions_names};

use crate::tables::{NamedOid, name_in};

const ROWS: [NamedOid; 26] = [
    NamedOid {
        octets: &[0x55, 0x1D, 0x09],
        name: "X509v3 Subject Directory Attributes",
    },
    NamedOid {
        octets: &[0x55, 0x1D, 0x0E],
        name: "X509v3 Subject Key Identifier",
    },
    NamedOid {
        octets: &[0x55, 0x1D, 0x0F],
        name: "X509v3 Key Usage",
    },
    NamedOid {
        octets: &[0x55, 0x1D, 0x10],
        name: "X509v3 Private Key Usage Period",
    },
    NamedOid {
        octets: &[0x55, 0x1D, 0x11],
        name: "X509v3 Subject Alternative Name",
    },
    NamedOid {
        octets: &[0x55, 0x1D, 0x12],
        name: "X509v3 Issuer Alternative Name",
    },
    NamedOid {
        octets: &[0x55, 0x1D, 0x13],
        name: "X509v3 Basic Constraints",
    },
    NamedOid {
        octets: &[0x55, 0x1D, 0x14],
        name: "X509v3 CRL Number",
    },
    NamedOid {
        octets: &[0x55, 0x1D, 0x15],
        name: "X509v3 CRL Reason Code",
    },
    NamedOid {
        octets: &[0x55, 0x1D, 0x17],
        name: "Hold Instruction Code",
    },
    NamedOid {
        octets: &[0x55, 0x1D, 0x18],
        name: "Invalidity Date",
    },
    NamedOid {
        octets: &[0x55, 0x1D, 0x1B],
        name: "X509v3 Delta CRL Indicator",
    },
    NamedOid {
        octets: &[0x55, 0x1D, 0x1C],
        name: "X509v3 Issuing Distribution Point",
    },
    NamedOid {
        octets: &[0x55, 0x1D, 0x1D],
        name: "X509v3 Certificate Issuer",
    },
    NamedOid {
        octets: &[0x55, 0x1D, 0x1E],
        name: "X509v3 Name Constraints",
    },
    NamedOid {
        octets: &[0x55, 0x1D, 0x1F],
        name: "X509v3 CRL Distribution Points",
    },
    NamedOid {
        octets: &[0x55, 0x1D, 0x20],
        name: "X509v3 Certificate Policies",
    },
    NamedOid {
        octets: &[0x55, 0x1D, 0x20, 0x00],
        name: "X509v3 Any Policy",
    },
    NamedOid {
        octets: &[0x55, 0x1D, 0x21],
        name: "X509v3 Policy Mappings",
    },
    NamedOid {
        octets: &[0x55, 0x1D, 0x23],
        name: "X509v3 Authority Key Identifier",
    },
    NamedOid {
        octets: &[0x55, 0x1D, 0x24],
        name: "X509v3 Policy Constraints",
    },
    NamedOid {
        octets: &[0x55, 0x1D, 0x25],
        name: "X509v3 Extended Key Usage",
    },
    NamedOid {
        octets: &[0x55, 0x1D, 0x2E],
        name: "X509v3 Freshest CRL",
    },
    NamedOid {
        octets: &[0x55, 0x1D, 0x36],
        name: "X509v3 Inhibit Any Policy",
    },
    NamedOid {
        octets: &[0x55, 0x1D, 0x37],
        name: "X509v3 AC Targeting",
    },
    NamedOid {
        octets: &[0x55, 0x1D, 0x38],
        name: "X509v3 No Revocation Available",
    },
];

/// The name of one of extensions of certificates and of revocation lists, by its contents octets.
pub fn name(octets: &[u8]) -> Option<&'static str>
    ensures { MatchOption result
        ((name : List ℕ) → ¬ (IsNamed extensions_names octets.now name))
        (λ name. IsNamed extensions_names octets.now name.now) }
{
    name_in(&ROWS, octets)
}
