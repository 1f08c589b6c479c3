//! Names of other keys and signatures, and key agreements. Made of asn1/object_identifiers.txt.

ghost use Rattle.std.specs.Prelude.{ℕ, List, MatchOption};
ghost use Rattle.oid_names.specs.Tables.{IsNamed};
ghost use Rattle.oid_names.specs.Keys.{keys_names};

use crate::tables::{NamedOid, name_in};

const ROWS: [NamedOid; 28] = [
    NamedOid {
        octets: &[0x2B, 0x65, 0x6E],
        name: "X25519",
    },
    NamedOid {
        octets: &[0x2B, 0x65, 0x6F],
        name: "X448",
    },
    NamedOid {
        octets: &[0x2B, 0x65, 0x70],
        name: "ED25519",
    },
    NamedOid {
        octets: &[0x2B, 0x65, 0x71],
        name: "ED448",
    },
    NamedOid {
        octets: &[0x2A, 0x86, 0x48, 0x86, 0xF7, 0x0D, 0x01, 0x03, 0x01],
        name: "dhKeyAgreement",
    },
    NamedOid {
        octets: &[0x2A, 0x86, 0x48, 0xCE, 0x3E, 0x02, 0x01],
        name: "X9.42 DH",
    },
    NamedOid {
        octets: &[0x2A, 0x85, 0x03, 0x02, 0x02, 0x13],
        name: "GOST R 34.10-2001",
    },
    NamedOid {
        octets: &[0x2A, 0x85, 0x03, 0x07, 0x01, 0x01, 0x01, 0x01],
        name: "GOST R 34.10-2012 with 256 bit modulus",
    },
    NamedOid {
        octets: &[0x2A, 0x85, 0x03, 0x07, 0x01, 0x01, 0x01, 0x02],
        name: "GOST R 34.10-2012 with 512 bit modulus",
    },
    NamedOid {
        octets: &[0x2A, 0x85, 0x03, 0x07, 0x01, 0x01, 0x03, 0x02],
        name: "GOST R 34.10-2012 with GOST R 34.11-2012 (256 bit)",
    },
    NamedOid {
        octets: &[0x2A, 0x85, 0x03, 0x07, 0x01, 0x01, 0x03, 0x03],
        name: "GOST R 34.10-2012 with GOST R 34.11-2012 (512 bit)",
    },
    NamedOid {
        octets: &[0x60, 0x86, 0x48, 0x01, 0x65, 0x03, 0x04, 0x03, 0x11],
        name: "ML-DSA-44",
    },
    NamedOid {
        octets: &[0x60, 0x86, 0x48, 0x01, 0x65, 0x03, 0x04, 0x03, 0x12],
        name: "ML-DSA-65",
    },
    NamedOid {
        octets: &[0x60, 0x86, 0x48, 0x01, 0x65, 0x03, 0x04, 0x03, 0x13],
        name: "ML-DSA-87",
    },
    NamedOid {
        octets: &[0x60, 0x86, 0x48, 0x01, 0x65, 0x03, 0x04, 0x04, 0x01],
        name: "ML-KEM-512",
    },
    NamedOid {
        octets: &[0x60, 0x86, 0x48, 0x01, 0x65, 0x03, 0x04, 0x04, 0x02],
        name: "ML-KEM-768",
    },
    NamedOid {
        octets: &[0x60, 0x86, 0x48, 0x01, 0x65, 0x03, 0x04, 0x04, 0x03],
        name: "ML-KEM-1024",
    },
    NamedOid {
        octets: &[
            0x2A, 0x86, 0x48, 0x86, 0xF7, 0x0D, 0x01, 0x09, 0x10, 0x03, 0x05,
        ],
        name: "id-smime-alg-ESDH",
    },
    NamedOid {
        octets: &[0x2B, 0x81, 0x05, 0x10, 0x86, 0x48, 0x3F, 0x00, 0x02],
        name: "dhSinglePass-stdDH-sha1kdf-scheme",
    },
    NamedOid {
        octets: &[0x2B, 0x81, 0x05, 0x10, 0x86, 0x48, 0x3F, 0x00, 0x03],
        name: "dhSinglePass-cofactorDH-sha1kdf-scheme",
    },
    NamedOid {
        octets: &[0x2B, 0x81, 0x04, 0x01, 0x0B, 0x00],
        name: "dhSinglePass-stdDH-sha224kdf-scheme",
    },
    NamedOid {
        octets: &[0x2B, 0x81, 0x04, 0x01, 0x0B, 0x01],
        name: "dhSinglePass-stdDH-sha256kdf-scheme",
    },
    NamedOid {
        octets: &[0x2B, 0x81, 0x04, 0x01, 0x0B, 0x02],
        name: "dhSinglePass-stdDH-sha384kdf-scheme",
    },
    NamedOid {
        octets: &[0x2B, 0x81, 0x04, 0x01, 0x0B, 0x03],
        name: "dhSinglePass-stdDH-sha512kdf-scheme",
    },
    NamedOid {
        octets: &[0x2B, 0x81, 0x04, 0x01, 0x0E, 0x00],
        name: "dhSinglePass-cofactorDH-sha224kdf-scheme",
    },
    NamedOid {
        octets: &[0x2B, 0x81, 0x04, 0x01, 0x0E, 0x01],
        name: "dhSinglePass-cofactorDH-sha256kdf-scheme",
    },
    NamedOid {
        octets: &[0x2B, 0x81, 0x04, 0x01, 0x0E, 0x02],
        name: "dhSinglePass-cofactorDH-sha384kdf-scheme",
    },
    NamedOid {
        octets: &[0x2B, 0x81, 0x04, 0x01, 0x0E, 0x03],
        name: "dhSinglePass-cofactorDH-sha512kdf-scheme",
    },
];

/// The name of one of other keys and signatures, and key agreements, by its contents octets.
pub fn name(octets: &[u8]) -> Option<&'static str>
    ensures { MatchOption result
        ((name : List ℕ) → ¬ (IsNamed keys_names octets.now name))
        (λ name. IsNamed keys_names octets.now name.now) }
{
    name_in(&ROWS, octets)
}
