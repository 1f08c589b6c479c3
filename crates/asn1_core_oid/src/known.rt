//! Object identifiers that several layers know, and whether one is known.

ghost use Rattle.std.specs.Prelude.{◌↔◌, ◌≡◌, IsTrue};
ghost use Rattle.asn1_core_oid.specs.OidValue.{octets_of};

use crate::oid::ObjectIdentifier;

/// The contents octets of `id-data` (RFC 5652, 4).
pub const DATA: [u8; 9] = [0x2A, 0x86, 0x48, 0x86, 0xF7, 0x0D, 0x01, 0x07, 0x01];

/// Whether the object identifier has these contents octets.
pub fn is_oid_of(oid: &ObjectIdentifier, octets: &[u8]) -> bool
    ensures { IsTrue result ↔ (octets_of oid.now ≡ octets.now) }
{
    oid.octets() == octets
}
