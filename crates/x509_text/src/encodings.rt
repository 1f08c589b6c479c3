//! Text of encodings.

ghost use Rattle.std.specs.Prelude.{◌⊎◌, string_bytes, MatchResult};
ghost use Rattle.asn1_core_oid.specs.Oid.{IsOid};
ghost use Rattle.asn1_core_oid.specs.OidText.{IsTextOf, HasLongGroup};
ghost use Rattle.asn1_core_oid.specs.Refusal.{IsRefusal};
ghost use Rattle.x509_text.specs.Characters.{characters};
ghost use Rattle.x509_text.specs.Encodings.{IsEncodedNameText, IsNameRefusal};

use crate::names::name_text;
use asn1_core_element::Error;
use asn1_core_format::from_bytes;
use asn1_core_oid::ObjectIdentifier;
use std::alloc::Global;
use x509_base::Name;

/// The `Name` that is encoded as text (RFC 4514). Refuses what is no encoding of one, and as `name_text`.
pub fn encoded_name_text(alloc: Global, encoding: &[u8]) -> Result<String, Error>
    ensures { MatchResult result
        (λ text. IsEncodedNameText encoding.now (characters text))
        (λ e. IsNameRefusal encoding.now e) }
{
    let name: Name = from_bytes(alloc, encoding)?;
    name_text(alloc, &name)
}

/// The arcs in decimal, joined by `.`, of an object identifier with these contents octets. `Error::Invalid` where they
/// aren't one's, or where a group is above `u64::MAX`.
pub fn oid_text(alloc: Global, octets: &[u8]) -> Result<String, Error>
    ensures { MatchResult result
        (λ text. IsTextOf (string_bytes text) octets.now)
        (IsRefusal ((¬ (IsOid octets.now)) ⊎ HasLongGroup octets.now)) }
{
    ObjectIdentifier::from_octets(alloc, octets)?.to_text(alloc)
}
