//! Kinds of algorithms that share an alternative, each with its object identifier.

ghost use Rattle.std.specs.Prelude.{◌≡◌, MatchResult};
ghost use Rattle.asn1_core_element.specs.declared.error.Error.TheVariants.{Memory};
ghost use Rattle.asn1_core.specs.Der.{IsOid, octets_of};

use crate::oids::known_oid;
use asn1_choices::OidTable;
use asn1_core::{Error, ObjectIdentifier};
use std::alloc::Global;

/// Kinds whose object identifiers a caller may ask for.
pub(crate) trait Kind: OidTable {
    ghost valid: { (kind : Self) → IsOid (Self.OidTable.table.oid_of kind) };
}

/// The object identifier of a kind. Refuses by `Memory` alone.
pub(crate) fn oid_of_kind<K: Kind>(alloc: Global, kind: K) -> Result<ObjectIdentifier, Error>
    ensures { MatchResult result (λ oid. octets_of oid ≡ K.OidTable.table.oid_of kind) (λ e. e ≡ Memory) }
{
    known_oid(alloc, kind.octets())
}
