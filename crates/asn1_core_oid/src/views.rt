//! Object identifiers as `==` and clones see them.

ghost use Rattle.std.specs.Prelude.{ℕ, List};
ghost use Rattle.asn1_core_oid.specs.OidValue.{octets_of};
ghost use Rattle.asn1_core_oid.specs.laws.OidValueLaws.{equal_octets};

use crate::oid::ObjectIdentifier;
use asn1_core_element::Error;
use asn1_core_format::{TryClone, Viewed};
use std::alloc::Global;

impl Viewed for ObjectIdentifier {
    ghost View = { List ℕ };

    ghost view = { octets_of };

    ghost equal = { equal_octets };
}

impl TryClone for ObjectIdentifier {
    fn try_clone(&self, alloc: Global) -> Result<Self, Error> {
        Ok(ObjectIdentifier::from_checked(Vec::from_slice(alloc, self.octets())?))
    }
}
