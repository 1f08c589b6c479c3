//! An object identifier that keeps its contents octets.

ghost use Rattle.std.specs.Prelude.{◌≡◌, ℕ, List, string_bytes, MatchResult};
ghost use Rattle.asn1_core_oid.specs.Oid.{IsOid};
ghost use Rattle.asn1_core_oid.specs.OidLaws.{IsOid-prop};
ghost use Rattle.asn1_core_oid.specs.OidText.{IsTextOf, HasLongGroup};
ghost use Rattle.asn1_core_oid.specs.Refusal.{IsRefusal};

use crate::oid_contents::{is_oid, read_groups, write_group, write_groups};
use crate::text::{first_arcs, first_group, read_arcs, write_arcs};
use asn1_core_element::Error;
use std::alloc::Global;

/// An object identifier, which keeps its contents octets (X.690, 8.19) and is compared by them. Its numbers have no
/// limit.
#[derive(Debug, Drop, PartialEq, Eq)]
pub struct ObjectIdentifier {
    octets: Vec<u8>,
    ghost valid: { IsOid octets.items } by { IsOid-prop octets.items },
}

impl ObjectIdentifier {
    ghost use Rattle.asn1_core_oid.specs.OidValue.{octets_of};

    /// The object identifier with these contents octets. `Error::Invalid` where they aren't an object identifier's.
    pub fn from_octets(alloc: Global, octets: &[u8]) -> Result<Self, Error>
        ensures { MatchResult result
            (λ oid. IsOid octets.now × (octets_of oid ≡ octets.now))
            (IsRefusal (¬ (IsOid octets.now))) }
    {
        if !is_oid(octets) {
            return Err(Error::Invalid);
        }
        let octets = Vec::from_slice(alloc, octets)?;
        Ok(ObjectIdentifier { octets })
    }

    /// The object identifier with contents octets that are known to be one's, as `is_oid` tells.
    pub fn from_checked(octets: Vec<u8>) -> Self
        requires { IsOid octets.items }
        ensures { octets_of result ≡ octets.items }
    {
        Self { octets }
    }

    /// The object identifier whose arcs the text spells, in decimal without leading zeros and joined by `.`.
    /// `Error::Invalid` where it spells none, or where an arc or the group of the first two is above `u64::MAX`.
    pub fn from_text(alloc: Global, text: &str) -> Result<Self, Error>
        ensures { MatchResult result
            (λ oid. IsTextOf text.now (octets_of oid))
            (IsRefusal ((octets : List ℕ) → ¬ (IsTextOf text.now octets))) }
    {
        let arcs = read_arcs(alloc, text)?;
        let [first, second, further @ ..] = arcs.as_slice() else {
            return Err(Error::Invalid);
        };
        let group = first_group(*first, *second).ok_or(Error::Invalid)?;
        let mut octets = Vec::new(alloc);
        write_group(group, &mut octets)?;
        write_groups(further, &mut octets)?;
        Ok(ObjectIdentifier { octets })
    }

    /// The arcs in decimal, joined by `.`. `Error::Invalid` where a group is above `u64::MAX`.
    pub fn to_text(&self, alloc: Global) -> Result<String, Error>
        ensures { MatchResult result
            (λ text. IsTextOf (string_bytes text) (octets_of self.now))
            (IsRefusal (HasLongGroup (octets_of self.now))) }
    {
        let groups = read_groups(alloc, &self.octets)?;
        let [group, further @ ..] = groups.as_slice() else {
            unreachable!()
        };
        let (first, second) = first_arcs(*group);
        let mut text = format!(in alloc; "{first}.{second}")?;
        write_arcs(further, &mut text)?;
        Ok(text)
    }

    /// The contents octets.
    pub fn octets(&self) -> &[u8]
        ensures value { result.now ≡ octets_of self.now }
        ensures valid { IsOid result.now }
    {
        self.octets.as_slice()
    }
}
