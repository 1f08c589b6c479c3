//! Parts that are read before they are written.

ghost use Rattle.std.specs.Prelude.{MatchResult};
ghost use Rattle.asn1_core.specs.Der.{IsValueOf};
ghost use Rattle.call_values.specs.Read.{IsReadAs, IsUnreadAt};

use crate::not_built::NotBuilt;
use asn1_core::{DerDeserialize, Error, from_bytes};
use std::alloc::Global;

/// The value of octets, or the part's number where they have none.
pub fn read_as<T: DerDeserialize>(
    alloc: Global,
    octets: &[u8],
    number: usize,
) -> Result<T, NotBuilt>
    ensures { MatchResult result
        (λ x. IsValueOf T.format 64 octets.now (T.value x))
        (λ wrong. IsUnreadAt number (IsReadAs T.format octets.now) wrong) }
{
    match from_bytes::<T>(alloc, octets) {
        Ok(value) => Ok(value),
        Err(Error::Memory) => Err(NotBuilt::Refused(Error::Memory)),
        Err(_) => Err(NotBuilt::Part(number)),
    }
}

/// Whether octets have a value of that type.
pub fn check_as<T: DerDeserialize>(
    alloc: Global,
    octets: &[u8],
    number: usize,
) -> Result<(), NotBuilt>
    ensures { MatchResult result
        (λ _. IsReadAs T.format octets.now)
        (λ wrong. IsUnreadAt number (IsReadAs T.format octets.now) wrong) }
{
    let _value: T = read_as(alloc, octets, number)?;
    Ok(())
}
