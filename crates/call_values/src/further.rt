//! Further attributes of a bag or of a signer, as they are given.

ghost use Rattle.std.specs.Prelude.{MatchResult, map};
ghost use Rattle.call_values.specs.Further.{AreFurther, IsSetOf};
ghost use Rattle.call_values.specs.Read.{HasOne, IsUnreadAt};
ghost use Rattle.x509_base.specs.Names.{attribute_value};

use crate::given::part_of;
use crate::not_built::NotBuilt;
use crate::ranges::Octets;
use crate::readings::read_as;
use asn1_core::prelude::*;
use std::alloc::Global;
use x509_base::Attribute;

/// The attributes of a set.
fn set_of(
    alloc: Global,
    input: &[u8],
    part: Octets,
    number: usize,
) -> Result<Vec<Attribute>, NotBuilt>
    ensures { MatchResult result
        (λ all. IsSetOf input.now part (map attribute_value all.items))
        (λ wrong. IsUnreadAt number (HasOne (IsSetOf input.now part)) wrong) }
{
    match part_of(input, part, number) {
        Ok(octets) => {
            let set: Asn1SetOf<Attribute> = read_as(alloc, octets, number)?;
            Ok(set.0)
        }
        Err(number) => Err(NotBuilt::Part(number)),
    }
}

/// The attributes of a set, which comes with its number, or none where the flag is 0.
pub fn further_if(
    alloc: Global,
    input: &[u8],
    flag: usize,
    part: (Octets, usize),
) -> Result<Vec<Attribute>, NotBuilt>
    ensures { MatchResult result
        (λ all. AreFurther input.now flag part.0 (map attribute_value all.items))
        (λ wrong. IsUnreadAt part.1 (HasOne (AreFurther input.now flag part.0)) wrong) }
{
    if flag == 0 {
        return Ok(Vec::new(alloc));
    }
    set_of(alloc, input, part.0, part.1)
}
