//! Parts that a caller in C gives, as ranges of an input and numbers.

ghost use Rattle.std.specs.Prelude.{◌≡◌, ◌<◌, ◌^◌, MatchResult};
ghost use Rattle.asn1_core.specs.Der.{option_value};
ghost use Rattle.call_values.specs.Given.{HasNone, IsElementOf, IsNumberOf, IsOidOf, IsPartOf, IfGiven};

use crate::ranges::Octets;
use asn1_borrowed::ElementRef;
use asn1_core::prelude::*;
use asn1_core_oid::is_oid;

/// The octets of a range of the input, or the part's number where the range isn't in the input.
pub fn part_of<'a>(input: &'a [u8], part: Octets, number: usize) -> Result<&'a [u8], usize>
    ensures { MatchResult result (λ x. IsPartOf input.now part x.now) (λ n. (n ≡ number) × HasNone (IsPartOf input.now part)) }
{
    let Some(end) = part.start.checked_add(part.len) else {
        return Err(number);
    };
    match input.get(part.start..end) {
        Some(octets) => Ok(octets),
        None => Err(number),
    }
}

/// The contents octets of an object identifier.
pub fn oid_of<'a>(input: &'a [u8], part: Octets, number: usize) -> Result<&'a [u8], usize>
    ensures { MatchResult result (λ x. IsOidOf input.now part x.now) (λ n. (n ≡ number) × HasNone (IsOidOf input.now part)) }
{
    let octets = part_of(input, part, number)?;
    if is_oid(octets) {
        Ok(octets)
    } else {
        Err(number)
    }
}

/// An element.
pub fn element_of<'a>(input: &'a [u8], part: Octets, number: usize) -> Result<&'a [u8], usize>
    ensures { MatchResult result (λ x. IsElementOf input.now part x.now) (λ n. (n ≡ number) × HasNone (IsElementOf input.now part)) }
{
    let octets = part_of(input, part, number)?;
    if ElementRef(octets).well_formed() {
        Ok(octets)
    } else {
        Err(number)
    }
}

/// A number below 2^32.
pub fn number_of(given: usize, number: usize) -> Result<u32, usize>
    ensures { MatchResult result (λ n. IsNumberOf given n) (λ n. (n ≡ number) × HasNone (IsNumberOf given)) }
{
    if given > 0xFFFF_FFFF {
        return Err(number);
    }
    Ok(given as u32)
}

/// The octets of a range, unless the flag is 0.
#[tactic(auto, using(crate::proofs::GivenParts::none_if))]
pub fn part_if<'a>(
    input: &'a [u8],
    flag: usize,
    part: Octets,
    number: usize,
) -> Result<Option<&'a [u8]>, usize>
    ensures { MatchResult result
        (λ o. IfGiven flag (IsPartOf input.now part) (option_value (λ x. x.now) o))
        (λ n. (n ≡ number) × HasNone (IfGiven flag (IsPartOf input.now part))) }
{
    if flag == 0 {
        return Ok(None);
    }
    Ok(Some(part_of(input, part, number)?))
}

/// The contents octets of an object identifier, unless the flag is 0.
#[tactic(auto, using(crate::proofs::GivenParts::none_if))]
pub fn oid_if<'a>(
    input: &'a [u8],
    flag: usize,
    part: Octets,
    number: usize,
) -> Result<Option<&'a [u8]>, usize>
    ensures { MatchResult result
        (λ o. IfGiven flag (IsOidOf input.now part) (option_value (λ x. x.now) o))
        (λ n. (n ≡ number) × HasNone (IfGiven flag (IsOidOf input.now part))) }
{
    if flag == 0 {
        return Ok(None);
    }
    Ok(Some(oid_of(input, part, number)?))
}

/// An element, unless the flag is 0.
#[tactic(auto, using(crate::proofs::GivenParts::none_if))]
pub fn element_if<'a>(
    input: &'a [u8],
    flag: usize,
    part: Octets,
    number: usize,
) -> Result<Option<&'a [u8]>, usize>
    ensures { MatchResult result
        (λ o. IfGiven flag (IsElementOf input.now part) (option_value (λ x. x.now) o))
        (λ n. (n ≡ number) × HasNone (IfGiven flag (IsElementOf input.now part))) }
{
    if flag == 0 {
        return Ok(None);
    }
    Ok(Some(element_of(input, part, number)?))
}

/// A number below 2^32, unless the flag is 0.
#[tactic(auto, using(crate::proofs::GivenParts::none_if))]
pub fn number_if(flag: usize, given: usize, number: usize) -> Result<Option<u32>, usize>
    ensures { MatchResult result
        (λ o. IfGiven flag (IsNumberOf given) (option_value (λ n. n) o))
        (λ n. (n ≡ number) × HasNone (IfGiven flag (IsNumberOf given))) }
{
    if flag == 0 {
        return Ok(None);
    }
    Ok(Some(number_of(given, number)?))
}
