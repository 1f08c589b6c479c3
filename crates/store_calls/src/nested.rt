//! SafeContents in one another.

ghost use Rattle.std.specs.Prelude.{MatchResult, map};
ghost use Rattle.std.specs.List.{AllByRecursion};
ghost use Rattle.store_calls.specs.Levels.{HasLevels, IsLevel};
ghost use Rattle.call_values.specs.Read.{IsUnreadAt};
ghost use Rattle.x509_pkcs12.specs.RawBags.{raw_safe_bag_value};

use call_values::not_built::NotBuilt;
use call_values::readings::read_as;
use pkcs12_bags::parts::oids::{SAFE_CONTENTS_BAG, is_oid_of, octets_of_known};
use std::alloc::Global;
use x509_pkcs12::{RawSafeBag, RawSafeContents};

/// How many lists of bags may be in one another, so that a bag is in 64 others at most, as `bag_ranges` has it.
pub const LEVELS: u8 = 65;

/// Whether octets are a `SafeContents`, with so many lists of bags in one another at most.
#[cycle(levels)]
pub fn check_levels(alloc: Global, octets: &[u8], levels: u8, number: usize) -> Result<(), NotBuilt>
    ensures { MatchResult result (λ _. HasLevels levels octets.now) (λ wrong. IsUnreadAt number (HasLevels levels octets.now) wrong) }
{
    if levels == 0 {
        return Err(NotBuilt::Part(number));
    }
    let bags: RawSafeContents = read_as(alloc, octets, number)?;
    check_bags(alloc, bags.0.as_slice(), levels - 1, number)
}

/// Whether so many lists of bags at most are in one another in each of these bags.
#[cycle(levels)]
fn check_bags(alloc: Global, bags: &[RawSafeBag], below: u8, number: usize) -> Result<(), NotBuilt>
    ensures { MatchResult result
        (λ _. AllByRecursion (IsLevel (HasLevels below)) (map raw_safe_bag_value bags.now))
        (λ wrong. IsUnreadAt number (AllByRecursion (IsLevel (HasLevels below)) (map raw_safe_bag_value bags.now)) wrong) }
{
    for bag in bags {
        check_bag(alloc, bag, below, number)?;
    }
    Ok(())
}

/// Whether so many lists of bags at most are in one another in a bag.
#[cycle(levels)]
fn check_bag(alloc: Global, bag: &RawSafeBag, below: u8, number: usize) -> Result<(), NotBuilt>
    ensures { MatchResult result
        (λ _. IsLevel (HasLevels below) (raw_safe_bag_value bag.now))
        (λ wrong. IsUnreadAt number (IsLevel (HasLevels below) (raw_safe_bag_value bag.now)) wrong) }
{
    if !is_oid_of(&bag.bag_id.0, octets_of_known(SAFE_CONTENTS_BAG)) {
        return Ok(());
    }
    check_levels(alloc, bag.value(), below, number)
}
