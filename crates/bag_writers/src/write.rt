//! Writing a SafeContents.

ghost use Rattle.std.specs.Prelude.{MatchResult};
ghost use Rattle.std.specs.List.{AllZip};
ghost use Rattle.bag_writers.specs.Written.{HasAttributes, IsNotSafe, IsSafeContentsOf};

use crate::attributes::attributed;
use crate::bags::{Attributed, Bag};
use asn1_borrowed::{Body, write};
use asn1_core::Error;
use std::alloc::Global;

/// Bags with their attributes encoded.
fn all_attributed<'a>(alloc: Global, bags: &[Bag<'a>]) -> Result<Vec<Attributed<'a>>, Error>
    ensures { MatchResult result (λ all. AllZip HasAttributes bags.now all.items) (λ e. IsNotSafe bags.now e) }
{
    let mut all = Vec::new(alloc);
    for bag in bags {
        all.push(attributed(alloc, bag)?)?;
    }
    Ok(all)
}

/// The encoding of the `SafeContents` of these bags (RFC 7292, 4.2). Refuses by `Invalid` an object identifier that isn't
/// one, what isn't exactly one element, a name that isn't UTF-16, and an ill-formed attribute, but not one that isn't
/// written; by `TooLong`, or by `Memory`.
pub fn write_safe_contents(alloc: Global, bags: &[Bag<'_>]) -> Result<Vec<u8>, Error>
    ensures { MatchResult result (λ text. IsSafeContentsOf bags.now text.items) (λ e. IsNotSafe bags.now e) }
{
    write(alloc, &Body(all_attributed(alloc, bags)?))
}
