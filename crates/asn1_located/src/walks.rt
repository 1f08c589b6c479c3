//! Walks over the headers of an input. They know elements and no types: which steps lead to a part of a type is said by a
//! route, in `specs/Routes.antt`.

ghost use Rattle.std.specs.Prelude.{◌≤◌, ◌+◌, ◌<◌, ◌^◌, ◌↔◌, ℕ, length, IsTrue, List, MatchOption};
ghost use Rattle.asn1_located.specs.Places.{Begins, Contains, Finds, Follows, FollowsMany, HasFirst, IsRangeAt, Leads, Walk};
ghost use Rattle.asn1_located.specs.declared.walks.Step.TheVariants.{Past};

use asn1_core_element::front::front;
use std::ops::Range;

/// A step from some octets of an input to octets among them.
#[derive(Clone, Copy, Debug, PartialEq, Eq)]
pub enum Step {
    /// To the contents of the element with which they begin.
    Inside,
    /// To that element, without what follows it.
    Element,
    /// To what follows it.
    After,
    /// To what follows it if it has that tag, as one goes past an OPTIONAL component; otherwise the octets stay as they are.
    Past(u8),
    /// To what follows so many elements.
    Nth(usize),
}

/// Octets of an input, and where they begin in it.
#[derive(Clone, Copy)]
pub struct Place<'a> {
    /// How many octets of the input precede them.
    pub start: usize,
    /// The octets themselves.
    pub octets: &'a [u8],
}

#[tactic(auto, using(crate::proofs::Steps::is_inside, crate::proofs::Steps::none_inside))]
fn inside<'a>(start: usize, octets: &'a [u8]) -> Option<Place<'a>>
    requires { start + length octets.now < 2 ^ 64 }
    ensures { Finds (λ n y. Contains start octets.now n y) start octets.now result }
{
    match front(octets) {
        Some((_tag, len, size)) => Some(Place {
            start: start + size,
            octets: &octets[size..size + len],
        }),
        None => None,
    }
}

#[tactic(auto, using(crate::proofs::Steps::is_element, crate::proofs::Steps::no_element))]
fn element<'a>(start: usize, octets: &'a [u8]) -> Option<Place<'a>>
    requires { start + length octets.now < 2 ^ 64 }
    ensures { Finds (λ n y. Begins start octets.now n y) start octets.now result }
{
    match front(octets) {
        Some((_tag, len, size)) => Some(Place {
            start,
            octets: &octets[..size + len],
        }),
        None => None,
    }
}

#[tactic(auto, using(crate::proofs::Steps::is_after, crate::proofs::Steps::none_after))]
fn after<'a>(start: usize, octets: &'a [u8]) -> Option<Place<'a>>
    requires { start + length octets.now < 2 ^ 64 }
    ensures { Finds (λ n y. Follows start octets.now n y) start octets.now result }
{
    match front(octets) {
        Some((_tag, len, size)) => Some(Place {
            start: start + (size + len),
            octets: &octets[size + len..],
        }),
        None => None,
    }
}

/// Whether the octets begin with that tag.
fn begins(octets: &[u8], tag: u8) -> bool
    ensures { IsTrue result ↔ HasFirst tag octets.now }
{
    octets.len() > 0 && octets[0] == tag
}

#[tactic(auto, using(crate::proofs::Steps::past_absent, crate::proofs::Steps::not_first))]
fn past<'a>(start: usize, octets: &'a [u8], tag: u8) -> Option<Place<'a>>
    requires { start + length octets.now < 2 ^ 64 }
    ensures { Finds (λ n y. Leads (Past tag) start octets.now n y) start octets.now result }
{
    if begins(octets, tag) {
        after(start, octets)
    } else {
        Some(Place { start, octets })
    }
}

#[tactic(auto, using(crate::proofs::Steps::many_more, crate::proofs::Steps::many_none))]
fn nth<'a>(start: usize, octets: &'a [u8], count: usize) -> Option<Place<'a>>
    requires { start + length octets.now < 2 ^ 64 }
    ensures { Finds (λ n y. FollowsMany count start octets.now n y) start octets.now result }
{
    let mut place = Place { start, octets };
    for _ in 0..count {
        match after(place.start, place.octets) {
            Some(next) => place = next,
            None => return None,
        }
    }
    Some(place)
}

/// Where a step leads. `None` where it leads nowhere.
fn lead<'a>(start: usize, octets: &'a [u8], step: Step) -> Option<Place<'a>>
    requires { start + length octets.now < 2 ^ 64 }
    ensures { Finds (λ n y. Leads step start octets.now n y) start octets.now result }
{
    match step {
        Step::Inside => inside(start, octets),
        Step::Element => element(start, octets),
        Step::After => after(start, octets),
        Step::Past(tag) => past(start, octets, tag),
        Step::Nth(count) => nth(start, octets, count),
    }
}

/// Where steps lead, one after another, from octets that begin at `start` of an input. `None` where they lead nowhere. No
/// memory is taken, and only the headers are read that the steps go past or into.
#[tactic(auto, using(crate::proofs::Steps::walk_start, crate::proofs::Steps::walk_more, crate::proofs::Steps::walk_none, crate::proofs::Steps::walk_end))]
pub fn walk<'a>(start: usize, octets: &'a [u8], steps: &[Step]) -> Option<Place<'a>>
    requires { start + length octets.now < 2 ^ 64 }
    ensures { Finds (λ n y. Walk steps.now start octets.now n y) start octets.now result }
{
    let mut place = Place { start, octets };
    for item in steps {
        match lead(place.start, place.octets, *item) {
            Some(next) => place = next,
            None => return None,
        }
    }
    Some(place)
}

/// The range of an input to which steps lead from its first octet. `None` where they lead nowhere.
#[tactic(auto, using(crate::proofs::Ranges::range_of_walk))]
pub fn range_at(input: &[u8], steps: &[Step]) -> Option<Range<usize>>
    ensures { MatchOption result
        ((n : ℕ) (y : List ℕ) → Walk steps.now 0 input.now n y → ⊥)
        (λ r. IsRangeAt steps.now input.now r.start r.end) }
{
    let place = walk(0, input, steps)?;
    Some(place.start..place.start + place.octets.len())
}
