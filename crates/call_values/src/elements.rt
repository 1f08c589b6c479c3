//! Elements that a caller in C gives, as ranges of an input.

ghost use Rattle.std.specs.Prelude.{◌≡◌, MatchResult, map};
ghost use Rattle.std.specs.List.{AllZip};
ghost use Rattle.asn1_core_element.specs.declared.error.Error.TheVariants.{Memory};
ghost use Rattle.call_values.specs.Elements.{IsNoElement};
ghost use Rattle.call_values.specs.Given.{IsPartOf};
ghost use Rattle.call_values.specs.declared.elements.NoElement.TheVariants.{NotListed};

use crate::given::part_of;
use crate::ranges::Octets;
use asn1_borrowed::ElementRef;
use asn1_core::Error;
use std::alloc::{AllocFailed, Global};

/// Why elements aren't listed.
pub enum NoElement {
    /// The range with that index isn't in the input.
    At(usize),
    NotListed(Error),
}

impl<T: Drop> From<AllocFailed<T>> for NoElement {
    ghost from_gives = { λ _ r. r ≡ NotListed Memory };

    fn from(_e: AllocFailed<T>) -> NoElement {
        NoElement::NotListed(Error::Memory)
    }
}

/// The elements of ranges. That they are well-formed isn't looked at.
pub fn elements_of<'a>(
    alloc: Global,
    input: &'a [u8],
    parts: &[Octets],
) -> Result<Vec<ElementRef<'a>>, NoElement>
    ensures { MatchResult result
        (λ all. AllZip (IsPartOf input.now) parts.now (map (λ x. x.0.now) all.items))
        (λ no. IsNoElement input.now parts.now no) }
{
    let mut all = Vec::new(alloc);
    for (index, part) in parts.iter().enumerate() {
        match part_of(input, *part, 0) {
            Ok(octets) => all.push(ElementRef(octets))?,
            Err(_number) => return Err(NoElement::At(index)),
        }
    }
    Ok(all)
}
