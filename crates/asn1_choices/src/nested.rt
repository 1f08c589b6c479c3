//! Choices of which one alternative may hold the type that is being read.

ghost use Rattle.std.specs.Prelude.{◌≡◌, false, true};
ghost use Rattle.std.proofs.Common.{inl, inr};
ghost use Rattle.asn1_core.specs.Der.{IsTagByte, MayBelow, GivesBelow, known, IsLawful, less, GivesComponents, part, within};
ghost use Rattle.asn1_core_format.specs.declared.eithers.Either.TheVariants.{First, Second};

use crate::alternatives::{Named, is_named};
use crate::choices::ReadChoice;
use asn1_core::prelude::*;
use asn1_core_element::element::contents_of;
use asn1_core_format::read_below_within;
use std::alloc::Global;

/// Reads a choice. After the object identifier `N` comes an element with that tag that holds a `T` one nesting level
/// down, which `by` reads, and then `R`; after any other comes what `C` says.
pub fn read_nested_or<
    N: Named,
    T: DerSerialize + Drop,
    R: ReadComponents,
    C: ReadChoice,
    F: Fn(&mut Reader<'_>, u8) -> Result<T, Error>,
>(alloc: Global, r: &mut Reader<'_>, nest: u8, tag: u8, by: &F) -> Result<Either<(T, R), C>, Error>
    requires sound { r.old.refused ≡ false }
    requires tag { IsTagByte tag }
    requires tags_of_rest { R.distinct ≡ true }
    requires tags_of_others { C.distinct ≡ true }
    requires lawful { IsLawful T.format }
    requires called { MayBelow (F.pre by.now) nest }
    requires gives { GivesBelow (F.post by.now) T.value T.format nest }
    ensures { GivesComponents (λ x. elim x [ First p ↦ inl (T.value p.0, R.value p.1) | Second c ↦ inr (C.value c) ]) (known N.OID (part (within tag (less T.format)) R.format) C.choice).components nest r.old r.new result }
{
    let oid = contents_of(r, 0x06)?;
    if is_named::<N>(oid) {
        let nested = read_below_within(r, nest, tag, by)?;
        let rest = R::read_components(alloc, r, nest)?;
        return Ok(Either::First((nested, rest)));
    }
    let other = C::read_after(oid, alloc, r, nest)?;
    Ok(Either::Second(other))
}
