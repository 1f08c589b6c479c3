//! Components of which the last is read by a closure.

ghost use Rattle.std.specs.Prelude.{◌≡◌, ◌&&◌, Bool, false, true};
ghost use Rattle.asn1_core_element.specs.Element.{IsTagByte};
ghost use Rattle.asn1_core_format.specs.Format.{Gives, IsLawfulComponents, are_distinct};
ghost use Rattle.asn1_core_format.specs.Omitted.{is_default_with};
ghost use Rattle.asn1_core_format.specs.laws.Omitted.{omitted_if_distinct};
ghost use Rattle.asn1_core_format.specs.Components.{GivesComponents, within};
ghost use Rattle.asn1_core_format.specs.laws.ComponentLaws.{lawful_part, optional_if_distinct};

use crate::components::{HasDefault, Maybe, Omitted, Required, WriteComponents, next_is};
use crate::recursive::read_components_by;
use crate::traits::DerDeserialize;
use asn1_core_element::element::open_element;
use asn1_core_element::{Error, Reader};
use asn1_core_writers::{WriteError, Writer};
use std::alloc::Global;

/// Parts of which the last, `S`, is read by a closure.
pub trait ReadComponentsWith<S: WriteComponents>: WriteComponents + Drop {
    /// Whether the first tags of each component that may be absent are distinct from those that may follow it (X.680, 25.6).
    ghost distinct: { Bool } = { true };

    /// Reads the parts to the end of the open contents, the last of them by `by`.
    fn read_components_with<F: Fn(&mut Reader<'_>) -> Result<S, Error>>(
        alloc: Global,
        r: &mut Reader<'_>,
        nest: u8,
        by: &F,
    ) -> Result<Self, Error>
        requires sound { r.old.refused ≡ false }
        requires tags { distinct ≡ true }
        requires lawful { IsLawfulComponents S.format }
        requires called { (s : _) → s.now.refused ≡ false → F.pre by.now s }
        requires gives { (s : _) (x : _) (t : _) → F.post by.now s x t → GivesComponents S.value S.format nest s.now t.now x }
        ensures { GivesComponents Self.value Self.format nest r.old r.new result };

    ghost keeps_laws: { distinct ≡ true → IsLawfulComponents S.WriteComponents.format → IsLawfulComponents Self.WriteComponents.format };
}

/// The last part.
#[derive(Drop)]
pub struct Tail<S>(pub S);

impl<S: WriteComponents> WriteComponents for Tail<S> {
    ghost Value = { S.Value };

    ghost value = { λ x. S.value x.0 };

    ghost format = { S.format };

    fn put_components<W: Writer>(&self, w: &mut W) -> Result<(), WriteError> {
        self.0.put_components(w)
    }

    fn components_well_formed_at(&self, limit: u8) -> bool {
        self.0.components_well_formed_at(limit)
    }
}

impl<S: WriteComponents + Drop> ReadComponentsWith<S> for Tail<S> {
    fn read_components_with<F: Fn(&mut Reader<'_>) -> Result<S, Error>>(
        _alloc: Global,
        r: &mut Reader<'_>,
        nest: u8,
        by: &F,
    ) -> Result<Self, Error> {
        let components = read_components_by(r, nest, by)?;
        Ok(Tail(components))
    }

    ghost keeps_laws = { λ c s. s };
}

impl<A: DerDeserialize, S: WriteComponents, R: ReadComponentsWith<S>> ReadComponentsWith<S>
    for Required<A, R> {
    ghost distinct = { R.distinct };

    fn read_components_with<F: Fn(&mut Reader<'_>) -> Result<S, Error>>(
        alloc: Global,
        r: &mut Reader<'_>,
        nest: u8,
        by: &F,
    ) -> Result<Self, Error> {
        let first = A::read(alloc, r, nest)?;
        let rest = R::read_components_with(alloc, r, nest, by)?;
        Ok(Required(first, rest))
    }

    ghost keeps_laws = { λ c s. lawful_part A.DerSerialize.format R.WriteComponents.format A.lawful (R.keeps_laws c s) };
}

impl<A: DerDeserialize, S: WriteComponents, R: ReadComponentsWith<S>> ReadComponentsWith<S>
    for Maybe<A, R> {
    ghost distinct = { R.distinct && are_distinct A.format R.format };

    fn read_components_with<F: Fn(&mut Reader<'_>) -> Result<S, Error>>(
        alloc: Global,
        r: &mut Reader<'_>,
        nest: u8,
        by: &F,
    ) -> Result<Self, Error> {
        if next_is::<A>(r) {
            let first = A::read(alloc, r, nest)?;
            let rest = R::read_components_with(alloc, r, nest, by)?;
            return Ok(Maybe(Some(first), rest));
        }
        let rest = R::read_components_with(alloc, r, nest, by)?;
        Ok(Maybe(None, rest))
    }

    ghost keeps_laws = { λ c s. optional_if_distinct A.DerSerialize.format R.WriteComponents.format R.distinct A.lawful (λ d. R.keeps_laws d s) c };
}

impl<A: HasDefault, S: WriteComponents, R: ReadComponentsWith<S>> ReadComponentsWith<S>
    for Omitted<A, R> {
    ghost distinct = { R.distinct && are_distinct A.format R.format };

    fn read_components_with<F: Fn(&mut Reader<'_>) -> Result<S, Error>>(
        alloc: Global,
        r: &mut Reader<'_>,
        nest: u8,
        by: &F,
    ) -> Result<Self, Error> {
        if next_is::<A>(r) {
            let first = A::read(alloc, r, nest)?;
            let rest = R::read_components_with(alloc, r, nest, by)?;
            return Ok(Omitted(first, rest));
        }
        let absent = A::absent(alloc)?;
        let others = R::read_components_with(alloc, r, nest, by)?;
        Ok(Omitted(absent, others))
    }

    ghost keeps_laws = { λ c s. omitted_if_distinct (is_default_with A.INSIDE A.DerSerialize.format A.DEFAULT) A.DEFAULT A.DerSerialize.format R.WriteComponents.format R.distinct A.lawful (λ d. R.keeps_laws d s) A.left_out c };
}

/// Reads an element with that tag, whose contents are the parts, the last of them read by `by`.
pub fn read_within_with<
    R: ReadComponentsWith<S>,
    S: WriteComponents,
    F: Fn(&mut Reader<'_>) -> Result<S, Error>,
>(alloc: Global, r: &mut Reader<'_>, nest: u8, tag: u8, by: &F) -> Result<R, Error>
    requires sound { r.old.refused ≡ false }
    requires tag { IsTagByte tag }
    requires tags { R.distinct ≡ true }
    requires lawful { IsLawfulComponents S.format }
    requires called { (s : _) → s.now.refused ≡ false → F.pre by.now s }
    requires gives { (s : _) (x : _) (t : _) → F.post by.now s x t → GivesComponents S.value S.format nest s.now t.now x }
    ensures { Gives R.value (within tag R.format) nest r.old r.new result }
{
    let outer = open_element(r, tag)?;
    let components = R::read_components_with(alloc, r, nest, by)?;
    r.end(outer)?;
    Ok(components)
}
