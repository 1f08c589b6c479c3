//! What a value hands its components to: writing, testing.

ghost use Rattle.std.specs.Prelude.{◌≡◌, ◌↔◌, ℕ, List, IsTrue};
ghost use Rattle.asn1_core_element.specs.Element.{element, retag};
ghost use Rattle.asn1_core_format.specs.Components.{within};

use crate::components::{Alone, WriteComponents};
use crate::traits::{DerSerialize, Ref};
use crate::within::put_within;
use asn1_core_writers::{WriteError, Writer};

/// What a type hands its components to, by reference.
pub trait ComponentVisitor {
    type Out;

    ghost MayVisit: { Self → Type 0 };

    /// What a visit did, by the encodings of the components, and by the levels at which these are well-formed.
    ghost Visits: { Self → Self → List ℕ → (ℕ → Type 0) → Self.Out → Type 0 };

    fn visit<R: WriteComponents>(&mut self, components: &R) -> Self::Out
        requires { MayVisit self.old }
        ensures { Visits self.old self.new (R.format.text (R.value components.now)) (λ k. R.format.IsWellFormed k (R.value components.now)) result };

    /// Visits one value, which is all that is written.
    final fn visit_value<T: DerSerialize>(&mut self, value: &T) -> Self::Out
        requires { MayVisit self.old }
        ensures { Visits self.old self.new (T.format.text (T.value value.now)) (λ k. T.format.IsWellFormed k (T.value value.now)) result }
    {
        self.visit(&Alone(Ref(value)))
    }

    /// Visits an element with that tag, whose contents are the components.
    final fn visit_within<const TAG: u8, R: WriteComponents>(&mut self, components: &R) -> Self::Out
        requires { MayVisit self.old }
        ensures { Visits self.old self.new (element TAG (R.format.text (R.value components.now))) (λ k. R.format.IsWellFormed k (R.value components.now)) result }
    {
        self.visit(&Within::<TAG, &R>(components))
    }
}

/// An element with that tag, whose contents are the components.
#[derive(Drop)]
struct Within<const TAG: u8, R>(R);

impl<const TAG: u8, R: WriteComponents> WriteComponents for Within<TAG, &R> {
    ghost Value = { R.Value };

    ghost value = { λ x. R.value x.0.now };

    ghost format = { within TAG R.format };

    fn put_components<W: Writer>(&self, w: &mut W) -> Result<(), WriteError> {
        put_within(TAG, self.0, w)
    }

    fn components_well_formed_at(&self, limit: u8) -> bool {
        self.0.components_well_formed_at(limit)
    }
}

/// Writing, in an element with that tag.
#[derive(Drop)]
pub struct PutWithin<'w, W> {
    pub tag: u8,
    pub w: &'w mut W,
}

impl<W: Writer> ComponentVisitor for PutWithin<'_, W> {
    type Out = Result<(), WriteError>;

    ghost MayVisit = { λ s. W.MayTake s.w.now };

    ghost Visits = { λ old new text _ r. (new.w.ghost_name ≡ old.w.ghost_name) × W.Takes (element old.tag text) old.w.now new.w.now r × ((own : ℕ) → W.Takes (retag old.tag (element own text)) old.w.now new.w.now r) };

    fn visit<R: WriteComponents>(&mut self, components: &R) -> Result<(), WriteError> {
        put_within(self.tag, components, self.w)
    }
}

/// Writing, in no element.
#[derive(Drop)]
pub struct Put<'w, W> {
    pub w: &'w mut W,
}

impl<W: Writer> ComponentVisitor for Put<'_, W> {
    type Out = Result<(), WriteError>;

    ghost MayVisit = { λ s. W.MayTake s.w.now };

    ghost Visits = { λ old new text _ r. (new.w.ghost_name ≡ old.w.ghost_name) × W.Takes text old.w.now new.w.now r };

    fn visit<R: WriteComponents>(&mut self, components: &R) -> Result<(), WriteError> {
        components.put_components(self.w)
    }
}

/// Whether the components are well-formed with at most so many levels.
#[derive(Drop)]
pub struct Test {
    pub limit: u8,
}

impl ComponentVisitor for Test {
    type Out = bool;

    ghost MayVisit = { λ _. Unit {0} };

    ghost Visits = { λ old _ _ formed r. IsTrue r ↔ formed old.limit };

    fn visit<R: WriteComponents>(&mut self, components: &R) -> bool {
        components.components_well_formed_at(self.limit)
    }
}
