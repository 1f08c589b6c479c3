//! Choices by object identifier, and as bodies of contents.

ghost use Rattle.std.specs.Prelude.{◌≡◌, ◌↔◌, ℕ, List, Bool, IsTrue, true, false};
ghost use Rattle.asn1_core.specs.Der.{Choice, IsLawfulChoice, GivesComponents};
ghost use Rattle.asn1_choices.specs.Chosen.{after_oid};

use asn1_core::prelude::*;
use asn1_core_element::element::contents_of;
use std::alloc::Global;

/// A choice by object identifier that is written.
pub trait WriteChoice {
    ghost Value: { Type 0 };

    ghost value: { Self → Value };

    ghost choice: { Choice Value };

    /// The contents octets of the object identifier.
    fn oid(&self) -> &[u8]
        ensures { result.now ≡ choice.oid_of (value self.now) };

    /// Writes the object identifier and what follows it.
    fn put_choice<W: Writer>(&self, w: &mut W) -> Result<(), WriteError>
        requires { W.MayTake w.old }
        ensures { W.Takes (choice.components.text (value self.now)) w.old w.new result };

    /// Whether what follows is well-formed, and the object identifier isn't that of an earlier alternative.
    fn choice_well_formed_at(&self, limit: u8) -> bool
        ensures { IsTrue result ↔ choice.components.IsWellFormed limit (value self.now) };
}

/// A choice by object identifier that is read.
pub trait ReadChoice: WriteChoice + Drop {
    /// Whether the first tags are distinct in the components of all alternatives, as `ReadComponents` says.
    ghost distinct: { Bool } = { true };

    /// Reads what follows an object identifier with these contents octets, to the end of the open contents.
    fn read_after(oid: &[u8], alloc: Global, r: &mut Reader<'_>, nest: u8) -> Result<Self, Error>
        requires sound { r.old.refused ≡ false }
        requires tags { distinct ≡ true }
        ensures { GivesComponents Self.value (after_oid oid.now Self.choice) nest r.old r.new result };

    ghost lawful: { distinct ≡ true → IsLawfulChoice Self.WriteChoice.choice };
}

/// A choice as a body.
#[derive(Drop)]
pub struct Chosen<C>(pub C);

impl<C: WriteChoice> WriteComponents for Chosen<C> {
    ghost Value = { C.Value };

    ghost value = { λ x. C.value x.0 };

    ghost format = { C.choice.components };

    fn put_components<W: Writer>(&self, w: &mut W) -> Result<(), WriteError> {
        self.0.put_choice(w)
    }

    fn components_well_formed_at(&self, limit: u8) -> bool {
        self.0.choice_well_formed_at(limit)
    }
}

impl<C: ReadChoice> ReadComponents for Chosen<C> {
    ghost distinct = { C.distinct };

    fn read_components(alloc: Global, r: &mut Reader<'_>, nest: u8) -> Result<Self, Error> {
        let oid = contents_of(r, 0x06)?;
        let choice = C::read_after(oid, alloc, r, nest)?;
        Ok(Chosen(choice))
    }

    ghost lawful = { λ c. (C.lawful c).components };
}

impl<C: WriteChoice> WriteChoice for &C {
    ghost Value = { C.Value };

    ghost value = { λ x. C.value x.now };

    ghost choice = { C.choice };

    fn oid(&self) -> &[u8] {
        (**self).oid()
    }

    fn put_choice<W: Writer>(&self, w: &mut W) -> Result<(), WriteError> {
        (**self).put_choice(w)
    }

    fn choice_well_formed_at(&self, limit: u8) -> bool {
        (**self).choice_well_formed_at(limit)
    }
}
