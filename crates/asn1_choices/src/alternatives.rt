//! One object identifier, its alternative, and that of any other.

ghost use Rattle.std.specs.Prelude.{◌≡◌, ◌↔◌, ◌⊎◌, ◌&&◌, ℕ, List, Bool, IsTrue, true, false};
ghost use Rattle.std.proofs.Common.{inl, inr};
ghost use Rattle.std.proofs.lemmas.Bool.{and_parts};
ghost use Rattle.asn1_core.specs.Der.{known, otherwise, lawful_known, lawful_otherwise, IsOid, octets_of, only_oid, lawful_only_oid, verbatim};
ghost use Rattle.asn1_core_format.specs.declared.eithers.Either.TheVariants.{First, Second};

use crate::choices::{ReadChoice, WriteChoice};
use asn1_core::OidRef;
use asn1_core::prelude::*;
use std::alloc::Global;
use std::marker::PhantomData;

/// The name of an object identifier.
pub trait Named {
    ghost OID: { List ℕ };

    /// Its contents octets.
    fn octets() -> &'static [u8]
        ensures { result.now ≡ OID };

    ghost valid: { IsOid OID };
}

/// Whether these are the contents octets of the object identifier `N`.
pub(crate) fn is_named<N: Named>(octets: &[u8]) -> bool
    ensures { IsTrue result ↔ (octets.now ≡ N.OID) }
{
    let name = N::octets();
    // identifiers of one family differ in their last octet
    octets.last() == name.last() && octets == name
}

/// The object identifier `N`, and no other.
#[derive(Drop)]
pub struct OnlyOid<N>(PhantomData<N>);

impl<N> OnlyOid<N> {
    pub fn new() -> Self {
        OnlyOid(PhantomData)
    }
}

impl<N: Named> Leaf for OnlyOid<N> {
    ghost Value = { List ℕ };

    ghost value = { λ _. N.OID };

    ghost spelling = { verbatim (λ c. c ≡ N.OID) };

    ghost MayLackMemory = { ⊥ };

    fn from_contents(_alloc: Global, contents: &[u8]) -> Result<Self, Error> {
        if !is_named::<N>(contents) {
            return Err(Error::Invalid);
        }
        Ok(OnlyOid::new())
    }
}

impl<N: Named> DerSerialize for OnlyOid<N> {
    ghost Value = { List ℕ };

    ghost value = { λ _. N.OID };

    ghost format = { only_oid N.OID };

    fn put<W: Writer>(&self, w: &mut W) -> Result<(), WriteError> {
        put_element(0x06, N::octets(), w)
    }

    fn well_formed_at(&self, _limit: u8) -> bool {
        true
    }
}

impl<N: Named + Drop> DerDeserialize for OnlyOid<N> {
    fn read(alloc: Global, r: &mut Reader<'_>, nest: u8) -> Result<Self, Error> {
        read_leaf(alloc, r, nest, 0x06)
    }

    fn begins(tag: u8) -> bool {
        tag == 0x06
    }

    ghost lawful = { lawful_only_oid N.OID };
}

/// The body that follows the object identifier `N`.
#[derive(Drop)]
pub struct Alternative<N, R> {
    pub components: R,
    name: PhantomData<N>,
}

impl<N, R> Alternative<N, R> {
    pub fn new(components: R) -> Self
        ensures { result.components ≡ components }
    {
        Alternative {
            components,
            name: PhantomData,
        }
    }

    pub fn into_components(self) -> R
        ensures { result ≡ self.components }
    {
        self.components
    }
}

/// The alternative of one object identifier, or one of those that come after it.
impl<N: Named, R: WriteComponents, C: WriteChoice> WriteChoice for Either<Alternative<N, R>, C> {
    ghost Value = { R.Value ⊎ C.Value };

    ghost value = { λ x. elim x [ First a ↦ inl (R.value a.components) | Second c ↦ inr (C.value c) ] };

    ghost choice = { known N.OID R.format C.choice };

    fn oid(&self) -> &[u8] {
        match self {
            Either::First(_) => N::octets(),
            Either::Second(other) => other.oid(),
        }
    }

    fn put_choice<W: Writer>(&self, w: &mut W) -> Result<(), WriteError> {
        match self {
            Either::First(alternative) => Required(
                KnownOid(N::octets()),
                &alternative.components,
            ).put_components(w),
            Either::Second(other) => other.put_choice(w),
        }
    }

    fn choice_well_formed_at(&self, limit: u8) -> bool {
        match self {
            Either::First(alternative) => alternative.components.components_well_formed_at(limit),
            Either::Second(other) => {
                !is_named::<N>(other.oid()) && other.choice_well_formed_at(limit)
            }
        }
    }
}

impl<N: Named + Drop, R: ReadComponents, C: ReadChoice> ReadChoice
    for Either<Alternative<N, R>, C> {
    ghost distinct = { R.distinct && C.distinct };

    fn read_after(oid: &[u8], alloc: Global, r: &mut Reader<'_>, nest: u8) -> Result<Self, Error> {
        if is_named::<N>(oid) {
            let components = R::read_components(alloc, r, nest)?;
            return Ok(Either::First(Alternative::new(components)));
        }
        let other = C::read_after(oid, alloc, r, nest)?;
        Ok(Either::Second(other))
    }

    ghost lawful = { λ c. let p = and_parts R.distinct C.distinct c in lawful_known N.OID R.WriteComponents.format C.WriteChoice.choice (R.lawful p.0) (C.lawful p.1) };
}

/// Any other object identifier, which is kept, and what follows it.
#[derive(Drop)]
pub struct AnyOid<R>(pub ObjectIdentifier, pub R);

/// The same, borrowed, for writing.
#[derive(Drop)]
pub struct AnyOidRef<'a, R>(pub &'a ObjectIdentifier, pub R);

impl<R: WriteComponents> WriteChoice for AnyOid<R> {
    ghost Value = { List ℕ × R.Value };

    ghost value = { λ x. (octets_of x.0, R.value x.1) };

    ghost choice = { otherwise IsOid R.format };

    fn oid(&self) -> &[u8] {
        self.0.octets()
    }

    fn put_choice<W: Writer>(&self, w: &mut W) -> Result<(), WriteError> {
        Required(OidRef(&self.0), &self.1).put_components(w)
    }

    fn choice_well_formed_at(&self, limit: u8) -> bool {
        self.1.components_well_formed_at(limit)
    }
}

impl<R: ReadComponents> ReadChoice for AnyOid<R> {
    ghost distinct = { R.distinct };

    fn read_after(oid: &[u8], alloc: Global, r: &mut Reader<'_>, nest: u8) -> Result<Self, Error> {
        let kept = ObjectIdentifier::from_octets(alloc, oid)?;
        let components = R::read_components(alloc, r, nest)?;
        Ok(AnyOid(kept, components))
    }

    ghost lawful = { λ c. lawful_otherwise IsOid R.WriteComponents.format (R.lawful c) };
}

impl<R: WriteComponents> WriteChoice for AnyOidRef<'_, R> {
    ghost Value = { List ℕ × R.Value };

    ghost value = { λ x. (octets_of x.0.now, R.value x.1) };

    ghost choice = { otherwise IsOid R.format };

    fn oid(&self) -> &[u8] {
        self.0.octets()
    }

    fn put_choice<W: Writer>(&self, w: &mut W) -> Result<(), WriteError> {
        Required(OidRef(self.0), &self.1).put_components(w)
    }

    fn choice_well_formed_at(&self, limit: u8) -> bool {
        self.1.components_well_formed_at(limit)
    }
}
