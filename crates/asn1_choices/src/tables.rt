//! Alternatives that a table lists, which all have the same body after their object identifiers.

ghost use Rattle.std.specs.Prelude.{◌≡◌, ◌⊎◌, ◌&&◌, Bool, None, MatchOption, true};
ghost use Rattle.std.proofs.Common.{inl, inr};
ghost use Rattle.std.proofs.lemmas.Bool.{and_parts};
ghost use Rattle.asn1_choices.specs.Tables.{Table, IsTable, among};
ghost use Rattle.asn1_choices.specs.laws.Tables.{lawful_among};
ghost use Rattle.asn1_choices.specs.declared.tables.Among.TheVariants.{Alternative, Other};

use crate::choices::{ReadChoice, WriteChoice};
use asn1_core::prelude::*;
use std::alloc::Global;

/// Kinds that are told apart by object identifiers.
pub trait OidTable: Copy {
    ghost table: { Table Self };

    /// The contents octets of its object identifier.
    fn octets(self) -> &'static [u8]
        ensures { result.now ≡ table.oid_of self };

    /// The kind with that object identifier.
    fn with_octets(octets: &[u8]) -> Option<Self>
        ensures { MatchOption result (table.alternative_of octets.now ≡ None) (λ kind. table.oid_of kind ≡ octets.now) };

    ghost is_table: { IsTable table };
}

/// A kind and the body that all kinds have, or an alternative that comes after them.
#[derive(Drop)]
pub enum Among<K, R, C> {
    Alternative(K, R),
    Other(C),
}

impl<K: OidTable, R: WriteComponents, C: WriteChoice> WriteChoice for Among<K, R, C> {
    ghost Value = { (K × R.Value) ⊎ C.Value };

    ghost value = { λ x. elim x [ Alternative kind components ↦ inl (kind, R.value components) | Other c ↦ inr (C.value c) ] };

    ghost choice = { among K.table R.format C.choice };

    fn oid(&self) -> &[u8] {
        match self {
            Among::Alternative(kind, _) => kind.octets(),
            Among::Other(other) => other.oid(),
        }
    }

    fn put_choice<W: Writer>(&self, w: &mut W) -> Result<(), WriteError> {
        match self {
            Among::Alternative(kind, components) => Required(
                KnownOid(kind.octets()),
                components,
            ).put_components(w),
            Among::Other(other) => other.put_choice(w),
        }
    }

    fn choice_well_formed_at(&self, limit: u8) -> bool {
        match self {
            Among::Alternative(_, components) => components.components_well_formed_at(limit),
            Among::Other(other) => {
                K::with_octets(other.oid()).is_none() && other.choice_well_formed_at(limit)
            }
        }
    }
}

impl<K: OidTable, R: ReadComponents, C: ReadChoice> ReadChoice for Among<K, R, C> {
    ghost distinct = { R.distinct && C.distinct };

    fn read_after(oid: &[u8], alloc: Global, r: &mut Reader<'_>, nest: u8) -> Result<Self, Error> {
        match K::with_octets(oid) {
            Some(kind) => {
                let components = R::read_components(alloc, r, nest)?;
                Ok(Among::Alternative(kind, components))
            }
            None => Ok(Among::Other(C::read_after(oid, alloc, r, nest)?)),
        }
    }

    ghost lawful = { λ c. let p = and_parts R.distinct C.distinct c in lawful_among K.table R.WriteComponents.format C.WriteChoice.choice K.is_table (R.lawful p.0) (C.lawful p.1) };
}
