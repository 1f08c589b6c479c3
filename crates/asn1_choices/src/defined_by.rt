//! A SEQUENCE of an object identifier, which is kept, and of what it picks: `SEQUENCE { type OBJECT IDENTIFIER, value
//! ANY DEFINED BY type }` and the like, with the values that are known.

ghost use Rattle.std.specs.Prelude.{◌≡◌, List, ℕ, false};
ghost use Rattle.asn1_core.specs.Der.{IsLawful, Gives, GivesComponents, within, octets_of};
ghost use Rattle.asn1_core_format.specs.Tagged.{inside};
ghost use Rattle.asn1_choices.specs.DefinedBy.{DefinedBy, any_defined_by};
ghost use Rattle.asn1_choices.specs.DefinedByLaws.{IsDefinedBy};

use asn1_core::prelude::*;
use asn1_core_element::element::open_element;
use std::alloc::Global;

/// What follows an object identifier, to the end of the contents, and is picked by it.
pub trait AnyDefinedBy: Drop {
    ghost Value: { Type 0 };

    ghost value: { Self → Value };

    ghost defined_by: { DefinedBy Value };

    /// Reads what the object identifier with these contents octets picks.
    fn read_defined_by(
        alloc: Global,
        oid: &[u8],
        r: &mut Reader<'_>,
        nest: u8,
    ) -> Result<Self, Error>
        requires { r.old.refused ≡ false }
        ensures { GivesComponents value (defined_by.components oid.now) nest r.old r.new result };

    ghost lawful: { IsDefinedBy Self.AnyDefinedBy.defined_by };
}

/// An object identifier and what it picks.
#[derive(Drop)]
pub struct OidAnd<P>(pub ObjectIdentifierAsn1, pub P);

/// Reads an object identifier and what it picks, to the end of the open contents.
fn read_both<P: AnyDefinedBy>(
    alloc: Global,
    r: &mut Reader<'_>,
    nest: u8,
) -> Result<OidAnd<P>, Error>
    requires { r.old.refused ≡ false }
    ensures { GivesComponents (λ x. (octets_of x.0.0, P.value x.1)) (any_defined_by P.defined_by) nest r.old r.new result }
{
    let oid = ObjectIdentifierAsn1::read(alloc, r, nest)?;
    let value = P::read_defined_by(alloc, oid.0.octets(), r, nest)?;
    Ok(OidAnd(oid, value))
}

/// Reads a SEQUENCE of an object identifier and what it picks.
pub fn read_sequence_defined_by<P: AnyDefinedBy>(
    alloc: Global,
    r: &mut Reader<'_>,
    nest: u8,
) -> Result<OidAnd<P>, Error>
    requires { r.old.refused ≡ false }
    ensures { Gives (λ x. (octets_of x.0.0, P.value x.1)) (within 0x30 (any_defined_by P.defined_by)) nest r.old r.new result }
{
    let outer = open_element(r, 0x30)?;
    let both = read_both(alloc, r, nest)?;
    r.end(outer)?;
    Ok(both)
}

/// Reads an object identifier and what it picks, to the end of the open contents of a SEQUENCE.
pub fn read_inside_defined_by<P: AnyDefinedBy>(
    alloc: Global,
    r: &mut Reader<'_>,
    nest: u8,
) -> Result<OidAnd<P>, Error>
    requires { r.old.refused ≡ false }
    ensures { GivesComponents (λ x. (octets_of x.0.0, P.value x.1)) (inside 0x30 (within 0x30 (any_defined_by P.defined_by))) nest r.old r.new result }
{
    read_both(alloc, r, nest)
}

/// What an object identifier picks makes a lawful type.
pub fn sequences_defined_by_are_lawful<P: AnyDefinedBy>()
    ensures { IsLawful (within 0x30 (any_defined_by P.defined_by)) }
{}
