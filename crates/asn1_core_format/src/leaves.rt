//! Types whose encoding is one element with no element inside.

ghost use Rattle.std.specs.Prelude.{◌≡◌, false, IfErr};
ghost use Rattle.asn1_core_element.specs.declared.error.Error.TheVariants.{Memory};
ghost use Rattle.asn1_core_element.specs.Element.{IsTagByte};
ghost use Rattle.asn1_core_format.specs.Format.{Gives};
ghost use Rattle.asn1_core_format.specs.Leaf.{Spelling, leaf, GivesSpelled};
ghost use Rattle.asn1_core_format.specs.Components.{GivesComponents};
ghost use Rattle.asn1_core_format.specs.Tagged.{inside};

use asn1_core_element::element::contents_of;
use asn1_core_element::{Error, Reader};
use std::alloc::Global;

/// A type whose values are spelled in the contents of an element.
pub trait Leaf: Drop {
    ghost Value: { Type 0 };

    ghost value: { Self → Value };

    ghost spelling: { Spelling Value };

    /// Whether reading may lack memory: of a type that takes none, it may not.
    ghost MayLackMemory: { Type 0 } = { Unit {0} };

    /// The value that the contents of an element spell.
    fn from_contents(alloc: Global, contents: &[u8]) -> Result<Self, Error>
        ensures spelled { GivesSpelled value spelling contents.now result }
        ensures memory { IfErr result (λ e. e ≡ Memory → MayLackMemory) };
}

/// Reads an element with that tag, whose contents spell the value.
pub fn read_leaf<T: Leaf>(alloc: Global, r: &mut Reader<'_>, _nest: u8, tag: u8) -> Result<T, Error>
    requires sound { r.old.refused ≡ false }
    requires tag { IsTagByte tag }
    ensures gives { Gives T.value (leaf tag T.spelling) _nest r.old r.new result }
    ensures memory { IfErr result (λ e. e ≡ Memory → T.MayLackMemory) }
{
    let contents = contents_of(r, tag)?;
    T::from_contents(alloc, contents)
}

/// Takes the open contents of an element with that tag, which spell the value.
pub fn read_leaf_contents<T: Leaf>(
    alloc: Global,
    r: &mut Reader<'_>,
    _nest: u8,
    _tag: u8,
) -> Result<T, Error>
    requires { r.old.refused ≡ false }
    ensures { GivesComponents T.value (inside _tag (leaf _tag T.spelling)) _nest r.old r.new result }
{
    let contents = r.contents(r.left());
    T::from_contents(alloc, contents)
}
