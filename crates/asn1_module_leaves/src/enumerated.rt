//! ENUMERATED (X.690, 8.4).

ghost use Rattle.std.specs.Prelude.{◌≡◌, ◌^◌, ℕ, List, true, MatchOption};
ghost use Rattle.std.proofs.Common.{rules};
ghost use Rattle.asn1_core_format.specs.Numbers.{numbers_below};
ghost use Rattle.asn1_module_leaves.specs.Asn1.{ENUMERATED};
ghost use Rattle.asn1_core_format.specs.Leaf.{GivesSpelled};
ghost use Rattle.asn1_module_leaves.specs.Enumerations.{IsNoneOf, IsOneOf, all_low, numbers_in};

use asn1_core_element::{Error, Reader};
use asn1_core_format::{Leaf, TaggedType, read_leaf_contents};
use asn1_core_writers::{WriteError, Writer, put_unsigned};
use std::alloc::Global;

/// A type for an ENUMERATED without an extension marker, whose numbers are below 256.
pub trait Enumerated: Drop {
    ghost numbers: { List ℕ };

    ghost number_of: { Self → ℕ };

    /// The value with that number, if there is one.
    fn from_number(number: u8) -> Option<Self>
        ensures { MatchOption result (IsNoneOf numbers number) (λ x. number_of x ≡ number) };

    fn number(&self) -> u8
        ensures { result ≡ number_of self.now };

    ghost low: { all_low numbers ≡ true };

    ghost listed: { (x : Self) → IsOneOf numbers (number_of x) };
}

/// The value whose number the contents octets of an ENUMERATED spell: each other number is refused.
pub fn enumerated_from_contents<T: Enumerated>(alloc: Global, contents: &[u8]) -> Result<T, Error>
    ensures { GivesSpelled T.number_of (numbers_in T.numbers) contents.now result }
{
    match u8::from_contents(alloc, contents) {
        Ok(number) => match T::from_number(number) {
            Some(value) => Ok(value),
            None => Err(Error::Invalid),
        },
        Err(error) => Err(error),
    }
}

/// `ENUMERATED`, by its number, which is below 256.
#[derive(Clone, Copy, Debug, PartialEq, Eq)]
pub struct EnumeratedAsn1(pub u8);

impl Leaf for EnumeratedAsn1 {
    ghost Value = { ℕ };

    ghost value = { λ x. x.0 };

    ghost spelling = { numbers_below (2 ^ 8) };

    fn from_contents(alloc: Global, contents: &[u8]) -> Result<Self, Error> {
        let number = u8::from_contents(alloc, contents)?;
        Ok(EnumeratedAsn1(number))
    }
}

impl TaggedType for EnumeratedAsn1 {
    ghost asn1 = { ENUMERATED };

    ghost value = { λ x. x.0 };

    ghost TAG = { 0x0A };

    const TAG: u8 = 0x0A;

    fn put_tagged<W: Writer>(&self, tag: u8, w: &mut W) -> Result<(), WriteError> {
        put_unsigned(tag, u32::from(self.0), w)
    }

    fn is_well_formed_at(&self, _limit: u8) -> bool {
        let _value = self.0;
        true
    }

    fn read_open_contents(alloc: Global, r: &mut Reader<'_>, nest: u8) -> Result<Self, Error> {
        read_leaf_contents(alloc, r, nest, 0x0A)
    }

    fn clone_value(&self, _alloc: Global) -> Result<Self, Error> {
        Ok(*self)
    }

    ghost tagged = { ENUMERATED.tagged };

    ghost equal = { Prim.search rules };
}
