//! Versions of which only one number is allowed.

ghost use Rattle.std.specs.Prelude.{ℕ};
ghost use Rattle.asn1_core.specs.Versions.{only, version};
ghost use Rattle.asn1_core.specs.laws.Versions.{lawful_version_0, lawful_version_1, lawful_version_3};

use asn1_core_element::{Error, Reader};
use asn1_core_format::{DerDeserialize, DerSerialize, Leaf, read_leaf};
use asn1_core_writers::{WriteError, Writer, put_unsigned};
use std::alloc::Global;

/// An INTEGER that holds `N`, the only version that is read. A type that holds its version in a field writes the field
/// itself, which may be any number.
#[derive(Drop)]
pub struct FixedVersion<const N: u8>;

impl<const N: u8> Leaf for FixedVersion<N> {
    ghost Value = { ℕ };

    ghost value = { λ _. N };

    ghost spelling = { only N };

    ghost MayLackMemory = { ⊥ };

    fn from_contents(alloc: Global, contents: &[u8]) -> Result<Self, Error> {
        let number = u8::from_contents(alloc, contents)?;
        if number != N {
            return Err(Error::Invalid);
        }
        Ok(FixedVersion)
    }
}

impl<const N: u8> DerSerialize for FixedVersion<N> {
    ghost Value = { ℕ };

    ghost value = { λ _. N };

    ghost format = { version N };

    fn put<W: Writer>(&self, w: &mut W) -> Result<(), WriteError> {
        put_unsigned(0x02, u32::from(N), w)
    }

    fn well_formed_at(&self, _limit: u8) -> bool {
        true
    }
}

impl DerDeserialize for FixedVersion<0> {
    fn read(alloc: Global, r: &mut Reader<'_>, nest: u8) -> Result<Self, Error> {
        read_leaf(alloc, r, nest, 0x02)
    }

    fn begins(tag: u8) -> bool {
        tag == 0x02
    }

    ghost lawful = { lawful_version_0 };
}

impl DerDeserialize for FixedVersion<1> {
    fn read(alloc: Global, r: &mut Reader<'_>, nest: u8) -> Result<Self, Error> {
        read_leaf(alloc, r, nest, 0x02)
    }

    fn begins(tag: u8) -> bool {
        tag == 0x02
    }

    ghost lawful = { lawful_version_1 };
}

impl DerDeserialize for FixedVersion<3> {
    fn read(alloc: Global, r: &mut Reader<'_>, nest: u8) -> Result<Self, Error> {
        read_leaf(alloc, r, nest, 0x02)
    }

    fn begins(tag: u8) -> bool {
        tag == 0x02
    }

    ghost lawful = { lawful_version_3 };
}
