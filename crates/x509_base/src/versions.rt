//! The version of certificates and of lists of them (RFC 5280, 4.1.2.1).

ghost use Rattle.std.specs.Prelude.{◌≡◌, ◌≢◌, ℕ, false, IfErr};
ghost use Rattle.asn1_core_element.specs.declared.error.Error.TheVariants.{Memory};
ghost use Rattle.asn1_core.specs.Der.{Gives, numbers_below};
ghost use Rattle.x509_base.specs.Versions.{version_equal, version_value, version};

use asn1_core::prelude::*;
use asn1_core_element::unsigned;
use std::alloc::Global;

/// `Version ::= INTEGER { v1(0), v2(1), v3(2) }`
#[derive(Clone, Copy, Debug, PartialEq, Eq)]
pub enum Version {
    V1,
    V2,
    V3,
}

impl Leaf for Version {
    ghost Value = { ℕ };

    ghost value = { version_value };

    ghost spelling = { numbers_below 3 };

    ghost MayLackMemory = { ⊥ };

    fn from_contents(_alloc: Global, contents: &[u8]) -> Result<Self, Error> {
        match unsigned(contents, 2) {
            Some(0) => Ok(Version::V1),
            Some(1) => Ok(Version::V2),
            Some(2) => Ok(Version::V3),
            _ => Err(Error::Invalid),
        }
    }
}

impl DerSerialize for Version {
    ghost Value = { version.Value };

    ghost value = { version_value };

    ghost format = { version.format };

    fn put<W: Writer>(&self, w: &mut W) -> Result<(), WriteError> {
        let number = match self {
            Version::V1 => 0,
            Version::V2 => 1,
            Version::V3 => 2,
        };
        put_unsigned(0x02, number, w)
    }

    fn well_formed_at(&self, _limit: u8) -> bool {
        true
    }
}

impl DerDeserialize for Version {
    /// Takes no memory.
    fn read(alloc: Global, r: &mut Reader<'_>, nest: u8) -> Result<Self, Error>
        requires { r.old.refused ≡ false }
        ensures gives { Gives version_value version.format nest r.old r.new result }
        ensures memory { IfErr result (λ e. e ≢ Memory) }
    {
        read_leaf(alloc, r, nest, 0x02)
    }

    fn begins(tag: u8) -> bool {
        tag == 0x02
    }

    ghost lawful = { version.law };
}

impl EqualByText for Version {
    ghost equal_by_text = { version_equal };
}

impl TryClone for Version {
    #[inline(always)]
    fn try_clone(&self, _alloc: Global) -> Result<Self, Error> {
        Ok(*self)
    }
}
