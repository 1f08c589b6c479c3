//! The version of a CMS type (RFC 5652, 10.2.5).

ghost use Rattle.std.specs.Prelude.{◌≡◌, ◌≢◌, ◌<◌, ℕ, false, IfErr, MatchOption};
ghost use Rattle.std.proofs.Common.{rules};
ghost use Rattle.asn1_core_element.specs.declared.error.Error.TheVariants.{Memory};
ghost use Rattle.asn1_core.specs.Der.{Gives, numbers_below, number_below, lawful_number};
ghost use Rattle.pkcs7_content.specs.Versions.{number_of};

use asn1_core::prelude::*;
use asn1_core_element::unsigned;
use std::alloc::Global;

/// `CMSVersion ::= INTEGER { v0(0), v1(1), v2(2), v3(3), v4(4), v5(5) }`
#[derive(Clone, Copy, Debug, PartialEq, Eq)]
#[repr(u8)]
pub enum CmsVersion {
    V0,
    V1,
    V2,
    V3,
    V4,
    V5,
}

impl CmsVersion {
    /// The version with that number. Takes no memory.
    pub fn from_u8(number: u8) -> Option<Self>
        ensures { MatchOption result (5 < number) (λ v. number_of v ≡ number) }
    {
        match number {
            0 => Some(CmsVersion::V0),
            1 => Some(CmsVersion::V1),
            2 => Some(CmsVersion::V2),
            3 => Some(CmsVersion::V3),
            4 => Some(CmsVersion::V4),
            5 => Some(CmsVersion::V5),
            _ => None,
        }
    }

    fn number(self) -> u8
        ensures { result ≡ number_of self }
    {
        self as u8
    }
}

impl Leaf for CmsVersion {
    ghost Value = { ℕ };

    ghost value = { number_of };

    ghost spelling = { numbers_below 6 };

    ghost MayLackMemory = { ⊥ };

    fn from_contents(_alloc: Global, contents: &[u8]) -> Result<Self, Error> {
        match unsigned(contents, 5) {
            // a number up to 5 has a version, so `ok_or` refuses none
            Some(number) => CmsVersion::from_u8(number as u8).ok_or(Error::Invalid),
            None => Err(Error::Invalid),
        }
    }
}

impl DerSerialize for CmsVersion {
    ghost Value = { ℕ };

    ghost value = { number_of };

    ghost format = { number_below 6 };

    fn put<W: Writer>(&self, w: &mut W) -> Result<(), WriteError> {
        put_unsigned(0x02, u32::from(self.number()), w)
    }

    fn well_formed_at(&self, _limit: u8) -> bool {
        true
    }
}

impl DerDeserialize for CmsVersion {
    /// Takes no memory.
    fn read(alloc: Global, r: &mut Reader<'_>, nest: u8) -> Result<Self, Error>
        requires { r.old.refused ≡ false }
        ensures gives { Gives number_of (number_below 6) nest r.old r.new result }
        ensures memory { IfErr result (λ e. e ≢ Memory) }
    {
        read_leaf(alloc, r, nest, 0x02)
    }

    fn begins(tag: u8) -> bool {
        tag == 0x02
    }

    ghost lawful = { lawful_number 6 };
}

impl EqualByText for CmsVersion {
    ghost equal_by_text = { Prim.search rules };
}

impl TryClone for CmsVersion {
    #[inline(always)]
    fn try_clone(&self, _alloc: Global) -> Result<Self, Error> {
        Ok(*self)
    }
}
