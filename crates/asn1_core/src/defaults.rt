//! Numbers with a DEFAULT (X.680, 25.5).

ghost use Rattle.std.specs.Prelude.{◌^◌};
ghost use Rattle.std.proofs.Common.{arith, rules};
ghost use Rattle.asn1_core_format.specs.Asn1.{INTEGER_BELOW};
ghost use Rattle.asn1_core.specs.Defaults.{number_octets};
ghost use Rattle.asn1_core.specs.laws.Defaults.{number_left_out, is_default_number};

use asn1_core_element::{Error, Reader};
use asn1_core_format::{DefaultType, DerSerialize, DerTagged, TaggedType};
use asn1_core_writers::{WriteError, Writer};
use std::alloc::Global;

/// `INTEGER (0..255) DEFAULT D`
#[derive(Clone, Copy, Debug, PartialEq, Eq)]
pub struct DefaultNumber<const D: u8>(pub u8);

impl<const D: u8> TaggedType for DefaultNumber<D> {
    ghost asn1 = { INTEGER_BELOW (2 ^ 8) };

    ghost value = { λ x. x.0 };

    ghost TAG = { 0x02 };

    const TAG: u8 = 0x02;

    fn put_tagged<W: Writer>(&self, tag: u8, w: &mut W) -> Result<(), WriteError> {
        self.0.put_as(tag, w)
    }

    fn is_well_formed_at(&self, limit: u8) -> bool {
        self.0.well_formed_at(limit)
    }

    fn read_open_contents(alloc: Global, r: &mut Reader<'_>, nest: u8) -> Result<Self, Error> {
        let number = u8::read_contents(alloc, r, nest)?;
        Ok(DefaultNumber(number))
    }

    fn clone_value(&self, _alloc: Global) -> Result<Self, Error> {
        Ok(*self)
    }

    ghost tagged = { (INTEGER_BELOW (2 ^ 8)).tagged };

    ghost equal = { Prim.search rules };
}

impl<const D: u8> DefaultType for DefaultNumber<D> {
    ghost ABSENT = { number_octets D };

    #[tactic(auto, using(crate::specs::laws::Defaults::is_default_number))]
    fn is_absent(&self) -> bool {
        self.0 == D
    }

    fn when_absent(_alloc: Global) -> Result<Self, Error> {
        Ok(DefaultNumber(D))
    }

    ghost absent_law = { number_left_out D (Prim.omega arith) };
}
