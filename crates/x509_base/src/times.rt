//! Times (RFC 5280, 4.1.2.5).

ghost use Rattle.asn1_core_element.specs.declared.error.Error.TheVariants.{Memory};
ghost use Rattle.asn1_core.specs.Der.{Gives};
ghost use Rattle.std.specs.Prelude.{◌≡◌, ◌≢◌, false, IfErr};
ghost use Rattle.std.proofs.Common.{arith, ⊎_elim};
ghost use Rattle.x509_base.specs.Times.{time_equal, time, time_value};

use asn1_core::prelude::*;
use asn1_core_format::components::next_is;
use asn1_leaves::{GeneralizedTimeAsn1, UTCTimeAsn1};
use std::alloc::Global;

/// `Time ::= CHOICE { utcTime UTCTime, generalTime GeneralizedTime }`
#[derive(Debug, Drop, PartialEq, Eq)]
pub enum Time {
    Utc(UTCTimeAsn1),
    Generalized(GeneralizedTimeAsn1),
}

impl DerSerialize for Time {
    ghost Value = { time.Value };

    ghost value = { time_value };

    ghost format = { time.format };

    fn put<W: Writer>(&self, w: &mut W) -> Result<(), WriteError> {
        match self {
            Time::Utc(time) => time.put(w),
            Time::Generalized(time) => time.put(w),
        }
    }

    fn well_formed_at(&self, limit: u8) -> bool {
        match self {
            Time::Utc(time) => time.well_formed_at(limit),
            Time::Generalized(time) => time.well_formed_at(limit),
        }
    }
}

impl DerDeserialize for Time {
    /// Takes no memory.
    fn read(alloc: Global, r: &mut Reader<'_>, nest: u8) -> Result<Self, Error>
        requires { r.old.refused ≡ false }
        ensures gives { Gives time_value time.format nest r.old r.new result }
        ensures memory { IfErr result (λ e. e ≢ Memory) }
    {
        if next_is::<UTCTimeAsn1>(r) {
            let time = UTCTimeAsn1::read(alloc, r, nest)?;
            return Ok(Time::Utc(time));
        }
        let time = GeneralizedTimeAsn1::read(alloc, r, nest)?;
        Ok(Time::Generalized(time))
    }

    fn begins(tag: u8) -> bool {
        tag == 0x17 || tag == 0x18
    }

    ghost lawful = { time.law };
}

impl EqualByText for Time {
    ghost equal_by_text = { time_equal };
}

impl TryClone for Time {
    #[inline(always)]
    fn try_clone(&self, alloc: Global) -> Result<Self, Error> {
        match self {
            Time::Utc(time) => Ok(Time::Utc(time.try_clone(alloc)?)),
            Time::Generalized(time) => Ok(Time::Generalized(time.try_clone(alloc)?)),
        }
    }
}
