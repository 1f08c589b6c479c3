//! What the times say, as `==` and clones see it.

ghost use Rattle.asn1_leaves_times.specs.Times.{moment_of, moment_of_generalized};
ghost use Rattle.asn1_leaves_times.specs.laws.TimesLaws.{equal_utc, equal_generalized};
ghost use Rattle.asn1_leaves_times.specs.declared.calendar.Moment.{Moment};

use crate::{GeneralizedTime, UTCTime};
use asn1_core_element::Error;
use asn1_core_format::{TryClone, Viewed};
use std::alloc::Global;

impl Viewed for UTCTime {
    ghost View = { Moment };

    ghost view = { moment_of };

    ghost equal = { equal_utc };
}

impl TryClone for UTCTime {
    fn try_clone(&self, _alloc: Global) -> Result<Self, Error> {
        Ok(*self)
    }
}

impl Viewed for GeneralizedTime {
    ghost View = { Moment };

    ghost view = { moment_of_generalized };

    ghost equal = { equal_generalized };
}

impl TryClone for GeneralizedTime {
    fn try_clone(&self, _alloc: Global) -> Result<Self, Error> {
        Ok(*self)
    }
}
