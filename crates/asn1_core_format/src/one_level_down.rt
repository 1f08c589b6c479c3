//! What is inside a type that takes a nesting level.

ghost use Rattle.asn1_core_format.specs.Levels.{less};
ghost use Rattle.asn1_core_format.specs.laws.LevelLaws.{lawful_less};

use crate::traits::{DerDeserialize, DerSerialize};
use asn1_core_element::{Error, Reader};
use asn1_core_writers::{WriteError, Writer};
use std::alloc::Global;

/// A value that takes a nesting level, so that there is none where no level is left.
#[derive(Debug, Drop)]
pub struct OneLevelDown<T>(pub T);

impl<T: DerSerialize> DerSerialize for OneLevelDown<T> {
    ghost Value = { T.Value };

    ghost value = { λ x. T.value x.0 };

    ghost format = { less T.format };

    fn put<W: Writer>(&self, w: &mut W) -> Result<(), WriteError> {
        self.0.put(w)
    }

    fn well_formed_at(&self, limit: u8) -> bool {
        if limit == 0 {
            return false;
        }
        self.0.well_formed_at(limit - 1)
    }
}

impl<T: DerDeserialize> DerDeserialize for OneLevelDown<T> {
    fn read(alloc: Global, r: &mut Reader<'_>, nest: u8) -> Result<Self, Error> {
        if nest == 0 {
            return Err(Error::TooDeep);
        }
        let value = T::read(alloc, r, nest - 1)?;
        Ok(OneLevelDown(value))
    }

    fn begins(tag: u8) -> bool {
        T::begins(tag)
    }

    ghost lawful = { lawful_less T.DerSerialize.format T.lawful };
}
