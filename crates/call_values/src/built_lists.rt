//! Why no list is built.

ghost use Rattle.std.specs.Prelude.{◌≡◌};
ghost use Rattle.asn1_core_element.specs.declared.error.Error.TheVariants.{Memory};
ghost use Rattle.call_values.specs.BuiltLists.{at};
ghost use Rattle.call_values.specs.declared.built_lists.NoList.TheVariants.{NotWritten};

use crate::not_built::NotBuilt;
use asn1_core::Error;
use std::alloc::{AllocError, AllocFailed};

/// Why no list is built.
pub enum NoList {
    /// The item with that index has a part, with that number, that can't be written.
    Item(usize, usize),
    NotWritten(Error),
}

impl From<AllocError> for NoList {
    ghost from_gives = { λ _ r. r ≡ NotWritten Memory };

    fn from(_e: AllocError) -> NoList {
        NoList::NotWritten(Error::Memory)
    }
}

impl<T: Drop> From<AllocFailed<T>> for NoList {
    ghost from_gives = { λ _ r. r ≡ NotWritten Memory };

    fn from(_e: AllocFailed<T>) -> NoList {
        NoList::NotWritten(Error::Memory)
    }
}

/// The item with that index can't be written.
pub fn at(index: usize, wrong: NotBuilt) -> NoList
    ensures { result ≡ at index wrong }
{
    match wrong {
        NotBuilt::Part(number) => NoList::Item(index, number),
        NotBuilt::Refused(error) => NoList::NotWritten(error),
    }
}
