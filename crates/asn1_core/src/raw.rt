//! One element, whatever it is.

ghost use Rattle.std.specs.Prelude.{ℕ, List};
ghost use Rattle.asn1_core.specs.ViewsEqual.{raw_equal};
ghost use Rattle.asn1_core.specs.Raw.{raw};
ghost use Rattle.asn1_core.specs.laws.Raw.{lawful_raw};

use asn1_core_element::front::front;
use asn1_core_element::{Error, Reader};
use asn1_core_format::{DerDeserialize, DerSerialize, EqualByText, TryClone};
use asn1_core_writers::{WriteError, Writer};
use std::alloc::Global;

/// Any one element, kept as it is. Its contents aren't examined.
#[derive(Debug, Drop, PartialEq, Eq)]
pub struct Asn1RawDer(pub Vec<u8>);

impl DerSerialize for Asn1RawDer {
    ghost Value = { List ℕ };

    ghost value = { λ x. x.0.items };

    ghost format = { raw };

    fn put<W: Writer>(&self, w: &mut W) -> Result<(), WriteError> {
        w.bytes(self.0.as_slice())
    }

    fn well_formed_at(&self, _limit: u8) -> bool {
        match front(self.0.as_slice()) {
            Some((_tag, len, size)) => size + len == self.0.as_slice().len(),
            None => false,
        }
    }
}

impl DerDeserialize for Asn1RawDer {
    fn read(alloc: Global, r: &mut Reader<'_>, _nest: u8) -> Result<Self, Error> {
        let element = r.whole_element()?;
        Ok(Asn1RawDer(Vec::from_slice(alloc, element)?))
    }

    fn begins(tag: u8) -> bool {
        tag % 32 < 31
    }

    ghost lawful = { lawful_raw };
}

impl EqualByText for Asn1RawDer {
    ghost equal_by_text = { raw_equal };
}

impl TryClone for Asn1RawDer {
    fn try_clone(&self, alloc: Global) -> Result<Self, Error> {
        Ok(Asn1RawDer(Vec::from_slice(alloc, self.0.as_slice())?))
    }
}
