//! Sets of exactly one item.

ghost use Rattle.std.proofs.Common.{arith};
ghost use Rattle.asn1_core.specs.Der.{within, lawful_within};

use asn1_core::prelude::*;
use std::alloc::Global;

/// `SET (SIZE (1)) OF T`
#[derive(Drop)]
pub struct SetOfOne<T>(pub T);

impl<T: DerSerialize> DerSerialize for SetOfOne<T> {
    ghost Value = { T.Value };

    ghost value = { λ x. T.value x.0 };

    ghost format = { within 0x31 T.format };

    fn put<W: Writer>(&self, w: &mut W) -> Result<(), WriteError> {
        put_within(0x31, &Alone(Ref(&self.0)), w)
    }

    fn well_formed_at(&self, limit: u8) -> bool {
        self.0.well_formed_at(limit)
    }
}

impl<T: DerDeserialize> DerDeserialize for SetOfOne<T> {
    fn read(alloc: Global, r: &mut Reader<'_>, nest: u8) -> Result<Self, Error> {
        let Only(value) = read_within::<Only<T>>(alloc, r, nest, 0x31)?;
        Ok(SetOfOne(value))
    }

    fn begins(tag: u8) -> bool {
        tag == 0x31
    }

    ghost lawful = { lawful_within T.DerSerialize.format T.lawful.components 0x31 (Prim.omega arith) };
}

/// One encoding that fills the contents. None and two are invalid.
#[derive(Drop)]
struct Only<T>(T);

impl<T: DerSerialize> WriteComponents for Only<T> {
    ghost Value = { T.Value };

    ghost value = { λ x. T.value x.0 };

    ghost format = { T.format };

    fn put_components<W: Writer>(&self, w: &mut W) -> Result<(), WriteError> {
        self.0.put(w)
    }

    fn components_well_formed_at(&self, limit: u8) -> bool {
        self.0.well_formed_at(limit)
    }
}

impl<T: DerDeserialize> ReadComponents for Only<T> {
    fn read_components(alloc: Global, r: &mut Reader<'_>, nest: u8) -> Result<Self, Error> {
        if r.left() == 0 {
            return Err(Error::Invalid);
        }
        let value = T::read(alloc, r, nest)?;
        if r.left() > 0 {
            return Err(Error::Invalid);
        }
        Ok(Only(value))
    }

    ghost lawful = { λ _. T.lawful.components };
}
