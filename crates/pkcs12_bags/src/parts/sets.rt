//! Sets of borrowed items.

ghost use Rattle.std.specs.Prelude.{List, map};
ghost use Rattle.asn1_core.specs.Der.{set_of};

use asn1_core::prelude::*;

/// `SET OF T`, of borrowed items, for writing.
#[derive(Drop)]
pub struct SetRef<'a, T>(pub &'a Vec<T>);

impl<T: DerSerialize> DerSerialize for SetRef<'_, T> {
    ghost Value = { List T.Value };

    ghost value = { λ x. map T.value x.0.now.items };

    ghost format = { set_of T.format };

    fn put<W: Writer>(&self, w: &mut W) -> Result<(), WriteError> {
        put_within(0x31, self.0, w)
    }

    fn well_formed_at(&self, limit: u8) -> bool {
        self.0.components_well_formed_at(limit)
    }
}
