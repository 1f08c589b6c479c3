//! A BIT STRING that is borrowed.

ghost use Rattle.std.specs.Prelude.{◌↔◌, IsTrue, List, ℕ};
ghost use Rattle.asn1_leaves.specs.Asn1.{BIT_STRING};
ghost use Rattle.asn1_leaves_strings.specs.Bits.{IsBits};

use asn1_core::prelude::*;

/// Whether they are the contents octets of a BIT STRING (X.690, 8.6.2). Unused bits may be any.
#[tactic(auto, using(crate::proofs::BitContents::none, crate::proofs::BitContents::alone, crate::proofs::BitContents::some))]
pub fn is_bits(octets: &[u8]) -> bool
    ensures { IsTrue result ↔ IsBits octets.now }
{
    match octets {
        [] => false,
        [unused] => *unused == 0,
        [unused, ..] => *unused <= 7,
    }
}

/// A BIT STRING of these contents octets.
#[derive(Clone, Copy)]
pub(crate) struct BitsRef<'a>(pub(crate) &'a [u8]);

impl DerSerialize for BitsRef<'_> {
    ghost Value = { List ℕ };

    ghost value = { λ x. x.0.now };

    ghost format = { BIT_STRING.format };

    fn put<W: Writer>(&self, w: &mut W) -> Result<(), WriteError> {
        put_element(0x03, self.0, w)
    }

    fn well_formed_at(&self, _limit: u8) -> bool {
        is_bits(self.0)
    }
}
