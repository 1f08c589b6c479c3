//! A value under another tag than its own, as an alternative of a CHOICE is under an IMPLICIT tag.

ghost use Rattle.asn1_core_format.specs.Tagged.{implicit};

use asn1_core_format::{DerTagged, WriteComponents};
use asn1_core_writers::{WriteError, Writer};

/// A borrowed value, written with the tag byte TAG in place of its own.
#[derive(Drop)]
pub struct Under<const TAG: u8, R>(pub R);

impl<const TAG: u8, T: DerTagged> WriteComponents for Under<TAG, &T> {
    ghost Value = { T.Value };

    ghost value = { λ x. T.value x.0.now };

    ghost format = { implicit TAG T.TAG T.format };

    fn put_components<W: Writer>(&self, w: &mut W) -> Result<(), WriteError> {
        self.0.put_as(TAG, w)
    }

    fn components_well_formed_at(&self, limit: u8) -> bool {
        self.0.well_formed_at(limit)
    }
}
