//! Parts for writing that a caller has as octets: nothing is copied until the text is written.
#![tactic(auto)]

ghost use Rattle.std.specs.Prelude.{◌≡◌, ℕ, List, MatchResult};
ghost use Rattle.asn1_core.specs.Asn1.{IMPLICIT, OCTET_STRING};
ghost use Rattle.asn1_core.specs.Der.{sequence};
ghost use Rattle.asn1_core.specs.Raw.{raw};
ghost use Rattle.asn1_borrowed.specs.Written.{IsNotWritten};

use asn1_core::prelude::*;
use asn1_core::to_vec;
use asn1_core_element::front::front;
use std::alloc::Global;

/// An OCTET STRING of these octets.
#[derive(Clone, Copy)]
pub struct OctetsRef<'a>(pub &'a [u8]);

impl DerSerialize for OctetsRef<'_> {
    ghost Value = { List ℕ };

    ghost value = { λ x. x.0.now };

    ghost format = { OCTET_STRING.format };

    fn put<W: Writer>(&self, w: &mut W) -> Result<(), WriteError> {
        put_element(0x04, self.0, w)
    }

    fn well_formed_at(&self, _limit: u8) -> bool {
        true
    }
}

/// `[0] IMPLICIT OCTET STRING` of these octets.
#[derive(Clone, Copy)]
pub struct ImplicitTag0OctetsRef<'a>(pub &'a [u8]);

impl DerSerialize for ImplicitTag0OctetsRef<'_> {
    ghost Value = { List ℕ };

    ghost value = { λ x. x.0.now };

    ghost format = { (IMPLICIT 0 OCTET_STRING).format };

    fn put<W: Writer>(&self, w: &mut W) -> Result<(), WriteError> {
        put_element(0x80, self.0, w)
    }

    fn well_formed_at(&self, _limit: u8) -> bool {
        true
    }
}

/// An element, which is written as it is. It is well-formed where it is one; its contents aren't examined.
#[derive(Clone, Copy)]
pub struct ElementRef<'a>(pub &'a [u8]);

impl DerSerialize for ElementRef<'_> {
    ghost Value = { List ℕ };

    ghost value = { λ x. x.0.now };

    ghost format = { raw };

    fn put<W: Writer>(&self, w: &mut W) -> Result<(), WriteError> {
        w.bytes(self.0)
    }

    fn well_formed_at(&self, _limit: u8) -> bool {
        match front(self.0) {
            Some((_tag, len, size)) => size + len == self.0.len(),
            None => false,
        }
    }
}

/// A SEQUENCE of these components.
#[derive(Drop)]
pub struct Body<R>(pub R);

impl<R: WriteComponents> DerSerialize for Body<R> {
    ghost Value = { R.Value };

    ghost value = { λ x. R.value x.0 };

    ghost format = { sequence R.format };

    fn put<W: Writer>(&self, w: &mut W) -> Result<(), WriteError> {
        put_within(0x30, &self.0, w)
    }

    fn well_formed_at(&self, limit: u8) -> bool {
        self.0.components_well_formed_at(limit)
    }
}

/// The encoding of a well-formed value. Refuses what isn't by `Invalid`, and otherwise by `TooLong` or `Memory`.
pub fn write<T: DerSerialize>(alloc: Global, value: &T) -> Result<Vec<u8>, Error>
    ensures { MatchResult result
        (λ text. T.format.IsWellFormed 64 (T.value value.now) × (text.items ≡ T.format.text (T.value value.now)))
        (λ e. IsNotWritten T.format (T.value value.now) e) }
{
    if !value.well_formed() {
        return Err(Error::Invalid);
    }
    to_vec(alloc, value)
}
