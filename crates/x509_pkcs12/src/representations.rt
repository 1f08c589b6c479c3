//! How the data of an authenticated safe is kept.

ghost use Rattle.std.specs.Prelude.{◌≡◌, ◌↔◌, ◌<◌, ◌≤◌, IsTrue, vec_capacity};
ghost use Rattle.asn1_core.specs.Der.{Emits, Measures, Writes};

use asn1_core::Sink;
use asn1_core::prelude::*;
use std::alloc::Global;

/// A representation of the data of `authSafe`: what is read from the element in its OCTET STRING, and written as that
/// element. Callers see it as a `Repr`, which corresponds to it one to one.
pub trait AuthenticatedSafeDataRepr: DerDeserialize + Sized {
    /// What `Pfx` and `AuthenticatedSafeContentInfo` hold.
    type Repr: Eq + TryClone + Drop;

    ghost into: { Self → Self.Repr };

    ghost from: { Self.Repr → Self };

    fn into_repr(self) -> Self::Repr
        ensures { result ≡ into self };

    fn from_repr(repr: Self::Repr) -> Self
        ensures { result ≡ from repr };

    /// Writes the encoding of `from_repr(repr)`, of an ill-formed one too. All other writing is by this.
    fn put_repr<W: Writer>(repr: &Self::Repr, w: &mut W) -> Result<(), WriteError>
        requires { W.MayTake w.old }
        ensures { W.Takes (Self.format.text (Self.value (from repr.now))) w.old w.new result };

    /// Whether `from_repr(repr)` is well-formed with at most `limit` nesting levels.
    fn repr_well_formed_at(repr: &Self::Repr, limit: u8) -> bool
        ensures { IsTrue result ↔ Self.format.IsWellFormed limit (Self.value (from repr.now)) };

    /// The length of the encoding of `from_repr(repr)`. Refuses by `TooLong` alone, and takes no memory.
    final fn repr_len(repr: &Self::Repr) -> Result<usize, Error>
        ensures { Measures (Self.format.text (Self.value (from repr.now))) result }
    {
        ReprRef::<Self>(repr).encoded_len()
    }

    /// Appends the encoding of `from_repr(repr)`, without a refusal where there is room for it. A refusal leaves the
    /// buffer's contents as they were. It is made to ask for memory once at most; no clause says so.
    final fn write_repr(alloc: Global, repr: &Self::Repr, out: &mut Vec<u8>) -> Result<(), Error>
        ensures text { Writes (Self.format.text (Self.value (from repr.now))) out.old.items (vec_capacity out.old) out.new.items result }
        ensures capacity { vec_capacity out.old ≤ vec_capacity out.new }
    {
        ReprRef::<Self>(repr).write(alloc, out)
    }

    /// Sends the encoding of `from_repr(repr)`. Takes no memory. An encoding that is too long is not begun.
    final fn emit_repr<S: Sink>(repr: &Self::Repr, sink: &mut S) -> Result<(), WriteError>
        requires { S.failed sink.old < u64.MAX }
        ensures { Emits (Self.format.text (Self.value (from repr.now))) sink.old sink.new (S.received sink.old) (S.received sink.new) (S.failed sink.old) (S.failed sink.new) result }
    {
        ReprRef::<Self>(repr).emit(sink)
    }

    ghost there: { (x : Self.Repr) → into (from x) ≡ x };

    ghost back: { (x : Self) → from (into x) ≡ x };

    ghost seen: { (x y : Self.Repr) → (Self.Repr.view x ≡ Self.Repr.view y)
        ↔ (Self.DerSerialize.value (from x) ≡ Self.DerSerialize.value (from y)) };
}

/// The borrowed data of a representation, for writing.
#[derive(Drop)]
pub(crate) struct ReprRef<'a, R: AuthenticatedSafeDataRepr>(pub &'a R::Repr);

impl<R: AuthenticatedSafeDataRepr> DerSerialize for ReprRef<'_, R> {
    ghost Value = { R.Value };

    ghost value = { λ x. R.value (R.from x.0.now) };

    ghost format = { R.format };

    fn put<W: Writer>(&self, w: &mut W) -> Result<(), WriteError> {
        R::put_repr(self.0, w)
    }

    fn well_formed_at(&self, limit: u8) -> bool {
        R::repr_well_formed_at(self.0, limit)
    }
}
