//! What a type that writes, and one that reads too, gives and promises.

ghost use Rattle.std.specs.Prelude.{◌≡◌, ◌↔◌, ◌+◌, ◌-◌, ◌^◌, ◌<◌, ◌≤◌, ◌++◌, ℕ, IsTrue, false, length, take, vec_capacity, MatchResult};
ghost use Rattle.asn1_core_element.specs.declared.error.Error.TheVariants.{TooLong};
ghost use Rattle.asn1_core_format.specs.Format.{Format, IsLawful, Gives};
ghost use Rattle.asn1_core_writers.specs.Sinks.{Emits, Sends};
ghost use Rattle.asn1_core_writers.specs.Texts.{Measures, Writes};

use asn1_core_element::{Error, Reader};
use asn1_core_streams::Sink;
use asn1_core_writers::{Backward, Buffered, Forward, Measure, SHORT, Short, WriteError, Writer};
use std::alloc::Global;
use std::mem;

/// The levels of nesting that `from_bytes` and `well_formed` allow.
pub const MAX_NESTING: u8 = 64;

/// A type with an encoding in DER.
pub trait DerSerialize {
    /// The values as contracts see them: what they contain, and not where it lies in memory.
    ghost Value: { Type 0 };

    ghost value: { Self → Value };

    /// What the values are written as and read from; of a type that only writes, without a grammar.
    ghost format: { Format Value };

    /// Writes the encoding, of ill-formed values too. All other writing is by this.
    fn put<W: Writer>(&self, w: &mut W) -> Result<(), WriteError>
        requires { W.MayTake w.old }
        ensures { W.Takes (format.text (value self.now)) w.old w.new result };

    /// Whether the value is well-formed with nesting of at most `limit` levels.
    fn well_formed_at(&self, limit: u8) -> bool
        ensures { IsTrue result ↔ format.IsWellFormed limit (value self.now) };

    /// Whether the value is well-formed, so that its encoding is read again.
    final fn well_formed(&self) -> bool
        ensures { IsTrue result ↔ format.IsWellFormed 64 (value self.now) }
    {
        self.well_formed_at(MAX_NESTING)
    }

    /// The length of the encoding. Refuses by `TooLong` alone, and takes no memory.
    final fn encoded_len(&self) -> Result<usize, Error>
        ensures { Measures (format.text (value self.now)) result }
    {
        let w = measured(self)?;
        Ok(w.total())
    }

    /// Appends the encoding, without a refusal where there is room for it. A refusal leaves the buffer's contents as
    /// they were. It is made to ask for memory once at most; no contract says so.
    final fn write(&self, alloc: Global, out: &mut Vec<u8>) -> Result<(), Error>
        ensures text { Writes (format.text (value self.now)) out.old.items (vec_capacity out.old) out.new.items result }
        ensures capacity { vec_capacity out.old ≤ vec_capacity out.new }
    {
        let w = measured(self)?;
        let size = w.total();
        let len = out.len();
        out.reserve(size)?;
        if size >= LONG && w.pieces() <= FEW {
            append(self, alloc, out);
        } else {
            out.resize(len + size, 0)?;
            fill(self, alloc, out);
        }
        Ok(())
    }

    /// Sends the encoding. Takes no memory. An encoding that is too long is not begun.
    ///
    /// An encoding of at most 16 KB is written into an array on the stack and sent in one write. Pieces of a longer one
    /// wait in an array of 4 KB, so that the sink gets them in few writes. Then a header is sent before what it holds,
    /// which is measured for it: what n headers enclose is measured n times, and once at first. So to send a long, deep
    /// value takes many times as long as `to_vec`, which measures all once.
    final fn emit<S: Sink>(&self, sink: &mut S) -> Result<(), WriteError>
        requires { S.failed sink.old < u64.MAX }
        ensures { Emits (format.text (value self.now)) sink.old sink.new (S.received sink.old) (S.received sink.new) (S.failed sink.old) (S.failed sink.new) result }
    {
        let Ok(size) = self.encoded_len() else {
            return Err(WriteError::TooLong);
        };
        if size <= SHORT {
            return send_short(self, sink);
        }
        let mut w = Buffered::new(sink);
        self.put(&mut w)?;
        w.flush()
    }
}

/// Sends a short encoding, which is written into an array at first.
fn send_short<T: DerSerialize, S: Sink>(value: &T, sink: &mut S) -> Result<(), WriteError>
    requires may { S.failed sink.old < u64.MAX }
    requires short { length (T.format.text (T.value value.now)) ≤ 16384 }
    ensures { Sends (T.format.text (T.value value.now)) (S.received sink.old) (S.received sink.new) (S.failed sink.old) (S.failed sink.new) result }
{
    let mut w = Short::new();
    match value.put(&mut w) {
        Ok(()) => {}
        Err(_) => unreachable!(),
    }
    sink.bytes(w.as_slice())
}

/// From so many bytes on, an encoding of few pieces is appended from its front, so that no zeros are written first.
const LONG: usize = 16_384;

/// At most so many pieces are few. They are measured again at each header above them.
const FEW: usize = 16;

/// Measures the encoding.
fn measured<T: DerSerialize>(value: &T) -> Result<Measure, Error>
    ensures { MatchResult result (λ w. w.total ≡ length (T.format.text (T.value value.now))) (λ e. (e ≡ TooLong) × (2 ^ 64 ≤ length (T.format.text (T.value value.now)))) }
{
    let mut w = Measure::new();
    match value.put(&mut w) {
        Ok(()) => Ok(w),
        Err(_) => Err(Error::TooLong),
    }
}

/// Writes the encoding after what the buffer holds, into its room.
fn append<T: DerSerialize>(value: &T, alloc: Global, out: &mut Vec<u8>)
    requires room { length out.old.items + length (T.format.text (T.value value.now)) ≤ vec_capacity out.old }
    requires fits { length (T.format.text (T.value value.now)) < 2 ^ 64 }
    ensures text { out.new.items ≡ out.old.items ++ T.format.text (T.value value.now) }
    ensures capacity { vec_capacity out.old ≤ vec_capacity out.new }
{
    let mut w = Forward::new(mem::replace(out, Vec::new(alloc)));
    match value.put(&mut w) {
        Ok(()) => {}
        Err(_) => unreachable!(),
    }
    *out = w.into_inner();
}

/// Writes the encoding over the end of the buffer.
fn fill<T: DerSerialize>(value: &T, alloc: Global, out: &mut Vec<u8>)
    requires { length (T.format.text (T.value value.now)) ≤ length out.old.items }
    ensures text { out.new.items ≡ take (length out.old.items - length (T.format.text (T.value value.now))) out.old.items ++ T.format.text (T.value value.now) }
    ensures capacity { vec_capacity out.new ≡ vec_capacity out.old }
{
    let mut w = Backward::new(mem::replace(out, Vec::new(alloc)));
    match value.put(&mut w) {
        Ok(()) => {}
        Err(_) => unreachable!(),
    }
    *out = w.into_inner();
}

/// A type that is read from DER, and written as what it was read from where that is canonical (normal).
pub trait DerDeserialize: DerSerialize + Drop {
    /// Reads a value from the front of what is left in the open contents, with at most `nest` levels. After a
    /// refusal nothing is promised of the reader's position.
    fn read(alloc: Global, r: &mut Reader<'_>, nest: u8) -> Result<Self, Error>
        requires { r.old.refused ≡ false }
        ensures { Gives Self.value Self.format nest r.old r.new result };

    /// Whether encodings may begin with that tag.
    fn begins(tag: u8) -> bool
        ensures { IsTrue result ↔ Self.format.IsTag tag };

    ghost lawful: { IsLawful Self.DerSerialize.format };
}

/// A reference to a value, as a part for writing.
#[derive(Drop)]
pub struct Ref<R>(pub R);

impl<T: DerSerialize> DerSerialize for Ref<&T> {
    ghost Value = { T.Value };

    ghost value = { λ x. T.value x.0.now };

    ghost format = { T.format };

    #[inline(always)]
    fn put<W: Writer>(&self, w: &mut W) -> Result<(), WriteError> {
        self.0.put(w)
    }

    fn well_formed_at(&self, limit: u8) -> bool {
        self.0.well_formed_at(limit)
    }
}
