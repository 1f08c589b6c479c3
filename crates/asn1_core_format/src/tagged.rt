//! Types with one tag, and their encodings under another.

ghost use Rattle.std.specs.Prelude.{◌≡◌, ◌<◌, ℕ, false};
ghost use Rattle.asn1_core_element.specs.Element.{IsTagByte, retag};
ghost use Rattle.asn1_core_format.specs.Format.{Gives};
ghost use Rattle.asn1_core_format.specs.Components.{GivesComponents};
ghost use Rattle.asn1_core_format.specs.Tagged.{IsTagged, inside, implicit, context_tag};
ghost use Rattle.asn1_core_writers.specs.Sinks.{Emits};

use crate::traits::DerDeserialize;
use asn1_core_element::element::open_element;
use asn1_core_element::{Error, Reader};
use asn1_core_streams::Sink;
use asn1_core_writers::{Buffered, WriteError, Writer};
use std::alloc::Global;

/// A type whose encodings are elements with one tag, so that an IMPLICIT tag may replace it.
pub trait DerTagged: DerDeserialize {
    ghost TAG: { ℕ };

    const TAG: u8;

    /// Writes the encoding, whose first byte becomes that tag.
    fn put_as<W: Writer>(&self, tag: u8, w: &mut W) -> Result<(), WriteError>
        requires { W.MayTake w.old }
        ensures { W.Takes (retag tag (Self.format.text (Self.value self.now))) w.old w.new result };

    /// Sends the encoding, whose first byte becomes that tag, as `emit` does.
    #[tactic(auto, using(asn1_core_element::specs::laws::ElementLaws::length_retag))]
    final fn emit_as<S: Sink>(&self, tag: u8, sink: &mut S) -> Result<(), WriteError>
        requires { S.failed sink.old < u64.MAX }
        ensures { Emits (retag tag (Self.format.text (Self.value self.now))) sink.old sink.new (S.received sink.old) (S.received sink.new) (S.failed sink.old) (S.failed sink.new) result }
    {
        if self.encoded_len().is_err() {
            return Err(WriteError::TooLong);
        }
        let mut w = Buffered::new(sink);
        self.put_as(tag, &mut w)?;
        w.flush()
    }

    /// Reads the open contents to their end, as those of an element with that tag.
    fn read_contents(alloc: Global, r: &mut Reader<'_>, nest: u8) -> Result<Self, Error>
        requires { r.old.refused ≡ false }
        ensures { GivesComponents Self.value (inside TAG Self.format) nest r.old r.new result };

    ghost tagged: { IsTagged TAG Self.DerSerialize.format };
}

/// Reads an element with that tag, whose contents are those of an element of `T`.
pub fn read_retagged<T: DerTagged>(
    alloc: Global,
    r: &mut Reader<'_>,
    nest: u8,
    tag: u8,
) -> Result<T, Error>
    requires sound { r.old.refused ≡ false }
    requires tag { IsTagByte tag }
    ensures { Gives T.value (implicit tag T.TAG T.format) nest r.old r.new result }
{
    let outer = open_element(r, tag)?;
    let value = T::read_contents(alloc, r, nest)?;
    r.end(outer)?;
    Ok(value)
}

/// The tag `[n]` in place of a type's own, which keeps the constructed bit.
pub fn context_tag_of<T: DerTagged>(n: u8) -> u8
    requires { n < 31 }
    ensures same { result ≡ context_tag n T.TAG }
    ensures tag { IsTagByte result }
{
    128 + n + 32 * (T::TAG / 32 % 2)
}
