//! BIT STRING (X.690, 8.6).

ghost use Rattle.std.specs.Prelude.{◌≡◌, ℕ, List, ◌++◌};
ghost use Rattle.std.proofs.Common.{rules};
ghost use Rattle.asn1_core_element.specs.Element.{element, retag};
ghost use Rattle.asn1_core_format.specs.Leaf.{verbatim};
ghost use Rattle.asn1_leaves.specs.Asn1.{BIT_STRING};
ghost use Rattle.asn1_leaves.specs.Strings.{bit_string};
ghost use Rattle.asn1_leaves_strings.specs.Bits.{IsBits};
ghost use Rattle.asn1_leaves_strings.specs.Octets.{contents_of};

use asn1_core_element::{Error, Reader};
use asn1_core_format::{Leaf, TaggedType, TryClone, read_leaf_contents};
use asn1_core_writers::{WriteError, Writer, put_head};
use asn1_leaves_strings::BitString;
use std::alloc::Global;

/// A BIT STRING as one element, with tag 0x03. Unused bits are kept as they are.
#[derive(Debug, Drop, PartialEq, Eq)]
pub struct BitStringAsn1(pub BitString);

impl Leaf for BitStringAsn1 {
    ghost Value = { List ℕ };

    ghost value = { λ b. contents_of b.0 };

    ghost spelling = { verbatim IsBits };

    fn from_contents(alloc: Global, contents: &[u8]) -> Result<Self, Error> {
        let Some((unused, bytes)) = contents.split_first() else {
            return Err(Error::Invalid);
        };
        let bytes = Vec::from_slice(alloc, bytes)?;
        let Some(bits) = BitString::from_parts(*unused, bytes) else {
            return Err(Error::Invalid);
        };
        Ok(BitStringAsn1(bits))
    }
}

/// Writes some octets and then others.
fn put_octets<W: Writer>(first: &[u8], then: &[u8], w: &mut W) -> Result<(), WriteError>
    requires { W.MayTake w.old }
    ensures { W.Takes (first.now ++ then.now) w.old w.new result }
{
    if W::is_backward() {
        w.bytes(then)?;
        w.bytes(first)
    } else {
        w.bytes(first)?;
        w.bytes(then)
    }
}

/// Writes an element whose contents are the count of unused bits and the bytes. That is also the encoding of any other
/// type with these contents, under this tag.
#[tactic(auto, using(asn1_core_element::specs::laws::ElementLaws::retag_element))]
fn put_bits<W: Writer>(tag: u8, bits: &BitString, w: &mut W) -> Result<(), WriteError>
    requires { W.MayTake w.old }
    ensures text { W.Takes (element tag (contents_of bits.now)) w.old w.new result }
    ensures retagged { (own : ℕ) → W.Takes (retag tag (element own (contents_of bits.now))) w.old w.new result }
{
    let unused = [bits.num_unused_bits()];
    let bytes = bits.payload();
    if W::is_backward() {
        put_octets(&unused, bytes, w)?;
        put_head(tag, 1 + bytes.len(), w)
    } else {
        put_head(tag, 1 + bytes.len(), w)?;
        put_octets(&unused, bytes, w)
    }
}

impl TaggedType for BitStringAsn1 {
    ghost asn1 = { BIT_STRING };

    ghost value = { λ b. contents_of b.0 };

    ghost TAG = { 0x03 };

    const TAG: u8 = 0x03;

    fn put_tagged<W: Writer>(&self, tag: u8, w: &mut W) -> Result<(), WriteError> {
        put_bits(tag, &self.0, w)
    }

    fn is_well_formed_at(&self, _limit: u8) -> bool {
        true
    }

    fn read_open_contents(alloc: Global, r: &mut Reader<'_>, nest: u8) -> Result<Self, Error> {
        read_leaf_contents(alloc, r, nest, 0x03)
    }

    fn clone_value(&self, alloc: Global) -> Result<Self, Error> {
        Ok(BitStringAsn1(self.0.try_clone(alloc)?))
    }

    ghost tagged = { BIT_STRING.tagged };

    ghost equal = { Prim.search rules };
}
