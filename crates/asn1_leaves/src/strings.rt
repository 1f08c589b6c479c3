//! BMPString, IA5String and UTF8String (X.690, 8.23). Contents outside the character set are refused by `Invalid`.

ghost use Rattle.std.specs.Prelude.{ℕ, List};
ghost use Rattle.std.specs.Str.{IsUtf8};
ghost use Rattle.std.proofs.Common.{rules};
ghost use Rattle.asn1_core_format.specs.Leaf.{verbatim};
ghost use Rattle.asn1_leaves.specs.Asn1.{BMP_STRING, IA5_STRING, UTF8_STRING};
ghost use Rattle.asn1_leaves_strings.specs.Bmp.{IsBmp};
ghost use Rattle.asn1_leaves_strings.specs.Ia5.{IsIa5};
ghost use Rattle.asn1_leaves_strings.specs.Octets.{octets_of_bmp, octets_of_ia5, octets_of_utf8};

use asn1_core_element::{Error, Reader};
use asn1_core_format::{Leaf, TaggedType, TryClone, read_leaf_contents};
use asn1_core_writers::{WriteError, Writer, put_element};
use asn1_leaves_strings::{BmpString, IA5String, Utf8String};
use std::alloc::Global;

/// A BMPString as one element, with tag 0x1E.
#[derive(Debug, Drop, PartialEq, Eq)]
pub struct BmpStringAsn1(pub BmpString);

/// The name as the ASN.1 type is written.
pub type BMPStringAsn1 = BmpStringAsn1;

impl Leaf for BmpStringAsn1 {
    ghost Value = { List ℕ };

    ghost value = { λ s. octets_of_bmp s.0 };

    ghost spelling = { verbatim IsBmp };

    fn from_contents(alloc: Global, contents: &[u8]) -> Result<Self, Error> {
        let octets = Vec::from_slice(alloc, contents)?;
        match BmpString::new(octets) {
            Ok(string) => Ok(BmpStringAsn1(string)),
            Err(_) => Err(Error::Invalid),
        }
    }
}

impl TaggedType for BmpStringAsn1 {
    ghost asn1 = { BMP_STRING };

    ghost value = { λ s. octets_of_bmp s.0 };

    ghost TAG = { 0x1E };

    const TAG: u8 = 0x1E;

    fn put_tagged<W: Writer>(&self, tag: u8, w: &mut W) -> Result<(), WriteError> {
        put_element(tag, self.0.as_bytes(), w)
    }

    #[tactic(auto, using(asn1_leaves_strings::specs::laws::StringLaws::bmp_octets))]
    fn is_well_formed_at(&self, _limit: u8) -> bool {
        true
    }

    fn read_open_contents(alloc: Global, r: &mut Reader<'_>, nest: u8) -> Result<Self, Error> {
        read_leaf_contents(alloc, r, nest, 0x1E)
    }

    fn clone_value(&self, alloc: Global) -> Result<Self, Error> {
        Ok(BmpStringAsn1(self.0.try_clone(alloc)?))
    }

    ghost tagged = { BMP_STRING.tagged };

    ghost equal = { Prim.search rules };
}

/// An IA5String as one element, with tag 0x16.
#[derive(Debug, Drop, PartialEq, Eq)]
pub struct IA5StringAsn1(pub IA5String);

impl Leaf for IA5StringAsn1 {
    ghost Value = { List ℕ };

    ghost value = { λ s. octets_of_ia5 s.0 };

    ghost spelling = { verbatim IsIa5 };

    fn from_contents(alloc: Global, contents: &[u8]) -> Result<Self, Error> {
        let octets = Vec::from_slice(alloc, contents)?;
        match IA5String::new(octets) {
            Ok(string) => Ok(IA5StringAsn1(string)),
            Err(_) => Err(Error::Invalid),
        }
    }
}

impl TaggedType for IA5StringAsn1 {
    ghost asn1 = { IA5_STRING };

    ghost value = { λ s. octets_of_ia5 s.0 };

    ghost TAG = { 0x16 };

    const TAG: u8 = 0x16;

    fn put_tagged<W: Writer>(&self, tag: u8, w: &mut W) -> Result<(), WriteError> {
        put_element(tag, self.0.as_bytes(), w)
    }

    fn is_well_formed_at(&self, _limit: u8) -> bool {
        true
    }

    fn read_open_contents(alloc: Global, r: &mut Reader<'_>, nest: u8) -> Result<Self, Error> {
        read_leaf_contents(alloc, r, nest, 0x16)
    }

    fn clone_value(&self, alloc: Global) -> Result<Self, Error> {
        Ok(IA5StringAsn1(self.0.try_clone(alloc)?))
    }

    ghost tagged = { IA5_STRING.tagged };

    ghost equal = { Prim.search rules };
}

/// A UTF8String as one element, with tag 0x0C.
#[derive(Debug, Drop, PartialEq, Eq)]
pub struct Utf8StringAsn1(pub Utf8String);

impl Leaf for Utf8StringAsn1 {
    ghost Value = { List ℕ };

    ghost value = { λ s. octets_of_utf8 s.0 };

    ghost spelling = { verbatim IsUtf8 };

    fn from_contents(alloc: Global, contents: &[u8]) -> Result<Self, Error> {
        let octets = Vec::from_slice(alloc, contents)?;
        match Utf8String::new(octets) {
            Ok(string) => Ok(Utf8StringAsn1(string)),
            Err(_) => Err(Error::Invalid),
        }
    }
}

impl TaggedType for Utf8StringAsn1 {
    ghost asn1 = { UTF8_STRING };

    ghost value = { λ s. octets_of_utf8 s.0 };

    ghost TAG = { 0x0C };

    const TAG: u8 = 0x0C;

    fn put_tagged<W: Writer>(&self, tag: u8, w: &mut W) -> Result<(), WriteError> {
        put_element(tag, self.0.as_bytes(), w)
    }

    #[tactic(auto, using(asn1_leaves_strings::specs::laws::StringLaws::utf8_octets))]
    fn is_well_formed_at(&self, _limit: u8) -> bool {
        true
    }

    fn read_open_contents(alloc: Global, r: &mut Reader<'_>, nest: u8) -> Result<Self, Error> {
        read_leaf_contents(alloc, r, nest, 0x0C)
    }

    fn clone_value(&self, alloc: Global) -> Result<Self, Error> {
        Ok(Utf8StringAsn1(self.0.try_clone(alloc)?))
    }

    ghost tagged = { UTF8_STRING.tagged };

    ghost equal = { Prim.search rules };
}
