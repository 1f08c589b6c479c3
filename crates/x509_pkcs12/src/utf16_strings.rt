//! BMPString with characters past U+FFFF, as most writers of PKCS #12 fill it.

ghost use Rattle.std.specs.Prelude.{◌≡◌, ℕ, List, MatchResult, string_bytes};
ghost use Rattle.std.specs.String.{IsUtf16Of};
ghost use Rattle.std.proofs.Common.{rules};
ghost use Rattle.asn1_core_element.specs.declared.error.Error.TheVariants.{Memory};
ghost use Rattle.asn1_core_format.specs.Leaf.{verbatim};
ghost use Rattle.x509_pkcs12.specs.Utf16.{units_of, IsUtf16, NoText, utf16_string};

use asn1_core::prelude::*;
use std::alloc::Global;

/// The contents octets of a BMPString that holds UTF-16, two for each unit, the high one first: a character past U+FFFF
/// is a pair of surrogates, which X.690 doesn't allow there. Read from the element with tag 0x1E; other contents are
/// `Error::Invalid`.
#[derive(Debug, Drop, PartialEq, Eq)]
pub struct Utf16String {
    octets: Vec<u8>,
    ghost of_set: { IsUtf16 octets.items },
}

impl Utf16String {
    ghost use Rattle.x509_pkcs12.specs.Utf16Octets.{octets_of_utf16};

    /// The contents octets.
    pub fn as_bytes(&self) -> &[u8]
        ensures { result.now ≡ octets_of_utf16 self.now }
    {
        self.octets.as_slice()
    }

    /// The text. Refuses by `Memory` alone.
    pub fn to_text(&self, alloc: Global) -> Result<String, Error>
        ensures { MatchResult result (λ text. IsUtf16Of (units_of (octets_of_utf16 self.now)) (string_bytes text)) (λ e. e ≡ Memory) }
    {
        text_of(alloc, self.as_bytes())
    }
}

/// The text of octets, where they are UTF-16. Refuses by `Invalid` where they aren't, and by `Memory`.
fn text_of(alloc: Global, octets: &[u8]) -> Result<String, Error>
    ensures { MatchResult result
        (λ text. IsUtf16 octets.now × IsUtf16Of (units_of octets.now) (string_bytes text))
        (λ e. NoText octets.now e) }
{
    if octets.len() % 2 != 0 {
        return Err(Error::Invalid);
    }
    let units = units_of(alloc, octets)?;
    match String::from_utf16(alloc, units.as_slice())? {
        Ok(text) => Ok(text),
        Err(_) => Err(Error::Invalid),
    }
}

/// The units, two octets each. Refuses by `Memory` alone.
fn units_of(alloc: Global, octets: &[u8]) -> Result<Vec<u16>, Error>
    ensures { MatchResult result (λ units. units.items ≡ units_of octets.now) (λ e. e ≡ Memory) }
{
    let mut units = Vec::new(alloc);
    let mut rest = octets;
    while let [high, low, after @ ..] = rest {
        units.push(u16::from_be_bytes([*high, *low]))?;
        rest = after;
    }
    Ok(units)
}

impl Leaf for Utf16String {
    ghost use Rattle.x509_pkcs12.specs.Utf16Octets.{octets_of_utf16};

    ghost Value = { List ℕ };

    ghost value = { octets_of_utf16 };

    ghost spelling = { verbatim IsUtf16 };

    fn from_contents(alloc: Global, contents: &[u8]) -> Result<Self, Error> {
        let _text = text_of(alloc, contents)?;
        let octets = Vec::from_slice(alloc, contents)?;
        Ok(Utf16String { octets })
    }
}

impl TaggedType for Utf16String {
    ghost use Rattle.x509_pkcs12.specs.Utf16Octets.{octets_of_utf16};

    ghost asn1 = { utf16_string };

    ghost value = { octets_of_utf16 };

    ghost TAG = { 0x1E };

    const TAG: u8 = 0x1E;

    fn put_tagged<W: Writer>(&self, tag: u8, w: &mut W) -> Result<(), WriteError> {
        put_element(tag, self.as_bytes(), w)
    }

    fn is_well_formed_at(&self, _limit: u8) -> bool {
        true
    }

    fn read_open_contents(alloc: Global, r: &mut Reader<'_>, nest: u8) -> Result<Self, Error> {
        read_leaf_contents(alloc, r, nest, 0x1E)
    }

    #[inline(always)]
    fn clone_value(&self, alloc: Global) -> Result<Self, Error> {
        Ok(Utf16String {
            octets: Vec::from_slice(alloc, self.as_bytes())?,
        })
    }

    ghost tagged = { utf16_string.tagged };

    ghost equal = { Prim.search rules };
}
