//! BMPString: characters of the Basic Multilingual Plane, in two octets each.

ghost use Rattle.std.specs.Prelude.{◌≡◌, ◌↔◌, ℕ, List, IsTrue, MatchResult, string_bytes};
ghost use Rattle.std.proofs.Common.{rules};
ghost use Rattle.std.specs.List.{flat_map};
ghost use Rattle.std.specs.Str.{chars};
ghost use Rattle.asn1_core_element.specs.declared.error.Error.TheVariants.{Memory};
ghost use Rattle.asn1_leaves_strings.specs.Bmp.{IsBmp, IsBmpUnit, IsSurrogate, unit_octets};
ghost use Rattle.asn1_leaves_strings.specs.BmpLaws.{unit_of};
ghost use Rattle.asn1_leaves_strings.specs.BmpTexts.{IsOneUnit, HoldsUnits, WhyRefused};
ghost use Rattle.asn1_leaves_strings.specs.CharSet.{TakesOctets};

use crate::char_set::CharSetError;
use crate::string_error::StringError;
use asn1_core_element::Error;
use asn1_core_format::{TryClone, Viewed};
use std::alloc::Global;

fn is_surrogate(unit: u16) -> bool
    ensures { IsTrue result ↔ IsSurrogate unit }
{
    matches!(unit, 0xD800..=0xDFFF)
}

/// Whether the octets are those of a BMPString.
pub fn is_bmp(octets: &[u8]) -> bool
    ensures { IsTrue result ↔ IsBmp octets.now }
{
    let (pairs, odd) = octets.as_chunks::<2>();
    // no early end, so that many units are tested side by side
    let mut has_surrogate = false;
    for pair in pairs {
        has_surrogate |= is_surrogate(u16::from_be_bytes(*pair));
    }
    !has_surrogate && odd.is_empty()
}

/// A BMPString, as its contents octets: two for each character, the high one first.
#[derive(Debug, Drop, PartialEq, Eq)]
pub struct BmpString {
    octets: Vec<u8>,
    ghost of_set: { ∥ IsBmp octets.items ∥₁ },
}

/// The name as the ASN.1 type is written.
pub type BMPString = BmpString;

impl BmpString {
    ghost use Rattle.asn1_leaves_strings.specs.Octets.{octets_of_bmp};

    pub fn new(octets: Vec<u8>) -> Result<Self, CharSetError>
        ensures { TakesOctets IsBmp octets_of_bmp octets.items result }
    {
        if is_bmp(&octets) {
            Ok(BmpString { octets })
        } else {
            Err(CharSetError)
        }
    }

    pub fn as_bytes(&self) -> &[u8]
        ensures { result.now ≡ octets_of_bmp self.now }
    {
        self.octets.as_slice()
    }

    /// The string of a text, a unit for each character. Refuses a character above U+FFFF, and by `Memory`.
    pub fn from_text(alloc: Global, text: &str) -> Result<Self, StringError>
        ensures { MatchResult result (λ s. HoldsUnits (chars text.now) (octets_of_bmp s)) (WhyRefused (chars text.now)) }
    {
        let octets = units(alloc, text)?;
        Ok(BmpString { octets })
    }

    /// The text, a character for each unit. Refuses by `Memory` alone.
    pub fn to_text(&self, alloc: Global) -> Result<String, Error>
        ensures { MatchResult result (λ text. octets_of_bmp self.now ≡ flat_map unit_octets (chars (string_bytes text))) (λ e. e ≡ Memory) }
    {
        let mut text = String::new(alloc);
        let mut rest = self.as_bytes();
        while let [high, low, after @ ..] = rest {
            text.push(character_of(*high, *low))?;
            rest = after;
        }
        Ok(text)
    }
}

/// The octets of the characters, two for each.
fn units(alloc: Global, text: &str) -> Result<Vec<u8>, StringError>
    ensures { MatchResult result (λ v. HoldsUnits (chars text.now) v.items) (WhyRefused (chars text.now)) }
{
    let mut octets = Vec::new(alloc);
    for character in text.chars() {
        let Ok(unit) = unit_of(character) else {
            return Err(StringError::CharSet(CharSetError));
        };
        octets.extend_from_slice(&unit)?;
    }
    Ok(octets)
}

/// The two octets of a character, the high one first.
fn unit_of(character: char) -> Result<[u8; 2], CharSetError>
    ensures { MatchResult result (λ unit. (unit ≡ unit_octets character) × IsOneUnit character) (λ _. ¬ (IsOneUnit character)) }
{
    match u16::try_from(u32::from(character)) {
        Ok(unit) => Ok(unit.to_be_bytes()),
        Err(_) => Err(CharSetError),
    }
}

/// The character of two octets, the high one first.
fn character_of(high: u8, low: u8) -> char
    requires { IsBmpUnit (unit_of high low) }
    ensures { result ≡ unit_of high low }
{
    char::from_u32(u32::from(u16::from_be_bytes([high, low]))).unwrap()
}

impl Viewed for BmpString {
    ghost use Rattle.asn1_leaves_strings.specs.Octets.{octets_of_bmp};

    ghost View = { List ℕ };

    ghost view = { octets_of_bmp };

    ghost equal = { Prim.search rules };
}

impl TryClone for BmpString {
    fn try_clone(&self, alloc: Global) -> Result<Self, Error> {
        Ok(BmpString {
            octets: Vec::from_slice(alloc, self.as_bytes())?,
        })
    }
}
