//! IA5String: characters of the International Alphabet No. 5, which are those of ASCII, in one octet each.

ghost use Rattle.std.specs.Prelude.{◌≡◌, ◌↔◌, ℕ, List, IsTrue};
ghost use Rattle.std.proofs.Common.{rules};
ghost use Rattle.asn1_leaves_strings.specs.Ia5.{IsIa5};
ghost use Rattle.asn1_leaves_strings.specs.CharSet.{TakesOctets};

use crate::char_set::CharSetError;
use asn1_core_element::Error;
use asn1_core_format::{TryClone, Viewed};
use std::alloc::Global;

/// Whether the octets are those of an IA5String.
#[tactic(auto, using(crate::proofs::Ia5Reads::ascii_ia5))]
pub fn is_ia5(octets: &[u8]) -> bool
    ensures { IsTrue result ↔ IsIa5 octets.now }
{
    octets.is_ascii()
}

/// An IA5String, as its contents octets.
#[derive(Debug, Drop, PartialEq, Eq)]
pub struct IA5String {
    octets: Vec<u8>,
    ghost of_set: { IsIa5 octets.items },
}

impl IA5String {
    ghost use Rattle.asn1_leaves_strings.specs.Octets.{octets_of_ia5};

    pub fn new(octets: Vec<u8>) -> Result<Self, CharSetError>
        ensures { TakesOctets IsIa5 octets_of_ia5 octets.items result }
    {
        if is_ia5(&octets) {
            Ok(IA5String { octets })
        } else {
            Err(CharSetError)
        }
    }

    pub fn as_bytes(&self) -> &[u8]
        ensures { result.now ≡ octets_of_ia5 self.now }
    {
        self.octets.as_slice()
    }
}

impl Viewed for IA5String {
    ghost use Rattle.asn1_leaves_strings.specs.Octets.{octets_of_ia5};

    ghost View = { List ℕ };

    ghost view = { octets_of_ia5 };

    ghost equal = { Prim.search rules };
}

impl TryClone for IA5String {
    fn try_clone(&self, alloc: Global) -> Result<Self, Error> {
        Ok(IA5String {
            octets: Vec::from_slice(alloc, self.as_bytes())?,
        })
    }
}
