//! UTF8String: characters of Unicode, in UTF-8.

ghost use Rattle.std.specs.Prelude.{◌≡◌, ◌↔◌, ℕ, List, IsTrue};
ghost use Rattle.std.proofs.Common.{rules};
ghost use Rattle.std.specs.Str.{IsUtf8};
ghost use Rattle.asn1_leaves_strings.specs.CharSet.{TakesOctets};

use crate::char_set::CharSetError;
use asn1_core_element::Error;
use asn1_core_format::{TryClone, Viewed};
use std::alloc::Global;

/// Whether the octets are UTF-8.
pub fn is_utf8(octets: &[u8]) -> bool
    ensures { IsTrue result ↔ IsUtf8 octets.now }
{
    str::from_utf8(octets).is_ok()
}

/// A UTF8String, as its contents octets.
#[derive(Debug, Drop, PartialEq, Eq)]
pub struct Utf8String {
    octets: Vec<u8>,
    ghost of_set: { ∥ IsUtf8 octets.items ∥₁ },
}

impl Utf8String {
    ghost use Rattle.asn1_leaves_strings.specs.Octets.{octets_of_utf8};

    pub fn new(octets: Vec<u8>) -> Result<Self, CharSetError>
        ensures { TakesOctets IsUtf8 octets_of_utf8 octets.items result }
    {
        if is_utf8(&octets) {
            Ok(Utf8String { octets })
        } else {
            Err(CharSetError)
        }
    }

    pub fn as_bytes(&self) -> &[u8]
        ensures { result.now ≡ octets_of_utf8 self.now }
    {
        self.octets.as_slice()
    }
}

impl Viewed for Utf8String {
    ghost use Rattle.asn1_leaves_strings.specs.Octets.{octets_of_utf8};

    ghost View = { List ℕ };

    ghost view = { octets_of_utf8 };

    ghost equal = { Prim.search rules };
}

impl TryClone for Utf8String {
    fn try_clone(&self, alloc: Global) -> Result<Self, Error> {
        Ok(Utf8String {
            octets: Vec::from_slice(alloc, self.as_bytes())?,
        })
    }
}
