//! BIT STRING.

ghost use Rattle.std.specs.Prelude.{◌≡◌, ◌↔◌, ℕ, ◌<◌, List, ◌∷◌, IsTrue, MatchOption, MatchResult};
ghost use Rattle.std.proofs.Common.{rules};
ghost use Rattle.asn1_leaves_strings.specs.Bits.{IsBits, bit_count, bit, byte_with, with_bit, SetsBit, IsAllZero};
ghost use Rattle.asn1_core_element.specs.declared.error.Error.TheVariants.{Memory};

use asn1_core_element::Error;
use asn1_core_format::{TryClone, Viewed};
use std::alloc::Global;

/// The byte with bit `k`, counted from the lowest on, made 1 where `value` is true, and else 0.
#[tactic(auto, using(crate::proofs::BitWrites::byte_set, crate::proofs::BitWrites::byte_cleared))]
fn byte_with(byte: u8, k: usize, value: bool) -> u8
    requires { k < 8 }
    ensures { result ≡ byte_with byte k value }
{
    let mask = 1u8 << k;
    if value { byte | mask } else { byte & !mask }
}

/// A string of bits, as its bytes and the count of those bits of the last byte that are no part of it.
///
/// Bit 0 is the highest bit of the first byte (X.690, 8.6.2.1). Unused bits are kept as they are, so two strings
/// that differ in these alone are not equal.
#[derive(Debug, Drop, PartialEq, Eq)]
pub struct BitString {
    unused: u8,
    bytes: Vec<u8>,
    ghost well_formed: { IsBits (unused ∷ bytes.items) },
}

impl BitString {
    ghost use Rattle.asn1_leaves_strings.specs.Octets.{contents_of, unused_of, bytes_of};

    /// A string of `n` bits, all 0, as are the unused bits.
    pub fn with_len(alloc: Global, n: usize) -> Result<Self, Error>
        ensures { MatchResult result
            (λ b. (bit_count (contents_of b) ≡ n) × IsAllZero (bytes_of b))
            (λ e. e ≡ Memory) }
    {
        let unused = (8 - n % 8) % 8;
        Ok(BitString {
            unused: unused as u8,
            bytes: vec![in alloc; 0; n.div_ceil(8)]?,
        })
    }

    /// The string of all bits of the bytes.
    pub fn with_bytes(bytes: Vec<u8>) -> Self
        ensures { contents_of result ≡ 0 ∷ bytes.items }
    {
        BitString { unused: 0, bytes }
    }

    /// The string with these contents octets: the count of unused bits, and the bytes. `None` where the count is above
    /// 7, or isn't 0 though there are no bytes (X.690, 8.6.2.2 and 8.6.2.3).
    pub fn from_parts(unused: u8, bytes: Vec<u8>) -> Option<Self>
        ensures { let contents = unused ∷ bytes.items in
            MatchOption result (¬ (IsBits contents)) (λ b. (contents_of b ≡ contents) × IsBits contents) }
    {
        if unused > 7 || (unused > 0 && bytes.is_empty()) {
            return None;
        }
        Some(BitString { unused, bytes })
    }

    /// Makes the bit 1 where `value` is true, and else 0. All other bits, unused ones too, stay as they are.
    #[tactic(auto, using(crate::proofs::BitWrites::written))]
    pub fn set(&mut self, index: usize, value: bool)
        requires { index < bit_count (contents_of self.old) }
        ensures unused { unused_of self.new ≡ unused_of self.old }
        ensures bytes { bytes_of self.new ≡ with_bit (bytes_of self.old) index value }
        ensures bits { SetsBit (bytes_of self.old) (bytes_of self.new) index value }
    {
        let byte = self.bytes[index / 8];
        self.bytes[index / 8] = byte_with(byte, 7 - index % 8, value);
    }

    pub fn is_set(&self, index: usize) -> bool
        requires { index < bit_count (contents_of self.now) }
        ensures { IsTrue result ↔ (bit (bytes_of self.now) index ≡ 1) }
    {
        (self.bytes[index / 8] >> (7 - index % 8)) & 1 == 1
    }

    /// The bytes, without the count of unused bits that precedes them in the contents octets.
    pub fn payload(&self) -> &[u8]
        ensures { result.now ≡ bytes_of self.now }
    {
        self.bytes.as_slice()
    }

    pub fn num_unused_bits(&self) -> u8
        ensures { result ≡ unused_of self.now }
    {
        self.unused
    }
}

impl Viewed for BitString {
    ghost use Rattle.asn1_leaves_strings.specs.Octets.{contents_of};

    ghost View = { List ℕ };

    ghost view = { contents_of };

    ghost equal = { Prim.search rules };
}

impl TryClone for BitString {
    fn try_clone(&self, alloc: Global) -> Result<Self, Error> {
        Ok(BitString {
            unused: self.unused,
            bytes: Vec::from_slice(alloc, self.payload())?,
        })
    }
}
