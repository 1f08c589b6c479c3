//! Named bits of a BIT STRING (X.680, 22).

ghost use Rattle.std.specs.Prelude.{◌↔◌, IsTrue};
ghost use Rattle.asn1_leaves_strings.specs.Octets.{contents_of};
ghost use Rattle.asn1_module_leaves.specs.NamedBits.{HasBit};

use asn1_leaves::BitStringAsn1;

/// Whether the string has that bit and it is 1: zero bits at the end are left out (X.690, 11.2.2).
pub fn has_bit(bits: &BitStringAsn1, index: u16) -> bool
    ensures { IsTrue result ↔ HasBit (contents_of bits.now.0) index }
{
    let (index, unused) = (usize::from(index), usize::from(bits.0.num_unused_bits()));
    if (index + unused) / 8 < bits.0.payload().len() {
        bits.0.is_set(index)
    } else {
        false
    }
}
