//! Numbers that are not negative, as INTEGERs.

ghost use Rattle.std.specs.Prelude.{◌≡◌, ◌≤◌, ℕ, drop};
ghost use Rattle.asn1_core_element.specs.Element.{element, retag};
ghost use Rattle.asn1_core_element.specs.Numbers.{integer_octets};

use crate::elements::put_element;
use crate::writer::{WriteError, Writer};

/// Puts the contents at the end of the bytes, and answers where they begin.
fn octets(n: u32, bytes: &mut [u8; 5]) -> usize
    ensures octets { drop result bytes.new ≡ integer_octets n }
    ensures high { result ≤ 5 }
{
    let mut at = 5;
    let mut rest = n;
    while rest >= 128 {
        at -= 1;
        bytes[at] = (rest % 256) as u8;
        rest /= 256;
    }
    at -= 1;
    bytes[at] = rest as u8;
    at
}

/// Writes an element with the contents of an INTEGER (X.690, 8.3). It is also what any other element with these
/// contents becomes under this tag.
pub fn put_unsigned<W: Writer>(tag: u8, n: u32, w: &mut W) -> Result<(), WriteError>
    requires { W.MayTake w.old }
    ensures text { W.Takes (element tag (integer_octets n)) w.old w.new result }
    ensures retagged { (own : ℕ) → W.Takes (retag tag (element own (integer_octets n))) w.old w.new result }
{
    let mut bytes = [0u8; 5];
    let at = octets(n, &mut bytes);
    put_element(tag, &bytes[at..], w)
}
