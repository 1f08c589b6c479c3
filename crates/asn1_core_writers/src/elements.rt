//! One element, written.

ghost use Rattle.std.specs.Prelude.{◌≡◌, ◌≤◌, ℕ, drop};
ghost use Rattle.std.specs.Int.Digits.{digits_of};
ghost use Rattle.asn1_core_element.specs.Element.{element, head, retag};

use crate::writer::{WriteError, Writer};

/// Puts the digits at the end of the bytes, and answers where they begin.
fn digits(n: usize, bytes: &mut [u8; 10]) -> usize
    ensures digits { drop result bytes.new ≡ digits_of 256 n }
    ensures low { 2 ≤ result }
    ensures high { result ≤ 10 }
{
    let mut at = 10;
    let mut rest = n;
    while rest > 0 {
        at -= 1;
        bytes[at] = (rest % 256) as u8;
        rest /= 256;
    }
    at
}

/// Writes a tag, and the length of the contents in the fewest octets (X.690, 8.1 and 10.1).
pub fn put_head<W: Writer>(tag: u8, len: usize, w: &mut W) -> Result<(), WriteError>
    requires { W.MayTake w.old }
    ensures { W.Takes (head tag len) w.old w.new result }
{
    if len < 128 {
        return w.bytes(&[tag, len as u8]);
    }
    let mut bytes = [0u8; 10];
    let at = digits(len, &mut bytes);
    let count = 10 - at;
    bytes[at - 1] = 128 + count as u8;
    bytes[at - 2] = tag;
    w.bytes(&bytes[at - 2..])
}

/// Writes an element. It is also what any other element with these contents becomes under this tag.
#[tactic(auto, using(asn1_core_element::specs::laws::ElementLaws::retag_element))]
pub fn put_element<W: Writer>(tag: u8, contents: &[u8], w: &mut W) -> Result<(), WriteError>
    requires { W.MayTake w.old }
    ensures text { W.Takes (element tag contents.now) w.old w.new result }
    ensures retagged { (own : ℕ) → W.Takes (retag tag (element own contents.now)) w.old w.new result }
{
    if W::is_backward() {
        w.bytes(contents)?;
        put_head(tag, contents.len(), w)
    } else {
        put_head(tag, contents.len(), w)?;
        w.bytes(contents)
    }
}
