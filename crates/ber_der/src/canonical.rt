//! Whether an input is DER in lengths and OCTET STRINGs, without memory.

ghost use Rattle.std.specs.Prelude.{◌↔◌, IsTrue, MatchOption};
ghost use Rattle.ber_der.specs.Der.{IsDer, AreDer, BeginsDer, BeginsNoDer};

use crate::contexts::{may_be_constructed, may_be_primitive};
use crate::convert::MAX_NESTING;
use asn1_core_element::front::front;

/// Whether the contents are elements of DER.
#[cycle(after_element)]
fn are_elements(contents: &[u8], nest: u8) -> bool
    ensures { IsTrue result ↔ AreDer (IsDer nest) contents.now }
{
    let mut rest = contents;
    while !rest.is_empty() {
        let Some(after) = after_element(rest, nest) else {
            return false;
        };
        rest = after;
    }
    true
}

/// What follows the element of DER at the front.
#[cycle(after_element)]
fn after_element(bytes: &[u8], nest: u8) -> Option<&[u8]>
    ensures { MatchOption result (BeginsNoDer nest bytes.now) (λ rest. BeginsDer nest bytes.now rest.now) }
{
    let Some((tag, len, size)) = front(bytes) else {
        return None;
    };
    let (contents, rest) = bytes[size..].split_at(len);
    if tag == 0 {
        return None;
    }
    if tag / 32 % 2 == 0 {
        if !may_be_primitive(tag, len) {
            return None;
        }
        return Some(rest);
    }
    if nest == 0 {
        return None;
    }
    if tag == 0x24 || !may_be_constructed(tag) {
        return None;
    }
    if !are_elements(contents, nest - 1) {
        return None;
    }
    Some(rest)
}

/// Whether the input is one encoding of BER, with at most `MAX_NESTING` levels of nesting, whose lengths are definite and
/// in the fewest octets (X.690, 10.1), and whose OCTET STRINGs are in one piece (10.2): one that `to_der` leaves as it is.
/// It refuses the tags, forms and lengths that `to_der` refuses. Nothing else of DER is asked, as of the order of a SET
/// (10.3) or of the octet of a BOOLEAN (11.1).
pub fn is_der(bytes: &[u8]) -> bool
    ensures { IsTrue result ↔ IsDer 64 bytes.now }
{
    match after_element(bytes, MAX_NESTING) {
        Some(rest) => rest.is_empty(),
        None => false,
    }
}
