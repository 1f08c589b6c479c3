//! The header at the front of some bytes: the tag and the length of an element.

ghost use Rattle.std.specs.Prelude.{◌≡◌, ◌<◌, ◌≤◌, ◌^◌, length, IfSome, IfNone};
ghost use Rattle.std.specs.Int.Digits.{number_from_digits};
ghost use Rattle.asn1_core_element.specs.Element.{IsFront, HasNoFront};

/// The number that the bytes write, the highest first.
fn number(digits: &[u8]) -> usize
    requires { length digits.now ≤ 8 }
    ensures { result ≡ number_from_digits 256 digits.now }
{
    let mut n = 0usize;
    for d in digits {
        n = n * 256 + *d as usize;
    }
    n
}

/// The tag and the length of the element at the front, and how many bytes both take. `None` where no whole
/// element is there.
pub fn front(bytes: &[u8]) -> Option<(u8, usize, usize)>
    ensures found { IfSome result (λ f. IsFront bytes.now f.0 f.1 f.2) }
    ensures none { IfNone result (HasNoFront bytes.now) }
{
    if bytes.len() < 2 {
        return None;
    }
    let tag = bytes[0];
    if tag % 32 == 31 {
        return None;
    }
    let first = bytes[1] as usize;
    if first < 128 {
        if bytes.len() - 2 < first {
            return None;
        }
        return Some((tag, first, 2));
    }
    let count = first - 128;
    if count == 0 || count > 8 || bytes.len() - 2 < count {
        return None;
    }
    if bytes[2] == 0 {
        return None;
    }
    let n = number(&bytes[2..2 + count]);
    if n < 128 || bytes.len() - 2 - count < n {
        return None;
    }
    Some((tag, n, 2 + count))
}
