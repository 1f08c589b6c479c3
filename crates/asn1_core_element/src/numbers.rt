//! Numbers that are not negative, as the contents of an INTEGER.

ghost use Rattle.std.specs.Prelude.{◌≡◌, ◌≢◌, ℕ, ◌≤◌, length, MatchOption};
ghost use Rattle.std.specs.Int.Digits.{number_from_digits};
ghost use Rattle.asn1_core_element.specs.Numbers.{integer_octets};

/// The number that the octets write, the highest first.
fn number(octets: &[u8]) -> u64
    requires { length octets.now ≤ 5 }
    ensures { result ≡ number_from_digits 256 octets.now }
{
    let mut n = 0u64;
    for octet in octets {
        n = n * 256 + u64::from(*octet);
    }
    n
}

/// The number that the contents of an INTEGER hold (X.690, 8.3). `None` where they aren't those of an INTEGER,
/// or where the number is negative or above the limit.
pub fn unsigned(contents: &[u8], limit: u32) -> Option<u32>
    ensures { MatchOption result
        ((n : ℕ) → n ≤ limit → contents.now ≢ integer_octets n)
        (λ n. (n ≤ limit) × (contents.now ≡ integer_octets n)) }
{
    // four octets of a u32, and one for the sign
    if contents.is_empty() || contents.len() > 5 {
        return None;
    }
    if contents[0] >= 128 {
        return None;
    }
    if contents[0] == 0 && contents.len() > 1 && contents[1] < 128 {
        return None;
    }
    let n = number(contents);
    if n > u64::from(limit) {
        return None;
    }
    Some(n as u32)
}
