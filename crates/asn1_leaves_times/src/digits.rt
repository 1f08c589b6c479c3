//! Numbers below a hundred, as two decimal digits.

ghost use Rattle.std.specs.Prelude.{◌≡◌, ◌<◌, ◌++◌, MatchOption};
ghost use Rattle.asn1_leaves_times.specs.TimeContents.{two_digits};
ghost use Rattle.asn1_leaves_times.specs.Reading.{HasNoNumber};

pub fn two_digits(n: u8) -> [u8; 2]
    requires { n < 100 }
    ensures { result ≡ two_digits n }
{
    [b'0' + n / 10, b'0' + n % 10]
}

/// The number that the first two bytes write, and the bytes after them.
pub fn split_number(contents: &[u8]) -> Option<(u8, &[u8])>
    ensures { MatchOption result (HasNoNumber contents.now) (λ f. (f.0 < 100) × (contents.now ≡ two_digits f.0 ++ f.1.now)) }
{
    match contents {
        [tens, ones, rest @ ..] if tens.is_ascii_digit() && ones.is_ascii_digit() => {
            Some((10 * (*tens - b'0') + (*ones - b'0'), rest))
        }
        _ => None,
    }
}
