//! Names in UTF-16, as octets.

ghost use Rattle.std.specs.Prelude.{◌≡◌, ◌↔◌, ℕ, IsTrue, List};
ghost use Rattle.std.specs.Char.Utf16.{is_high_surrogate, is_low_surrogate};
ghost use Rattle.x509_pkcs12.specs.Utf16.{IsUtf16, utf16_string};

use asn1_core::prelude::*;

/// Whether a unit is the partner of the one before, where that waits for it, or needs none before it.
#[tactic(auto, using(crate::proofs::Surrogates::is_partner, crate::proofs::Surrogates::needs_none))]
fn may_follow(waits: bool, unit: u16) -> bool
    ensures { IsTrue result ↔ (is_low_surrogate unit ≡ waits) }
{
    let is_low = (0xDC00..0xE000).contains(&unit);
    if waits { is_low } else { !is_low }
}

/// Whether a unit is the first of a pair.
fn is_high(unit: u16) -> bool
    ensures { result ≡ is_high_surrogate unit }
{
    (0xD800..0xDC00).contains(&unit)
}

/// Whether octets are UTF-16, two octets for each unit, the high one first: whole units, of which each surrogate has its
/// partner. Takes no memory.
pub fn is_utf16(octets: &[u8]) -> bool
    ensures { IsTrue result ↔ IsUtf16 octets.now }
{
    let mut rest = octets;
    let mut waits = false;
    while let [high, low, after @ ..] = rest {
        let unit = u16::from_be_bytes([*high, *low]);
        if !may_follow(waits, unit) {
            return false;
        }
        waits = is_high(unit);
        rest = after;
    }
    rest.is_empty() && !waits
}

/// A BMPString whose contents octets are UTF-16, as most writers of stores have it.
#[derive(Clone, Copy)]
pub(crate) struct NameRef<'a>(pub(crate) &'a [u8]);

impl DerSerialize for NameRef<'_> {
    ghost Value = { List ℕ };

    ghost value = { λ x. x.0.now };

    ghost format = { utf16_string.format };

    fn put<W: Writer>(&self, w: &mut W) -> Result<(), WriteError> {
        put_element(0x1E, self.0, w)
    }

    fn well_formed_at(&self, _limit: u8) -> bool {
        is_utf16(self.0)
    }
}
