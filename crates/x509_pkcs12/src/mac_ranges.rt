//! Where the octets that a MAC covers are in an input.

ghost use Rattle.std.specs.Prelude.{ℕ, List, MatchOption, MatchResult};
ghost use Rattle.asn1_core.specs.Der.{raw, option_value, HasNoValue};
ghost use Rattle.asn1_located.specs.Places.{IsRangeAt, Walk};
ghost use Rattle.x509_pkcs12.specs.MacRanges.{IsMacRange, mac_steps};
ghost use Rattle.x509_pkcs12.specs.Pfxs.{pfx};

use crate::raw::RawPfx;
use asn1_core::{Error, from_bytes};
use asn1_located::{Step, range_at};
use std::alloc::Global;
use std::ops::Range;

/// Where the contents of the OCTET STRING in `authSafe` are: the octets after the header of the element that the steps
/// lead to. The input is a PFX whose `authSafe` is data; of any other input nothing is said.
pub fn contents_range(bytes: &[u8]) -> Option<Range<usize>>
    ensures { MatchOption result
        ((n : ℕ) (y : List ℕ) → Walk mac_steps 0 bytes.now n y → ⊥)
        (λ r. IsRangeAt mac_steps bytes.now r.start r.end) }
{
    range_at(
        bytes,
        &[
            Step::Inside,
            Step::After,
            Step::Element,
            Step::Inside,
            Step::After,
            Step::Inside,
            Step::Inside,
        ],
    )
}

/// Where the octets that a MAC covers are in an input: those that `mac_octets` gives of the `RawPfx` that the input is,
/// so that a verifier hashes its own buffer. `None` where `authSafe` isn't data. The input is read once, by
/// `from_bytes`: what that refuses as a `RawPfx` is refused alike, never by `TooLong`. Memory is taken, and none kept.
pub fn mac_range(alloc: Global, bytes: &[u8]) -> Result<Option<Range<usize>>, Error>
    ensures { MatchResult result
        (λ range. IsMacRange bytes.now (option_value (λ r. (r.start, r.end)) range))
        (λ e. HasNoValue (pfx raw) 64 bytes.now e) }
{
    let file: RawPfx = from_bytes(alloc, bytes)?;
    match file.mac_octets() {
        Some(_) => Ok(contents_range(bytes)),
        None => Ok(None),
    }
}
