//! Where the octets that a MAC covers are in a file's DER.

ghost use Rattle.std.specs.Prelude.{MatchResult};
ghost use Rattle.asn1_core.specs.Der.{option_value, sequence, HasNoValue};
ghost use Rattle.x509_pkcs12.specs.MacRanges.{IsMacRangeIn};
ghost use Rattle.pkcs12_ber.specs.Pfxs.{ber_pfx};

use crate::pfxs::BerPfx;
use asn1_core::{Error, from_bytes};
use std::alloc::Global;
use std::ops::Range;
use x509_pkcs12::mac_ranges::contents_range;

/// Where the octets that a MAC covers are in a file in DER, which `ber_der::to_der` wrote of one in BER: those that
/// `mac_octets` gives of the `BerPfx` that it is. `x509_pkcs12::mac_range` is the same for a `RawPfx`, of which these
/// octets are DER too.
pub fn ber_mac_range(alloc: Global, der: &[u8]) -> Result<Option<Range<usize>>, Error>
    ensures { MatchResult result
        (λ range. IsMacRangeIn (sequence ber_pfx.format) der.now (option_value (λ r. (r.start, r.end)) range))
        (λ e. HasNoValue (sequence ber_pfx.format) 64 der.now e) }
{
    let file: BerPfx = from_bytes(alloc, der)?;
    match file.mac_octets() {
        Some(_) => Ok(contents_range(der)),
        None => Ok(None),
    }
}
