//! What a verifier of a PKCS #12 file's MAC needs: of files in DER, and of those that `der_from_ber` wrote.

ghost use Rattle.std.specs.Prelude.{◌≡◌, MatchOption, MatchResult, None, Some};
ghost use Rattle.asn1_core.specs.Der.{Format, Octets, option_value, raw, HasNoValue};
ghost use Rattle.container_parts.specs.MacParts.{mac_part_in, HasCountIn};
ghost use Rattle.part_calls.specs.Macs.{ber_file, CopiesMacPart, FindsMac, FindsMacIn, FindsRange, FindsRangeIn, GivesMacPart, IsMacPartAt, NoMacPartAt};
ghost use Rattle.input_ranges.specs.Failures.{IsRefusalOf};
ghost use Rattle.x509_pkcs12.specs.MacRanges.{IsMacRangeIn};
ghost use Rattle.x509_pkcs12.specs.Pfxs.{PfxValue, pfx};

use crate::parts::part_at;
use asn1_core::{Error, from_bytes};
use call_values::outputs::{put_octets, status_of_refusal};
use call_values::status;
use call_values::status::status_of;
use container_parts::copies::read_file;
use container_parts::{ContainerPart, MacPart, mac_iterations, part_of_mac};
use input_ranges::Refusal;
use pkcs12_ber::{BerPfx, ber_mac_range};
use std::alloc::Global;
use std::ops::Range;
use x509_pkcs12::mac_range;

/// A type as which PKCS #12 files are read.
trait File {
    ghost format: { Format (PfxValue Octets) };

    /// Where a file has the octets that a MAC covers.
    fn range(alloc: Global, input: &[u8]) -> Result<Option<Range<usize>>, Error>
        ensures { MatchResult result
            (λ range. IsMacRangeIn format input.now (option_value (λ r. (r.start, r.end)) range))
            (λ e. HasNoValue format 64 input.now e) };

    /// How often the key derivation of its MAC hashes.
    fn iterations(alloc: Global, input: &[u8]) -> Result<Option<u32>, Refusal>
        ensures { MatchResult result (λ count. HasCountIn format input.now count) (λ e. IsRefusalOf format input.now ⊥ e) };
}

/// Files as `RawPfx`, of which the MAC covers DER.
#[derive(Drop)]
struct OverDer;

impl File for OverDer {
    ghost format = { pfx raw };

    fn range(alloc: Global, input: &[u8]) -> Result<Option<Range<usize>>, Error> {
        mac_range(alloc, input)
    }

    fn iterations(alloc: Global, input: &[u8]) -> Result<Option<u32>, Refusal> {
        mac_iterations(alloc, input)
    }
}

/// Files as `BerPfx`, of which the MAC covers any octets.
#[derive(Drop)]
struct OverBer;

impl File for OverBer {
    ghost format = { ber_file };

    fn range(alloc: Global, input: &[u8]) -> Result<Option<Range<usize>>, Error> {
        ber_mac_range(alloc, input)
    }

    fn iterations(alloc: Global, input: &[u8]) -> Result<Option<u32>, Refusal> {
        ber_mac_iterations(alloc, input)
    }
}

/// How often the key derivation of a MAC hashes, 1 where the count is left out, as `mac_iterations` says of a `RawPfx`.
fn ber_mac_iterations(alloc: Global, input: &[u8]) -> Result<Option<u32>, Refusal>
    ensures { MatchResult result (λ count. HasCountIn ber_file input.now count) (λ e. IsRefusalOf ber_file input.now ⊥ e) }
{
    let file: BerPfx = read_file(alloc, input)?;
    match &file.mac_data {
        Some(mac) => Ok(Some(mac.effective_iterations())),
        None => Ok(None),
    }
}

fn find_range<T: File>(alloc: Global, input: &[u8], start: &mut usize, len: &mut usize) -> u32
    ensures { FindsRangeIn T.format input.now start.new len.new result }
{
    *start = 0;
    *len = 0;
    match T::range(alloc, input) {
        Ok(Some(range)) => {
            *start = range.start;
            *len = range.end - range.start;
            status::NORMAL
        }
        Ok(None) => status::NO_RANGE,
        Err(error) => status_of(error),
    }
}

#[tactic(auto, using(crate::proofs::MacRanges::no_range_no_mac, crate::proofs::MacRanges::mac_found, crate::proofs::MacRanges::no_mac_there, crate::proofs::MacRanges::mac_not_found))]
fn find_mac<T: File>(
    alloc: Global,
    input: &[u8],
    start: &mut usize,
    len: &mut usize,
    iterations: &mut usize,
) -> u32
    ensures { FindsMacIn T.format input.now start.new len.new iterations.new result }
{
    *iterations = 0;
    let status = find_range::<T>(alloc, input, start, len);
    if status != status::NORMAL {
        return status;
    }
    match T::iterations(alloc, input) {
        Ok(Some(count)) => {
            *iterations = count as usize;
            status::NORMAL
        }
        Ok(None) => {
            *start = 0;
            *len = 0;
            status::NO_PART
        }
        Err(refusal) => {
            *start = 0;
            *len = 0;
            status_of_refusal(refusal)
        }
    }
}

/// Which octets of a PKCS #12 file its MAC covers: at `NORMAL` `len` octets from `start` on. At `NO_RANGE` it has none,
/// since its authSafe isn't data. Any other status is as of `der_check_word_limited` for the word `rawpfx` and 64
/// levels, `TOO_LONG` never. Unless at `NORMAL` both numbers are 0.
pub fn der_mac_range(alloc: Global, input: &[u8], start: &mut usize, len: &mut usize) -> u32
    ensures { FindsRange input.now start.new len.new result }
{
    find_range::<OverDer>(alloc, input, start, len)
}

/// What a verifier of a PKCS #12 file's MAC needs beside octets: at `NORMAL` the MAC covers `len` octets from `start`
/// on, and its key derivation hashes `iterations` times. At `NO_RANGE` the file has no range, at `NO_PART` it has one
/// and no MAC. Any other status is as of `der_mac_range`. Unless at `NORMAL` the numbers are 0.
pub fn der_mac(
    alloc: Global,
    input: &[u8],
    start: &mut usize,
    len: &mut usize,
    iterations: &mut usize,
) -> u32
    ensures { FindsMac input.now start.new len.new iterations.new result }
{
    find_mac::<OverDer>(alloc, input, start, len, iterations)
}

/// As `der_mac`, of a file whose MAC may cover BER: an input is what `der_from_ber` wrote of it, and the range is in
/// that.
pub fn der_mac_ber(
    alloc: Global,
    input: &[u8],
    start: &mut usize,
    len: &mut usize,
    iterations: &mut usize,
) -> u32
    ensures { FindsMacIn ber_file input.now start.new len.new iterations.new result }
{
    find_mac::<OverBer>(alloc, input, start, len, iterations)
}

#[tactic(auto, using(crate::proofs::MacNumbers::of_signed, crate::proofs::MacNumbers::of_store, crate::proofs::MacNumbers::past_all))]
fn mac_part_at(number: usize) -> Option<MacPart>
    ensures { MatchOption result (NoMacPartAt number) (λ part. IsMacPartAt number part) }
{
    match part_at(number) {
        Some(ContainerPart::Mac(part)) => Some(part),
        Some(ContainerPart::Signed(_)) => None,
        Some(ContainerPart::Store(_)) => None,
        None => None,
    }
}

/// A part of the MAC of a file in DER whose MAC may cover BER. `None` where it has no MAC.
#[tactic(auto, using(crate::proofs::BerMacs::refused, crate::proofs::BerMacs::given))]
fn ber_mac_part(alloc: Global, part: MacPart, input: &[u8]) -> Result<Option<Vec<u8>>, Error>
    ensures { GivesMacPart (mac_part_in ber_file part) input.now result }
{
    let file: BerPfx = from_bytes(alloc, input)?;
    let BerPfx { mac_data, .. } = file;
    part_of_mac(alloc, part, mac_data)
}

/// Writes the part of a MAC with that number to the front of `out`, as `der_part_octets` does, of a file whose MAC may
/// cover BER: an input is what `der_from_ber` wrote of it. The statuses are as there, `UNKNOWN_KIND` for the number of
/// any other part, and `NO_RANGE` never.
pub fn der_mac_part_ber(
    alloc: Global,
    number: usize,
    input: &[u8],
    out: &mut [u8],
    written: &mut usize,
) -> u32
    ensures { CopiesMacPart number input.now out.old out.new written.new result }
{
    *written = 0;
    let Some(part) = mac_part_at(number) else {
        return status::UNKNOWN_KIND;
    };
    match ber_mac_part(alloc, part, input) {
        Ok(Some(octets)) => put_octets(&octets, out, written),
        Ok(None) => status::NO_PART,
        Err(error) => status_of(error),
    }
}
