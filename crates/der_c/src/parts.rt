//! Signers, certificates, MACs and other parts of an input.

ghost use Rattle.part_calls.specs.Certificates.{FindsCertificate};
ghost use Rattle.part_calls.specs.Lists.{ListsRanges, ListsAttributes};
ghost use Rattle.part_calls.specs.Macs.{FindsRange, FindsMac, ber_file, FindsMacIn, CopiesMacPart};
ghost use Rattle.part_calls.specs.Parts.{CopiesPart};
ghost use Rattle.part_calls.specs.Signers.{FindsSigners};

use call_values::ranges::Octets;
use part_calls::certificates::Certificate;
use part_calls::signers::Signer;
use part_calls::{certificates, lists, macs, parts, signers};
use std::alloc::Global;

/// As `certificates::der_certificate` of `part_calls`.
#[unsafe(no_mangle)]
pub extern "C" fn der_certificate(
    alloc: Global,
    input: &[u8],
    out: &mut Certificate,
    place: &mut usize,
) -> u32
    ensures { FindsCertificate input.now out.new place.new result }
{
    certificates::der_certificate(alloc, input, out, place)
}

/// As `lists::der_part_ranges` of `part_calls`.
#[unsafe(no_mangle)]
pub extern "C" fn der_part_ranges(
    alloc: Global,
    number: usize,
    input: &[u8],
    out: &mut [Octets],
    count: &mut usize,
    place: &mut usize,
) -> u32
    ensures { ListsRanges number input.now out.old out.new count.new place.new result }
{
    lists::der_part_ranges(alloc, number, input, out, count, place)
}

/// As `lists::der_attribute_ranges` of `part_calls`.
#[unsafe(no_mangle)]
pub extern "C" fn der_attribute_ranges(
    alloc: Global,
    signed: usize,
    index: usize,
    input: &[u8],
    out: &mut [Octets],
    count: &mut usize,
    place: &mut usize,
) -> u32
    ensures { ListsAttributes signed index input.now out.old out.new count.new place.new result }
{
    lists::der_attribute_ranges(alloc, signed, index, input, out, count, place)
}

/// As `macs::der_mac_range` of `part_calls`.
#[unsafe(no_mangle)]
pub extern "C" fn der_mac_range(
    alloc: Global,
    input: &[u8],
    start: &mut usize,
    len: &mut usize,
) -> u32
    ensures { FindsRange input.now start.new len.new result }
{
    macs::der_mac_range(alloc, input, start, len)
}

/// As `macs::der_mac` of `part_calls`.
#[unsafe(no_mangle)]
pub extern "C" fn der_mac(
    alloc: Global,
    input: &[u8],
    start: &mut usize,
    len: &mut usize,
    iterations: &mut usize,
) -> u32
    ensures { FindsMac input.now start.new len.new iterations.new result }
{
    macs::der_mac(alloc, input, start, len, iterations)
}

/// As `macs::der_mac_ber` of `part_calls`.
#[unsafe(no_mangle)]
pub extern "C" fn der_mac_ber(
    alloc: Global,
    input: &[u8],
    start: &mut usize,
    len: &mut usize,
    iterations: &mut usize,
) -> u32
    ensures { FindsMacIn ber_file input.now start.new len.new iterations.new result }
{
    macs::der_mac_ber(alloc, input, start, len, iterations)
}

/// As `macs::der_mac_part_ber` of `part_calls`.
#[unsafe(no_mangle)]
pub extern "C" fn der_mac_part_ber(
    alloc: Global,
    number: usize,
    input: &[u8],
    out: &mut [u8],
    written: &mut usize,
) -> u32
    ensures { CopiesMacPart number input.now out.old out.new written.new result }
{
    macs::der_mac_part_ber(alloc, number, input, out, written)
}

/// As `parts::der_part_octets` of `part_calls`.
#[unsafe(no_mangle)]
pub extern "C" fn der_part_octets(
    alloc: Global,
    number: usize,
    index: usize,
    input: &[u8],
    out: &mut [u8],
    written: &mut usize,
    place: &mut usize,
) -> u32
    ensures { CopiesPart number index input.now out.old out.new written.new place.new result }
{
    parts::der_part_octets(alloc, number, index, input, out, written, place)
}

/// As `signers::der_signer_rows` of `part_calls`.
#[unsafe(no_mangle)]
pub extern "C" fn der_signer_rows(
    alloc: Global,
    input: &[u8],
    first: usize,
    out: &mut [Signer],
    count: &mut usize,
    place: &mut usize,
) -> u32
    ensures { FindsSigners input.now first out.old out.new count.new place.new result }
{
    signers::der_signer_rows(alloc, input, first, out, count, place)
}
