//! Signed and enveloped data, and what they hold.

ghost use Rattle.cms_calls.specs.BuiltAttributes.{BuildsAttributes};
ghost use Rattle.cms_calls.specs.BuiltEnveloped.{BuildsEnveloped};
ghost use Rattle.cms_calls.specs.BuiltIndirect.{BuildsIndirect};
ghost use Rattle.cms_calls.specs.BuiltRecipient.{BuildsRecipient};
ghost use Rattle.cms_calls.specs.BuiltSigned.{BuildsSigned, rows_of};
ghost use Rattle.cms_calls.specs.Contents.{FindsIndirect};
ghost use Rattle.cms_calls.specs.TrustLists.{FindsTrustList, ListsEntries};

use call_values::ranges::Octets;
use cms_calls::built_attributes::AttributesGiven;
use cms_calls::built_enveloped::EnvelopedGiven;
use cms_calls::built_recipient::RecipientGiven;
use cms_calls::built_signed::{SignedGiven, SignerGiven};
use cms_calls::contents::Indirect;
use cms_calls::trust_lists::{TrustEntry, TrustList};
use cms_calls::{
    built_attributes, built_enveloped, built_indirect, built_recipient, built_signed, contents,
    trust_lists,
};
use std::alloc::Global;

/// As `built_attributes::der_build_attributes` of `cms_calls`.
#[unsafe(no_mangle)]
pub extern "C" fn der_build_attributes(
    alloc: Global,
    input: &[u8],
    given: &AttributesGiven,
    out: &mut [u8],
    written: &mut usize,
    part: &mut usize,
) -> u32
    ensures { BuildsAttributes input.now given.now out.old out.new written.new part.new result }
{
    built_attributes::der_build_attributes(alloc, input, given, out, written, part)
}

/// As `built_enveloped::der_build_enveloped` of `cms_calls`.
#[unsafe(no_mangle)]
pub extern "C" fn der_build_enveloped(
    alloc: Global,
    input: &[u8],
    given: &EnvelopedGiven,
    recipients: &[Octets],
    out: &mut [u8],
    written: &mut usize,
    index: &mut usize,
    part: &mut usize,
) -> u32
    ensures { BuildsEnveloped input.now given.now recipients.now out.old out.new written.new index.new part.new result }
{
    built_enveloped::der_build_enveloped(alloc, input, given, recipients, out, written, index, part)
}

/// As `built_indirect::der_build_indirect` of `cms_calls`.
#[unsafe(no_mangle)]
pub extern "C" fn der_build_indirect(
    alloc: Global,
    input: &[u8],
    given: &Indirect,
    out: &mut [u8],
    written: &mut usize,
    part: &mut usize,
) -> u32
    ensures { BuildsIndirect input.now given.now out.old out.new written.new part.new result }
{
    built_indirect::der_build_indirect(alloc, input, given, out, written, part)
}

/// As `built_recipient::der_build_recipient` of `cms_calls`.
#[unsafe(no_mangle)]
pub extern "C" fn der_build_recipient(
    alloc: Global,
    input: &[u8],
    given: &RecipientGiven,
    out: &mut [u8],
    written: &mut usize,
    part: &mut usize,
) -> u32
    ensures { BuildsRecipient input.now given.now out.old out.new written.new part.new result }
{
    built_recipient::der_build_recipient(alloc, input, given, out, written, part)
}

/// As `built_signed::der_build_signed` of `cms_calls`.
#[unsafe(no_mangle)]
pub extern "C" fn der_build_signed(
    alloc: Global,
    input: &[u8],
    given: &SignedGiven,
    certificates: &[Octets],
    crls: &[Octets],
    signers: &[SignerGiven],
    out: &mut [u8],
    written: &mut usize,
    index: &mut usize,
    part: &mut usize,
) -> u32
    ensures { BuildsSigned input.now (rows_of given.now certificates.now crls.now signers.now) out.old out.new written.new index.new part.new result }
{
    built_signed::der_build_signed(
        alloc,
        input,
        given,
        certificates,
        crls,
        signers,
        out,
        written,
        index,
        part,
    )
}

/// As `contents::der_indirect` of `cms_calls`.
#[unsafe(no_mangle)]
pub extern "C" fn der_indirect(
    alloc: Global,
    input: &[u8],
    out: &mut Indirect,
    place: &mut usize,
) -> u32
    ensures { FindsIndirect input.now out.new place.new result }
{
    contents::der_indirect(alloc, input, out, place)
}

/// As `trust_lists::der_trust_list` of `cms_calls`.
#[unsafe(no_mangle)]
pub extern "C" fn der_trust_list(
    alloc: Global,
    input: &[u8],
    out: &mut TrustList,
    place: &mut usize,
) -> u32
    ensures { FindsTrustList input.now out.new place.new result }
{
    trust_lists::der_trust_list(alloc, input, out, place)
}

/// As `trust_lists::der_trust_rows` of `cms_calls`.
#[unsafe(no_mangle)]
pub extern "C" fn der_trust_rows(
    alloc: Global,
    input: &[u8],
    out: &mut [TrustEntry],
    count: &mut usize,
    place: &mut usize,
) -> u32
    ensures { ListsEntries input.now out.old out.new count.new place.new result }
{
    trust_lists::der_trust_rows(alloc, input, out, count, place)
}
