//! An AuthenticatedSafe, built from what a caller in C gives.

ghost use Rattle.std.specs.Prelude.{MatchResult, map};
ghost use Rattle.std.specs.List.{AllZip};
ghost use Rattle.store_calls.specs.BuiltContents.{BuildsSafe, GivesContent, HasBuiltSafe, IsContentBy, IsContentOf, IsDataOf, IsInfoOf, IsTooLong, any_part};
ghost use Rattle.call_values.specs.BuiltLists.{IsNoList, IsNoText};
ghost use Rattle.call_values.specs.Read.{HasOne, IsUnread};
ghost use Rattle.store_writers.specs.Written.{content_value};

use crate::nested::{LEVELS, check_levels};
use bag_ranges::RawContentInfo;
use call_values::built_lists::{NoList, at};
use call_values::given::part_of;
use call_values::not_built::NotBuilt;
use call_values::outputs::put_octets;
use call_values::ranges::Octets;
use call_values::readings::read_as;
use call_values::status;
use call_values::status::status_of;
use pkcs12_bags::parts::oids::{DATA, is_oid_of};
use std::alloc::Global;
use store_writers::{Content, write_authenticated_safe};

/// The only part that an item has.
const OCTETS: usize = 1;

/// An item of an AuthenticatedSafe, as a range of an input: `der_content_given` of der.h, which says more of its fields.
#[repr(C)]
#[derive(Clone, Copy)]
pub struct ContentGiven {
    /// 0 where the octets are a `ContentInfo`, and otherwise they are a `SafeContents`.
    pub is_data: usize,
    pub octets: Octets,
}

/// A `SafeContents` in clear.
fn data_of<'a>(alloc: Global, octets: &'a [u8]) -> Result<Content<'a>, NotBuilt>
    ensures { MatchResult result
        (λ content. IsDataOf octets.now (content_value content))
        (λ wrong. IsUnread (HasOne (IsDataOf octets.now)) wrong) }
{
    check_levels(alloc, octets, LEVELS, OCTETS)?;
    Ok(Content::Data(octets))
}

/// A `ContentInfo` of another type than data.
fn info_of<'a>(alloc: Global, octets: &'a [u8]) -> Result<Content<'a>, NotBuilt>
    ensures { MatchResult result
        (λ content. IsInfoOf octets.now (content_value content))
        (λ wrong. IsUnread (HasOne (IsInfoOf octets.now)) wrong) }
{
    let info: RawContentInfo = read_as(alloc, octets, OCTETS)?;
    if is_oid_of(&info.content_type.0, &DATA) {
        return Err(NotBuilt::Part(OCTETS));
    }
    Ok(Content::Info(info))
}

/// A content, by its octets.
fn content_of<'a>(alloc: Global, is_data: usize, octets: &'a [u8]) -> Result<Content<'a>, NotBuilt>
    ensures { MatchResult result
        (λ content. IsContentOf is_data octets.now (content_value content))
        (λ wrong. IsUnread (HasOne (IsContentOf is_data octets.now)) wrong) }
{
    if is_data == 0 {
        return info_of(alloc, octets);
    }
    data_of(alloc, octets)
}

/// The content that a row gives.
fn content_by<'a>(
    alloc: Global,
    input: &'a [u8],
    row: &ContentGiven,
) -> Result<Content<'a>, NotBuilt>
    ensures { MatchResult result
        (λ content. IsContentBy input.now row.now (content_value content))
        (λ wrong. IsUnread (HasOne (IsContentBy input.now row.now)) wrong) }
{
    match part_of(input, row.octets, OCTETS) {
        Ok(octets) => content_of(alloc, row.is_data, octets),
        Err(part) => Err(NotBuilt::Part(part)),
    }
}

/// The contents that all rows give.
fn all_contents<'a>(
    alloc: Global,
    input: &'a [u8],
    rows: &[ContentGiven],
) -> Result<Vec<Content<'a>>, NoList>
    ensures { MatchResult result
        (λ all. AllZip (IsContentBy input.now) rows.now (map content_value all.items))
        (λ wrong. IsNoList (GivesContent input.now) any_part rows.now wrong) }
{
    let mut all = Vec::new(alloc);
    for (index, row) in rows.iter().enumerate() {
        match content_by(alloc, input, row) {
            Ok(content) => all.push(content)?,
            Err(wrong) => return Err(at(index, wrong)),
        }
    }
    Ok(all)
}

fn safe_text(alloc: Global, input: &[u8], rows: &[ContentGiven]) -> Result<Vec<u8>, NoList>
    ensures { MatchResult result
        (λ text. HasBuiltSafe input.now rows.now text.items)
        (λ wrong. IsNoText (GivesContent input.now) any_part (IsTooLong input.now rows.now) rows.now wrong) }
{
    let contents = all_contents(alloc, input, rows)?;
    match write_authenticated_safe(alloc, contents) {
        Ok(text) => Ok(text),
        Err(error) => Err(NoList::NotWritten(error)),
    }
}

/// Builds an AuthenticatedSafe of the contents that are given, as octets of the input, and writes it to the front of `out`:
/// all that is written is what a MAC covers. At `INVALID` the content with the index `content` can't be written, the first
/// such, and otherwise `content` is 0. Any other answer is as of `der_build_bags`.
pub fn der_build_safe(
    alloc: Global,
    input: &[u8],
    contents: &[ContentGiven],
    out: &mut [u8],
    written: &mut usize,
    content: &mut usize,
) -> u32
    ensures { BuildsSafe input.now contents.now out.old out.new written.new content.new result }
{
    *written = 0;
    *content = 0;
    match safe_text(alloc, input, contents) {
        Ok(text) => put_octets(&text, out, written),
        Err(NoList::Item(index, _part)) => {
            *content = index;
            status::INVALID
        }
        Err(NoList::NotWritten(error)) => status_of(error),
    }
}
