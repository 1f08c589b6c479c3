//! Parts of PKCS #12 files.

ghost use Rattle.std.specs.Prelude.{◌≡◌, slice_get};
ghost use Rattle.asn1_core.specs.Der.{option_value};
ghost use Rattle.container_parts.specs.Inputs.{GivesPart};
ghost use Rattle.container_parts.specs.StoreParts.{all_in, in_store, octets_in, range_in, ranges_in};

use crate::copies::{copy, of_file};
use bag_ranges::{BagKind, BagRanges, bag_ranges};
use input_ranges::Refusal;
use std::alloc::Global;
use std::ops::Range;

/// A part of the bags of a PKCS #12 file that aren't encrypted, in the order of `bag_ranges`: those in a bag of kind
/// SafeContents come after it.
#[derive(Clone, Copy, Debug, PartialEq, Eq)]
pub enum StorePart {
    /// The octets of an X.509 certificate (RFC 7292, 4.2.3).
    Certificate,
    /// The element of a key that isn't encrypted, a `PrivateKeyInfo`, as it is (RFC 7292, 4.2.1).
    Key,
    /// The element of an encrypted key, an `EncryptedPrivateKeyInfo`, as it is (RFC 7292, 4.2.2).
    EncryptedKey,
    /// The element of a bag, as it is, with all that it holds: a key, bags, attributes (RFC 7292, 4.2).
    WholeBag,
}

/// The part with that index, from 0 on, of the PKCS #12 file that the input is. `None` where there is none. Refuses as
/// `bag_ranges` does: a bag that doesn't read as its type refuses the call, whatever the part is.
#[tactic(auto, using(crate::proofs::Rows::rows_refused, crate::proofs::Rows::rows_copied))]
pub fn store_part(
    alloc: Global,
    part: StorePart,
    index: usize,
    input: &[u8],
) -> Result<Option<Vec<u8>>, Refusal>
    ensures { GivesPart (in_store part index) input.now result }
{
    let rows = bag_ranges(alloc, input)?;
    of_file(copy(alloc, octets_at(part, index, input, rows.as_slice())))
}

/// The octets of the part with that index.
#[tactic(auto, using(crate::specs::laws::Copies::get_value))]
fn octets_at<'a>(
    part: StorePart,
    index: usize,
    input: &'a [u8],
    rows: &[BagRanges],
) -> Option<&'a [u8]>
    ensures { option_value (λ o. o.now) result ≡ slice_get (all_in part input.now rows.now) index }
{
    match range_at(part, rows, index) {
        Some(range) => Some(octets_in(input, range)),
        None => None,
    }
}

/// The octets in a range, as far as they are in the input: all, of a range that `bag_ranges` gives.
#[tactic(auto, using(crate::proofs::Ranges::as_far))]
fn octets_in(input: &[u8], range: Range<usize>) -> &[u8]
    ensures { result.now ≡ octets_in input.now range }
{
    let end = range.end.min(input.len());
    let start = range.start.min(end);
    &input[start..end]
}

/// The range with that index, of those that have the part.
fn range_at(part: StorePart, rows: &[BagRanges], index: usize) -> Option<Range<usize>>
    ensures { result ≡ slice_get (ranges_in part rows.now) index }
{
    let mut left = index;
    for row in rows {
        if let Some(range) = range_of(part, row) {
            if left == 0 {
                return Some(range);
            }
            left -= 1;
        }
    }
    None
}

/// Where a row has the part.
fn range_of(part: StorePart, row: &BagRanges) -> Option<Range<usize>>
    ensures { result ≡ range_in part row.now.kind row.now }
{
    match (part, row.kind) {
        (StorePart::Certificate, BagKind::Certificate) => Some(row.value.start..row.value.end),
        (StorePart::Key, BagKind::Key) => Some(row.value.start..row.value.end),
        (StorePart::EncryptedKey, BagKind::ShroudedKey) => Some(row.value.start..row.value.end),
        (StorePart::WholeBag, BagKind::Unread) => None,
        (StorePart::WholeBag, _) => Some(row.element.start..row.element.end),
        _ => None,
    }
}
