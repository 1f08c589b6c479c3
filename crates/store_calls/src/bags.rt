//! Where an input has each bag of a PKCS #12 store, for callers in C.

ghost use Rattle.std.specs.Prelude.{◌≡◌};
ghost use Rattle.store_calls.specs.Bags.{bag_row, kind_number, FindsBags};

use bag_ranges::{BagKind, BagRanges, bag_ranges};
use call_values::outputs::{Row, put_found};
use call_values::ranges::{Octets, is_there, octets_of, octets_or_none};
use std::alloc::Global;

/// Where a bag is: `der_bag_parts` of der.h, which says more of its fields.
#[repr(C)]
#[derive(Clone, Copy)]
pub struct Bag {
    /// A `der_bag_kind` of der.h.
    pub kind: usize,
    /// In how many bags it is.
    pub level: usize,
    /// 1 where it has a friendly name, otherwise 0.
    pub has_friendly_name: usize,
    /// 1 where it has a local key identifier, otherwise 0.
    pub has_local_key_id: usize,
    pub element: Octets,
    pub value: Octets,
    pub friendly_name: Octets,
    pub local_key_id: Octets,
}

fn kind_number(kind: BagKind) -> usize
    ensures { result ≡ kind_number kind }
{
    match kind {
        BagKind::Other => 0,
        BagKind::Key => 1,
        BagKind::ShroudedKey => 2,
        BagKind::Certificate => 3,
        BagKind::Crl => 4,
        BagKind::Secret => 5,
        BagKind::SafeContents => 6,
        BagKind::Unread => 7,
        BagKind::OtherCertificate => 8,
        BagKind::OtherCrl => 9,
    }
}

impl Row for Bag {
    type Found = BagRanges;

    ghost row_of = { bag_row };

    fn of(ranges: &BagRanges) -> Bag {
        Bag {
            kind: kind_number(ranges.kind),
            level: ranges.level as usize,
            has_friendly_name: is_there(&ranges.friendly_name),
            has_local_key_id: is_there(&ranges.local_key_id),
            element: octets_of(&ranges.element),
            value: octets_of(&ranges.value),
            friendly_name: octets_or_none(&ranges.friendly_name),
            local_key_id: octets_or_none(&ranges.local_key_id),
        }
    }
}

/// Writes where the input, a PKCS #12 store, has each bag to the front of `out`, as `bag_ranges` finds them. At
/// `NORMAL` `count` is how many there are, at `NO_ROOM`, where `out` has room for fewer, too, and otherwise 0. From
/// `MALFORMED` to `TOO_DEEP` the input is no store, or something in it doesn't read as its type, and `place` is where;
/// at `NO_MEMORY` it is an offset without use, and otherwise 0. `NO_RANGE` is never answered. Unless at `NORMAL` `out`
/// is as it was.
pub fn der_bag_rows(
    alloc: Global,
    input: &[u8],
    out: &mut [Bag],
    count: &mut usize,
    place: &mut usize,
) -> u32
    ensures { FindsBags input.now out.old out.new count.new place.new result }
{
    put_found(bag_ranges(alloc, input), out, count, place)
}
