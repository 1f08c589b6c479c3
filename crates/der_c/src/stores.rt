//! Key stores.

ghost use Rattle.store_calls.specs.Bags.{FindsBags};
ghost use Rattle.store_calls.specs.BuiltBags.{BuildsBags};
ghost use Rattle.store_calls.specs.BuiltContents.{BuildsSafe};
ghost use Rattle.store_calls.specs.BuiltStores.{BuildsStore};

use std::alloc::Global;
use store_calls::bags::Bag;
use store_calls::built_bags::BagGiven;
use store_calls::built_contents::ContentGiven;
use store_calls::built_stores::StoreGiven;
use store_calls::{bags, built_bags, built_contents, built_stores};

/// As `bags::der_bag_rows` of `store_calls`.
#[unsafe(no_mangle)]
pub extern "C" fn der_bag_rows(
    alloc: Global,
    input: &[u8],
    out: &mut [Bag],
    count: &mut usize,
    place: &mut usize,
) -> u32
    ensures { FindsBags input.now out.old out.new count.new place.new result }
{
    bags::der_bag_rows(alloc, input, out, count, place)
}

/// As `built_bags::der_build_bags` of `store_calls`.
#[unsafe(no_mangle)]
pub extern "C" fn der_build_bags(
    alloc: Global,
    input: &[u8],
    bags: &[BagGiven],
    out: &mut [u8],
    written: &mut usize,
    bag: &mut usize,
    part: &mut usize,
) -> u32
    ensures { BuildsBags input.now bags.now out.old out.new written.new bag.new part.new result }
{
    built_bags::der_build_bags(alloc, input, bags, out, written, bag, part)
}

/// As `built_contents::der_build_safe` of `store_calls`.
#[unsafe(no_mangle)]
pub extern "C" fn der_build_safe(
    alloc: Global,
    input: &[u8],
    contents: &[ContentGiven],
    out: &mut [u8],
    written: &mut usize,
    content: &mut usize,
) -> u32
    ensures { BuildsSafe input.now contents.now out.old out.new written.new content.new result }
{
    built_contents::der_build_safe(alloc, input, contents, out, written, content)
}

/// As `built_stores::der_build_store` of `store_calls`.
#[unsafe(no_mangle)]
pub extern "C" fn der_build_store(
    alloc: Global,
    input: &[u8],
    given: &StoreGiven,
    out: &mut [u8],
    written: &mut usize,
    part: &mut usize,
) -> u32
    ensures { BuildsStore input.now given.now out.old out.new written.new part.new result }
{
    built_stores::der_build_store(alloc, input, given, out, written, part)
}
