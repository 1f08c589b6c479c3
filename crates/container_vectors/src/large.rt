//! The room that an encoding takes, and the writes that send it.

use asn1_core::{Asn1SequenceOf, Error, OctetStringAsn1};
use asn1_core_format::{DerSerialize, to_vec, write_to};
use std::alloc::Global;
use std::test::Fail;
use vector_checks::checks::{expect, is_sent};
use vector_checks::fakes::Narrow;

/// Lengths of octet strings, and in how many writes a sink gets the list of them: an encoding of up to 16,384 bytes is
/// sent at once, and of a longer one at most 4,096 bytes wait.
const WRITES: [(&[usize], usize); 8] = [
    (&[], 1),
    (&[5000, 1], 1),
    (&[16_376], 1),
    (&[16_377], 2),
    (&[4092, 12_500], 3),
    (&[4093, 12_500], 4),
    (&[3000, 3000, 3000, 3000, 3000, 3000], 6),
    (&[10, 4096, 4097, 10, 10_000], 6),
];

/// Where there is room, the buffer isn't grown; a new one has exactly the room of the encoding. How often memory is
/// asked for is shown by `rt try --fail-alloc` (docs/PROVING.md).
fn has_room(alloc: Global, list: &Asn1SequenceOf<u8>, text: &[u8]) -> Result<(), Fail> {
    let mut enough = Vec::with_capacity(alloc, text.len())?;
    let capacity = enough.capacity();
    list.write(alloc, &mut enough)?;
    expect(enough.capacity() == capacity, "the buffer is grown")?;
    expect(enough.as_slice() == text, "another encoding")
}

fn has_no_room(alloc: Global, list: &Asn1SequenceOf<u8>, text: &[u8]) -> Result<(), Fail> {
    let mut short = Vec::with_capacity(alloc, text.len().saturating_sub(1))?;
    list.write(alloc, &mut short)?;
    expect(short.as_slice() == text, "another encoding")
}

#[test]
fn room_is_used(rt: HostRuntime) -> Result<(), Fail> {
    let list = Asn1SequenceOf(vec![in rt.alloc(); 7u8; 100]?);
    let text = to_vec(rt.alloc(), &list)?;
    expect(text.capacity() == list.encoded_len()?, "other room")?;
    has_room(rt.alloc(), &list, &text)?;
    has_no_room(rt.alloc(), &list, &text)
}

type Strings = Asn1SequenceOf<OctetStringAsn1>;

fn strings(alloc: Global, lengths: &[usize]) -> Result<Strings, Error> {
    let mut items = Vec::new(alloc);
    for length in lengths {
        items.push(OctetStringAsn1(vec![in alloc; 7; *length]?))?;
    }
    Ok(Asn1SequenceOf(items))
}

/// Asks that the list is sent in so many writes, and that each of them may fail.
fn takes_writes(alloc: Global, list: &Strings, writes: usize) -> Result<(), Fail> {
    let text = to_vec(alloc, list)?;
    let mut sink = Narrow::new(alloc, usize::MAX, writes);
    write_to(list, &mut sink)?;
    expect(sink.writes_left == 0, "fewer writes")?;
    expect(sink.taken.as_slice() == text.as_slice(), "another encoding")?;
    is_sent(alloc, list, &text, usize::MAX)
}

/// Octet strings that wait, that fill what may wait and that don't fit it: each write fails in turn.
#[test]
fn few_writes_send_a_text(rt: HostRuntime) -> Result<(), Fail> {
    for (lengths, writes) in WRITES {
        let list = strings(rt.alloc(), lengths)?;
        takes_writes(rt.alloc(), &list, writes)?;
    }
    Ok(())
}
