//! Elements, taken and written piece by piece.

use asn1_core_writers::Compare;
use std::alloc::Global;
use std::test::Fail;
use vector_checks::checks::expect;
use vector_checks::fakes::Narrow;
use x509_containers::{
    AnyDefinedBy, CTLEntryAttributeValues, DerDeserialize, DerSerialize, DerTagged, Error,
    IntegerAsn1, OctetStringAsn1, Reader, Sink, Source, StdSink, StdSource, Writer,
    read_sequence_defined_by, send,
};

/// A SEQUENCE of the INTEGER 7, and a NULL.
const TWO: &[u8] = b"\x30\x03\x02\x01\x07\x05\x00";

#[test]
fn an_element_in_another(_rt: HostRuntime) -> Result<(), Fail> {
    let mut r = Reader::new(TWO);
    expect(r.from_header() == 7 && r.unread() == 7, "another input")?;
    let (tag, len) = r.header()?;
    expect(tag == 0x30 && len == 3, "another header")?;
    let outer = r.open(len);
    let item = r.whole_element()?;
    expect(item == b"\x02\x01\x07".as_slice(), "another item")?;
    expect(r.left() == 0 && r.unread() == 2, "other bytes are left")?;
    expect(r.from_header() == 5, "another header was the last")?;
    r.end(outer)?;
    expect(r.left() == 2 && r.headers_read() == 2, "other contents")
}

/// A reader that goes out of an element, whose contents it has read to their end.
#[test]
fn an_element_that_is_closed(_rt: HostRuntime) -> Result<(), Fail> {
    let mut r = Reader::new(TWO);
    let (_, len) = r.header()?;
    let outer = r.open(len);
    let item = r.whole_element()?;
    expect(item == b"\x02\x01\x07".as_slice(), "another item")?;
    if r.left() > 0 {
        return Err(Fail::new("other bytes are left"));
    }
    r.close(outer);
    expect(r.left() == 2 && r.headers_read() == 2, "other contents")
}

#[test]
fn contents_after_a_header(_rt: HostRuntime) -> Result<(), Fail> {
    let mut r = Reader::new(TWO);
    expect(Reader::peek(&r) == Some(0x30), "another tag")?;
    let (_, len) = r.header()?;
    let contents = r.contents(len);
    expect(contents == b"\x02\x01\x07".as_slice(), "other contents")?;
    expect(Reader::peek(&r) == Some(0x05), "another tag")
}

/// Contents that aren't read to their end, and a length of two bytes that one could say.
#[test]
fn refused_elements(_rt: HostRuntime) -> Result<(), Fail> {
    let mut r = Reader::new(TWO);
    let (_, len) = r.header()?;
    let outer = r.open(len);
    expect(r.end(outer) == Err(Error::Malformed), "contents are left")?;
    let mut r = Reader::new(b"\x04\x81\x01\x07");
    expect(
        r.whole_element().err() == Some(Error::Malformed),
        "a long length",
    )
}

/// The value 1.2.3.4 of a trust list's attribute, which is any: an empty set, and a set of a NULL.
#[test]
fn what_an_identifier_picks(rt: HostRuntime) -> Result<(), Fail> {
    let mut r = Reader::new(b"\x30\x09\x06\x03\x2A\x03\x04\x31\x02\x05\x00");
    let both = read_sequence_defined_by::<CTLEntryAttributeValues>(rt.alloc(), &mut r, 0)?;
    expect(
        both.0.0.octets() == b"\x2A\x03\x04".as_slice(),
        "another identifier",
    )?;
    holds(&both.1, 1)
}

fn holds(value: &CTLEntryAttributeValues, count: usize) -> Result<(), Fail> {
    match value {
        CTLEntryAttributeValues::Unknown(values) => expect(values.0.len() == count, "other values"),
        _ => Err(Fail::new("another alternative")),
    }
}

#[test]
fn what_given_octets_pick(rt: HostRuntime) -> Result<(), Fail> {
    let mut r = Reader::new(b"\x31\x00");
    let oid = b"\x2A\x03\x04";
    let value = CTLEntryAttributeValues::read_defined_by(rt.alloc(), oid, &mut r, 0)?;
    holds(&value, 0)
}

fn is_seven(value: &IntegerAsn1) -> Result<(), Fail> {
    expect(value.0.as_slice() == b"\x07".as_slice(), "another number")
}

/// A value from the front of what is left, and one of contents alone.
#[test]
fn values_of_a_reader(rt: HostRuntime) -> Result<(), Fail> {
    let mut r = Reader::new(b"\x02\x01\x07\x05\x00");
    let value: IntegerAsn1 = DerDeserialize::read(rt.alloc(), &mut r, 0)?;
    expect(r.left() == 2, "other bytes are left")?;
    is_seven(&value)?;
    let mut r = Reader::new(b"\x07");
    is_seven(&IntegerAsn1::read_contents(rt.alloc(), &mut r, 0)?)
}

fn octets(alloc: Global) -> Result<OctetStringAsn1, Fail> {
    Ok(OctetStringAsn1(Vec::from_slice(alloc, b"AB")?))
}

/// Under its own tag, to what a buffer holds, and under another.
#[test]
fn a_value_under_tags(rt: HostRuntime) -> Result<(), Fail> {
    let value = octets(rt.alloc())?;
    let mut buffer = Vec::from_slice(rt.alloc(), b"ab")?;
    DerSerialize::write(&value, rt.alloc(), &mut buffer)?;
    expect(
        buffer.as_slice() == b"ab\x04\x02AB".as_slice(),
        "another encoding",
    )?;
    let mut compare = Compare::new(b"\x80\x02AB");
    expect(
        value.put_as(0x80, &mut compare).is_ok() && compare.is_same(),
        "another tag",
    )
}

/// A writer takes an encoding from its end.
#[test]
fn pieces_from_the_end(_rt: HostRuntime) -> Result<(), Fail> {
    let mut compare = Compare::new(b"abc");
    expect(<Compare<'_> as Writer>::is_backward(), "the direction")?;
    expect(Writer::bytes(&mut compare, b"bc").is_ok(), "a refusal")?;
    expect(
        Writer::count(&compare) == 2 && !compare.is_same(),
        "another count",
    )?;
    expect(Writer::bytes(&mut compare, b"a").is_ok(), "a refusal")?;
    expect(
        Writer::count(&compare) == 3 && compare.is_same(),
        "other bytes",
    )
}

/// A sink that takes one byte a write, and two writes.
#[test]
fn a_narrow_sink(rt: HostRuntime) -> Result<(), Fail> {
    let mut sink = Narrow::new(rt.alloc(), 1, 2);
    expect(matches!(Sink::write(&mut sink, b"abc"), Ok(1)), "a write")?;
    expect(send(&mut sink, b"bc").is_err(), "three writes")?;
    expect(Sink::failures(&sink) == 1, "other failures")?;
    expect(sink.taken.as_slice() == b"ab".as_slice(), "other bytes")
}

#[test]
fn a_source_of_std(_rt: HostRuntime) -> Result<(), Fail> {
    let mut source = StdSource::new(b"abc".as_slice());
    let mut buffer = [0u8; 2];
    expect(
        matches!(Source::read(&mut source, &mut buffer), Ok(2)),
        "a read",
    )?;
    expect(buffer == *b"ab", "other bytes")?;
    expect(Source::failures(&source) == 0, "a failure")?;
    expect(
        StdSource::into_inner(source) == b"c".as_slice(),
        "another rest",
    )
}

#[test]
fn a_sink_of_std(rt: HostRuntime) -> Result<(), Fail> {
    let mut sink = StdSink::new(Vec::new(rt.alloc()));
    expect(send(&mut sink, b"abc").is_ok(), "a refusal")?;
    expect(Sink::failures(&sink) == 0, "a failure")?;
    let written = StdSink::into_inner(sink);
    expect(written.as_slice() == b"abc".as_slice(), "other bytes")
}
