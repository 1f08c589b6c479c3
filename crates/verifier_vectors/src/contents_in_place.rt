//! Where the parts of contents are. The places are those that `openssl asn1parse` shows.

use content_ranges::{
    EntryRanges, ImageRanges, IndirectRanges, Refusal, TrustListRanges, indirect_ranges,
    trust_list_ranges, trust_rows,
};
use std::alloc::Global;
use std::test::Fail;
use vector_checks::checks::expect;
use x509_containers::Error;

/// By hand: of an image, with flags and a link.
fn of_an_image() -> &'static [u8] {
    b"\
    \x30\x58\x06\x09\x2A\x86\x48\x86\xF7\x0D\x01\x07\x02\xA0\x4B\x30\x49\x02\x01\x01\x31\x00\x30\x40\x06\
    \x0A\x2B\x06\x01\x04\x01\x82\x37\x02\x01\x04\xA0\x32\x30\x30\x30\x17\x06\x0A\x2B\x06\x01\x04\x01\x82\
    \x37\x02\x01\x0F\x30\x09\x03\x02\x05\x80\xA0\x03\x80\x01\x61\x30\x15\x30\x0D\x06\x09\x60\x86\x48\x01\
    \x65\x03\x04\x02\x01\x05\x00\x04\x04\x01\x02\x03\x04\x31\x00"
}

/// By hand: of another type, without a value.
fn of_another_type() -> &'static [u8] {
    b"\
    \x30\x43\x06\x09\x2A\x86\x48\x86\xF7\x0D\x01\x07\x02\xA0\x36\x30\x34\x02\x01\x01\x31\x00\x30\x2B\x06\
    \x0A\x2B\x06\x01\x04\x01\x82\x37\x02\x01\x04\xA0\x1D\x30\x1B\x30\x05\x06\x03\x2A\x03\x04\x30\x12\x30\
    \x0D\x06\x09\x60\x86\x48\x01\x65\x03\x04\x02\x01\x05\x00\x04\x01\x01\x31\x00"
}

/// By hand: of an image, with a value that is NULL.
fn of_no_image() -> &'static [u8] {
    b"\
    \x30\x4C\x06\x09\x2A\x86\x48\x86\xF7\x0D\x01\x07\x02\xA0\x3F\x30\x3D\x02\x01\x01\x31\x00\x30\x34\x06\
    \x0A\x2B\x06\x01\x04\x01\x82\x37\x02\x01\x04\xA0\x26\x30\x24\x30\x0E\x06\x0A\x2B\x06\x01\x04\x01\x82\
    \x37\x02\x01\x0F\x05\x00\x30\x12\x30\x0D\x06\x09\x60\x86\x48\x01\x65\x03\x04\x02\x01\x05\x00\x04\x01\
    \x01\x31\x00"
}

/// By hand: data.
fn of_data() -> &'static [u8] {
    b"\
    \x30\x28\x06\x09\x2A\x86\x48\x86\xF7\x0D\x01\x07\x02\xA0\x1B\x30\x19\x02\x01\x01\x31\x00\x30\x10\x06\
    \x09\x2A\x86\x48\x86\xF7\x0D\x01\x07\x01\xA0\x03\x04\x01\x61\x31\x00"
}

/// By hand: of an image, without a digest.
fn without_digest() -> &'static [u8] {
    b"\
    \x30\x41\x06\x09\x2A\x86\x48\x86\xF7\x0D\x01\x07\x02\xA0\x34\x30\x32\x02\x01\x01\x31\x00\x30\x29\x06\
    \x0A\x2B\x06\x01\x04\x01\x82\x37\x02\x01\x04\xA0\x1B\x30\x19\x30\x17\x06\x0A\x2B\x06\x01\x04\x01\x82\
    \x37\x02\x01\x0F\x30\x09\x03\x02\x05\x80\xA0\x03\x80\x01\x61\x31\x00"
}

/// By hand: a trust list with all that one may have, and two entries with the same identifier, the second without attributes.
fn long_list() -> &'static [u8] {
    b"\
    \x30\x81\x87\x06\x09\x2A\x86\x48\x86\xF7\x0D\x01\x07\x02\xA0\x7A\x30\x78\x02\x01\x01\x31\x00\x30\x6F\
    \x06\x09\x2B\x06\x01\x04\x01\x82\x37\x0A\x01\xA0\x62\x30\x60\x02\x01\x00\x30\x05\x06\x03\x2A\x03\x04\
    \x04\x02\x69\x64\x02\x01\x07\x17\x0D\x32\x36\x30\x31\x30\x31\x30\x30\x30\x30\x30\x30\x5A\x18\x0F\x32\
    \x30\x32\x37\x30\x31\x30\x31\x30\x30\x30\x30\x30\x30\x5A\x30\x0D\x06\x09\x60\x86\x48\x01\x65\x03\x04\
    \x02\x01\x05\x00\x30\x1A\x30\x12\x04\x02\x01\x02\x31\x0C\x30\x0A\x06\x03\x2A\x03\x04\x31\x03\x04\x01\
    \x78\x30\x04\x04\x02\x01\x02\xA0\x02\x30\x00\x31\x00"
}

/// By hand: a trust list with nothing that may be absent.
fn short_list() -> &'static [u8] {
    b"\
    \x30\x47\x06\x09\x2A\x86\x48\x86\xF7\x0D\x01\x07\x02\xA0\x3A\x30\x38\x02\x01\x01\x31\x00\x30\x2F\x06\
    \x09\x2B\x06\x01\x04\x01\x82\x37\x0A\x01\xA0\x22\x30\x20\x30\x00\x17\x0D\x32\x36\x30\x31\x30\x31\x30\
    \x30\x30\x30\x30\x30\x5A\x30\x0D\x06\x09\x60\x86\x48\x01\x65\x03\x04\x02\x01\x05\x00\x31\x00"
}

/// The parts of indirect data are there.
fn are_at(alloc: Global, input: &[u8], wanted: &IndirectRanges) -> Result<(), Fail> {
    match indirect_ranges(alloc, input) {
        Ok(Some(found)) => expect(found == *wanted, "they are elsewhere"),
        Ok(None) => Err(Fail::new("there are none")),
        Err(_) => Err(Fail::new("they are refused")),
    }
}

#[test]
fn indirect_data_of_an_image(rt: HostRuntime) -> Result<(), Fail> {
    let wanted = IndirectRanges {
        ty: 44..54,
        value: Some(54..65),
        image: Some(ImageRanges {
            flags: Some(58..60),
            link: Some(62..65),
        }),
        digest_algorithm: 67..82,
        digest: 84..88,
    };
    are_at(rt.alloc(), of_an_image(), &wanted)
}

#[test]
fn indirect_data_without_a_value(rt: HostRuntime) -> Result<(), Fail> {
    let wanted = IndirectRanges {
        ty: 44..47,
        value: None,
        image: None,
        digest_algorithm: 49..64,
        digest: 66..67,
    };
    are_at(rt.alloc(), of_another_type(), &wanted)
}

#[test]
fn indirect_data_with_no_image(rt: HostRuntime) -> Result<(), Fail> {
    let wanted = IndirectRanges {
        ty: 44..54,
        value: Some(54..56),
        image: None,
        digest_algorithm: 58..73,
        digest: 75..76,
    };
    are_at(rt.alloc(), of_no_image(), &wanted)
}

#[test]
fn other_content_has_no_indirect_data(rt: HostRuntime) -> Result<(), Fail> {
    for input in [of_data(), short_list()] {
        match indirect_ranges(rt.alloc(), input) {
            Ok(found) => expect(found.is_none(), "it is indirect data")?,
            Err(_) => return Err(Fail::new("it is refused")),
        }
    }
    Ok(())
}

/// Each is refused where an element is missing, at the end of the contents.
#[test]
fn refused_indirect_data(rt: HostRuntime) -> Result<(), Fail> {
    match indirect_ranges(rt.alloc(), without_digest()) {
        Ok(_) => return Err(Fail::new("it is read")),
        Err(refusal) => expect(
            refusal == Refusal::Part(Error::Missing, 65),
            "another refusal",
        )?,
    }
    match indirect_ranges(rt.alloc(), b"\x30\x00\x00") {
        Ok(_) => Err(Fail::new("it is read")),
        Err(refusal) => expect(
            refusal == Refusal::Refused(Error::Missing, 2),
            "another refusal",
        ),
    }
}

/// The parts of a trust list are there.
fn is_at(alloc: Global, input: &[u8], wanted: &TrustListRanges) -> Result<(), Fail> {
    match trust_list_ranges(alloc, input) {
        Ok(Some(found)) => expect(found == *wanted, "they are elsewhere"),
        Ok(None) => Err(Fail::new("there is none")),
        Err(_) => Err(Fail::new("it is refused")),
    }
}

#[test]
fn a_trust_list_with_all_parts(rt: HostRuntime) -> Result<(), Fail> {
    let wanted = TrustListRanges {
        version: Some(42..43),
        usages: 43..50,
        list_identifier: Some(52..54),
        sequence_number: Some(56..57),
        this_update: 57..72,
        next_update: Some(72..89),
        algorithm: 89..104,
        extensions: Some(134..136),
    };
    is_at(rt.alloc(), long_list(), &wanted)
}

#[test]
fn a_trust_list_with_the_fewest_parts(rt: HostRuntime) -> Result<(), Fail> {
    let wanted = TrustListRanges {
        version: None,
        usages: 39..41,
        list_identifier: None,
        sequence_number: None,
        this_update: 41..56,
        next_update: None,
        algorithm: 56..71,
        extensions: None,
    };
    is_at(rt.alloc(), short_list(), &wanted)
}

/// The entries of a trust list are there.
fn entries_are(alloc: Global, input: &[u8], wanted: &[EntryRanges]) -> Result<(), Fail> {
    match trust_rows(alloc, input) {
        Ok(Some(found)) => expect(found.as_slice() == wanted, "they are elsewhere"),
        Ok(None) => Err(Fail::new("there are none")),
        Err(_) => Err(Fail::new("they are refused")),
    }
}

#[test]
fn entries_of_trust_lists(rt: HostRuntime) -> Result<(), Fail> {
    let first = EntryRanges {
        identifier: 110..112,
        attributes: Some(112..126),
    };
    let second = EntryRanges {
        identifier: 130..132,
        attributes: None,
    };
    entries_are(rt.alloc(), long_list(), &[first, second])?;
    entries_are(rt.alloc(), short_list(), &[])
}

#[test]
fn other_content_is_no_trust_list(rt: HostRuntime) -> Result<(), Fail> {
    match (
        trust_list_ranges(rt.alloc(), of_an_image()),
        trust_rows(rt.alloc(), of_data()),
    ) {
        (Ok(list), Ok(rows)) => expect(list.is_none() && rows.is_none(), "there is one"),
        _ => Err(Fail::new("it is refused")),
    }
}
