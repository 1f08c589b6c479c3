//! Where the bags of a store are in the file, and where one is refused. The places are those that `openssl asn1parse`
//! shows, with the offsets of each OCTET STRING that it is given by -strparse.

use crate::stores::{
    half_name, no_bag, no_certificate, no_contents, no_data, no_id, no_key, no_key_octets, no_list,
    no_name, no_octets, no_other, no_safe, no_safe_contents, other_types, signed_store, store,
    two_ids, two_names,
};
use asn1_core::Error;
use bag_ranges::{BagKind, BagRanges, Refusal, bag_ranges};
use std::alloc::Global;
use std::ops::Range;
use std::test::Fail;
use vector_checks::checks::expect;

/// The bags of a file, which isn't refused.
fn found_in(alloc: Global, file: &[u8]) -> Result<Vec<BagRanges>, Fail> {
    match bag_ranges(alloc, file) {
        Ok(rows) => Ok(rows),
        Err(_) => Err(Fail::new("it is refused")),
    }
}

/// A row without attributes.
fn plain(kind: BagKind, level: u8, element: Range<usize>, value: Range<usize>) -> BagRanges {
    BagRanges {
        kind,
        level,
        element,
        value,
        friendly_name: None,
        local_key_id: None,
    }
}

/// The first certificate.
fn first_row() -> BagRanges {
    BagRanges {
        kind: BagKind::Certificate,
        level: 0,
        element: 61..155,
        value: 96..101,
        friendly_name: Some(120..136),
        local_key_id: Some(153..155),
    }
}

/// The shrouded key.
fn second_row() -> BagRanges {
    BagRanges {
        kind: BagKind::ShroudedKey,
        level: 0,
        element: 155..235,
        value: 172..214,
        friendly_name: None,
        local_key_id: Some(233..235),
    }
}

/// The outer SafeContents.
fn third_row() -> BagRanges {
    BagRanges {
        kind: BagKind::SafeContents,
        level: 0,
        element: 235..401,
        value: 253..376,
        friendly_name: Some(395..401),
        local_key_id: None,
    }
}

/// The certificate in two bags.
fn inner_row() -> BagRanges {
    BagRanges {
        kind: BagKind::Certificate,
        level: 2,
        element: 315..376,
        value: 350..355,
        friendly_name: Some(374..376),
        local_key_id: None,
    }
}

#[test]
fn all_rows(rt: HostRuntime) -> Result<(), Fail> {
    let rows = found_in(rt.alloc(), store())?;
    let [first, second, third, key, inside, inner, encrypted, secret] = rows.as_slice() else {
        return Err(Fail::new("another number of bags"));
    };
    expect(*first == first_row(), "the first certificate")?;
    expect(*second == second_row(), "the shrouded key")?;
    expect(*third == third_row(), "the outer SafeContents")?;
    let wanted = plain(BagKind::Key, 1, 255..296, 272..296);
    expect(*key == wanted, "the key in a bag")?;
    let wanted = plain(BagKind::SafeContents, 1, 296..376, 313..376);
    expect(*inside == wanted, "the inner SafeContents")?;
    expect(*inner == inner_row(), "the certificate in two bags")?;
    let wanted = plain(BagKind::Unread, 0, 401..453, 401..453);
    expect(*encrypted == wanted, "the encrypted contents")?;
    let wanted = plain(BagKind::Secret, 0, 472..500, 489..500);
    expect(*secret == wanted, "the secret")
}

/// The name "smile" with a character past U+FFFF, in UTF-16.
#[test]
fn the_name(rt: HostRuntime) -> Result<(), Fail> {
    let rows = found_in(rt.alloc(), store())?;
    let Some(first) = rows.first() else {
        return Err(Fail::new("no bags"));
    };
    let Some(name) = &first.friendly_name else {
        return Err(Fail::new("no name"));
    };
    expect(
        store().get(name.start..name.end) == Some(b"\0s\0m\0i\0l\0e\0 \xD8\x3D\xDE\x00"),
        "another name",
    )
}

/// A store whose authSafe isn't data has one row, and one without contents has none.
#[test]
fn other_stores(rt: HostRuntime) -> Result<(), Fail> {
    let rows = found_in(rt.alloc(), signed_store())?;
    let [only] = rows.as_slice() else {
        return Err(Fail::new("another number of bags"));
    };
    let wanted = plain(BagKind::Unread, 0, 5..22, 5..22);
    expect(*only == wanted, "the authSafe")?;
    let empty: &[u8] =
        b"\x30\x16\x02\x01\x03\x30\x11\x06\x09\x2A\x86\x48\x86\xF7\x0D\x01\x07\x01\xA0\x04\x04\x02\x30\x00";
    let rows = found_in(rt.alloc(), empty)?;
    expect(rows.is_empty(), "bags where there are none")
}

/// The SDSI certificate.
fn sdsi_row() -> BagRanges {
    BagRanges {
        kind: BagKind::OtherCertificate,
        level: 0,
        element: 52..134,
        value: 85..95,
        friendly_name: Some(114..116),
        local_key_id: Some(133..134),
    }
}

/// Certificates and revocation lists of other types aren't X.509 ones. Their values are whole elements.
#[test]
fn types(rt: HostRuntime) -> Result<(), Fail> {
    let rows = found_in(rt.alloc(), other_types())?;
    let [sdsi, other, certificate, list] = rows.as_slice() else {
        return Err(Fail::new("another number of bags"));
    };
    expect(*sdsi == sdsi_row(), "the SDSI certificate")?;
    let wanted = plain(BagKind::OtherCrl, 0, 134..165, 160..165);
    expect(*other == wanted, "the other list")?;
    let wanted = plain(BagKind::Certificate, 0, 165..204, 200..204);
    expect(*certificate == wanted, "the X.509 certificate")?;
    let wanted = plain(BagKind::Crl, 0, 204..242, 239..242);
    expect(*list == wanted, "the X.509 list")
}

/// A file is refused so.
fn is_refused(alloc: Global, file: &[u8], wanted: Refusal) -> Result<(), Fail> {
    match bag_ranges(alloc, file) {
        Ok(_) => Err(Fail::new("not refused")),
        Err(refusal) => expect(refusal == wanted, "refused otherwise"),
    }
}

#[test]
fn parts(rt: HostRuntime) -> Result<(), Fail> {
    let alloc = rt.alloc();
    is_refused(alloc, no_certificate(), Refusal::Part(Error::Missing, 115))?;
    is_refused(alloc, no_key(), Refusal::Part(Error::Invalid, 103))?;
    is_refused(alloc, no_list(), Refusal::Part(Error::Invalid, 76))?;
    is_refused(alloc, no_bag(), Refusal::Part(Error::Invalid, 62))?;
    is_refused(alloc, no_data(), Refusal::Part(Error::Missing, 37))
}

#[test]
fn other_parts(rt: HostRuntime) -> Result<(), Fail> {
    let alloc = rt.alloc();
    is_refused(alloc, no_other(), Refusal::Part(Error::Invalid, 74))?;
    is_refused(alloc, no_key_octets(), Refusal::Part(Error::Invalid, 88))?;
    is_refused(alloc, no_safe_contents(), Refusal::Part(Error::Invalid, 41))?;
    is_refused(alloc, no_octets(), Refusal::Part(Error::Invalid, 39))?;
    is_refused(alloc, no_contents(), Refusal::Part(Error::Malformed, 37))?;
    is_refused(alloc, no_safe(), Refusal::Part(Error::Invalid, 22))
}

#[test]
fn names_and_identifiers(rt: HostRuntime) -> Result<(), Fail> {
    let alloc = rt.alloc();
    is_refused(alloc, two_names(), Refusal::Part(Error::Invalid, 84))?;
    is_refused(alloc, two_ids(), Refusal::Part(Error::Invalid, 86))?;
    is_refused(alloc, half_name(), Refusal::Part(Error::Invalid, 81))?;
    is_refused(alloc, no_name(), Refusal::Part(Error::Invalid, 81))?;
    is_refused(alloc, no_id(), Refusal::Part(Error::Invalid, 64))
}

/// The last octet is missing, there is none, and the version is another.
#[test]
fn no_store(rt: HostRuntime) -> Result<(), Fail> {
    let alloc = rt.alloc();
    let Some(cut) = store().get(..499) else {
        return Err(Fail::new("the file is short"));
    };
    is_refused(alloc, cut, Refusal::Refused(Error::Malformed, 0))?;
    is_refused(alloc, b"", Refusal::Refused(Error::Missing, 0))?;
    let version: &[u8] =
        b"\x30\x16\x02\x01\x04\x30\x11\x06\x09\x2A\x86\x48\x86\xF7\x0D\x01\x07\x01\xA0\x04\x04\x02\x30\x00";
    is_refused(alloc, version, Refusal::Refused(Error::Invalid, 2))
}

/// One element around others.
fn element(alloc: Global, tag: u8, front: &[u8], contents: &[u8]) -> Result<Vec<u8>, Error> {
    let mut octets = Vec::new(alloc);
    let len = front.len().saturating_add(contents.len());
    octets.push(tag)?;
    if len > 255 {
        octets.extend_from_slice(&[0x82, (len / 256 % 256) as u8])?;
    } else if len > 127 {
        octets.push(0x81)?;
    }
    octets.push((len % 256) as u8)?;
    octets.extend_from_slice(front)?;
    octets.extend_from_slice(contents)?;
    Ok(octets)
}

/// The object identifier of data.
const DATA: &[u8] = b"\x06\x09\x2A\x86\x48\x86\xF7\x0D\x01\x07\x01";

/// A `ContentInfo` with data.
fn data(alloc: Global, octets: &[u8]) -> Result<Vec<u8>, Error> {
    let octets = element(alloc, 0x04, b"", octets)?;
    let content = element(alloc, 0xA0, b"", &octets)?;
    element(alloc, 0x30, DATA, &content)
}

/// A key, 41 octets.
const KEY: &[u8] =
    b"\x30\x27\x06\x0B\x2A\x86\x48\x86\xF7\x0D\x01\x0C\x0A\x01\x01\xA0\x18\x30\x16\x02\x01\x00\x30\x0E\x06\x0A\x2A\x86\x48\x86\xF7\x0D\x01\x01\x01\x01\x05\x00\x04\x01k";

/// The object identifier of a bag of bags.
const BAGS: &[u8] = b"\x06\x0B\x2A\x86\x48\x86\xF7\x0D\x01\x0C\x0A\x01\x06";

/// A store with a key in so many bags.
fn nested(alloc: Global, bags: usize) -> Result<Vec<u8>, Error> {
    let mut contents = element(alloc, 0x30, b"", KEY)?;
    for _ in 0..bags {
        let value = element(alloc, 0xA0, b"", &contents)?;
        let bag = element(alloc, 0x30, BAGS, &value)?;
        contents = element(alloc, 0x30, b"", &bag)?;
    }
    let content = data(alloc, &contents)?;
    let safe = element(alloc, 0x30, b"", &content)?;
    let file = data(alloc, &safe)?;
    element(alloc, 0x30, b"\x02\x01\x03", &file)
}

/// A bag may be in 64 others. The innermost SafeContents, with a key in 65, is the last 43 octets of the file.
#[test]
fn levels(rt: HostRuntime) -> Result<(), Fail> {
    let file = nested(rt.alloc(), 64)?;
    let rows = found_in(rt.alloc(), &file)?;
    expect(rows.len() == 65, "another number of bags")?;
    let len = file.len();
    let Some(last) = rows.last() else {
        return Err(Fail::new("no bags"));
    };
    let wanted = plain(
        BagKind::Key,
        64,
        len.saturating_sub(41)..len,
        len.saturating_sub(24)..len,
    );
    expect(*last == wanted, "the key")?;
    let file = nested(rt.alloc(), 65)?;
    let place = file.len().saturating_sub(43);
    is_refused(rt.alloc(), &file, Refusal::Part(Error::TooDeep, place))
}
