//! Calls that take no memory. The line of each says so, and what they are made from is named before that: a test
//! asks that no request is made after such a line, up to the next one, and that nothing changes where one is refused.

use crate::rounds::{Stop, expect, has_text, names};
use crate::runs::InMemory;
use crate::texts;
use x509_containers::{
    AlgorithmIdentifier, Attributes, AuthenticatedSafeDataRepr, BitString, BmpString,
    CertificateSet, CmsVersion, ContentInfo, DerDeserialize, DerTagged, EncapsulatedContentInfo,
    EqualByText, Error, GeneralProtectionDescriptor, GeneralizedTime, GeneralizedTimeAsn1,
    IA5String, Kind, MacData, ObjectIdentifier, OctetStringAsn1, ParsedAuthenticatedSafeDataRepr,
    Pbkdf2Prf, Pfx, Pkcs12DigestAlgorithm, RawAlgorithmIdentifier, RawAuthenticatedSafeDataRepr,
    RawPfx, Reader, RevocationInfoChoices, SignedData, Sink, Source, SpcPeImageData, StdSink,
    StdSource, Time, UTCTime, UTCTimeAsn1, UnsignedAttributes, Utf8String, Version, from_bytes,
    write_to,
};

/// Prints the name of a call that takes no memory, and is made next.
fn names_free(rt: &HostRuntime, call: &str) -> Result<(), Stop> {
    match println!(rt; "without memory: {call}") {
        Ok(()) => Ok(()),
        Err(_) => Err(Stop::Other("a name isn't printed")),
    }
}

/// Octets to make a value from.
fn octets(rt: &HostRuntime, octets: &[u8]) -> Result<Vec<u8>, Stop> {
    names(rt, "Vec::from_slice", "octets")?;
    Ok(Vec::from_slice(rt.alloc(), octets)?)
}

/// The contents octets of `id-hmacWithSHA256` and `id-sha256`, and these as algorithm identifiers without parameters.
const HMAC: &[u8] = b"\x2A\x86\x48\x86\xF7\x0D\x02\x09";

const SHA: &[u8] = b"\x60\x86\x48\x01\x65\x03\x04\x02\x01";

const BY_SHA: &[u8] = b"\x30\x0B\x06\x09\x60\x86\x48\x01\x65\x03\x04\x02\x01";

fn oid(rt: &HostRuntime, octets: &[u8]) -> Result<ObjectIdentifier, Stop> {
    names(rt, "ObjectIdentifier::from_octets", "an algorithm")?;
    let oid = ObjectIdentifier::from_octets(rt.alloc(), octets)?;
    names_free(rt, "ObjectIdentifier::octets")?;
    expect(oid.octets() == octets, "other octets")?;
    Ok(oid)
}

pub fn algorithms(rt: &HostRuntime) -> Result<(), Stop> {
    let oid = oid(rt, SHA)?;
    names_free(rt, "AlgorithmIdentifier::from_parts")?;
    let made = AlgorithmIdentifier::from_parts(oid, None);
    names_free(rt, "AlgorithmIdentifier::algorithm and parameters")?;
    expect(made.algorithm().octets() == SHA, "another algorithm")?;
    expect(made.parameters().is_none(), "parameters")?;
    has_text(&made, BY_SHA)
}

/// Asks for the parts of an algorithm identifier without parameters.
fn has_algorithm(
    rt: &HostRuntime,
    made: &RawAlgorithmIdentifier,
    octets: &[u8],
) -> Result<(), Stop> {
    names_free(rt, "RawAlgorithmIdentifier::algorithm and parameters")?;
    expect(made.algorithm().octets() == octets, "another algorithm")?;
    expect(made.parameters().is_none(), "parameters")
}

/// An algorithm identifier without parameters, and its getters.
fn raw(rt: &HostRuntime, octets: &[u8]) -> Result<RawAlgorithmIdentifier, Stop> {
    let oid = oid(rt, octets)?;
    names_free(rt, "RawAlgorithmIdentifier::from_parts")?;
    let made = RawAlgorithmIdentifier::from_parts(oid, None);
    has_algorithm(rt, &made, octets)?;
    Ok(made)
}

pub fn raw_algorithms(rt: &HostRuntime) -> Result<(), Stop> {
    let sha = raw(rt, SHA)?;
    names_free(rt, "Pkcs12DigestAlgorithm::from_raw")?;
    let digest = Pkcs12DigestAlgorithm::from_raw(sha);
    expect(digest == Pkcs12DigestAlgorithm::Sha256, "another digest")?;
    let hmac = raw(rt, HMAC)?;
    names_free(rt, "Pbkdf2Prf::from_raw")?;
    let function = Pbkdf2Prf::from_raw(hmac);
    expect(function == Pbkdf2Prf::HmacWithSha256, "another function")?;
    names_free(rt, "Pbkdf2Prf::default")?;
    expect(
        Pbkdf2Prf::default() == Pbkdf2Prf::HmacWithSha1,
        "another default",
    )
}

/// Words and numbers.
pub fn words(rt: &HostRuntime) -> Result<(), Stop> {
    names_free(rt, "CmsVersion::from_u8")?;
    expect(
        CmsVersion::from_u8(5) == Some(CmsVersion::V5),
        "another version",
    )?;
    expect(CmsVersion::from_u8(6).is_none(), "a version 6")?;
    names_free(rt, "Error::word")?;
    expect(Error::Invalid.word() == "invalid", "another word")?;
    names_free(rt, "Kind::from_word")?;
    expect(Kind::from_word("rawpfx").is_some(), "no kind")
}

/// Streams of std, which hold a reader or a writer.
pub fn streams(rt: &HostRuntime) -> Result<(), Stop> {
    names_free(rt, "StdSource::new and failures")?;
    let source = StdSource::new(b"AB".as_slice());
    expect(source.failures() == 0, "a failure of a source")?;
    names_free(rt, "StdSink::new and failures")?;
    let sink = StdSink::new(Vec::new(rt.alloc()));
    expect(sink.failures() == 0, "a failure of a sink")
}

/// Asks that no bytes are left after the value, which has this encoding.
fn is_whole<T: DerDeserialize>(value: &T, left: usize, text: &[u8]) -> Result<(), Stop> {
    expect(left == 0, "bytes are left")?;
    has_text(value, text)
}

/// Asks that the encoding is read whole, as a value that has it.
fn is_read<T: DerDeserialize>(rt: &HostRuntime, call: &str, text: &[u8]) -> Result<(), Stop> {
    names_free(rt, call)?;
    let mut r = Reader::new(text);
    let value = T::read(rt.alloc(), &mut r, 64)?;
    is_whole(&value, r.unread(), text)
}

/// Reading of types that hold no lists.
pub fn reads(rt: &HostRuntime) -> Result<(), Stop> {
    is_read::<u8>(rt, "u8::read", b"\x02\x01\x07")?;
    is_read::<u32>(rt, "u32::read", b"\x02\x05\x00\xFF\xFF\xFF\xFF")?;
    is_read::<CmsVersion>(rt, "CmsVersion::read", b"\x02\x01\x05")?;
    is_read::<Version>(rt, "Version::read", b"\x02\x01\x02")?;
    is_read::<Time>(rt, "Time::read", b"\x17\x0D210420065224Z")?;
    is_read::<Time>(rt, "Time::read", b"\x18\x0F20500101000000Z")?;
    is_read::<UTCTimeAsn1>(rt, "UTCTimeAsn1::read", b"\x17\x0D210420065224Z")?;
    let text = b"\x18\x0F20500101000000Z";
    is_read::<GeneralizedTimeAsn1>(rt, "GeneralizedTimeAsn1::read", text)
}

/// A SEQUENCE of the number 7, and NULL after it.
const NUMBER_AND_NULL: &[u8] = b"\x30\x03\x02\x01\x07\x05\x00";

/// A reader at the start of its input.
pub fn reader(rt: &HostRuntime) -> Result<(), Stop> {
    names_free(rt, "Reader::new, peek, left, unread and from_header")?;
    let r = Reader::new(NUMBER_AND_NULL);
    expect(r.peek() == Some(0x30) && r.left() == 7, "another input")?;
    expect(r.unread() == 7 && r.from_header() == 7, "another place")
}

/// A reader that goes over the elements of its input.
pub fn elements(rt: &HostRuntime) -> Result<(), Stop> {
    names_free(
        rt,
        "Reader::header, open, whole_element, end and headers_read",
    )?;
    let mut r = Reader::new(NUMBER_AND_NULL);
    let (_, len) = r.header()?;
    let outer = r.open(len);
    let item = r.whole_element()?;
    expect(item == b"\x02\x01\x07".as_slice(), "another element")?;
    r.end(outer)?;
    expect(r.headers_read() == 2, "other headers")?;
    names_free(rt, "Reader::contents")?;
    let left = r.left();
    let rest = r.contents(left);
    expect(rest == b"\x05\x00".as_slice(), "other contents")
}

/// The data of `authSafe`, with this encoding.
fn is_repr<R: AuthenticatedSafeDataRepr>(
    rt: &HostRuntime,
    repr: R::Repr,
    text: &[u8],
) -> Result<(), Stop> {
    names_free(rt, "repr_well_formed_at and repr_len")?;
    expect(R::repr_well_formed_at(&repr, 64), "an ill-formed value")?;
    expect(R::repr_len(&repr)? == text.len(), "another length")?;
    names_free(rt, "emit_repr")?;
    let mut sink = InMemory::new();
    expect(R::emit_repr(&repr, &mut sink).is_ok(), "a refusal")?;
    expect(sink.bytes() == text, "other bytes")?;
    names_free(rt, "from_repr")?;
    has_text(&R::from_repr(repr), text)
}

fn of_repr<R: AuthenticatedSafeDataRepr>(
    rt: &HostRuntime,
    name: &str,
    text: &[u8],
) -> Result<(), Stop> {
    names(rt, "from_bytes", name)?;
    let read: R = from_bytes(rt.alloc(), text)?;
    names_free(rt, "into_repr")?;
    is_repr::<R>(rt, read.into_repr(), text)
}

/// Both own representations.
pub fn representations(rt: &HostRuntime) -> Result<(), Stop> {
    let text = texts::ENCRYPTED;
    of_repr::<ParsedAuthenticatedSafeDataRepr>(rt, "ParsedAuthenticatedSafeDataRepr", text)?;
    of_repr::<RawAuthenticatedSafeDataRepr>(rt, "RawAuthenticatedSafeDataRepr", text)
}

/// Parts of values.
pub fn parts(rt: &HostRuntime) -> Result<(), Stop> {
    names(rt, "from_bytes", "ContentInfo")?;
    let info: ContentInfo = from_bytes(rt.alloc(), texts::CONTENT)?;
    names_free(rt, "ContentInfo::content")?;
    expect(
        info.content() == b"\x04\x02\x30\x00".as_slice(),
        "another content",
    )
}

pub fn covered(rt: &HostRuntime) -> Result<(), Stop> {
    names(rt, "from_bytes", "RawPfx")?;
    let file: RawPfx = from_bytes(rt.alloc(), texts::NAMED_KEY)?;
    names_free(rt, "RawPfx::mac_octets")?;
    expect(
        file.mac_octets() == texts::NAMED_KEY.get(22..),
        "other octets",
    )
}

/// Empty sets.
pub fn empty_sets(rt: &HostRuntime) -> Result<(), Stop> {
    let alloc = rt.alloc();
    names_free(rt, "Attributes::empty")?;
    has_text(&Attributes::empty(alloc), b"\xA0\x00")?;
    names_free(rt, "CertificateSet::empty")?;
    has_text(&CertificateSet::empty(alloc), b"\xA0\x00")?;
    names_free(rt, "RevocationInfoChoices::empty")?;
    has_text(&RevocationInfoChoices::empty(alloc), b"\xA1\x00")?;
    names_free(rt, "UnsignedAttributes::empty")?;
    has_text(&UnsignedAttributes::empty(alloc), b"\xA1\x00")
}

/// Octets as content of a foreign type.
pub fn content(rt: &HostRuntime) -> Result<(), Stop> {
    let oid = oid(rt, b"\x2A\x03\x04")?;
    let octets = octets(rt, b"\x01")?;
    names_free(rt, "EncapsulatedContentInfo::new")?;
    let made = EncapsulatedContentInfo::new(oid, Some(octets));
    has_text(&made, b"\x30\x0A\x06\x03\x2A\x03\x04\xA0\x03\x04\x01\x01")
}

/// Octets of the character set as strings.
pub fn bmp_strings(rt: &HostRuntime) -> Result<(), Stop> {
    let given = octets(rt, b"\x00A")?;
    names_free(rt, "BmpString::new and as_bytes")?;
    match BmpString::new(given) {
        Ok(made) => expect(made.as_bytes() == b"\x00A".as_slice(), "another BMPString"),
        Err(_) => Err(Stop::Other("no BMPString")),
    }
}

pub fn ia5_strings(rt: &HostRuntime) -> Result<(), Stop> {
    let given = octets(rt, b"A")?;
    names_free(rt, "IA5String::new and as_bytes")?;
    match IA5String::new(given) {
        Ok(made) => expect(made.as_bytes() == b"A".as_slice(), "another IA5String"),
        Err(_) => Err(Stop::Other("no IA5String")),
    }
}

pub fn utf8_strings(rt: &HostRuntime) -> Result<(), Stop> {
    let given = octets(rt, b"A")?;
    names_free(rt, "Utf8String::new and as_bytes")?;
    match Utf8String::new(given) {
        Ok(made) => expect(made.as_bytes() == b"A".as_slice(), "another UTF8String"),
        Err(_) => Err(Stop::Other("no UTF8String")),
    }
}

/// Bits of bytes, and bits that change.
pub fn bits(rt: &HostRuntime) -> Result<(), Stop> {
    let given = octets(rt, b"\x0A\x3B")?;
    names_free(rt, "BitString::with_bytes, payload and num_unused_bits")?;
    let bits = BitString::with_bytes(given);
    expect(bits.payload() == b"\x0A\x3B".as_slice(), "other bytes")?;
    expect(bits.num_unused_bits() == 0, "unused bits")
}

pub fn changed_bits(rt: &HostRuntime) -> Result<(), Stop> {
    names(rt, "BitString::with_len", "10 bits")?;
    let mut bits = BitString::with_len(rt.alloc(), 10)?;
    names_free(rt, "BitString::set and is_set")?;
    bits.set(9, true);
    expect(bits.is_set(9) && !bits.is_set(8), "another bit")?;
    expect(bits.payload() == b"\x00\x40".as_slice(), "other bytes")
}

/// A time of either type, and its parts.
pub fn utc_times(rt: &HostRuntime) -> Result<(), Stop> {
    names_free(rt, "UTCTime::new")?;
    let time = UTCTime::new(2021, 4, 20, 6, 52, 24);
    names_free(rt, "UTCTime::from_contents and ==")?;
    let read = UTCTime::from_contents(b"210420065224Z");
    expect(time == read, "another time")?;
    let Some(time) = time else {
        return Err(Stop::Other("no time"));
    };
    names_free(
        rt,
        "UTCTime::year, month, day, hour, minute, second and spelled",
    )?;
    let date = (time.year(), time.month(), time.day());
    expect(date == (2021, 4, 20), "another date")?;
    let moment = (time.hour(), time.minute(), time.second());
    expect(moment == (6, 52, 24), "another time of day")?;
    expect(time.spelled() == *b"210420065224Z", "other contents")
}

pub fn general_times(rt: &HostRuntime) -> Result<(), Stop> {
    names_free(rt, "GeneralizedTime::new")?;
    let time = GeneralizedTime::new(2050, 1, 2, 3, 4, 5);
    names_free(rt, "GeneralizedTime::from_contents and ==")?;
    let read = GeneralizedTime::from_contents(b"20500102030405Z");
    expect(time == read, "another time")?;
    let Some(time) = time else {
        return Err(Stop::Other("no time"));
    };
    names_free(
        rt,
        "GeneralizedTime::year, month, day, hour, minute, second and spelled",
    )?;
    let date = (time.year(), time.month(), time.day());
    expect(date == (2050, 1, 2), "another date")?;
    let moment = (time.hour(), time.minute(), time.second());
    expect(moment == (3, 4, 5), "another time of day")?;
    expect(time.spelled() == *b"20500102030405Z", "other contents")
}

/// Asks that a value is well-formed, and equal to itself.
fn is_well_formed<T: EqualByText>(rt: &HostRuntime, value: &T) -> Result<(), Stop> {
    names_free(rt, "well_formed, well_formed_at and ==")?;
    expect(
        value.well_formed() && value.well_formed_at(64),
        "an ill-formed value",
    )?;
    expect(value == value, "a value differs from itself")
}

/// Asks how long the encoding of a value is.
fn has_size<T: EqualByText>(rt: &HostRuntime, value: &T, size: usize) -> Result<(), Stop> {
    names_free(rt, "encoded_len")?;
    expect(value.encoded_len()? == size, "another length")
}

/// Asks that a sink refused nothing, and holds this text.
fn is_taken(is_accepted: bool, held: &[u8], text: &[u8]) -> Result<(), Stop> {
    expect(is_accepted, "a refusal")?;
    expect(held == text, "other bytes")
}

/// Sends a value by `write_to` into a sink that takes no memory.
fn is_written_to<T: EqualByText>(rt: &HostRuntime, value: &T, text: &[u8]) -> Result<(), Stop> {
    names_free(rt, "write_to")?;
    let mut sink = InMemory::new();
    let is_accepted = write_to(value, &mut sink).is_ok();
    is_taken(is_accepted, sink.bytes(), text)
}

/// Sends a value by `emit` into a sink that takes no memory.
fn is_emitted<T: EqualByText>(rt: &HostRuntime, value: &T, text: &[u8]) -> Result<(), Stop> {
    names_free(rt, "emit")?;
    let mut sink = InMemory::new();
    let is_accepted = value.emit(&mut sink).is_ok();
    is_taken(is_accepted, sink.bytes(), text)
}

/// Asks what a value is, and sends it, into sinks that take no memory.
fn is_sent<T: EqualByText>(rt: &HostRuntime, value: &T, text: &[u8]) -> Result<(), Stop> {
    is_well_formed(rt, value)?;
    has_size(rt, value, text.len())?;
    is_written_to(rt, value, text)?;
    is_emitted(rt, value, text)
}

fn of_value<T: DerDeserialize + EqualByText>(
    rt: &HostRuntime,
    name: &str,
    text: &[u8],
) -> Result<(), Stop> {
    names(rt, "from_bytes", name)?;
    let value: T = from_bytes(rt.alloc(), text)?;
    is_sent(rt, &value, text)
}

/// Values of PKCS #12.
pub fn store_values(rt: &HostRuntime) -> Result<(), Stop> {
    of_value::<MacData>(rt, "MacData", texts::MAC_DATA)?;
    of_value::<RawPfx>(rt, "RawPfx", texts::NAMED_KEY)?;
    of_value::<Pfx<ParsedAuthenticatedSafeDataRepr>>(rt, "Pfx", texts::STORE)
}

/// Values of PKCS #7 and Authenticode.
pub fn content_values(rt: &HostRuntime) -> Result<(), Stop> {
    of_value::<SignedData>(rt, "SignedData", texts::EMPTY_LISTS)?;
    of_value::<SpcPeImageData>(rt, "SpcPeImageData", texts::PAGE_RESOURCES)?;
    let name = "GeneralProtectionDescriptor";
    of_value::<GeneralProtectionDescriptor>(rt, name, texts::DESCRIPTOR)
}

/// A value under another tag.
pub fn tags(rt: &HostRuntime) -> Result<(), Stop> {
    let value = OctetStringAsn1(octets(rt, b"AB")?);
    names_free(rt, "emit_as")?;
    let mut sink = InMemory::new();
    expect(value.emit_as(0x80, &mut sink).is_ok(), "a refusal")?;
    expect(sink.bytes() == b"\x80\x02AB".as_slice(), "another tag")
}
