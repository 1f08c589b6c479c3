//! Times of writing, sending, reading and cloning, each as a ratio to a copy of the same bytes.

ghost use Rattle.std.specs.Prelude.{None};

use asn1_core::{
    Asn1SequenceOf, DerDeserialize, DerSerialize, Error, ExplicitContextTag0, Sink, TryClone,
    from_bytes, to_vec,
};
use asn1_leaves::{BmpStringAsn1, IA5StringAsn1};
use std::alloc::Global;
use std::io;
use std::time::Instant;
use thiserror::Error as ThisError;
use x509_base::{Extensions, Name};
use x509_containers::{CertificateList, ParsedAuthenticatedSafeDataRepr, Pfx, RawPfx, SignedData};

/// How often each call is timed; the shortest time counts.
const ROUNDS: u32 = 30;

/// Two extensions of 20 octets, of which one is critical.
const EXTENSIONS: &[u8] = b"\
    \x30\x1E\x06\x03\x55\x04\x03\x01\x01\xFF\x04\x14\x07\x07\x07\x07\x07\x07\x07\x07\x07\x07\x07\x07\
    \x07\x07\x07\x07\x07\x07\x07\x07\x30\x1B\x06\x03\x55\x04\x03\x04\x14\x07\x07\x07\x07\x07\x07\x07\
    \x07\x07\x07\x07\x07\x07\x07\x07\x07\x07\x07\x07\x07";

/// An algorithm without parameters.
const ALGORITHM: &[u8] = b"\x30\x05\x06\x03\x2A\x03\x04";

/// An entry of a revocation list: a number of sixteen octets, a time and a reason.
const REVOKED: &[u8] = b"\
    \x30\x2F\x02\x10\x07\x07\x07\x07\x07\x07\x07\x07\x07\x07\x07\x07\x07\x07\x07\x07\x17\x0D\x32\x31\
    \x30\x34\x32\x30\x30\x36\x35\x32\x32\x34\x5A\x30\x0C\x30\x0A\x06\x03\x55\x1D\x15\x04\x03\x0A\x01\
    \x01";

/// What a revocation list begins with: an algorithm, a name of no parts and a time.
const ISSUED: &[u8] = b"\
    \x30\x05\x06\x03\x2A\x03\x04\x30\x00\x17\x0D\x32\x31\x30\x34\x32\x30\x30\x36\x35\x32\x32\x34\x5A";

/// What signed data begin with: version 1, no digests, and the content type of data.
const UNSIGNED: &[u8] = b"\
    \x02\x01\x01\x31\x00\x30\x0B\x06\x09\x2A\x86\x48\x86\xF7\x0D\x01\x07\x01";

/// What a signer begins with: version 1, a number, algorithms and a signed attribute.
const SIGNER: &[u8] = b"\
    \x02\x01\x01\x30\x05\x30\x00\x02\x01\x07\x30\x05\x06\x03\x2A\x03\x04\xA0\x0E\x30\x0C\x06\x03\x2A\
    \x03\x04\x31\x05\x06\x03\x2A\x03\x05\x30\x05\x06\x03\x2A\x03\x04";

/// A set of one part of a name.
const PARTS: &[u8] = b"\
    \x31\x15\x30\x13\x06\x03\x55\x04\x03\x04\x0C\x07\x07\x07\x07\x07\x07\x07\x07\x07\x07\x07\x07";

/// The content type of data.
const DATA: &[u8] = b"\x06\x09\x2A\x86\x48\x86\xF7\x0D\x01\x07\x01";

/// The type of bags with certificates, and that of X.509 certificates in them.
const CERTIFICATE_BAG: &[u8] = b"\x06\x0B\x2A\x86\x48\x86\xF7\x0D\x01\x0C\x0A\x01\x03";

const X509_CERTIFICATE: &[u8] = b"\x06\x0A\x2A\x86\x48\x86\xF7\x0D\x01\x09\x16\x01";

/// The type of bags with keys.
const KEY_BAG: &[u8] = b"\x06\x0B\x2A\x86\x48\x86\xF7\x0D\x01\x0C\x0A\x01\x01";

/// A set of one local key identifier.
const ATTRIBUTES: &[u8] = b"\
    \x31\x25\x30\x23\x06\x09\x2A\x86\x48\x86\xF7\x0D\x01\x09\x15\x31\x16\x04\x14\x07\x07\x07\x07\x07\
    \x07\x07\x07\x07\x07\x07\x07\x07\x07\x07\x07\x07\x07\x07\x07";

/// Why nothing more was measured.
#[derive(Debug, Drop, ThisError)]
pub enum Failure {
    #[error("{0}")]
    Der(#[from] Error),
    #[error("{0}")]
    Clock(#[from] io::Error),
    #[error("not all of a text was sent")]
    Sending,
}

/// Keeps the shortest of the times, in nanoseconds.
#[derive(Drop)]
struct Shortest(u64);

impl Shortest {
    fn take(&mut self, rt: &HostRuntime, start: &Instant) -> Result<(), Failure> {
        let nanos = start.elapsed(rt)?.as_nanos();
        if nanos < u128::from(self.0) {
            self.0 = nanos as u64;
        }
        Ok(())
    }

    /// The time in hundredths of another.
    fn percent(&self, of: &Shortest) -> u64 {
        (u128::from(self.0) * 100 / u128::from(of.0.max(1))).min(1_000_000_000) as u64
    }
}

/// Takes all that it is given, and adds up the lengths and the writes.
#[derive(Drop)]
struct Counter {
    taken: usize,
    writes: usize,
}

impl Sink for Counter {
    ghost received = { λ _. None };

    ghost failed = { λ _. 0 };

    fn write(&mut self, buf: &[u8]) -> io::Result<usize> {
        self.taken = self.taken.saturating_add(buf.len());
        self.writes = self.writes.saturating_add(1);
        Ok(buf.len())
    }

    fn failures(&self) -> u64 {
        0
    }
}

fn copy_time(rt: &HostRuntime, bytes: &[u8]) -> Result<Shortest, Failure> {
    let mut best = Shortest(u64::MAX);
    for _ in 0..ROUNDS {
        let start = Instant::now(rt)?;
        let _copy = Vec::from_slice(rt.alloc(), bytes).map_err(Error::from)?;
        best.take(rt, &start)?;
    }
    Ok(best)
}

fn write_time<T: DerSerialize>(rt: &HostRuntime, value: &T) -> Result<Shortest, Failure> {
    let mut best = Shortest(u64::MAX);
    for _ in 0..ROUNDS {
        let start = Instant::now(rt)?;
        let _text = to_vec(rt.alloc(), value)?;
        best.take(rt, &start)?;
    }
    Ok(best)
}

/// The time of sending a value whose encoding has that many bytes, and in how many writes it was sent.
fn send_time<T: DerSerialize>(
    rt: &HostRuntime,
    value: &T,
    size: usize,
) -> Result<(Shortest, usize), Failure> {
    let mut best = Shortest(u64::MAX);
    let mut writes = 0;
    for _ in 0..ROUNDS {
        let mut sink = Counter {
            taken: 0,
            writes: 0,
        };
        let start = Instant::now(rt)?;
        let Ok(()) = value.emit(&mut sink) else {
            return Err(Failure::Sending);
        };
        best.take(rt, &start)?;
        if sink.taken != size {
            return Err(Failure::Sending);
        }
        writes = sink.writes;
    }
    Ok((best, writes))
}

fn read_time<T: DerDeserialize>(rt: &HostRuntime, bytes: &[u8]) -> Result<(T, Shortest), Failure> {
    let mut best = Shortest(u64::MAX);
    let mut value = from_bytes::<T>(rt.alloc(), bytes)?;
    for _ in 0..ROUNDS {
        let start = Instant::now(rt)?;
        value = from_bytes(rt.alloc(), bytes)?;
        best.take(rt, &start)?;
    }
    Ok((value, best))
}

fn clone_time<T: TryClone>(rt: &HostRuntime, value: &T) -> Result<Shortest, Failure> {
    let mut best = Shortest(u64::MAX);
    for _ in 0..ROUNDS {
        let start = Instant::now(rt)?;
        let _copy = value.try_clone(rt.alloc())?;
        best.take(rt, &start)?;
    }
    Ok(best)
}

/// Prints one line: the ratios of the calls for the value of an encoding to a copy of the encoding, in hundredths.
fn measure<T: DerDeserialize + TryClone>(
    rt: &HostRuntime,
    name: &str,
    bytes: &[u8],
) -> Result<(), Failure> {
    let (value, read) = read_time::<T>(rt, bytes)?;
    let copy = copy_time(rt, bytes)?;
    let size = bytes.len();
    let nanos = copy.0;
    let written = write_time(rt, &value)?.percent(&copy);
    let (sending, writes) = send_time(rt, &value, size)?;
    let sent = sending.percent(&copy);
    let read = read.percent(&copy);
    let cloned = clone_time(rt, &value)?.percent(&copy);
    println!(rt;
        "{name}: {size} bytes, copy {nanos} ns; in % of it: to_vec {written}, emit {sent} ({writes} writes), from_bytes {read}, try_clone {cloned}"
    )?;
    Ok(())
}

/// The bytes, so many times.
fn repeated(alloc: Global, bytes: &[u8], count: usize) -> Result<Vec<u8>, Error> {
    let mut all = Vec::new(alloc);
    for _ in 0..count {
        all.extend_from_slice(bytes)?;
    }
    Ok(all)
}

/// An element with that tag, of contents of less than 16 MB.
fn element(alloc: Global, tag: u8, first: &[u8], then: &[u8]) -> Result<Vec<u8>, Error> {
    let len = first.len().saturating_add(then.len());
    let [.., high, middle, low] = len.to_be_bytes();
    let mut text = Vec::new(alloc);
    text.push(tag)?;
    if len < 128 {
        text.push(low)?;
    } else if len < 256 {
        text.extend_from_slice(&[0x81, low])?;
    } else if len < 65536 {
        text.extend_from_slice(&[0x82, middle, low])?;
    } else {
        text.extend_from_slice(&[0x83, high, middle, low])?;
    }
    text.extend_from_slice(first)?;
    text.extend_from_slice(then)?;
    Ok(text)
}

/// An element with that tag, of so many octets.
fn octets(alloc: Global, tag: u8, size: usize) -> Result<Vec<u8>, Error> {
    element(alloc, tag, &repeated(alloc, &[7], size)?, &[])
}

/// So many extensions, an even number.
fn extensions(alloc: Global, count: usize) -> Result<Vec<u8>, Error> {
    element(alloc, 0x30, &repeated(alloc, EXTENSIONS, count / 2)?, &[])
}

fn revocation_list(alloc: Global, count: usize) -> Result<Vec<u8>, Error> {
    let entries = element(alloc, 0x30, &repeated(alloc, REVOKED, count)?, &[])?;
    let list = element(alloc, 0x30, ISSUED, &entries)?;
    let mut signature = Vec::from_slice(alloc, ALGORITHM)?;
    signature.extend_from_slice(b"\x03\x01\x00")?;
    element(alloc, 0x30, &list, &signature)
}

/// Signed data with so many certificates of 1,224 bytes, and as many signers.
fn signed_data(alloc: Global, count: usize) -> Result<Vec<u8>, Error> {
    let signer = element(alloc, 0x30, SIGNER, &octets(alloc, 0x04, 256)?)?;
    let certificates = repeated(alloc, &extensions(alloc, 40)?, count)?;
    let certificates = element(alloc, 0xA0, &certificates, &[])?;
    let signers = element(alloc, 0x31, &repeated(alloc, &signer, count)?, &[])?;
    let mut parts = Vec::from_slice(alloc, UNSIGNED)?;
    parts.extend_from_slice(&certificates)?;
    element(alloc, 0x30, &parts, &signers)
}

fn name(alloc: Global, count: usize) -> Result<Vec<u8>, Error> {
    element(alloc, 0x30, &repeated(alloc, PARTS, count)?, &[])
}

/// The bytes as data under their content type.
fn content(alloc: Global, bytes: &[u8]) -> Result<Vec<u8>, Error> {
    let octets = element(alloc, 0x04, bytes, &[])?;
    element(alloc, 0x30, DATA, &element(alloc, 0xA0, &octets, &[])?)
}

/// A PFX around these data.
fn pfx(alloc: Global, data: &[u8]) -> Result<Vec<u8>, Error> {
    element(alloc, 0x30, b"\x02\x01\x03", &content(alloc, data)?)
}

/// A PFX with so many bags of that type, each around an element and with a local key identifier.
fn store(alloc: Global, kind: &[u8], received: &[u8], count: usize) -> Result<Vec<u8>, Error> {
    let mut parts = Vec::from_slice(alloc, kind)?;
    parts.extend_from_slice(&element(alloc, 0xA0, received, &[])?)?;
    let bag = element(alloc, 0x30, &parts, ATTRIBUTES)?;
    let bags = element(alloc, 0x30, &repeated(alloc, &bag, count)?, &[])?;
    pfx(alloc, &element(alloc, 0x30, &content(alloc, &bags)?, &[])?)
}

/// A certificate in a bag, of so many octets.
fn certificate(alloc: Global, size: usize) -> Result<Vec<u8>, Error> {
    let octets = element(alloc, 0xA0, &octets(alloc, 0x04, size)?, &[])?;
    element(alloc, 0x30, X509_CERTIFICATE, &octets)
}

type Store = Pfx<ParsedAuthenticatedSafeDataRepr>;

type Four<T> = ExplicitContextTag0<
    ExplicitContextTag0<ExplicitContextTag0<ExplicitContextTag0<T>>>,
>;

type Numbers = Asn1SequenceOf<u32>;

/// So many numbers of three bytes, under so many explicit tags.
fn numbers(alloc: Global, count: usize, tags: usize) -> Result<Vec<u8>, Error> {
    let items = repeated(alloc, b"\x02\x01\x07", count)?;
    let mut text = element(alloc, 0x30, &items, &[])?;
    for _ in 0..tags {
        text = element(alloc, 0xA0, &text, &[])?;
    }
    Ok(text)
}

/// Prints one line: the times of writing and of sending so many numbers under so many tags, each in hundredths of
/// another such time.
fn measure_writing<T: DerDeserialize>(
    rt: &HostRuntime,
    count: usize,
    tags: usize,
    writing: &Shortest,
    sending: &Shortest,
) -> Result<(), Failure> {
    let text = numbers(rt.alloc(), count, tags)?;
    let value: T = from_bytes(rt.alloc(), &text)?;
    let size = text.len();
    let written = write_time(rt, &value)?.percent(writing);
    let sent = send_time(rt, &value, size)?.0.percent(sending);
    println!(rt;
        "numbers, {tags} tags: {size} bytes; in % of the times of 10000 numbers under none: to_vec {written}, emit {sent}"
    )?;
    Ok(())
}

/// Many small items under no tag and under four, and then four times as many.
fn measure_numbers(rt: &HostRuntime) -> Result<(), Failure> {
    let few: Numbers = from_bytes(rt.alloc(), &numbers(rt.alloc(), 10_000, 0)?)?;
    let written = write_time(rt, &few)?;
    let (sent, _) = send_time(rt, &few, few.encoded_len()?)?;
    for count in [10_000, 40_000] {
        measure_writing::<Numbers>(rt, count, 0, &written, &sent)?;
        measure_writing::<Four<Numbers>>(rt, count, 4, &written, &sent)?;
    }
    Ok(())
}

/// As `measure`, of an encoding that was made.
fn measure_made<T: DerDeserialize + TryClone>(
    rt: &HostRuntime,
    name: &str,
    made: Result<Vec<u8>, Error>,
) -> Result<(), Failure> {
    measure::<T>(rt, name, &made?)
}

fn measure_lists(rt: &HostRuntime) -> Result<(), Failure> {
    let alloc = rt.alloc();
    measure_made::<Extensions>(rt, "extensions, 20000", extensions(alloc, 20_000))?;
    let list = revocation_list(alloc, 20_000);
    measure_made::<CertificateList>(rt, "revocation list, 20000", list)?;
    measure_made::<SignedData>(rt, "signed data, 100", signed_data(alloc, 100))?;
    measure_made::<Name>(rt, "name, 2000 parts", name(alloc, 2_000))
}

/// A PFX of so many octets.
fn large_store(alloc: Global, size: usize) -> Result<Vec<u8>, Error> {
    pfx(alloc, &octets(alloc, 0x04, size)?)
}

/// A store of so many certificates, each of 1,200 octets.
fn certificate_store(alloc: Global, count: usize) -> Result<Vec<u8>, Error> {
    store(alloc, CERTIFICATE_BAG, &certificate(alloc, 1_200)?, count)
}

/// A store of so many keys, each of 40 octets.
fn key_store(alloc: Global, count: usize) -> Result<Vec<u8>, Error> {
    store(alloc, KEY_BAG, &octets(alloc, 0x04, 40)?, count)
}

fn measure_stores(rt: &HostRuntime) -> Result<(), Failure> {
    let alloc = rt.alloc();
    measure_made::<RawPfx>(rt, "raw pfx, 1 MB", large_store(alloc, 1_000_000))?;
    measure_made::<Store>(rt, "pfx, 100 certificates", certificate_store(alloc, 100))?;
    measure_made::<Store>(rt, "pfx, 10000 bags", key_store(alloc, 10_000))
}

fn measure_strings(rt: &HostRuntime) -> Result<(), Failure> {
    let alloc = rt.alloc();
    measure_made::<IA5StringAsn1>(rt, "IA5 string, 100000", octets(alloc, 0x16, 100_000))?;
    measure_made::<BmpStringAsn1>(rt, "BMP string, 100000", octets(alloc, 0x1E, 100_000))
}

/// Prints a line for each value that is measured.
pub fn measure_all(rt: &HostRuntime) -> Result<(), Failure> {
    measure_lists(rt)?;
    measure_stores(rt)?;
    measure_strings(rt)?;
    measure_numbers(rt)
}
