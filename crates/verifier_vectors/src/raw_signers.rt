//! What a verifier asks of signed data whose signers are of every version, over a file that `openssl cms -sign -keyid`,
//! `openssl cms -resign` and `openssl req -x509` made. Expected values are those that `openssl cms -cmsout -print` and
//! `openssl asn1parse` show.

use std::alloc::Global;
use std::test::Fail;
use vector_checks::checks::expect;
use x509_containers::{
    Asn1RawDer, Attributes, CertificateSet, DerSerialize, Error, ExplicitContextTag0,
    RawPkcs7Certificate, RawSignedData, RawSignerInfo, SignerIdentifier, TryClone,
    attribute_values, from_bytes, signer_certificates, to_vec,
};

/// "hello, world", with a signer that is named by a key, and one of version 1. The first certificate has 06 07 08 as
/// its key's identifier, and the serial number 2; the second one 01 02 03 04 05, and 1.
pub(crate) fn signed_file() -> &'static [u8] {
    b"\
    \x30\x82\x04\x44\x06\x09\x2A\x86\x48\x86\xF7\x0D\x01\x07\x02\xA0\x82\x04\x35\x30\x82\x04\x31\x02\x01\
    \x03\x31\x0D\x30\x0B\x06\x09\x60\x86\x48\x01\x65\x03\x04\x02\x01\x30\x1B\x06\x09\x2A\x86\x48\x86\xF7\
    \x0D\x01\x07\x01\xA0\x0E\x04\x0C\x68\x65\x6C\x6C\x6F\x2C\x20\x77\x6F\x72\x6C\x64\xA0\x82\x02\x3B\x30\
    \x82\x01\x19\x30\x81\xBF\xA0\x03\x02\x01\x02\x02\x01\x02\x30\x0A\x06\x08\x2A\x86\x48\xCE\x3D\x04\x03\
    \x02\x30\x0C\x31\x0A\x30\x08\x06\x03\x55\x04\x03\x0C\x01\x41\x30\x20\x17\x0D\x32\x36\x31\x31\x32\x37\
    \x31\x31\x35\x32\x33\x35\x5A\x18\x0F\x32\x31\x32\x36\x31\x31\x30\x33\x31\x31\x35\x32\x33\x35\x5A\x30\
    \x0C\x31\x0A\x30\x08\x06\x03\x55\x04\x03\x0C\x01\x41\x30\x59\x30\x13\x06\x07\x2A\x86\x48\xCE\x3D\x02\
    \x01\x06\x08\x2A\x86\x48\xCE\x3D\x03\x01\x07\x03\x42\x00\x04\x3B\x87\xEA\x4E\x88\x42\x2D\xE9\x20\x2A\
    \x21\xB6\x37\x4F\x6D\x30\xA4\xFE\x96\x35\xB8\x57\x7D\x19\x47\xA4\xC7\x75\xC7\xDF\xC1\x2F\x88\xD8\x60\
    \x8A\xE7\xED\x68\x2B\x49\x00\xBB\x3F\xFA\x14\x13\x2F\x6D\x24\x66\x08\x26\x8C\xA4\x01\xDB\x76\x5E\x35\
    \x26\x4C\x7D\x79\xA3\x10\x30\x0E\x30\x0C\x06\x03\x55\x1D\x0E\x04\x05\x04\x03\x06\x07\x08\x30\x0A\x06\
    \x08\x2A\x86\x48\xCE\x3D\x04\x03\x02\x03\x49\x00\x30\x46\x02\x21\x00\xB3\x93\x0B\xA7\x35\x3D\x64\xE8\
    \x0B\x47\x51\x06\x8F\x7D\xC4\x08\x80\x3A\x64\x28\x89\x71\x4F\x60\x34\x39\x5B\xEB\xA7\x79\x0B\xDE\x02\
    \x21\x00\xEE\x16\x65\x45\xFD\x36\xE3\xB3\xCB\xD7\xB4\x23\x65\xD8\x79\x14\x71\xBE\x0A\xF9\x23\xDF\xB5\
    \xC3\x96\xD3\x53\x36\xD4\x43\xBB\xDF\x30\x82\x01\x1A\x30\x81\xC1\xA0\x03\x02\x01\x02\x02\x01\x01\x30\
    \x0A\x06\x08\x2A\x86\x48\xCE\x3D\x04\x03\x02\x30\x0C\x31\x0A\x30\x08\x06\x03\x55\x04\x03\x0C\x01\x41\
    \x30\x20\x17\x0D\x32\x36\x31\x31\x32\x37\x31\x31\x35\x32\x33\x35\x5A\x18\x0F\x32\x31\x32\x36\x31\x31\
    \x30\x33\x31\x31\x35\x32\x33\x35\x5A\x30\x0C\x31\x0A\x30\x08\x06\x03\x55\x04\x03\x0C\x01\x41\x30\x59\
    \x30\x13\x06\x07\x2A\x86\x48\xCE\x3D\x02\x01\x06\x08\x2A\x86\x48\xCE\x3D\x03\x01\x07\x03\x42\x00\x04\
    \x78\x9B\xFA\xD5\x2C\x06\x2B\x33\xDD\x7F\x0A\x68\x75\x81\x1D\x80\xCC\x8C\x6A\x75\xE3\x02\xA9\xEA\x7B\
    \xE6\xE0\xD4\xB1\x85\xC0\x57\xC2\xA8\x16\x1D\x2F\x85\x46\x85\xE0\x4B\x6F\xC6\xB9\x5A\x25\xAD\xAE\xEF\
    \x95\x81\x2D\xDC\x9A\xBD\x3D\x2A\x35\x00\x5F\x26\xEB\x53\xA3\x12\x30\x10\x30\x0E\x06\x03\x55\x1D\x0E\
    \x04\x07\x04\x05\x01\x02\x03\x04\x05\x30\x0A\x06\x08\x2A\x86\x48\xCE\x3D\x04\x03\x02\x03\x48\x00\x30\
    \x45\x02\x21\x00\x98\x08\x1B\xDB\xAD\x72\x73\x60\x37\xA3\xB3\x50\xFB\x77\x9D\xB1\xD4\x59\x35\x3C\x8D\
    \xE8\xCB\x95\x99\x83\xF0\xE6\x5B\x86\x70\xB2\x02\x20\x7E\xC4\xDC\x39\x22\xE5\x39\xF7\x92\x2E\x82\x5C\
    \x85\xFA\x4D\xBD\x08\xFA\xC7\xB8\x78\xA8\xFA\x0E\x8E\xEA\x87\x7C\x8B\xAE\x48\x53\x31\x82\x01\xBF\x30\
    \x81\xD5\x02\x01\x03\x80\x03\x06\x07\x08\x30\x0B\x06\x09\x60\x86\x48\x01\x65\x03\x04\x02\x01\xA0\x69\
    \x30\x18\x06\x09\x2A\x86\x48\x86\xF7\x0D\x01\x09\x03\x31\x0B\x06\x09\x2A\x86\x48\x86\xF7\x0D\x01\x07\
    \x01\x30\x1C\x06\x09\x2A\x86\x48\x86\xF7\x0D\x01\x09\x05\x31\x0F\x17\x0D\x32\x36\x31\x31\x32\x37\x31\
    \x31\x35\x32\x33\x35\x5A\x30\x2F\x06\x09\x2A\x86\x48\x86\xF7\x0D\x01\x09\x04\x31\x22\x04\x20\x09\xCA\
    \x7E\x4E\xAA\x6E\x8A\xE9\xC7\xD2\x61\x16\x71\x29\x18\x48\x83\x64\x4D\x07\xDF\xBA\x7C\xBF\xBC\x4C\x8A\
    \x2E\x08\x36\x0D\x5B\x30\x0A\x06\x08\x2A\x86\x48\xCE\x3D\x04\x03\x02\x04\x47\x30\x45\x02\x20\x13\xDD\
    \x36\xC9\x8B\x42\x5D\xBF\x3C\xCA\x16\x34\xD3\x03\x49\x2F\xF9\x2F\x48\x1E\xAA\xF2\xD9\x88\x1B\x4A\x5D\
    \x2E\xBE\x27\x87\xF6\x02\x21\x00\xC8\xB4\x2D\xB3\x6B\x39\x40\x5B\x15\x67\xC8\xBF\x55\xEE\x19\x01\x13\
    \x73\x93\xFB\xF3\x84\x46\x98\xF5\xF3\x51\x14\xD6\x55\xDE\x6A\x30\x81\xE4\x02\x01\x01\x30\x11\x30\x0C\
    \x31\x0A\x30\x08\x06\x03\x55\x04\x03\x0C\x01\x41\x02\x01\x01\x30\x0B\x06\x09\x60\x86\x48\x01\x65\x03\
    \x04\x02\x01\xA0\x69\x30\x18\x06\x09\x2A\x86\x48\x86\xF7\x0D\x01\x09\x03\x31\x0B\x06\x09\x2A\x86\x48\
    \x86\xF7\x0D\x01\x07\x01\x30\x1C\x06\x09\x2A\x86\x48\x86\xF7\x0D\x01\x09\x05\x31\x0F\x17\x0D\x32\x36\
    \x31\x31\x32\x37\x31\x31\x35\x32\x33\x35\x5A\x30\x2F\x06\x09\x2A\x86\x48\x86\xF7\x0D\x01\x09\x04\x31\
    \x22\x04\x20\x09\xCA\x7E\x4E\xAA\x6E\x8A\xE9\xC7\xD2\x61\x16\x71\x29\x18\x48\x83\x64\x4D\x07\xDF\xBA\
    \x7C\xBF\xBC\x4C\x8A\x2E\x08\x36\x0D\x5B\x30\x0A\x06\x08\x2A\x86\x48\xCE\x3D\x04\x03\x02\x04\x48\x30\
    \x46\x02\x21\x00\x80\x36\xD4\x75\x51\x1B\x7A\x9E\x3A\x62\xEA\xC7\x56\xAE\x26\xB8\x01\x87\x59\xAD\xA2\
    \x64\x0C\x74\xF2\xA0\x72\xD9\xF0\xCB\x4D\xCB\x02\x21\x00\xA8\xFA\x70\x5E\xF5\x8F\xAC\xD6\x4A\x71\x63\
    \xEA\x46\x20\x8C\xF3\x7E\xE5\x84\x45\xED\x87\xC4\xA4\xD0\x0C\x88\x40\x7D\x71\xD6\x9F"
}

/// The digest of "hello, world" by SHA-256.
const DIGEST: &[u8] = b"\
    \x04\x20\x09\xCA\x7E\x4E\xAA\x6E\x8A\xE9\xC7\xD2\x61\x16\x71\x29\x18\x48\x83\x64\x4D\x07\xDF\xBA\x7C\
    \xBF\xBC\x4C\x8A\x2E\x08\x36\x0D\x5B";

const ID_DATA: &[u8] = b"\x06\x09\x2A\x86\x48\x86\xF7\x0D\x01\x07\x01";

const TIME: &[u8] = b"\x17\x0D261127115235Z";

/// A signer by hand. Its unsigned attributes are a nested signature, NULL; a time stamp of Microsoft's, 9; two nested
/// signatures, 5 and an empty SEQUENCE; two time stamps of RFC 3161, 7 and 8.
const STAMPED: &[u8] = b"\
    \x30\x69\x02\x01\x03\x80\x01\x07\x30\x05\x06\x03\x2A\x03\x04\x30\x05\x06\x03\x2A\x03\x04\x04\x00\xA1\
    \x51\x30\x10\x06\x0A\x2B\x06\x01\x04\x01\x82\x37\x02\x04\x01\x31\x02\x05\x00\x30\x11\x06\x0A\x2B\x06\
    \x01\x04\x01\x82\x37\x03\x03\x01\x31\x03\x02\x01\x09\x30\x13\x06\x0A\x2B\x06\x01\x04\x01\x82\x37\x02\
    \x04\x01\x31\x05\x02\x01\x05\x30\x00\x30\x15\x06\x0B\x2A\x86\x48\x86\xF7\x0D\x01\x09\x10\x02\x0E\x31\
    \x06\x02\x01\x07\x02\x01\x08";

/// The object identifier of nested signatures.
const NESTED: &[u8] = b"\x2B\x06\x01\x04\x01\x82\x37\x02\x04\x01";

fn read_file(alloc: Global) -> Result<RawPkcs7Certificate, Error> {
    from_bytes(alloc, signed_file())
}

#[test]
fn hashed(rt: HostRuntime) -> Result<(), Fail> {
    let file = read_file(rt.alloc())?;
    let hashed = file.signed_data.0.content_info.hashed_octets()?;
    expect(hashed == Some(b"hello, world".as_slice()), "other octets")
}

fn with_content(
    mut file: RawPkcs7Certificate,
    content: Option<ExplicitContextTag0<Asn1RawDer>>,
) -> RawPkcs7Certificate {
    file.signed_data.0.content_info.content = content;
    file
}

/// Asks of the hashed octets of a file's content, after its content is another element or bytes.
fn is_hashed_as(
    alloc: Global,
    content: &[u8],
    wanted: Result<Option<&[u8]>, Error>,
) -> Result<(), Fail> {
    let content = ExplicitContextTag0(Asn1RawDer(Vec::from_slice(alloc, content)?));
    let file = with_content(read_file(alloc)?, Some(content));
    let hashed = file.signed_data.0.content_info.hashed_octets();
    expect(hashed == wanted, "other octets")
}

/// Whatever the element is, and no other bytes.
#[test]
fn hashed_of_elements(rt: HostRuntime) -> Result<(), Fail> {
    is_hashed_as(
        rt.alloc(),
        b"\x30\x02\x05\x00",
        Ok(Some(b"\x05\x00".as_slice())),
    )?;
    is_hashed_as(rt.alloc(), b"\x04\x00", Ok(Some(b"".as_slice())))?;
    is_hashed_as(rt.alloc(), b"\x04\x00\x00", Err(Error::Invalid))?;
    is_hashed_as(rt.alloc(), b"\x04", Err(Error::Invalid))
}

#[test]
fn hashed_of_absent_content(rt: HostRuntime) -> Result<(), Fail> {
    let file = with_content(read_file(rt.alloc())?, None);
    let hashed = file.signed_data.0.content_info.hashed_octets()?;
    expect(hashed.is_none(), "some octets")
}

fn are_integers(found: &[&Asn1RawDer], wanted: &[u8]) -> bool {
    if found.len() != wanted.len() {
        return false;
    }
    for (element, number) in found.iter().zip(wanted) {
        if element.0.as_slice() != [0x02, 0x01, *number].as_slice() {
            return false;
        }
    }
    true
}

#[test]
fn time_stamps(rt: HostRuntime) -> Result<(), Fail> {
    let signer: RawSignerInfo = from_bytes(rt.alloc(), STAMPED)?;
    let found = signer.time_stamps(rt.alloc())?;
    expect(are_integers(&found, &[7, 8, 9]), "other time stamps")
}

fn is_nested(found: &[&Asn1RawDer]) -> bool {
    match found {
        [first, number, last] => {
            first.0.as_slice() == b"\x05\x00".as_slice()
                && number.0.as_slice() == b"\x02\x01\x05".as_slice()
                && last.0.as_slice() == b"\x30\x00".as_slice()
        }
        _ => false,
    }
}

#[test]
fn nested(rt: HostRuntime) -> Result<(), Fail> {
    let signer: RawSignerInfo = from_bytes(rt.alloc(), STAMPED)?;
    let found = signer.nested_signatures(rt.alloc())?;
    expect(is_nested(&found), "other nested signatures")?;
    let all = attribute_values(rt.alloc(), &signer.unsigned_attrs.0.0, NESTED)?;
    expect(is_nested(&all), "other values")
}

/// The signers of the file have neither.
#[test]
fn none_of_these(rt: HostRuntime) -> Result<(), Fail> {
    let file = read_file(rt.alloc())?;
    for signer in &file.signed_data.0.signers_infos.0.0 {
        let stamps = signer.time_stamps(rt.alloc())?;
        expect(stamps.is_empty(), "a time stamp")?;
        let nested = signer.nested_signatures(rt.alloc())?;
        expect(nested.is_empty(), "a nested signature")?;
    }
    Ok(())
}

/// Asks that a value is found, with this encoding.
fn is_found<T: DerSerialize + Drop>(
    alloc: Global,
    found: Option<T>,
    text: &[u8],
) -> Result<(), Fail> {
    let Some(value) = found else {
        return Err(Fail::new("nothing is found"));
    };
    let octets = to_vec(alloc, &value)?;
    expect(octets.as_slice() == text, "another encoding")
}

/// What both signers sign beside the content.
#[test]
fn signed_attributes(rt: HostRuntime) -> Result<(), Fail> {
    let alloc = rt.alloc();
    let file = read_file(alloc)?;
    for signer in &file.signed_data.0.signers_infos.0.0 {
        let signed = &signer.signed_attrs.0;
        is_found(alloc, signed.message_digest(alloc)?, DIGEST)?;
        is_found(alloc, signed.content_type(alloc)?, ID_DATA)?;
        is_found(alloc, signed.signing_time(alloc)?, TIME)?;
    }
    Ok(())
}

/// A digest without value, with two, of another type, and two digests.
#[test]
fn wrong_digests(rt: HostRuntime) -> Result<(), Fail> {
    let wrong: [&[u8]; 4] = [
        b"\xA0\x0F\x30\x0D\x06\x09\x2A\x86\x48\x86\xF7\x0D\x01\x09\x04\x31\x00",
        b"\xA0\x13\x30\x11\x06\x09\x2A\x86\x48\x86\xF7\x0D\x01\x09\x04\x31\x04\x04\x00\x04\x00",
        b"\xA0\x11\x30\x0F\x06\x09\x2A\x86\x48\x86\xF7\x0D\x01\x09\x04\x31\x02\x05\x00",
        b"\xA0\x22\x30\x0F\x06\x09\x2A\x86\x48\x86\xF7\x0D\x01\x09\x04\x31\x02\x04\x00\
        \x30\x0F\x06\x09\x2A\x86\x48\x86\xF7\x0D\x01\x09\x04\x31\x02\x04\x00",
    ];
    for octets in wrong {
        let attributes: Attributes = from_bytes(rt.alloc(), octets)?;
        let refused = attributes.message_digest(rt.alloc()).err();
        expect(refused == Some(Error::Invalid), "not refused")?;
    }
    Ok(())
}

/// Asks for the certificates of both signers, and of a signer that names none, in another order.
fn are_found(
    alloc: Global,
    signed: &RawSignedData,
    certificates: &CertificateSet,
) -> Result<(), Fail> {
    let stranger: SignerIdentifier = from_bytes(alloc, b"\x80\x02\x06\x07")?;
    let mut names = Vec::new(alloc);
    names.push(&stranger)?;
    for signer in &signed.signers_infos.0.0 {
        names.push(&signer.sid)?;
    }
    let found = signer_certificates(alloc, &certificates.0, &names)?;
    let octets = octets_of(alloc, found)?;
    let Some(both) = signed_file().get(74..645) else {
        return Err(Fail::new("the file has no certificates"));
    };
    let mut wanted = Vec::from_slice(alloc, b"\x00")?;
    wanted.extend_from_slice(both)?;
    expect(octets.as_slice() == wanted.as_slice(), "other certificates")
}

/// The octets of what is found, one after another, and a zero octet for each signer of whom there is no certificate.
fn octets_of(alloc: Global, found: Vec<Option<&Asn1RawDer>>) -> Result<Vec<u8>, Error> {
    let mut octets = Vec::new(alloc);
    for element in found {
        match element {
            Some(element) => octets.extend_from_slice(element.0.as_slice())?,
            None => octets.push(0)?,
        }
    }
    Ok(octets)
}

#[test]
fn certificates_of_all(rt: HostRuntime) -> Result<(), Fail> {
    let file = read_file(rt.alloc())?;
    let signed = &file.signed_data.0;
    are_found(rt.alloc(), signed, &signed.certificates.0)
}

/// The certificates after others that aren't read as certificates.
fn after_others(alloc: Global, certificates: &CertificateSet) -> Result<CertificateSet, Error> {
    let mut all: CertificateSet = from_bytes(alloc, b"\xA0\x04\x30\x00\xA1\x00")?;
    for certificate in &certificates.0 {
        all.0.push(certificate.try_clone(alloc)?)?;
    }
    Ok(all)
}

fn are_found_after_others(alloc: Global, signed: &RawSignedData) -> Result<(), Fail> {
    let all = after_others(alloc, &signed.certificates.0)?;
    are_found(alloc, signed, &all)
}

#[test]
fn certificates_after_others(rt: HostRuntime) -> Result<(), Fail> {
    let file = read_file(rt.alloc())?;
    are_found_after_others(rt.alloc(), &file.signed_data.0)
}
