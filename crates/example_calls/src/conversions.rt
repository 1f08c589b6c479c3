//! Values made from others, call by call.

use crate::rounds::{Stop, expect, has_text, is_made, is_written, names};
use crate::texts;
use std::alloc::Global;
use x509_containers::prelude::ReadComponents;
use x509_containers::{
    Asn1SetOf, BitString, BitStringAsn1, BmpString, CertificateChoices, CertificateSet, CmsVersion,
    ContentInfo, DigestAlgorithmIdentifiers, EncapsulatedContentInfo, Error, ExplicitContextTag0,
    File, MAX_NESTING, ObjectIdentifier, ObjectIdentifierAsn1, OctetStringAsn1, Optional,
    ParsedAuthenticatedSafeDataRepr, Pbes1AlgorithmKind, Pbes2AesCbcEncryption, Pbkdf2Prf, Pfx,
    Pkcs7Certificate, Pkcs12DigestAlgorithm, Reader, SafeBag, SignedData, SignersInfos, SpcLink,
    SpcPeImageFlags, SpcSerializedObject, SpcString, SpcUuid, TryClone, from_bytes, mac_range,
};

/// Dotted texts and the contents octets of their object identifiers (X.660; X.690, 8.19).
const OBJECTS: [(&str, &[u8]); 4] = [
    ("1.2.3.4", b"\x2A\x03\x04"),
    ("0.39", b"\x27"),
    ("2.999.3", b"\x88\x37\x03"),
    (
        "1.2.18446744073709551615",
        b"\x2A\x81\xFF\xFF\xFF\xFF\xFF\xFF\xFF\xFF\x7F",
    ),
];

/// Object identifiers, from octets and text, and to text.
pub fn of_objects(rt: &HostRuntime) -> Result<(), Stop> {
    for (dotted, octets) in OBJECTS {
        names(rt, "ObjectIdentifier::from_octets", dotted)?;
        has_octets(&ObjectIdentifier::from_octets(rt.alloc(), octets)?, octets)?;
        names(rt, "ObjectIdentifier::from_text", dotted)?;
        let oid = ObjectIdentifier::from_text(rt.alloc(), dotted)?;
        has_octets(&oid, octets)?;
        is_dotted(rt, &oid, dotted, octets)?;
    }
    Ok(())
}

fn has_octets(oid: &ObjectIdentifier, octets: &[u8]) -> Result<(), Stop> {
    expect(oid.octets() == octets, "an object identifier")
}

/// Asks for the text of the object identifier, which stays as it was where memory is refused.
fn is_dotted(
    rt: &HostRuntime,
    oid: &ObjectIdentifier,
    dotted: &str,
    octets: &[u8],
) -> Result<(), Stop> {
    names(rt, "ObjectIdentifier::to_text", dotted)?;
    let text = oid.to_text(rt.alloc());
    has_octets(oid, octets)?;
    expect(text?.as_str() == dotted, "the text of an object identifier")
}

/// The kind of PBES1 as an object identifier, by its clone.
fn is_pbes1(rt: &HostRuntime, kind: &Pbes1AlgorithmKind, octets: &[u8]) -> Result<(), Stop> {
    names(rt, "Pbes1AlgorithmKind::to_oid", kind.name())?;
    let oid = kind.try_clone(rt.alloc())?.to_oid(rt.alloc())?;
    has_octets(&oid, octets)
}

/// The kind of AES as an object identifier, by its clone.
fn is_aes(rt: &HostRuntime, kind: &Pbes2AesCbcEncryption, octets: &[u8]) -> Result<(), Stop> {
    names(rt, "Pbes2AesCbcEncryption::to_oid", kind.name())?;
    let oid = kind.try_clone(rt.alloc())?.to_oid(rt.alloc())?;
    has_octets(&oid, octets)
}

/// Kinds of encryption as object identifiers.
pub fn of_encryptions(rt: &HostRuntime) -> Result<(), Stop> {
    is_pbes1(
        rt,
        &Pbes1AlgorithmKind::ShaAnd3Key3DesCbc,
        texts::TRIPLE_DES,
    )?;
    is_pbes1(rt, &Pbes1AlgorithmKind::ShaAnd40BitRc2Cbc, texts::RC2_40)?;
    is_aes(rt, &Pbes2AesCbcEncryption::Aes128, texts::AES_128)?;
    is_aes(rt, &Pbes2AesCbcEncryption::Aes192, texts::AES_192)?;
    is_aes(rt, &Pbes2AesCbcEncryption::Aes256, texts::AES_256)
}

/// The digest as an algorithm identifier.
fn is_digest(rt: &HostRuntime, known: Pkcs12DigestAlgorithm, text: &[u8]) -> Result<(), Stop> {
    names(rt, "Pkcs12DigestAlgorithm::into_raw", known.name())?;
    is_made(known.into_raw(rt.alloc()), text)
}

/// Known digests as algorithm identifiers.
pub fn of_digests(rt: &HostRuntime) -> Result<(), Stop> {
    is_digest(rt, Pkcs12DigestAlgorithm::Sha1, texts::SHA_1)?;
    is_digest(rt, Pkcs12DigestAlgorithm::Sha224, texts::SHA_224)?;
    is_digest(rt, Pkcs12DigestAlgorithm::Sha256, texts::SHA_256)?;
    is_digest(rt, Pkcs12DigestAlgorithm::Sha384, texts::SHA_384)?;
    is_digest(rt, Pkcs12DigestAlgorithm::Sha512, texts::SHA_512)
}

/// The pseudorandom function as an algorithm identifier.
fn is_function(rt: &HostRuntime, known: Pbkdf2Prf, text: &[u8]) -> Result<(), Stop> {
    names(rt, "Pbkdf2Prf::into_raw", known.name())?;
    is_made(known.into_raw(rt.alloc()), text)
}

/// Known pseudorandom functions as algorithm identifiers.
pub fn of_functions(rt: &HostRuntime) -> Result<(), Stop> {
    is_function(rt, Pbkdf2Prf::HmacWithSha1, texts::HMAC_WITH_SHA_1)?;
    is_function(rt, Pbkdf2Prf::HmacWithSha224, texts::HMAC_WITH_SHA_224)?;
    is_function(rt, Pbkdf2Prf::HmacWithSha256, texts::HMAC_WITH_SHA_256)?;
    is_function(rt, Pbkdf2Prf::HmacWithSha384, texts::HMAC_WITH_SHA_384)?;
    is_function(rt, Pbkdf2Prf::HmacWithSha512, texts::HMAC_WITH_SHA_512)
}

/// Defaults of links in Authenticode.
pub fn of_default_links(rt: &HostRuntime) -> Result<(), Stop> {
    names(rt, "default_in", "SpcLink")?;
    is_made(SpcLink::default_in(rt.alloc()), texts::OBSOLETE_FILE)?;
    names(rt, "default_in", "File")?;
    is_made(File::default_in(rt.alloc()), texts::OBSOLETE_FILE)
}

/// The other defaults of Authenticode.
pub fn of_defaults(rt: &HostRuntime) -> Result<(), Stop> {
    names(rt, "default_in", "SpcSerializedObject")?;
    is_made(
        SpcSerializedObject::default_in(rt.alloc()),
        texts::PAGE_HASHES,
    )?;
    names(rt, "default_in", "SpcUuid")?;
    is_made(SpcUuid::default_in(rt.alloc()), texts::PAGE_CLASS)?;
    names(rt, "default_in", "SpcPeImageFlags")?;
    is_made(SpcPeImageFlags::default_in(rt.alloc()), b"\x03\x02\x05\x80")
}

/// A text as a string of Authenticode, and bits that are 0.
pub fn of_strings(rt: &HostRuntime) -> Result<(), Stop> {
    names(rt, "String::from_str", "A☺")?;
    let text = String::from_str(rt.alloc(), "A☺")?;
    names(rt, "SpcString::try_from_string", "A☺")?;
    let string = SpcString::try_from_string(rt.alloc(), text)?;
    has_text(&string, b"\x80\x04\x00A\x26\x3A")?;
    names(rt, "BitString::with_len", "12 bits")?;
    let bits = BitStringAsn1(BitString::with_len(rt.alloc(), 12)?);
    has_text(&bits, b"\x03\x03\x04\x00\x00")
}

/// Data as content, of no octets and of two.
pub fn of_data(rt: &HostRuntime) -> Result<(), Stop> {
    names(rt, "EncapsulatedContentInfo::new_pkcs7_data", "no octets")?;
    is_made(
        EncapsulatedContentInfo::new_pkcs7_data(rt.alloc(), None),
        texts::NO_DATA,
    )?;
    names(rt, "Vec::from_slice", "two octets")?;
    let octets = Vec::from_slice(rt.alloc(), b"\x30\x00")?;
    names(rt, "EncapsulatedContentInfo::new_pkcs7_data", "two octets")?;
    is_made(
        EncapsulatedContentInfo::new_pkcs7_data(rt.alloc(), Some(octets)),
        texts::CONTENT,
    )
}

/// Content, read as a type.
pub fn of_contents(rt: &HostRuntime) -> Result<(), Stop> {
    let info: ContentInfo = is_written(rt, "ContentInfo", texts::CONTENT, texts::CONTENT)?;
    names(rt, "ContentInfo::content_typed", "OctetStringAsn1")?;
    let outcome = info.content_typed::<OctetStringAsn1>(rt.alloc());
    has_text(&info, texts::CONTENT)?;
    has_text(&outcome?, b"\x04\x02\x30\x00")
}

/// The certificates, one after another.
fn certificates_of(alloc: Global, octets: &[u8]) -> Result<Vec<CertificateChoices>, Error> {
    Vec::read_components(alloc, &mut Reader::new(octets), MAX_NESTING)
}

/// Signed data that hold the certificates alone.
fn bundle_of(
    alloc: Global,
    certificates: Vec<CertificateChoices>,
) -> Result<Pkcs7Certificate, Error> {
    Ok(Pkcs7Certificate {
        oid: ObjectIdentifierAsn1(ObjectIdentifier::from_text(alloc, "1.2.840.113549.1.7.2")?),
        signed_data: ExplicitContextTag0(SignedData {
            version: CmsVersion::V1,
            digest_algorithms: DigestAlgorithmIdentifiers(Asn1SetOf(Vec::new(alloc))),
            content_info: EncapsulatedContentInfo::new_pkcs7_data(alloc, None)?,
            certificates: Optional(CertificateSet(certificates)),
            crls: None,
            signers_infos: SignersInfos(Asn1SetOf(Vec::new(alloc))),
        }),
    })
}

/// Signed data made by fields: what docs/USING.md quotes.
pub fn of_certificates(rt: &HostRuntime) -> Result<(), Stop> {
    names(
        rt,
        "read_components, from_text and new_pkcs7_data",
        "signed data",
    )?;
    let certificates = certificates_of(rt.alloc(), texts::CERTIFICATES)?;
    is_made(bundle_of(rt.alloc(), certificates), texts::BUNDLE)
}

/// Which octets of a file its MAC covers.
pub fn of_ranges(rt: &HostRuntime) -> Result<(), Stop> {
    names(rt, "mac_range", "Pfx")?;
    let Some(range) = mac_range(rt.alloc(), texts::NAMED_KEY)? else {
        return Err(Stop::Other("a file has nothing that a MAC covers"));
    };
    expect(
        range.start == 22 && range.end == texts::NAMED_KEY.len(),
        "a MAC covers other octets",
    )
}

fn is_named(bags: &[&SafeBag], name: &BmpString) -> bool {
    match bags {
        [bag] => bag.friendly_name() == Some(name),
        _ => false,
    }
}

/// The text of a name, which stays as it was where memory is refused.
fn is_text_of(rt: &HostRuntime, name: &BmpString, bags: &[&SafeBag]) -> Result<(), Stop> {
    names(rt, "BmpString::to_text", "AB")?;
    let text = name.to_text(rt.alloc());
    expect(is_named(bags, name), "a borrowed name")?;
    expect(text?.as_str() == "AB", "the text of a name")
}

/// Asks for all bags of the file, which stays as it was where memory is refused, and for their names.
fn has_bags(
    rt: &HostRuntime,
    pfx: &Pfx<ParsedAuthenticatedSafeDataRepr>,
    name: &BmpString,
) -> Result<(), Stop> {
    names(rt, "all_bags", "Pfx")?;
    let outcome = pfx.all_bags(rt.alloc());
    has_text(pfx, texts::NAMED_KEY)?;
    let bags = outcome?;
    expect(is_named(&bags, name), "a file has other bags")?;
    is_text_of(rt, name, &bags)
}

/// All bags of a file, and their names, from text and to text.
pub fn of_bags(rt: &HostRuntime) -> Result<(), Stop> {
    names(rt, "BmpString::from_text", "AB")?;
    let name = BmpString::from_text(rt.alloc(), "AB")?;
    names(rt, "from_bytes", "Pfx")?;
    let pfx: Pfx<ParsedAuthenticatedSafeDataRepr> = from_bytes(rt.alloc(), texts::NAMED_KEY)?;
    has_bags(rt, &pfx, &name)
}
