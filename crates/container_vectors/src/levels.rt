//! Values inside one another that are built: their encodings and levels.

use asn1_core::{
    Asn1SetOf, DerDeserialize, EqualByText, Error, ObjectIdentifier, ObjectIdentifierAsn1,
    Optional, TryClone, from_bytes, to_vec,
};
use std::alloc::Global;
use std::test::Fail;
use vector_checks::checks::expect;
use x509_containers::{
    SafeBag, SafeBagKind, SafeContents, SignerInfo, UnsignedAttribute, UnsignedAttributeValue,
    UnsignedAttributes,
};

/// Asks of a value of so many levels that it is well-formed at these and at no fewer.
fn is_well_formed<T: DerDeserialize>(value: &T, levels: u8) -> Result<(), Fail> {
    expect(value.well_formed() == (levels <= 64), "what is well-formed")?;
    expect(value.well_formed_at(levels), "it has more levels")?;
    match levels.checked_sub(1) {
        Some(fewer) => expect(!value.well_formed_at(fewer), "it has fewer levels"),
        None => Ok(()),
    }
}

/// Asks besides for the size of its encoding, that it is cloned, and that up to 64 levels are read.
fn has_levels<T: DerDeserialize + EqualByText + TryClone>(
    alloc: Global,
    value: &T,
    levels: u8,
    size: usize,
) -> Result<(), Fail> {
    is_well_formed(value, levels)?;
    expect(value.encoded_len()? == size, "another length")?;
    expect(value.try_clone(alloc)? == *value, "another clone")?;
    let text = to_vec(alloc, value)?;
    expect(text.len() == size, "another size")?;
    let outcome: Result<T, Error> = from_bytes(alloc, &text);
    if levels <= 64 {
        return expect(outcome? == *value, "another value is read");
    }
    expect(outcome.err() == Some(Error::TooDeep), "another refusal")
}

/// The contents in a bag of kind SafeContents.
fn in_a_bag(alloc: Global, contents: SafeContents) -> Result<SafeContents, Error> {
    let bag = SafeBag {
        kind: SafeBagKind::SafeContents(contents),
        attributes: None,
    };
    Ok(SafeContents(Vec::from_array(alloc, [bag])?))
}

/// Empty contents in that many bags of kind SafeContents.
fn nested(alloc: Global, levels: u8) -> Result<SafeContents, Error> {
    let mut contents = SafeContents(Vec::new(alloc));
    for _ in 0..levels {
        contents = in_a_bag(alloc, contents)?;
    }
    Ok(contents)
}

/// Asks besides for as many bags as levels.
fn has_levels_of_bags(
    alloc: Global,
    contents: &SafeContents,
    levels: u8,
    size: usize,
) -> Result<(), Fail> {
    has_levels(alloc, contents, levels, size)?;
    let bags = contents.all_bags(alloc)?;
    expect(bags.len() == usize::from(levels), "other bags")
}

/// Values of any number of levels are written and cloned, and up to 64 levels are read.
#[test]
fn levels_of_bags(rt: HostRuntime) -> Result<(), Fail> {
    for (levels, size) in [(0u8, 2), (1, 21), (64, 1546), (65, 1571), (200, 4946)] {
        let contents = nested(rt.alloc(), levels)?;
        has_levels_of_bags(rt.alloc(), &contents, levels, size)?;
    }
    Ok(())
}

/// A signer by a key identifier of no octets.
const SIGNER: &[u8] = b"\
    \x30\x15\x02\x01\x01\x80\x00\x30\x05\x06\x03\x2A\x03\x04\x30\x05\x06\x03\x2A\x03\x04\x04\x00";

/// The object identifier of counter signatures (RFC 5652, 11.4).
const COUNTER_SIGNATURE: &[u8] = b"\x2A\x86\x48\x86\xF7\x0D\x01\x09\x06";

/// An attribute with one counter signature.
fn attribute_of(alloc: Global, signer: SignerInfo) -> Result<UnsignedAttribute, Error> {
    let mut signers = Vec::new(alloc);
    signers.push(signer)?;
    let ty = ObjectIdentifier::from_octets(alloc, COUNTER_SIGNATURE)?;
    Ok(UnsignedAttribute {
        ty: ObjectIdentifierAsn1(ty),
        value: UnsignedAttributeValue::CounterSign(Asn1SetOf(signers)),
    })
}

fn with_attributes(mut signer: SignerInfo, attributes: Vec<UnsignedAttribute>) -> SignerInfo {
    signer.unsigned_attrs = Optional(UnsignedAttributes(attributes));
    signer
}

/// A signer with that counter signature.
fn countersigned(alloc: Global, inner: SignerInfo) -> Result<SignerInfo, Error> {
    let attributes = Vec::from_array(alloc, [attribute_of(alloc, inner)?])?;
    Ok(with_attributes(from_bytes(alloc, SIGNER)?, attributes))
}

/// A signer with that many counter signatures inside one another.
fn with_levels(alloc: Global, levels: u8) -> Result<SignerInfo, Error> {
    let mut signer = from_bytes(alloc, SIGNER)?;
    for _ in 0..levels {
        signer = countersigned(alloc, signer)?;
    }
    Ok(signer)
}

/// Around a counter signature, a level has the 21 octets of a signer, the 11 of the attribute's type, and four headers:
/// those of the set in the attribute, of the attribute, of the set of attributes, and of the signer. A header has 2
/// octets, 3 where its contents have 128 or more, and 4 where they have 256 or more.
#[test]
fn levels_of_counter_signatures(rt: HostRuntime) -> Result<(), Fail> {
    for (levels, size) in [(0u8, 23), (1, 63), (64, 3061), (65, 3109), (200, 9589)] {
        let signer = with_levels(rt.alloc(), levels)?;
        has_levels(rt.alloc(), &signer, levels, size)?;
    }
    Ok(())
}
