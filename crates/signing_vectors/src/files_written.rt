//! Each file is written of its parts, which are given in another order than the file's.

use crate::files::{
    attached, certificates, each_choice, element, four_signers, keyed, listed, plain, two_signers,
    two_signers_head,
};
use crate::given::{DATA, OTHER, SHORT, by_ecdsa, detached, short, written};
use crate::parts::{
    attached_attributes, attached_signature, certificate_a, certificate_b, certificate_c,
    element_attributes, element_signature, element_unsigned, keyed_attributes, keyed_signature,
    list_of_a, plain_signature, two_attributes, two_signature_a, two_signature_b,
};
use signed_writers::{Content, ContentInfo, Identifier, Signer};
use std::test::Fail;
use vector_checks::checks::expect;

/// Content of that type.
fn holding<'a>(content_type: &'a [u8], content: Content<'a>) -> ContentInfo<'a> {
    ContentInfo {
        content_type,
        content: Some(content),
    }
}

fn is_file(text: &[u8], wanted: &[u8]) -> Result<(), Fail> {
    expect(text == wanted, "it is written otherwise")
}

#[test]
fn of_octets(rt: HostRuntime) -> Result<(), Fail> {
    let signer = by_ecdsa(
        Identifier::Certificate(certificate_a()),
        Some(attached_attributes()),
        attached_signature(),
    );
    let text = written(
        rt.alloc(),
        &holding(DATA, Content::Octets(b"octets")),
        &[certificate_a()],
        &[],
        &[signer],
    )?;
    is_file(&text, attached())
}

#[test]
fn of_a_key_identifier(rt: HostRuntime) -> Result<(), Fail> {
    let key = b"\x7E\xF5\x4E\x77\xFD\xE5\x1E\x4E\x16\x19\x61\xAD\xE4\xB5\x5B\x3C\x53\xEF\xEF\x6E";
    let signer = by_ecdsa(
        Identifier::Key(key),
        Some(keyed_attributes()),
        keyed_signature(),
    );
    let text = written(
        rt.alloc(),
        &holding(OTHER, Content::Octets(b"octets")),
        &[certificate_b()],
        &[],
        &[signer],
    )?;
    is_file(&text, keyed())
}

/// A signer of the file that two have signed.
fn one_of_two(certificate: &'static [u8], signature: &'static [u8]) -> Signer<'static> {
    by_ecdsa(
        Identifier::Certificate(certificate),
        Some(two_attributes()),
        signature,
    )
}

#[test]
fn of_two_signers(rt: HostRuntime) -> Result<(), Fail> {
    let signers = [
        one_of_two(certificate_b(), two_signature_b()),
        one_of_two(certificate_a(), two_signature_a()),
    ];
    let text = written(
        rt.alloc(),
        &detached(DATA),
        &[certificate_b(), certificate_c(), certificate_a()],
        &[],
        &signers,
    )?;
    expect(
        text.as_slice().strip_prefix(two_signers_head()) == Some(two_signers()),
        "it is written otherwise",
    )
}

#[test]
fn without_attributes(rt: HostRuntime) -> Result<(), Fail> {
    let signer = by_ecdsa(
        Identifier::Certificate(certificate_a()),
        None,
        plain_signature(),
    );
    let text = written(
        rt.alloc(),
        &detached(DATA),
        &[certificate_a()],
        &[],
        &[signer],
    )?;
    is_file(&text, plain())
}

#[test]
fn without_signers(rt: HostRuntime) -> Result<(), Fail> {
    let text = written(
        rt.alloc(),
        &detached(DATA),
        &[certificate_c(), certificate_a()],
        &[],
        &[],
    )?;
    is_file(&text, certificates())
}

/// A certificate that is given twice is written twice.
#[test]
fn with_a_list(rt: HostRuntime) -> Result<(), Fail> {
    let text = written(
        rt.alloc(),
        &detached(DATA),
        &[certificate_a(), certificate_a()],
        &[list_of_a()],
        &[],
    )?;
    is_file(&text, listed())
}

#[test]
fn of_an_element(rt: HostRuntime) -> Result<(), Fail> {
    let mut signer = by_ecdsa(
        Identifier::Certificate(certificate_b()),
        Some(element_attributes()),
        element_signature(),
    );
    signer.unsigned_attributes = Some(element_unsigned());
    let content = Content::Element(b"\x30\x06\x02\x01\x07\x0C\x01x");
    let text = written(rt.alloc(), &holding(OTHER, content), &[], &[], &[signer])?;
    is_file(&text, element())
}

#[test]
fn of_each_choice(rt: HostRuntime) -> Result<(), Fail> {
    let text = written(
        rt.alloc(),
        &detached(DATA),
        &[
            b"\xA3\x00",
            b"\x30\x03\x02\x01\x01",
            b"\xA2\x03\x02\x01\x01",
            b"\x30\x00",
            b"\xA0\x00",
            b"\x30\x00",
            b"\xA1\x00",
        ],
        &[
            b"\xA1\x03\x02\x01\x01",
            b"\x30\x03\x02\x01\x01",
            b"\x30\x00",
            b"\x30\x03\x02\x01\x01",
        ],
        &[],
    )?;
    is_file(&text, each_choice())
}

/// Digest algorithms that are equal are written once; other sets have what is given twice twice.
#[test]
fn of_four_signers(rt: HostRuntime) -> Result<(), Fail> {
    let with_null = Signer {
        identifier: Identifier::Key(b"k"),
        digest_algorithm: b"\x30\x06\x06\x02\x2A\x03\x05\x00",
        signed_attributes: None,
        signature_algorithm: SHORT,
        signature: b"",
        unsigned_attributes: None,
    };
    let signers = [
        short(Identifier::Key(b"kk")),
        short(Identifier::Key(b"k")),
        with_null,
        short(Identifier::Key(b"k")),
    ];
    let text = written(rt.alloc(), &detached(DATA), &[], &[], &signers)?;
    is_file(&text, four_signers())
}
