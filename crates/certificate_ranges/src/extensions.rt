//! Where a certificate's extensions are, and the identifier of its key among them (RFC 5280, 4.2.1.2).

ghost use Rattle.std.specs.Prelude.{◌≡◌, None, map, MatchOption, MatchResult};
ghost use Rattle.std.specs.List.{find};
ghost use Rattle.std.specs.Str.{bytes_eq};
ghost use Rattle.asn1_core.specs.Der.{ElementOctets, IsValueOf};
ghost use Rattle.asn1_core_element.specs.declared.error.Error.TheVariants.{Memory};
ghost use Rattle.certificate_ranges.specs.CertificateRoutes.{in_element, in_extension};
ghost use Rattle.certificate_ranges.specs.Certificates.{certificate, octets_in};
ghost use Rattle.certificate_ranges.specs.Indices.{IsFirstAt};
ghost use Rattle.certificate_ranges.specs.Ranges.{AreExtensionsAt, FindsIdentifier, IsKeyIdentifierAt, IsRangeIf};
ghost use Rattle.pkcs7_verifier.specs.Heads.{certificate_head_value};
ghost use Rattle.pkcs7_verifier.specs.KeyIdentifiers.{extension_with, has_tag};
ghost use Rattle.x509_base.specs.Extensions.{extension_value};

use crate::keys::without_answer;
use crate::parts::range_where;
use crate::steps::steps;
use asn1_core::{Asn1RawDer, Error, OctetStringAsn1, from_bytes};
use asn1_core_oid::is_oid_of;
use asn1_located::Step;
use pkcs7_verifier::CertificateHead;
use std::alloc::Global;
use std::ops::Range;
use x509_base::Extension;

/// `id-ce-subjectKeyIdentifier`
const SUBJECT_KEY_IDENTIFIER: [u8; 3] = [0x55, 0x1D, 0x0E];

/// Whether the element has that tag.
fn is_tagged(element: &Asn1RawDer, tag: u8) -> bool
    ensures { result ≡ has_tag tag element.now.0.items }
{
    match element.0.as_slice() {
        [first, ..] => *first == tag,
        [] => false,
    }
}

/// The index of the first element with that tag.
fn first_tagged(elements: &[Asn1RawDer], tag: u8) -> Option<usize>
    ensures { MatchOption result
        (find (has_tag tag) (map octets_in elements.now) ≡ None)
        (λ i. (x : ElementOctets) × IsFirstAt (has_tag tag) (map octets_in elements.now) i x) }
{
    for (index, element) in elements.iter().enumerate() {
        if is_tagged(element, tag) {
            return Some(index);
        }
    }
    None
}

/// An extension, and its index.
#[derive(Clone, Copy)]
struct Indexed<'a> {
    index: usize,
    extension: &'a Extension,
}

/// The first extension with an object identifier, which is given by its contents octets.
fn first_extension<'a>(extensions: &'a [Extension], oid: &[u8]) -> Option<Indexed<'a>>
    ensures { MatchOption result
        (extension_with oid.now (map extension_value extensions.now) ≡ None)
        (λ found. IsFirstAt (λ e. bytes_eq e.0 oid.now) (map extension_value extensions.now) found.index (extension_value found.extension.now)) }
{
    for (index, extension) in extensions.iter().enumerate() {
        if is_oid_of(&extension.extn_id.0, oid) {
            return Some(Indexed { index, extension });
        }
    }
    None
}

/// What is in the element with an index after the key.
fn in_element(input: &[u8], index: usize) -> Range<usize>
    ensures { IsRangeIf (in_element index).steps input.now result }
{
    range_where(
        input,
        &steps![
            Inside Element Inside Past(0xA0) After After After After After After
            Nth(index) Element Inside
        ],
    )
}

/// The octets of the OCTET STRING that is the value of the extension with an index in that element.
fn in_extension(input: &[u8], index: usize, extension: usize) -> Range<usize>
    ensures { IsRangeIf (in_extension index extension).steps input.now result }
{
    range_where(
        input,
        &steps![
            Inside Element Inside Past(0xA0) After After After After After After
            Nth(index) Element Inside Inside
            Nth(extension) Element Inside After Past(0x01) Element Inside Inside
        ],
    )
}

/// What is in the first element under `[3]` after the key. `None` where there is no such element.
pub(crate) fn extensions_range(input: &[u8], head: &CertificateHead) -> Option<Range<usize>>
    requires { IsValueOf certificate 64 input.now (certificate_head_value head.now) }
    ensures { AreExtensionsAt input.now (certificate_head_value head.now) result }
{
    match first_tagged(&head.tbs_certificate.rest, 0xA3) {
        Some(element) => Some(in_element(input, element)),
        None => None,
    }
}

/// The identifier of the key in the element with an index after the key, which holds these extensions. `None` where there
/// is none, or one that is no OCTET STRING. Refuses by `Memory` alone.
fn identifier_in(
    alloc: Global,
    input: &[u8],
    element: usize,
    extensions: &[Extension],
) -> Result<Option<Range<usize>>, Error>
    ensures { MatchResult result
        (λ r. FindsIdentifier input.now element (map extension_value extensions.now) r)
        (λ e. e ≡ Memory) }
{
    let Some(found) = first_extension(extensions, &SUBJECT_KEY_IDENTIFIER) else {
        return Ok(None);
    };
    match from_bytes::<OctetStringAsn1>(alloc, found.extension.extn_value.0.as_slice()) {
        Ok(_identifier) => Ok(Some(in_extension(input, element, found.index))),
        Err(error) => {
            without_answer(error)?;
            Ok(None)
        }
    }
}

/// The octets of the first `subjectKeyIdentifier`. `None` where there is none, or where extensions or identifier don't
/// read as their types. Refuses by `Memory` alone.
pub(crate) fn key_identifier_range(
    alloc: Global,
    input: &[u8],
    head: &CertificateHead,
) -> Result<Option<Range<usize>>, Error>
    requires { IsValueOf certificate 64 input.now (certificate_head_value head.now) }
    ensures { MatchResult result
        (λ r. IsKeyIdentifierAt input.now (certificate_head_value head.now) r)
        (λ e. e ≡ Memory) }
{
    let Some(element) = first_tagged(&head.tbs_certificate.rest, 0xA3) else {
        return Ok(None);
    };
    match head.extensions(alloc) {
        Ok(Some(extensions)) => identifier_in(alloc, input, element, &extensions.0),
        Ok(None) => Ok(None),
        Err(error) => {
            without_answer(error)?;
            Ok(None)
        }
    }
}
