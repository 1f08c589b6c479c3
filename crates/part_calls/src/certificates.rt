//! Where an input that is a certificate has its parts, for callers in C.

ghost use Rattle.std.specs.Prelude.{◌≡◌};
ghost use Rattle.part_calls.specs.Certificates.{algorithm_in, certificate_row, has_parameters, key_in, parameters_in, FindsCertificate};

use call_values::outputs::{place_of, status_of_refusal};
use call_values::ranges::{NOTHING, Octets, is_there, octets_of, octets_or_none};
use call_values::status;
use certificate_ranges::{CertificateRanges, KeyRanges, certificate_ranges};
use std::alloc::Global;

/// Where the parts of a certificate are: `der_certificate_parts` of der.h, which says more of its fields.
#[repr(C)]
#[derive(Clone, Copy)]
pub struct Certificate {
    /// 1 where `subjectPublicKeyInfo` reads as its type, otherwise 0.
    pub has_key: usize,
    /// 1 where the key's algorithm has parameters, otherwise 0.
    pub has_key_parameters: usize,
    /// 1 where there is an element under `[3]` after the key, otherwise 0.
    pub has_extensions: usize,
    /// 1 where a `subjectKeyIdentifier` is among the extensions, otherwise 0.
    pub has_key_identifier: usize,
    pub serial_number: Octets,
    pub issuer: Octets,
    pub validity: Octets,
    pub subject: Octets,
    pub subject_public_key_info: Octets,
    pub key_algorithm: Octets,
    pub key_parameters: Octets,
    pub public_key: Octets,
    pub extensions: Octets,
    pub key_identifier: Octets,
}

/// What is there of no certificate.
pub const NO_CERTIFICATE: Certificate = Certificate {
    has_key: 0,
    has_key_parameters: 0,
    has_extensions: 0,
    has_key_identifier: 0,
    serial_number: NOTHING,
    issuer: NOTHING,
    validity: NOTHING,
    subject: NOTHING,
    subject_public_key_info: NOTHING,
    key_algorithm: NOTHING,
    key_parameters: NOTHING,
    public_key: NOTHING,
    extensions: NOTHING,
    key_identifier: NOTHING,
};

fn algorithm_in(key: &Option<KeyRanges>) -> Octets
    ensures { result ≡ algorithm_in key.now }
{
    match key {
        Some(key) => octets_of(&key.algorithm),
        None => NOTHING,
    }
}

/// 1 where there is a key whose algorithm has parameters, otherwise 0.
fn has_parameters(key: &Option<KeyRanges>) -> usize
    ensures { result ≡ has_parameters key.now }
{
    match key {
        Some(key) => is_there(&key.parameters),
        None => 0,
    }
}

fn parameters_in(key: &Option<KeyRanges>) -> Octets
    ensures { result ≡ parameters_in key.now }
{
    match key {
        Some(key) => octets_or_none(&key.parameters),
        None => NOTHING,
    }
}

fn key_in(key: &Option<KeyRanges>) -> Octets
    ensures { result ≡ key_in key.now }
{
    match key {
        Some(key) => octets_of(&key.public_key),
        None => NOTHING,
    }
}

fn row_of(ranges: &CertificateRanges) -> Certificate
    ensures { result ≡ certificate_row ranges.now }
{
    Certificate {
        has_key: is_there(&ranges.key),
        has_key_parameters: has_parameters(&ranges.key),
        has_extensions: is_there(&ranges.extensions),
        has_key_identifier: is_there(&ranges.key_identifier),
        serial_number: octets_of(&ranges.serial_number),
        issuer: octets_of(&ranges.issuer),
        validity: octets_of(&ranges.validity),
        subject: octets_of(&ranges.subject),
        subject_public_key_info: octets_of(&ranges.subject_public_key_info),
        key_algorithm: algorithm_in(&ranges.key),
        key_parameters: parameters_in(&ranges.key),
        public_key: key_in(&ranges.key),
        extensions: octets_or_none(&ranges.extensions),
        key_identifier: octets_or_none(&ranges.key_identifier),
    }
}

/// Writes where the input, a certificate, has its parts to `out`, as `certificate_ranges` finds them. From `MALFORMED` to
/// `TOO_DEEP` the input is no certificate, and `place` is where; at `NO_MEMORY` it is an offset without use, and otherwise
/// 0. Unless at `NORMAL` all of `out` is 0.
#[tactic(auto, using(crate::proofs::CertificateRows::certificate_found))]
pub fn der_certificate(alloc: Global, input: &[u8], out: &mut Certificate, place: &mut usize) -> u32
    ensures { FindsCertificate input.now out.new place.new result }
{
    *out = NO_CERTIFICATE;
    *place = 0;
    match certificate_ranges(alloc, input) {
        Ok(ranges) => {
            *out = row_of(&ranges);
            status::NORMAL
        }
        Err(refusal) => {
            *place = place_of(refusal);
            status_of_refusal(refusal)
        }
    }
}
