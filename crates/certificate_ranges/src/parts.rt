//! Where the parts are that each certificate has.

ghost use Rattle.asn1_core.specs.Der.{IsValueOf};
ghost use Rattle.certificate_ranges.specs.CertificateRoutes.{issuer, key_info, serial_number, subject, validity};
ghost use Rattle.certificate_ranges.specs.Certificates.{CertificateValue, certificate};
ghost use Rattle.certificate_ranges.specs.Ranges.{IsPartAt, IsRangeIf};

use crate::steps::steps;
use asn1_located::{Step, range_at};
use std::ops::Range;

/// The range to which steps lead, if they lead anywhere.
#[tactic(auto, using(crate::proofs::PartPlaces::nowhere, crate::proofs::PartPlaces::somewhere))]
pub(crate) fn range_where(input: &[u8], steps: &[Step]) -> Range<usize>
    ensures { IsRangeIf steps.now input.now result }
{
    match range_at(input, steps) {
        Some(range) => range,
        None => 0..0,
    }
}

/// The contents octets of `serialNumber`.
pub(crate) fn serial_number(input: &[u8]) -> Range<usize>
    ensures { (v : CertificateValue) → IsValueOf certificate 64 input.now v → IsPartAt serial_number input.now v result }
{
    range_where(
        input,
        &steps![Inside Element Inside Past(0xA0) Element Inside],
    )
}

/// The element of `issuer`.
pub(crate) fn issuer(input: &[u8]) -> Range<usize>
    ensures { (v : CertificateValue) → IsValueOf certificate 64 input.now v → IsPartAt issuer input.now v result }
{
    range_where(
        input,
        &steps![Inside Element Inside Past(0xA0) After After Element],
    )
}

/// The element of `validity`.
pub(crate) fn validity(input: &[u8]) -> Range<usize>
    ensures { (v : CertificateValue) → IsValueOf certificate 64 input.now v → IsPartAt validity input.now v result }
{
    range_where(
        input,
        &steps![Inside Element Inside Past(0xA0) After After After Element],
    )
}

/// The element of `subject`.
pub(crate) fn subject(input: &[u8]) -> Range<usize>
    ensures { (v : CertificateValue) → IsValueOf certificate 64 input.now v → IsPartAt subject input.now v result }
{
    range_where(
        input,
        &steps![Inside Element Inside Past(0xA0) After After After After Element],
    )
}

/// The element of `subjectPublicKeyInfo`.
pub(crate) fn key_info(input: &[u8]) -> Range<usize>
    ensures { (v : CertificateValue) → IsValueOf certificate 64 input.now v → IsPartAt key_info input.now v result }
{
    range_where(
        input,
        &steps![Inside Element Inside Past(0xA0) After After After After After Element],
    )
}
