//! The ranges of a certificate's parts, from one reading of it.

ghost use Rattle.std.specs.Prelude.{◌≡◌, MatchResult};
ghost use Rattle.asn1_core.specs.Der.{IsValueOf};
ghost use Rattle.asn1_core_element.specs.declared.error.Error.TheVariants.{Memory};
ghost use Rattle.certificate_ranges.specs.Certificates.{certificate};
ghost use Rattle.certificate_ranges.specs.Ranges.{AreCertificateRanges, AreRangesOf, IsRefusal};
ghost use Rattle.pkcs7_verifier.specs.Heads.{certificate_head_value};

use crate::extensions::{extensions_range, key_identifier_range};
use crate::keys::key_ranges;
use crate::parts::{issuer, key_info, serial_number, subject, validity};
use crate::ranges::CertificateRanges;
use asn1_core::{Error, from_bytes_located};
use input_ranges::{Refusal, refusal_of};
use pkcs7_verifier::CertificateHead;
use std::alloc::Global;

/// The ranges of a certificate that was read. Refuses by `Memory` alone.
fn ranges_in(
    alloc: Global,
    input: &[u8],
    head: &CertificateHead,
) -> Result<CertificateRanges, Error>
    requires { IsValueOf certificate 64 input.now (certificate_head_value head.now) }
    ensures { MatchResult result
        (λ r. AreRangesOf input.now (certificate_head_value head.now) r)
        (λ e. e ≡ Memory) }
{
    let key = key_ranges(alloc, input, head)?;
    let key_identifier = key_identifier_range(alloc, input, head)?;
    Ok(CertificateRanges {
        serial_number: serial_number(input),
        issuer: issuer(input),
        validity: validity(input),
        subject: subject(input),
        subject_public_key_info: key_info(input),
        key,
        extensions: extensions_range(input, head),
        key_identifier,
    })
}

/// Where an input that is a certificate has its parts, each in its own place. A certificate is read as `CertificateHead`, of
/// any version and with any extensions, and refused as `from_bytes_located` refuses it, or for want of memory. `NoRange` and
/// `Part` are never answered.
#[tactic(auto, using(crate::proofs::ExtensionPlaces::are_found, crate::proofs::ExtensionPlaces::refused))]
pub fn certificate_ranges(alloc: Global, input: &[u8]) -> Result<CertificateRanges, Refusal>
    ensures { MatchResult result
        (λ r. AreCertificateRanges input.now r)
        (λ e. IsRefusal input.now e) }
{
    match from_bytes_located::<CertificateHead>(alloc, input) {
        Ok(head) => match ranges_in(alloc, input, &head) {
            Ok(ranges) => Ok(ranges),
            Err(error) => Err(refusal_of(error)),
        },
        Err((error, place)) => Err(Refusal::Refused(error, place)),
    }
}
