//! Where the parts of a certificate's key are.

ghost use Rattle.std.specs.Prelude.{◌≡◌, ◌≢◌, ◌<◌, ◌+◌, MatchResult};
ghost use Rattle.asn1_core.specs.Der.{IsValueOf};
ghost use Rattle.asn1_core_element.specs.declared.error.Error.TheVariants.{Memory};
ghost use Rattle.certificate_ranges.specs.CertificateRoutes.{key_algorithm, key_bits, key_parameters, read_key_info};
ghost use Rattle.certificate_ranges.specs.Certificates.{CertificateValue, KeyValue, certificate};
ghost use Rattle.certificate_ranges.specs.Ranges.{AreKeyRanges, AreKeyRangesOrNone, IsKeyAt, IsPartAt, IsPartOrNone};
ghost use Rattle.pkcs7_verifier.specs.Heads.{certificate_head_value};

use crate::key_infos::SubjectPublicKeyInfo;
use crate::parts::range_where;
use crate::ranges::KeyRanges;
use crate::steps::steps;
use asn1_core::{Error, from_bytes};
use asn1_located::{Step, range_at};
use pkcs7_verifier::CertificateHead;
use std::alloc::Global;
use std::ops::Range;

/// Why something isn't read doesn't matter, unless memory was refused: then this refuses too.
pub(crate) fn without_answer(error: Error) -> Result<(), Error>
    ensures { MatchResult result (λ _. error ≢ Memory) (λ e. e ≡ Memory) }
{
    match error {
        Error::Memory => Err(Error::Memory),
        _ => Ok(()),
    }
}

/// The contents octets of the algorithm's object identifier.
fn algorithm(input: &[u8]) -> Range<usize>
    ensures { (v : CertificateValue) (k : KeyValue) → IsValueOf certificate 64 input.now v → read_key_info.IsPart v k → IsPartAt key_algorithm input.now v result }
{
    range_where(
        input,
        &steps![
            Inside Element Inside Past(0xA0) After After After After After Element
            Inside Element Inside Element Inside
        ],
    )
}

/// The element of its parameters. `None` where it has none.
fn parameters(input: &[u8]) -> Option<Range<usize>>
    ensures { (v : CertificateValue) (k : KeyValue) → IsValueOf certificate 64 input.now v → read_key_info.IsPart v k → IsPartOrNone key_parameters input.now v result }
{
    range_at(
        input,
        &steps![
            Inside Element Inside Past(0xA0) After After After After After Element
            Inside Element Inside After Element
        ],
    )
}

/// The contents octets of `subjectPublicKey`.
fn bits(input: &[u8]) -> Range<usize>
    ensures { (v : CertificateValue) (k : KeyValue) → IsValueOf certificate 64 input.now v → read_key_info.IsPart v k → IsPartAt key_bits input.now v result }
{
    range_where(
        input,
        &steps![
            Inside Element Inside Past(0xA0) After After After After After Element
            Inside After Element Inside
        ],
    )
}

/// All but the first of some octets, if there are any.
fn after_first(start: usize, end: usize) -> Range<usize>
    ensures { start < end → (result.start ≡ start + 1) × (result.end ≡ end) }
{
    if start < end {
        start + 1..end
    } else {
        start..end
    }
}

/// The octets of the key, which follow the count of unused bits.
fn public_key(input: &[u8]) -> Range<usize>
    ensures { (v : CertificateValue) (k : KeyValue) → IsValueOf certificate 64 input.now v → read_key_info.IsPart v k → IsKeyAt input.now v result }
{
    let contents = bits(input);
    after_first(contents.start, contents.end)
}

/// All parts of a key that reads as a `SubjectPublicKeyInfo`.
fn ranges_of_key(input: &[u8]) -> KeyRanges
    ensures { (v : CertificateValue) (k : KeyValue) → IsValueOf certificate 64 input.now v → read_key_info.IsPart v k → AreKeyRanges input.now v result }
{
    KeyRanges {
        algorithm: algorithm(input),
        parameters: parameters(input),
        public_key: public_key(input),
    }
}

/// All parts of a certificate's key. `None` where it doesn't read as a `SubjectPublicKeyInfo`. Refuses by `Memory` alone.
pub(crate) fn key_ranges(
    alloc: Global,
    input: &[u8],
    head: &CertificateHead,
) -> Result<Option<KeyRanges>, Error>
    requires { IsValueOf certificate 64 input.now (certificate_head_value head.now) }
    ensures { MatchResult result
        (λ r. AreKeyRangesOrNone input.now (certificate_head_value head.now) r)
        (λ e. e ≡ Memory) }
{
    let element = &head.tbs_certificate.subject_public_key_info;
    match from_bytes::<SubjectPublicKeyInfo>(alloc, element.0.as_slice()) {
        Ok(_key) => Ok(Some(ranges_of_key(input))),
        Err(error) => {
            without_answer(error)?;
            Ok(None)
        }
    }
}
