//! Where inputs that hold an algorithm have its parts.

ghost use Rattle.std.specs.Prelude.{MatchResult};
ghost use Rattle.asn1_core.specs.Der.{option_value};
ghost use Rattle.password_ranges.specs.Heads.{ALGORITHM};
ghost use Rattle.password_ranges.specs.Holders.{AreContentsRanges, AreKeyRanges, AreRangesOf, EncryptedLead, IsPlaceIf, IsRefusal, encrypted_info, encrypted_key};

use crate::heads::{EncryptedContentHead, EncryptedInfoHead, EncryptedKeyHead};
use crate::ranges::{EncryptedRanges, PasswordRanges};
use crate::schemes::ranges_at;
use crate::steps::steps;
use asn1_core::from_bytes_located;
use asn1_located::{Place, Step, walk};
use input_ranges::{Refusal, refusal_of};
use located_rows::range_from;
use std::alloc::Global;
use std::ops::Range;
use x509_base::AlgorithmIdentifier;

/// Where an input that is an `AlgorithmIdentifier` has its parts, each in its own place. The parameters of PBES1 and of
/// `pkcs-12PbeIds` are read as a salt and a count, those of PBES2 as its own, and in these the parameters of PBKDF2 and the
/// initialization vector; what doesn't read so is `None`. Refused is what is no `AlgorithmIdentifier`, with its place.
/// `NoRange` and `Part` are never answered.
#[tactic(auto, using(crate::proofs::Moved::are_ranges, crate::proofs::Places::refused_by_memory))]
pub fn password_ranges(alloc: Global, input: &[u8]) -> Result<PasswordRanges, Refusal>
    ensures { MatchResult result
        (λ r. AreRangesOf input.now r)
        (λ e. IsRefusal ALGORITHM.format input.now e) }
{
    match from_bytes_located::<AlgorithmIdentifier>(alloc, input) {
        Ok(algorithm) => match ranges_at(alloc, 0, input, &algorithm) {
            Ok(ranges) => Ok(ranges),
            Err(error) => Err(refusal_of(error)),
        },
        Err((error, place)) => Err(Refusal::Refused(error, place)),
    }
}

/// Where steps lead from the beginning of an input, or the whole input where they lead nowhere: whoever asks knows that the
/// part is there.
#[tactic(auto, using(crate::proofs::Places::place_is, crate::proofs::Places::no_place))]
fn place_if<'a>(input: &'a [u8], steps: &[Step]) -> Place<'a>
    ensures { IsPlaceIf steps.now input.now result }
{
    match walk(0, input, steps) {
        Some(place) => place,
        None => Place {
            start: 0,
            octets: input,
        },
    }
}

/// Where an input that is an `EncryptedPrivateKeyInfo` (RFC 5958, 3) has the parts of its algorithm, as `password_ranges`
/// finds them, and the octets that are encrypted. Refused is what is none, with its place. `NoRange` and `Part` are never
/// answered.
pub fn encrypted_key_ranges(alloc: Global, input: &[u8]) -> Result<EncryptedRanges, Refusal>
    ensures { MatchResult result
        (λ r. AreKeyRanges input.now r)
        (λ e. IsRefusal encrypted_key input.now e) }
{
    match from_bytes_located::<EncryptedKeyHead>(alloc, input) {
        Ok(head) => {
            let Place { start, octets } = place_if(input, &steps![Inside Element]);
            match ranges_at(alloc, start, octets, &head.0.0) {
                Ok(algorithm) => Ok(EncryptedRanges {
                    algorithm,
                    encrypted: Some(range_from(0, input, &steps![Inside After Element Inside])),
                }),
                Err(error) => Err(refusal_of(error)),
            }
        }
        Err((error, place)) => Err(Refusal::Refused(error, place)),
    }
}

/// The octets of `encryptedContent`, where it is there.
fn content_range(input: &[u8], head: &EncryptedContentHead) -> Option<Range<usize>>
    ensures { EncryptedLead input.now (option_value (λ o. o.0.0.items) head.now.0.1.1.0) result }
{
    match &head.0.1.1.0 {
        Some(_) => Some(range_from(
            0,
            input,
            &steps![
                Inside After Element Inside Inside After Element
                Inside After After Element Inside
            ],
        )),
        None => None,
    }
}

/// Where an input that is a `ContentInfo` of `encryptedData` (RFC 2315, 13) has the parts of its algorithm, as
/// `password_ranges` finds them, and the octets that are encrypted, of whatever type they are. Refused is what is none, with
/// its place. `NoRange` and `Part` are never answered.
pub fn encrypted_contents_ranges(alloc: Global, input: &[u8]) -> Result<EncryptedRanges, Refusal>
    ensures { MatchResult result
        (λ r. AreContentsRanges input.now r)
        (λ e. IsRefusal encrypted_info input.now e) }
{
    match from_bytes_located::<EncryptedInfoHead>(alloc, input) {
        Ok(info) => {
            let head = &info.0.1.0.0.0.1.0;
            let Place { start, octets } = place_if(
                input,
                &steps![Inside After Element Inside Inside After Element Inside After Element],
            );
            match ranges_at(alloc, start, octets, &head.0.1.0) {
                Ok(algorithm) => Ok(EncryptedRanges {
                    algorithm,
                    encrypted: content_range(input, head),
                }),
                Err(error) => Err(refusal_of(error)),
            }
        }
        Err((error, place)) => Err(Refusal::Refused(error, place)),
    }
}
