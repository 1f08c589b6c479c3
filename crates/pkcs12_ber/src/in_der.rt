//! What the MAC covers, in DER.

ghost use Rattle.std.specs.Prelude.{◌≡◌, ◌≢◌, ◌≤◌, [], ◌∷◌, ◌++◌, length, map, MatchResult};
ghost use Rattle.std.proofs.Common.{inl};
ghost use Rattle.asn1_core.specs.Der.{element};
ghost use Rattle.asn1_core_element.specs.declared.error.Error.TheVariants.{Memory};
ghost use Rattle.pkcs12_ber.specs.ContentInfos.{content_info_value};
ghost use Rattle.pkcs12_ber.specs.InDer.{info, IsInfoInDer, IsSafeInDer, HasNoSafe, HasAppended, HaveNoDer};
ghost use Rattle.pkcs12_ber.specs.Places.{InData, InOctets};
ghost use Rattle.pkcs12_ber.specs.declared.reading.BufferOffset.TheVariants.{Data};

use crate::content_infos::BerContentInfo;
use crate::reading::BufferOffset;
use asn1_core::from_bytes_located;
use asn1_core::prelude::*;
use asn1_core_writers::Forward;
use ber_der::to_der_located;
use std::alloc::Global;

/// Appends the encoding of a content. Refuses by `Memory` alone.
fn append(alloc: Global, content: &BerContentInfo, out: &mut Vec<u8>) -> Result<(), (Error, usize)>
    ensures { MatchResult result (λ _. out.new.items ≡ out.old.items ++ info.text (content_info_value content.now)) (λ e. e.0 ≡ Memory) }
{
    match content.write(alloc, out) {
        Ok(()) => Ok(()),
        Err(_) => Err((Error::Memory, 0)),
    }
}

/// Data with the DER of these octets. The place of a refusal is in them.
fn data_in_der(alloc: Global, octets: &[u8]) -> Result<BerContentInfo, (Error, usize)>
    ensures { MatchResult result
        (λ c. IsInfoInDer (inl octets.now) (content_info_value c))
        (λ e. e.0 ≢ Memory → HaveNoDer (inl octets.now ∷ []) × (e.1 ≤ length octets.now)) }
{
    let der = to_der_located(alloc, octets)?;
    Ok(BerContentInfo::Data(OctetStringAsn1(der)))
}

/// Appends the encoding of a content, with the DER of its data. The place of a refusal is in the data.
#[tactic(auto, using(crate::proofs::Appended::one_appended, crate::proofs::Appended::other_appended))]
fn append_in_der(
    alloc: Global,
    content: &BerContentInfo,
    out: &mut Vec<u8>,
) -> Result<(), (Error, usize)>
    ensures { MatchResult result
        (λ _. HasAppended (content_info_value content.now ∷ []) out.old.items out.new.items)
        (λ e. e.0 ≢ Memory → HaveNoDer (content_info_value content.now ∷ []) × InData (content_info_value content.now ∷ []) (Data 0 e.1)) }
{
    match content {
        BerContentInfo::Data(octets) => {
            let data = data_in_der(alloc, octets.0.as_slice())?;
            append(alloc, &data, out)
        }
        BerContentInfo::Unknown { .. } => append(alloc, content, out),
    }
}

/// The encodings of all contents, with the DER of their data.
fn all_in_der(alloc: Global, contents: &[BerContentInfo]) -> Result<Vec<u8>, (Error, BufferOffset)>
    ensures { MatchResult result
        (λ out. HasAppended (map content_info_value contents.now) [] out.items)
        (λ e. e.0 ≢ Memory → HaveNoDer (map content_info_value contents.now) × InData (map content_info_value contents.now) e.1) }
{
    let mut out = Vec::new(alloc);
    for (index, content) in contents.iter().enumerate() {
        match append_in_der(alloc, content, &mut out) {
            Ok(()) => {}
            Err((error, at)) => return Err((error, BufferOffset::Data(index, at))),
        }
    }
    Ok(out)
}

/// A SEQUENCE with these contents octets. Refuses by `Memory` alone.
fn sequence(alloc: Global, contents: &[u8]) -> Result<Vec<u8>, Error>
    ensures { MatchResult result (λ out. out.items ≡ element 0x30 contents.now) (λ e. e ≡ Memory) }
{
    let mut out = Forward::new(Vec::new(alloc));
    match put_element(0x30, contents, &mut out) {
        Ok(()) => Ok(out.into_inner()),
        Err(_) => Err(Error::Memory),
    }
}

/// An `AuthenticatedSafe` in BER, in DER with DER in all its data.
#[tactic(auto, using(crate::proofs::Safes::no_outer, crate::proofs::Safes::no_contents, crate::proofs::Safes::no_ders, crate::proofs::Safes::safe_is))]
pub(crate) fn safe_in_der(alloc: Global, octets: &[u8]) -> Result<Vec<u8>, (Error, BufferOffset)>
    ensures { MatchResult result (λ der. IsSafeInDer octets.now der.items) (λ e. e.0 ≢ Memory → HasNoSafe octets.now × InOctets octets.now e.1) }
{
    let outer = match to_der_located(alloc, octets) {
        Ok(outer) => outer,
        Err((error, at)) => return Err((error, BufferOffset::AuthSafe(at))),
    };
    let safe: Asn1SequenceOf<BerContentInfo> = match from_bytes_located(alloc, outer.as_slice()) {
        Ok(safe) => safe,
        Err((error, at)) => return Err((error, BufferOffset::AuthSafeDer(at))),
    };
    let contents = all_in_der(alloc, safe.0.as_slice())?;
    match sequence(alloc, contents.as_slice()) {
        Ok(der) => Ok(der),
        Err(error) => Err((error, BufferOffset::Contents(0))),
    }
}
