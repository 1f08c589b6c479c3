//! Files read.

ghost use Rattle.std.specs.Prelude.{◌≡◌, ◌≢◌, MatchResult};
ghost use Rattle.std.proofs.Common.{inr};
ghost use Rattle.asn1_core.specs.Der.{octets_of, option_value};
ghost use Rattle.asn1_core_element.specs.declared.error.Error.TheVariants.{Memory};
ghost use Rattle.ber_der.specs.Typed.{IsBerValueOf, HasNoBerValue};
ghost use Rattle.x509_pkcs12.specs.Agree.{DataReadsAs};
ghost use Rattle.pkcs12_ber.specs.ContentInfos.{content_info_value};
ghost use Rattle.pkcs12_ber.specs.Files.{ReadsInDer, IsBerFile, HasNoReading, HasNoContents};
ghost use Rattle.pkcs12_ber.specs.Pfxs.{ber_pfx, ber_pfx_value};
ghost use Rattle.pkcs12_ber.specs.Places.{InAuthSafe, InFile, LiesIn};

use crate::content_infos::BerContentInfo;
use crate::in_der::safe_in_der;
use crate::pfxs::BerPfx;
use asn1_core::from_bytes_located;
use asn1_core::prelude::*;
use ber_der::to_der_located;
use std::alloc::Global;
use x509_pkcs12::{AuthenticatedSafeContentInfo, AuthenticatedSafeDataRepr, Pfx};

/// Where a file was refused: an offset, counted from 0, and in which bytes. What `to_der_located` refuses is in the first
/// three of these, what `from_bytes_located` refuses in their DER; the docs of these two say which byte it is. For want of
/// memory it is how far the reading came. Proved of any other refusal is that there are these bytes, and that the offset is
/// at most their length (`LiesIn`).
#[derive(Clone, Copy, Debug, PartialEq, Eq)]
pub enum BufferOffset {
    /// In the file.
    File(usize),
    /// In the octets that the MAC covers, which `BerPfx::mac_octets` gives: no BER.
    AuthSafe(usize),
    /// In the octets of the data of a content: first its index in `AuthenticatedSafe`, counted from 0.
    Data(usize, usize),
    /// In the file's DER, which `ber_der::to_der` gives: no PFX.
    FileDer(usize),
    /// In the DER of the octets that the MAC covers: no `AuthenticatedSafe`.
    AuthSafeDer(usize),
    /// In that DER with DER in all data: not what the representation reads.
    Contents(usize),
}

/// A file, with the octets that the MAC covers.
fn read_octets(alloc: Global, file: &[u8]) -> Result<BerPfx, (Error, BufferOffset)>
    ensures { MatchResult result (λ p. IsBerValueOf ⟦<BerPfx as DerSerialize>⟧.format file.now (ber_pfx_value p))
        (λ e. HasNoBerValue ⟦<BerPfx as DerSerialize>⟧.format file.now e.0 × InFile file.now e.1) }
{
    let der = match to_der_located(alloc, file) {
        Ok(der) => der,
        Err((error, at)) => return Err((error, BufferOffset::File(at))),
    };
    let pfx = match from_bytes_located(alloc, der.as_slice()) {
        Ok(pfx) => pfx,
        Err((error, at)) => return Err((error, BufferOffset::FileDer(at))),
    };
    Ok(pfx)
}

/// What `R` reads of the octets in DER; any other content as it is.
fn read_contents<R: AuthenticatedSafeDataRepr>(
    alloc: Global,
    content: &BerContentInfo,
) -> Result<AuthenticatedSafeContentInfo<R>, (Error, BufferOffset)>
    ensures { MatchResult result
        (λ a. DataReadsAs (ReadsInDer R.format) (content_info_value content.now) (⟦<AuthenticatedSafeContentInfo<R> as DerSerialize>⟧.value a))
        (λ e. e.0 ≢ Memory → HasNoContents R.format (content_info_value content.now) × InAuthSafe (content_info_value content.now) e.1) }
{
    match content {
        BerContentInfo::Data(octets) => {
            let der = safe_in_der(alloc, octets.0.as_slice())?;
            let contents: R = match from_bytes_located(alloc, der.as_slice()) {
                Ok(contents) => contents,
                Err((error, at)) => return Err((error, BufferOffset::Contents(at))),
            };
            Ok(AuthenticatedSafeContentInfo::Data(contents.into_repr()))
        }
        BerContentInfo::Unknown {
            content_type,
            content,
        } => match copy_other(alloc, content_type, content) {
            Ok(other) => Ok(other),
            Err(error) => Err((error, BufferOffset::AuthSafe(0))),
        },
    }
}

/// A copy of another content.
fn copy_other<R: AuthenticatedSafeDataRepr>(
    alloc: Global,
    content_type: &ObjectIdentifier,
    content: &Option<Asn1RawDer>,
) -> Result<AuthenticatedSafeContentInfo<R>, Error>
    ensures { MatchResult result
        (λ a. ⟦<AuthenticatedSafeContentInfo<R> as DerSerialize>⟧.value a ≡ inr (octets_of content_type.now, (option_value (λ y. y.0.items) content.now, tt)))
        (λ e. e ≡ Memory) }
{
    let content_type = content_type.try_clone(alloc)?;
    let content = content.try_clone(alloc)?;
    Ok(AuthenticatedSafeContentInfo::Unknown {
        content_type,
        content,
    })
}

/// A PKCS #12 file in BER or DER: first with the octets that its MAC covers, which are as they were in the file, joined
/// where they were in segments; `mac_input` gives all that a check of the MAC takes beside the password. Then with the
/// contents, as `R` reads them of the DER of these octets.
///
/// The file is converted as by `ber_der::to_der`, and so are the octets of `authSafe`, and in these the octets of each
/// data, which are `SafeContents` (RFC 7292, 4.1): each with at most 64 levels of nesting. Encrypted contents stay as they
/// are: what is decrypted may be BER too.
///
/// In DER alone it reads what `RawPfx` and `Pfx<R>` read, as `der_files_read_as_pfx` says.
#[tactic(auto, using(crate::proofs::Readings::no_reading))]
pub fn read_ber_pfx<R: AuthenticatedSafeDataRepr>(
    alloc: Global,
    file: &[u8],
) -> Result<(BerPfx, Pfx<R>), (Error, BufferOffset)>
    ensures { MatchResult result
        (λ p. IsBerFile R.format file.now (ber_pfx_value p.0) (⟦<Pfx<R> as DerSerialize>⟧.value p.1))
        (λ e. e.0 ≢ Memory → HasNoReading R.format file.now × LiesIn file.now e.1) }
{
    let octets = read_octets(alloc, file)?;
    let auth_safe = read_contents(alloc, &octets.auth_safe)?;
    let mac_data = match octets.mac_data.try_clone(alloc) {
        Ok(mac_data) => mac_data,
        Err(error) => return Err((error, BufferOffset::File(file.len()))),
    };
    let version = octets.version;
    Ok((
        octets,
        Pfx {
            version,
            auth_safe,
            mac_data,
        },
    ))
}
