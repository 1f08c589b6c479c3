//! Parts of the MAC of a PKCS #12 file.

ghost use Rattle.std.specs.Prelude.{MatchResult, Some};
ghost use Rattle.asn1_core.specs.Der.{option_value, raw};
ghost use Rattle.container_parts.specs.Copies.{Copies};
ghost use Rattle.container_parts.specs.Inputs.{GivesPart};
ghost use Rattle.container_parts.specs.MacParts.{HasCount, in_mac, of_mac};
ghost use Rattle.input_ranges.specs.Failures.{IsRefusalOf};
ghost use Rattle.pkcs12_algs.specs.Digests.{mac_data_value};
ghost use Rattle.x509_pkcs12.specs.Pfxs.{pfx};

use crate::copies::{copy, of_file, read_file};
use asn1_core::Error;
use input_ranges::Refusal;
use pkcs12_algs::{MacData, Pkcs12DigestInfo};
use std::alloc::Global;
use x509_pkcs12::{Pfx, RawPfx};

/// A part of the MAC of a PKCS #12 file (RFC 7292, 4).
#[derive(Clone, Copy, Debug, PartialEq, Eq)]
pub enum MacPart {
    /// The contents octets of the object identifier in `digestAlgorithm`.
    DigestAlgorithm,
    /// The octets of `digest`, which a verifier compares with the MAC that it makes.
    Digest,
    /// The octets of `macSalt`.
    Salt,
}

/// A part of the MAC of the PKCS #12 file that the input is, read as `RawPfx`. `None` where it has no MAC.
#[tactic(auto, using(crate::specs::laws::Inputs::refused))]
pub fn mac_part(alloc: Global, part: MacPart, input: &[u8]) -> Result<Option<Vec<u8>>, Refusal>
    ensures { GivesPart (in_mac part) input.now result }
{
    let file: RawPfx = read_file(alloc, input)?;
    let Pfx { mac_data, .. } = file;
    of_file(part_of_mac(alloc, part, mac_data))
}

/// How often the key derivation of a PKCS #12 file's MAC hashes, 1 where the count is left out. `None` where the file,
/// read as `RawPfx`, has no MAC.
pub fn mac_iterations(alloc: Global, input: &[u8]) -> Result<Option<u32>, Refusal>
    ensures { MatchResult result (λ count. HasCount input.now count) (λ refusal. IsRefusalOf (pfx raw) input.now ⊥ refusal) }
{
    let file: RawPfx = read_file(alloc, input)?;
    match &file.mac_data {
        Some(mac) => Ok(Some(mac.effective_iterations())),
        None => Ok(None),
    }
}

/// A part of the MAC of a file, which may be read as another type than `RawPfx`. `None` where it has no MAC. Refuses by
/// `Memory` alone.
pub fn part_of_mac(
    alloc: Global,
    part: MacPart,
    mac: Option<MacData>,
) -> Result<Option<Vec<u8>>, Error>
    ensures { Copies (option_value (of_mac part) (option_value mac_data_value mac)) result }
{
    match mac {
        Some(mac) => of_data(alloc, part, mac),
        None => Ok(None),
    }
}

fn of_data(alloc: Global, part: MacPart, mac: MacData) -> Result<Option<Vec<u8>>, Error>
    ensures { Copies (Some (of_mac part (mac_data_value mac))) result }
{
    let MacData { mac, salt, .. } = mac;
    let Pkcs12DigestInfo {
        digest_algorithm,
        digest,
    } = mac;
    match part {
        MacPart::DigestAlgorithm => {
            let algorithm = digest_algorithm.into_raw(alloc)?;
            copy(alloc, Some(algorithm.algorithm().octets()))
        }
        MacPart::Digest => copy(alloc, Some(digest.0.as_slice())),
        MacPart::Salt => copy(alloc, Some(salt.0.as_slice())),
    }
}
