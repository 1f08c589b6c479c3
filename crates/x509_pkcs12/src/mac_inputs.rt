//! What a check of a file's MAC takes.

ghost use Rattle.std.specs.Prelude.{◌≡◌, Ok, Err, MatchResult};
ghost use Rattle.pkcs12_algs.specs.Digests.{pkcs12_digest_algorithm_value};
ghost use Rattle.x509_pkcs12.specs.MacInputs.{mac_input};

use crate::auth_safes::AuthenticatedSafeContentInfo;
use crate::pfxs::Pfx;
use crate::raw::{RawAuthenticatedSafeDataRepr, RawPfx};
use asn1_core::DerSerialize;
use pkcs12_algs::Pkcs12DigestAlgorithm;
use thiserror::Error;

/// What a check of a MAC takes beside the password (RFC 7292, 5.1 and appendix A): the MAC of `octets`, with the key
/// made of the password, `salt` and `iterations`, must be `digest`.
#[derive(Clone, Copy)]
pub struct MacInput<'a> {
    /// What the MAC covers: the contents octets of the OCTET STRING in `authSafe`, without its header.
    pub octets: &'a [u8],
    /// The digest algorithm of the HMAC and of the key derivation.
    pub digest_algorithm: &'a Pkcs12DigestAlgorithm,
    /// The MAC in the file.
    pub digest: &'a [u8],
    pub salt: &'a [u8],
    /// How often the key derivation hashes: 1 where the count is left out.
    pub iterations: u32,
}

/// Why a file has no MAC to check.
#[derive(Clone, Copy, Debug, PartialEq, Eq, Error)]
pub enum NoMac {
    /// `authSafe` isn't data, whether or not there is `macData`: signed data have a signature in its place
    /// (RFC 7292, 4).
    #[error("authSafe isn't data")]
    NoData,
    /// `authSafe` is data, without `macData`.
    #[error("no macData")]
    NoMacData,
}

impl Pfx<RawAuthenticatedSafeDataRepr> {
    /// All that a check of the file's MAC takes beside the password.
    pub fn mac_input(&self) -> Result<MacInput<'_>, NoMac>
        ensures { MatchResult result
            (λ m. mac_input (⟦<RawPfx as DerSerialize>⟧.value self.now) ≡ Ok (m.octets.now, (pkcs12_digest_algorithm_value m.digest_algorithm.now, (m.digest.now, (m.salt.now, m.iterations)))))
            (λ e. mac_input (⟦<RawPfx as DerSerialize>⟧.value self.now) ≡ Err e) }
    {
        let AuthenticatedSafeContentInfo::Data(data) = &self.auth_safe else {
            return Err(NoMac::NoData);
        };
        let Some(mac) = &self.mac_data else {
            return Err(NoMac::NoMacData);
        };
        Ok(MacInput {
            octets: data.0.as_slice(),
            digest_algorithm: &mac.mac.digest_algorithm,
            digest: mac.mac.digest.0.as_slice(),
            salt: mac.salt.0.as_slice(),
            iterations: mac.effective_iterations(),
        })
    }
}
