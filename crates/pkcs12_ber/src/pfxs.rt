//! PFX, of which the data are octets.

ghost use Rattle.std.specs.Prelude.{◌≡◌, ℕ, Ok, Err, MatchResult};
ghost use Rattle.asn1_core.specs.Der.{option_value, version};
ghost use Rattle.pkcs12_algs.specs.Digests.{pkcs12_digest_algorithm_value};
ghost use Rattle.x509_pkcs12.specs.MacInputs.{mac_input};
ghost use Rattle.x509_pkcs12.specs.MacOctets.{mac_octets};
ghost use Rattle.pkcs12_ber.specs.Pfxs.{ber_pfx, ber_pfx_value};
ghost use Rattle.pkcs12_ber.specs.PfxsEqual.{ber_pfx_equal};

use crate::content_infos::BerContentInfo;
use asn1_core::prelude::*;
use pkcs12_algs::MacData;
use std::alloc::Global;
use x509_pkcs12::{MacInput, NoMac};

/// `PFX ::= SEQUENCE { version INTEGER {v3(3)}(v3,...), authSafe ContentInfo, macData MacData OPTIONAL }` (RFC 7292,
/// 4), of which the data of `authSafe` are octets: those that the MAC covers. Only version 3 is read, and well-formed.
///
/// A file in BER is read as one by `ber_der::from_ber`, and its octets are as they were in the file, in one piece.
#[derive(Debug, Drop, PartialEq, Eq)]
pub struct BerPfx {
    pub version: u8,
    pub auth_safe: BerContentInfo,
    pub mac_data: Option<MacData>,
}

/// A version to write: well-formed where it is 3.
#[derive(Drop)]
struct Version(u8);

impl DerSerialize for Version {
    ghost Value = { ℕ };

    ghost value = { λ x. x.0 };

    ghost format = { version 3 };

    fn put<W: Writer>(&self, w: &mut W) -> Result<(), WriteError> {
        self.0.put(w)
    }

    fn well_formed_at(&self, _limit: u8) -> bool {
        self.0 == 3
    }
}

impl Sequence for BerPfx {
    ghost asn1 = { ber_pfx };

    ghost value = { ber_pfx_value };

    fn with_components<U: ComponentVisitor>(&self, visitor: &mut U) -> U::Out {
        visitor.visit(&body_of!(self; (Version(self.version)), auth_safe, mac_data OPTIONAL))
    }

    fn read_fields(alloc: Global, r: &mut Reader<'_>, nest: u8) -> Result<Self, Error> {
        let fields_of!((FixedVersion), auth_safe, mac_data OPTIONAL): Required<
            FixedVersion<3>,
            Required<BerContentInfo, Maybe<MacData, End>>,
        > = ReadComponents::read_components(alloc, r, nest)?;
        Ok(BerPfx {
            version: 3,
            auth_safe,
            mac_data,
        })
    }

    fn clone_fields(&self, alloc: Global) -> Result<Self, Error> {
        clone_of!(self, alloc; BerPfx { auth_safe, mac_data; version })
    }

    ghost equal = { ber_pfx_equal };
}

impl BerPfx {
    /// The octets that a MAC covers: those of the OCTET STRING in `authSafe`, without its headers (RFC 7292, 5.1). `None`
    /// where `authSafe` isn't data.
    pub fn mac_octets(&self) -> Option<&[u8]>
        ensures { option_value (λ s. s.now) result ≡ mac_octets (ber_pfx_value self.now) }
    {
        match &self.auth_safe {
            BerContentInfo::Data(octets) => Some(octets.0.as_slice()),
            BerContentInfo::Unknown { .. } => None,
        }
    }

    /// All that a check of the file's MAC takes beside the password.
    pub fn mac_input(&self) -> Result<MacInput<'_>, NoMac>
        ensures { MatchResult result
            (λ m. mac_input (ber_pfx_value self.now) ≡ Ok (m.octets.now, (pkcs12_digest_algorithm_value m.digest_algorithm.now, (m.digest.now, (m.salt.now, m.iterations)))))
            (λ e. mac_input (ber_pfx_value self.now) ≡ Err e) }
    {
        let BerContentInfo::Data(octets) = &self.auth_safe else {
            return Err(NoMac::NoData);
        };
        let Some(mac) = &self.mac_data else {
            return Err(NoMac::NoMacData);
        };
        Ok(MacInput {
            octets: octets.0.as_slice(),
            digest_algorithm: &mac.mac.digest_algorithm,
            digest: mac.mac.digest.0.as_slice(),
            salt: mac.salt.0.as_slice(),
            iterations: mac.effective_iterations(),
        })
    }
}
