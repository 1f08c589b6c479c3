//! The representation that keeps the data as it is.

ghost use Rattle.std.specs.Prelude.{◌≡◌, ℕ, List};
ghost use Rattle.std.proofs.Common.{refl, rules};
ghost use Rattle.asn1_core.specs.Der.{raw, lawful_raw, option_value};
ghost use Rattle.x509_pkcs12.specs.MacOctets.{mac_octets};

use crate::auth_safes::AuthenticatedSafeContentInfo;
use crate::pfxs::Pfx;
use crate::representations::AuthenticatedSafeDataRepr;
use asn1_core::prelude::*;
use std::alloc::Global;

/// One element, which is not parsed, so that the octets that a MAC covers stay as they are.
#[derive(Debug, Drop, PartialEq, Eq)]
pub struct RawAuthenticatedSafeDataRepr {
    raw: Asn1RawDer,
}

/// A PFX of which the data is not parsed.
pub type RawPfx = Pfx<RawAuthenticatedSafeDataRepr>;

/// What a PFX authenticates, of which the data is not parsed.
pub type RawAuthenticatedSafeContentInfo = AuthenticatedSafeContentInfo<
    RawAuthenticatedSafeDataRepr,
>;

impl DerSerialize for RawAuthenticatedSafeDataRepr {
    ghost Value = { List ℕ };

    ghost value = { λ x. x.raw.0.items };

    ghost format = { raw };

    fn put<W: Writer>(&self, w: &mut W) -> Result<(), WriteError> {
        self.raw.put(w)
    }

    fn well_formed_at(&self, limit: u8) -> bool {
        self.raw.well_formed_at(limit)
    }
}

impl DerDeserialize for RawAuthenticatedSafeDataRepr {
    fn read(alloc: Global, r: &mut Reader<'_>, nest: u8) -> Result<Self, Error> {
        let raw = Asn1RawDer::read(alloc, r, nest)?;
        Ok(RawAuthenticatedSafeDataRepr { raw })
    }

    fn begins(tag: u8) -> bool {
        Asn1RawDer::begins(tag)
    }

    ghost lawful = { lawful_raw };
}

impl EqualByText for RawAuthenticatedSafeDataRepr {
    ghost equal_by_text = { Prim.search rules };
}

impl TryClone for RawAuthenticatedSafeDataRepr {
    #[inline(always)]
    fn try_clone(&self, alloc: Global) -> Result<Self, Error> {
        clone_of!(self, alloc; RawAuthenticatedSafeDataRepr { raw })
    }
}

impl AuthenticatedSafeDataRepr for RawAuthenticatedSafeDataRepr {
    type Repr = Asn1RawDer;

    ghost into = { λ x. x.raw };

    ghost from = { λ r. record { raw = r } };

    fn into_repr(self) -> Asn1RawDer {
        self.raw
    }

    fn from_repr(repr: Asn1RawDer) -> Self {
        RawAuthenticatedSafeDataRepr { raw: repr }
    }

    fn put_repr<W: Writer>(repr: &Asn1RawDer, w: &mut W) -> Result<(), WriteError> {
        repr.put(w)
    }

    fn repr_well_formed_at(repr: &Asn1RawDer, limit: u8) -> bool {
        repr.well_formed_at(limit)
    }

    ghost there = { λ x. refl };

    ghost back = { λ x. refl };

    ghost seen = { λ x y. (λ e. e, λ e. e) };
}

impl Pfx<RawAuthenticatedSafeDataRepr> {
    /// The octets that a MAC covers: the contents octets of the OCTET STRING in `authSafe`, without its header
    /// (RFC 7292, 5.1). `None` where `authSafe` isn't data.
    pub fn mac_octets(&self) -> Option<&[u8]>
        ensures { option_value (λ s. s.now) result ≡ mac_octets (⟦<RawPfx as DerSerialize>⟧.value self.now) }
    {
        match &self.auth_safe {
            AuthenticatedSafeContentInfo::Data(raw) => Some(raw.0.as_slice()),
            AuthenticatedSafeContentInfo::Unknown { .. } => None,
        }
    }
}
