//! PFX.

ghost use Rattle.std.specs.Prelude.{◌≡◌, Option};
ghost use Rattle.std.proofs.Common.{rules};
ghost use Rattle.std.proofs.lemmas.Bool.Decides.{Decides-eqb};
ghost use Rattle.asn1_core.specs.Der.{with_end, option_value, SeesEqual, option_equal, two_equal};
ghost use Rattle.pkcs12_algs.specs.Digests.{mac_data_value};
ghost use Rattle.pkcs12_algs.specs.AlgorithmsEqual.{mac_data_equal};
ghost use Rattle.x509_pkcs12.specs.SeenAs.{seen_as};
ghost use Rattle.x509_pkcs12.specs.Pfxs.{PfxValue, pfx};
ghost use Rattle.x509_pkcs12.specs.laws.Pfxs.{lawful_pfx};

use crate::auth_safes::AuthenticatedSafeContentInfo;
use crate::representations::AuthenticatedSafeDataRepr;
use asn1_core::prelude::*;
use pkcs12_algs::MacData;
use std::alloc::Global;

/// `PFX ::= SEQUENCE { version INTEGER {v3(3)}(v3,...), authSafe ContentInfo, macData MacData OPTIONAL }` (RFC 7292,
/// 4), with the data of `authSafe` in the representation `R`. Only version 3 is read, and well-formed.
#[derive(Drop)]
#[derive_where(PartialEq, Eq, Debug; R::Repr)]
pub struct Pfx<R: AuthenticatedSafeDataRepr> {
    pub version: u8,
    pub auth_safe: AuthenticatedSafeContentInfo<R>,
    pub mac_data: Option<MacData>,
}

impl<R: AuthenticatedSafeDataRepr> DerSerialize for Pfx<R> {
    ghost Value = { PfxValue R.Value };

    ghost value = { λ p. (p.version, (⟦<AuthenticatedSafeContentInfo<R> as DerSerialize>⟧.value p.auth_safe, (option_value mac_data_value p.mac_data, tt))) };

    ghost format = { pfx R.format };

    fn put<W: Writer>(&self, w: &mut W) -> Result<(), WriteError> {
        put_of!(self, w; version, auth_safe, mac_data OPTIONAL)
    }

    fn well_formed_at(&self, limit: u8) -> bool {
        let rest = body_of!(self; auth_safe, mac_data OPTIONAL);
        self.version == 3 && rest.components_well_formed_at(limit)
    }
}

impl<R: AuthenticatedSafeDataRepr> DerDeserialize for Pfx<R> {
    fn read(alloc: Global, r: &mut Reader<'_>, nest: u8) -> Result<Self, Error> {
        let fields_of!((FixedVersion::<3>), auth_safe, mac_data OPTIONAL) = read_within(
            alloc, r, nest, 0x30,
        )?;
        Ok(Pfx {
            version: 3,
            auth_safe,
            mac_data,
        })
    }

    fn begins(tag: u8) -> bool {
        tag == 0x30
    }

    ghost lawful = { lawful_pfx R.DerSerialize.format R.lawful };
}

impl<R: AuthenticatedSafeDataRepr> EqualByText for Pfx<R> {
    ghost equal_by_text = { λ x y.
        let same = seen_as R.Repr.equal R.seen in
        let authentic : SeesEqual ⟦<AuthenticatedSafeContentInfo<R> as PartialEq>⟧.eq ⟦<AuthenticatedSafeContentInfo<R> as DerSerialize>⟧.value = Prim.search rules in
        two_equal (Decides-eqb x.version y.version) (two_equal (authentic x.auth_safe y.auth_safe)
        (with_end (option_equal _ mac_data_value mac_data_equal x.mac_data y.mac_data))) };
}

impl<R: AuthenticatedSafeDataRepr> TryClone for Pfx<R> {
    #[inline(always)]
    fn try_clone(&self, alloc: Global) -> Result<Self, Error> {
        clone_of!(self, alloc; Pfx { auth_safe, mac_data; version })
    }
}
