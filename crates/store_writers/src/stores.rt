//! A PFX whose authSafe is data.

ghost use Rattle.std.specs.Prelude.{◌≡◌, List, ℕ};
ghost use Rattle.asn1_core.specs.Der.{option_value, raw};
ghost use Rattle.asn1_core_oid.specs.Known.{data_oid};
ghost use Rattle.pkcs12_algs.specs.Digests.{mac_data_value};
ghost use Rattle.store_writers.specs.Written.{store_value};
ghost use Rattle.x509_pkcs12.specs.Pfxs.{PfxValue, pfx};

use asn1_borrowed::{Body, ElementRef};
use asn1_core::prelude::*;
use asn1_core_oid::known::DATA;
use pkcs12_algs::MacData;

/// `PFX` of version 3 (RFC 7292, 4), whose `authSafe` is `data`.
#[derive(Drop)]
pub(crate) struct Store<'a> {
    /// The element of the `AuthenticatedSafe`.
    pub(crate) safe: &'a [u8],
    pub(crate) mac: Option<&'a MacData>,
}

/// `authSafe`, a `ContentInfo` of `data`.
type AuthSafe<'a> = Body<
    Required<KnownOid<'a>, Alone<ExplicitContextTag0<OctetStringAsn1Container<ElementRef<'a>>>>>,
>;

type Parts<'a> = Required<FixedVersion<3>, Required<AuthSafe<'a>, Maybe<Ref<&'a MacData>, End>>>;

impl Store<'_> {
    fn parts(&self) -> Parts<'_>
        ensures { ⟦<Parts<'static> as WriteComponents>⟧.value result ≡ (3, ((data_oid, self.now.safe.now), (option_value (λ m. mac_data_value m.now) self.now.mac, tt))) }
    {
        let data = ExplicitContextTag0(OctetStringAsn1Container(ElementRef(self.safe)));
        let auth_safe = Body(Required(KnownOid(&DATA), Alone(data)));
        let mac = match self.mac {
            Some(mac) => Some(Ref(mac)),
            None => None,
        };
        Required(FixedVersion, Required(auth_safe, Maybe(mac, End)))
    }
}

impl DerSerialize for Store<'_> {
    ghost Value = { PfxValue (List ℕ) };

    ghost value = { λ x. store_value x.safe.now (option_value (λ m. mac_data_value m.now) x.mac) };

    ghost format = { pfx raw };

    fn put<W: Writer>(&self, w: &mut W) -> Result<(), WriteError> {
        put_within(0x30, &self.parts(), w)
    }

    fn well_formed_at(&self, limit: u8) -> bool {
        self.parts().components_well_formed_at(limit)
    }
}
