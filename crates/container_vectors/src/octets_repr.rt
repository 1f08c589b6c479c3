//! A representation of the data of `authSafe` as a caller would write it: the octets of one OCTET STRING.

ghost use Rattle.std.specs.Prelude.{◌≡◌, ℕ, List};
ghost use Rattle.std.proofs.Common.{◌∙◌, refl, sym};
ghost use Rattle.std.proofs.lemmas.List.{map-id};
ghost use Rattle.asn1_core.specs.Der.{octet_string, lawful_octet_string};

use asn1_core::{DerDeserialize, DerSerialize, Error, OctetStringAsn1, Reader, WriteError, Writer};
use asn1_core_writers::put_element;
use std::alloc::Global;
use x509_containers::AuthenticatedSafeDataRepr;

/// Data that is an OCTET STRING.
#[derive(Debug, Drop)]
pub struct OctetsRepr {
    octets: Vec<u8>,
}

impl DerSerialize for OctetsRepr {
    ghost Value = { List ℕ };

    ghost value = { λ x. x.octets.items };

    ghost format = { octet_string };

    fn put<W: Writer>(&self, w: &mut W) -> Result<(), WriteError> {
        put_element(0x04, self.octets.as_slice(), w)
    }

    fn well_formed_at(&self, _limit: u8) -> bool {
        true
    }
}

impl DerDeserialize for OctetsRepr {
    fn read(alloc: Global, r: &mut Reader<'_>, nest: u8) -> Result<Self, Error> {
        let octets = OctetStringAsn1::read(alloc, r, nest)?;
        Ok(OctetsRepr { octets: octets.0 })
    }

    fn begins(tag: u8) -> bool {
        OctetStringAsn1::begins(tag)
    }

    ghost lawful = { lawful_octet_string };
}

// `OctetStringAsn1` would do as `Repr`, but a kit refuses a concrete impl over a type whose clones come of a blanket impl
impl AuthenticatedSafeDataRepr for OctetsRepr {
    type Repr = Vec<u8>;

    ghost into = { λ x. x.octets };

    ghost from = { λ r. record { octets = r } };

    fn into_repr(self) -> Vec<u8> {
        self.octets
    }

    fn from_repr(repr: Vec<u8>) -> Self {
        OctetsRepr { octets: repr }
    }

    fn put_repr<W: Writer>(repr: &Vec<u8>, w: &mut W) -> Result<(), WriteError> {
        put_element(0x04, repr.as_slice(), w)
    }

    fn repr_well_formed_at(_repr: &Vec<u8>, _limit: u8) -> bool {
        true
    }

    ghost there = { λ x. refl };

    ghost back = { λ x. refl };

    ghost seen = { λ x y. (
      λ e. sym (map-id x.items) ∙ e ∙ map-id y.items,
      λ e. map-id x.items ∙ e ∙ sym (map-id y.items),
    ) };
}
