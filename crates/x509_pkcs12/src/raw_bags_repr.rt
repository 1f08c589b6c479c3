//! The representation that keeps the values of bags as they are.

ghost use Rattle.std.specs.Prelude.{map};
ghost use Rattle.std.proofs.Common.{refl, rules};
ghost use Rattle.asn1_core.specs.Der.{list_equal, SeesEqual};
ghost use Rattle.x509_pkcs12.specs.RawBagsEqual.{raw_safe_contents_equal};
ghost use Rattle.x509_pkcs12.specs.RawBagsRepr.{raw_bags_authenticated_safe_data_repr};

use crate::auth_safes::AuthenticatedSafeContentInfo;
use crate::pfxs::Pfx;
use crate::raw_bags::RawSafeContents;
use crate::representations::AuthenticatedSafeDataRepr;
use asn1_core::prelude::*;
use std::alloc::Global;

/// An item of `AuthenticatedSafe`, a `ContentInfo` (RFC 7292, 4.1): the bags in the OCTET STRING of `pkcs7-data`, which
/// are not parsed, or any other content, encrypted bags too.
pub type RawBagsContentInfo = AuthenticatedSafeContentInfo<RawSafeContents>;

/// `AuthenticatedSafe ::= SEQUENCE OF ContentInfo` (RFC 7292, 4.1), with bags that are not parsed.
#[derive(Debug, Drop, PartialEq, Eq)]
pub struct RawBagsAuthenticatedSafeDataRepr {
    contents: Vec<RawBagsContentInfo>,
}

/// A PFX of which the bags are not parsed.
pub type RawBagsPfx = Pfx<RawBagsAuthenticatedSafeDataRepr>;

impl Sequence for RawBagsAuthenticatedSafeDataRepr {
    ghost asn1 = { raw_bags_authenticated_safe_data_repr };

    ghost value = { λ x. map ⟦<RawBagsContentInfo as DerSerialize>⟧.value x.contents.items };

    fn with_components<U: ComponentVisitor>(&self, visitor: &mut U) -> U::Out {
        visitor.visit(&self.contents)
    }

    fn read_fields(alloc: Global, r: &mut Reader<'_>, nest: u8) -> Result<Self, Error> {
        let contents = ReadComponents::read_components(alloc, r, nest)?;
        Ok(RawBagsAuthenticatedSafeDataRepr { contents })
    }

    #[inline(always)]
    fn clone_fields(&self, alloc: Global) -> Result<Self, Error> {
        clone_of!(self, alloc; RawBagsAuthenticatedSafeDataRepr { contents })
    }

    ghost equal = { λ x y.
        let bags = raw_safe_contents_equal in
        let infos : SeesEqual ⟦<RawBagsContentInfo as PartialEq>⟧.eq ⟦<RawBagsContentInfo as DerSerialize>⟧.value = Prim.search rules in
        list_equal _ _ infos x.contents.items y.contents.items };
}

impl AuthenticatedSafeDataRepr for RawBagsAuthenticatedSafeDataRepr {
    type Repr = Vec<RawBagsContentInfo>;

    ghost into = { λ x. x.contents };

    ghost from = { λ r. record { contents = r } };

    fn into_repr(self) -> Vec<RawBagsContentInfo> {
        self.contents
    }

    fn from_repr(repr: Vec<RawBagsContentInfo>) -> Self {
        RawBagsAuthenticatedSafeDataRepr { contents: repr }
    }

    fn put_repr<W: Writer>(repr: &Vec<RawBagsContentInfo>, w: &mut W) -> Result<(), WriteError> {
        put_within(0x30, repr, w)
    }

    fn repr_well_formed_at(repr: &Vec<RawBagsContentInfo>, limit: u8) -> bool {
        repr.components_well_formed_at(limit)
    }

    ghost there = { λ x. refl };

    ghost back = { λ x. refl };

    ghost seen = { λ x y. (λ e. e, λ e. e) };
}
