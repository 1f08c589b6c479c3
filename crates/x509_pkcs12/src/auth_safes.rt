//! What a PFX authenticates.

ghost use Rattle.std.specs.Prelude.{◌≡◌, Option};
ghost use Rattle.std.proofs.Common.{inl, inr, rules};
ghost use Rattle.asn1_core.specs.Der.{option_value, octets_of};
ghost use Rattle.x509_pkcs12.specs.SeenAs.{seen_as};
ghost use Rattle.x509_pkcs12.specs.AuthSafes.{AuthSafeValue, auth_safe};
ghost use Rattle.x509_pkcs12.specs.laws.AuthSafes.{lawful_auth_safe};
ghost use Rattle.x509_pkcs12.specs.declared.auth_safes.AuthenticatedSafeContentInfo.TheVariants.{Data, Unknown};

use crate::content_infos::{AnyContent, AnyContentRef, any_content, content_of};
use crate::representations::{AuthenticatedSafeDataRepr, ReprRef};
use asn1_choices::{Alternative, AnyOid, AnyOidRef, Chosen, WriteChoice};
use asn1_core::prelude::*;
use pkcs12_bags::parts::oids::{OidNumber, PKCS7_DATA};
use std::alloc::Global;

/// The `authSafe` of a PFX, a `ContentInfo ::= SEQUENCE { contentType ContentType, content [0] EXPLICIT ANY DEFINED BY
/// contentType OPTIONAL }` (RFC 2315, 7; RFC 7292, 4).
#[derive(Drop)]
#[derive_where(PartialEq, Eq, Debug; R::Repr)]
pub enum AuthenticatedSafeContentInfo<R: AuthenticatedSafeDataRepr> {
    /// What the OCTET STRING of `pkcs7-data` contains.
    Data(R::Repr),
    /// Any other content type.
    Unknown {
        content_type: ObjectIdentifier,
        content: Option<Asn1RawDer>,
    },
}

type AuthSafeChoice<R> = Either<
    Alternative<OidNumber<PKCS7_DATA>, Alone<ExplicitContextTag0<OctetStringAsn1Container<R>>>>,
    AnyOid<AnyContent>,
>;

type AuthSafeRef<'a, R> = Either<
    Alternative<
        OidNumber<PKCS7_DATA>,
        Alone<ExplicitContextTag0<OctetStringAsn1Container<ReprRef<'a, R>>>>,
    >,
    AnyOidRef<'a, AnyContentRef<'a>>,
>;

impl<R: AuthenticatedSafeDataRepr> AuthenticatedSafeContentInfo<R> {
    fn choice(&self) -> AuthSafeRef<'_, R>
        ensures { ⟦<AuthSafeRef<'static, R> as WriteChoice>⟧.value result ≡ ⟦<AuthenticatedSafeContentInfo<R> as DerSerialize>⟧.value self.now }
    {
        match self {
            Self::Data(repr) => {
                let data = ExplicitContextTag0(OctetStringAsn1Container(ReprRef::<R>(repr)));
                Either::First(Alternative::new(Alone(data)))
            }
            Self::Unknown {
                content_type,
                content,
            } => Either::Second(AnyOidRef(content_type, any_content(content))),
        }
    }
}

impl<R: AuthenticatedSafeDataRepr> DerSerialize for AuthenticatedSafeContentInfo<R> {
    ghost Value = { AuthSafeValue R.Value };

    ghost value = { λ x. elim x [ Data d ↦ inl (R.value (R.from d)) | Unknown t c ↦ inr (octets_of t, (option_value (λ y. y.0.items) c, tt)) ] };

    ghost format = { auth_safe R.format };

    fn put<W: Writer>(&self, w: &mut W) -> Result<(), WriteError> {
        put_within(0x30, &Chosen(self.choice()), w)
    }

    fn well_formed_at(&self, limit: u8) -> bool {
        self.choice().choice_well_formed_at(limit)
    }
}

impl<R: AuthenticatedSafeDataRepr> DerDeserialize for AuthenticatedSafeContentInfo<R> {
    fn read(alloc: Global, r: &mut Reader<'_>, nest: u8) -> Result<Self, Error> {
        let Chosen(choice) = read_within::<Chosen<AuthSafeChoice<R>>>(alloc, r, nest, 0x30)?;
        match choice {
            Either::First(alternative) => Ok(Self::Data(
                alternative.into_components().0.0.0.into_repr(),
            )),
            Either::Second(AnyOid(content_type, content)) => Ok(Self::Unknown {
                content_type,
                content: content_of(content),
            }),
        }
    }

    fn begins(tag: u8) -> bool {
        tag == 0x30
    }

    ghost lawful = { lawful_auth_safe R.DerSerialize.format R.lawful };
}

impl<R: AuthenticatedSafeDataRepr> EqualByText for AuthenticatedSafeContentInfo<R> {
    ghost equal_by_text = { let same = seen_as R.Repr.equal R.seen in Prim.search rules };
}

impl<R: AuthenticatedSafeDataRepr> TryClone for AuthenticatedSafeContentInfo<R> {
    #[inline(always)]
    fn try_clone(&self, alloc: Global) -> Result<Self, Error> {
        match self {
            AuthenticatedSafeContentInfo::Data(repr) => {
                Ok(AuthenticatedSafeContentInfo::Data(repr.try_clone(alloc)?))
            }
            AuthenticatedSafeContentInfo::Unknown {
                content_type,
                content,
            } => {
                let content_type = content_type.try_clone(alloc)?;
                let content = content.try_clone(alloc)?;
                Ok(AuthenticatedSafeContentInfo::Unknown {
                    content_type,
                    content,
                })
            }
        }
    }
}
