//! The contents that a PKCS #12 file holds.

ghost use Rattle.std.specs.Prelude.{◌≡◌};
ghost use Rattle.asn1_core.specs.Der.{option_value, sequence, followed_by, lawful_nothing, lawful_sequence};
ghost use Rattle.x509_pkcs12.specs.ContentInfos.{safe_contents_content_info, safe_contents_content_info_value};
ghost use Rattle.x509_pkcs12.specs.ContentInfosEqual.{safe_contents_content_info_equal};

use asn1_choices::{Alternative, AnyOid, AnyOidRef, Chosen, WriteChoice};
use asn1_core::prelude::*;
use pkcs12_bags::parts::EncryptedSafeContents;
use pkcs12_bags::parts::oids::{ENCRYPTED_DATA, OidNumber, PKCS7_DATA};
use pkcs12_bags::safe_bags::SafeContents;
use std::alloc::Global;

/// An item of `AuthenticatedSafe`, a `ContentInfo ::= SEQUENCE { contentType ContentType, content [0] EXPLICIT ANY
/// DEFINED BY contentType OPTIONAL }` (RFC 2315, 7; RFC 7292, 4.1).
#[derive(Debug, Drop, PartialEq, Eq)]
pub enum SafeContentsContentInfo {
    /// The bags in the OCTET STRING of `pkcs7-data`.
    Data(SafeContents),
    /// The encrypted bags in `pkcs7-encryptedData`, whose version is 0.
    EncryptedData(EncryptedSafeContents),
    /// Any other content type.
    Unknown {
        content_type: ObjectIdentifier,
        content: Option<Asn1RawDer>,
    },
}

/// `content [0] EXPLICIT ANY OPTIONAL`, at the end of a `ContentInfo`.
pub type AnyContent = Maybe<ExplicitContextTag0<Asn1RawDer>, End>;

/// The same, borrowed, for writing.
pub type AnyContentRef<'a> = Maybe<ExplicitContextTag0<Ref<&'a Asn1RawDer>>, End>;

/// The content, borrowed.
pub fn any_content(content: &Option<Asn1RawDer>) -> AnyContentRef<'_>
    ensures { ⟦<AnyContentRef<'static> as WriteComponents>⟧.value result ≡ (option_value (λ c. c.0.items) content.now, tt) }
{
    match content {
        Some(content) => Maybe(Some(ExplicitContextTag0(Ref(content))), End),
        None => Maybe(None, End),
    }
}

/// The content that was read.
pub fn content_of(content: AnyContent) -> Option<Asn1RawDer>
    ensures { option_value (λ c. c.0.items) result ≡ (⟦<AnyContent as WriteComponents>⟧.value content).0 }
{
    let Maybe(tagged, End) = content;
    match tagged {
        Some(ExplicitContextTag0(content)) => Some(content),
        None => None,
    }
}

/// `EncryptedData ::= SEQUENCE { version Version, encryptedContentInfo EncryptedContentInfo }` (RFC 2315, 13), tagged.
type EncryptedComponents = ExplicitContextTag0<
    Asn1Sequence<Required<FixedVersion<0>, Required<EncryptedSafeContents, End>>>,
>;

type EncryptedRef<'a> = ExplicitContextTag0<
    Asn1Sequence<Required<FixedVersion<0>, Required<Ref<&'a EncryptedSafeContents>, End>>>,
>;

/// A SEQUENCE of parts.
#[derive(Drop)]
struct Asn1Sequence<R>(R);

impl<R: WriteComponents> DerSerialize for Asn1Sequence<R> {
    ghost Value = { R.Value };

    ghost value = { λ x. R.value x.0 };

    ghost format = { sequence R.format };

    fn put<W: Writer>(&self, w: &mut W) -> Result<(), WriteError> {
        put_within(0x30, &self.0, w)
    }

    fn well_formed_at(&self, limit: u8) -> bool {
        self.0.components_well_formed_at(limit)
    }
}

impl<A: DerDeserialize, B: DerDeserialize> DerDeserialize
    for Asn1Sequence<Required<A, Required<B, End>>> {
    fn read(alloc: Global, r: &mut Reader<'_>, nest: u8) -> Result<Self, Error> {
        Ok(Asn1Sequence(read_within(alloc, r, nest, 0x30)?))
    }

    fn begins(tag: u8) -> bool {
        tag == 0x30
    }

    ghost lawful = { lawful_sequence (followed_by A.lawful (followed_by B.lawful lawful_nothing)) };
}

type ContentChoice = Either<
    Alternative<
        OidNumber<PKCS7_DATA>,
        Alone<ExplicitContextTag0<OctetStringAsn1Container<SafeContents>>>,
    >,
    Either<Alternative<OidNumber<ENCRYPTED_DATA>, Alone<EncryptedComponents>>, AnyOid<AnyContent>>,
>;

type ContentRef<'a> = Either<
    Alternative<
        OidNumber<PKCS7_DATA>,
        Alone<ExplicitContextTag0<OctetStringAsn1Container<Ref<&'a SafeContents>>>>,
    >,
    Either<
        Alternative<OidNumber<ENCRYPTED_DATA>, Alone<EncryptedRef<'a>>>,
        AnyOidRef<'a, AnyContentRef<'a>>,
    >,
>;

impl SafeContentsContentInfo {
    fn choice(&self) -> ContentRef<'_>
        ensures { ⟦<ContentRef<'static> as WriteChoice>⟧.value result ≡ safe_contents_content_info_value self.now }
    {
        match self {
            Self::Data(bags) => {
                let data = ExplicitContextTag0(OctetStringAsn1Container(Ref(bags)));
                Either::First(Alternative::new(Alone(data)))
            }
            Self::EncryptedData(contents) => {
                let components = Required(FixedVersion, Required(Ref(contents), End));
                let data = ExplicitContextTag0(Asn1Sequence(components));
                Either::Second(Either::First(Alternative::new(Alone(data))))
            }
            Self::Unknown {
                content_type,
                content,
            } => {
                let any = AnyOidRef(content_type, any_content(content));
                Either::Second(Either::Second(any))
            }
        }
    }
}

impl Sequence for SafeContentsContentInfo {
    ghost asn1 = { safe_contents_content_info };

    ghost value = { safe_contents_content_info_value };

    fn with_components<U: ComponentVisitor>(&self, visitor: &mut U) -> U::Out {
        visitor.visit(&Chosen(self.choice()))
    }

    fn read_fields(alloc: Global, r: &mut Reader<'_>, nest: u8) -> Result<Self, Error> {
        let Chosen(choice) = Chosen::<ContentChoice>::read_components(alloc, r, nest)?;
        match choice {
            Either::First(alternative) => Ok(Self::Data(alternative.into_components().0.0.0)),
            Either::Second(Either::First(alternative)) => {
                let Required(FixedVersion, Required(contents, End)) = alternative
                    .into_components()
                    .0
                    .0
                    .0;
                Ok(Self::EncryptedData(contents))
            }
            Either::Second(Either::Second(AnyOid(content_type, content))) => Ok(Self::Unknown {
                content_type,
                content: content_of(content),
            }),
        }
    }

    #[inline(always)]
    fn clone_fields(&self, alloc: Global) -> Result<Self, Error> {
        match self {
            Self::Data(bags) => Ok(Self::Data(bags.try_clone(alloc)?)),
            Self::EncryptedData(contents) => Ok(Self::EncryptedData(contents.try_clone(alloc)?)),
            Self::Unknown {
                content_type,
                content,
            } => {
                let content_type = content_type.try_clone(alloc)?;
                let content = content.try_clone(alloc)?;
                Ok(Self::Unknown {
                    content_type,
                    content,
                })
            }
        }
    }

    ghost equal = { safe_contents_content_info_equal };
}
