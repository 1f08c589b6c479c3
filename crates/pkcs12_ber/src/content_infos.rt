//! Contents of which the data are octets.

ghost use Rattle.std.specs.Prelude.{◌≡◌};
ghost use Rattle.pkcs12_ber.specs.ContentInfos.{content_info, content_info_value};
ghost use Rattle.pkcs12_ber.specs.ContentInfosEqual.{content_info_equal};

use asn1_choices::{Alternative, AnyOid, AnyOidRef, Chosen, WriteChoice};
use asn1_core::prelude::*;
use pkcs12_bags::parts::oids::{OidNumber, PKCS7_DATA};
use std::alloc::Global;
use x509_pkcs12::content_infos::{AnyContent, AnyContentRef, any_content, content_of};

/// `ContentInfo ::= SEQUENCE { contentType ContentType, content [0] EXPLICIT ANY DEFINED BY contentType OPTIONAL }`
/// (RFC 2315, 7; RFC 7292, 4). What the octets of data are an encoding of is not examined, so that it may be BER.
#[derive(Debug, Drop, PartialEq, Eq)]
pub enum BerContentInfo {
    /// The octets of the OCTET STRING of `pkcs7-data`.
    Data(OctetStringAsn1),
    /// Any other content type.
    Unknown {
        content_type: ObjectIdentifier,
        content: Option<Asn1RawDer>,
    },
}

type Choice = Either<
    Alternative<OidNumber<PKCS7_DATA>, Alone<ExplicitContextTag0<OctetStringAsn1>>>,
    AnyOid<AnyContent>,
>;

type ChoiceRef<'a> = Either<
    Alternative<OidNumber<PKCS7_DATA>, Alone<ExplicitContextTag0<Ref<&'a OctetStringAsn1>>>>,
    AnyOidRef<'a, AnyContentRef<'a>>,
>;

impl BerContentInfo {
    fn choice(&self) -> ChoiceRef<'_>
        ensures { ⟦<ChoiceRef<'static> as WriteChoice>⟧.value result ≡ content_info_value self.now }
    {
        match self {
            Self::Data(octets) => {
                let data = ExplicitContextTag0(Ref(octets));
                Either::First(Alternative::new(Alone(data)))
            }
            Self::Unknown {
                content_type,
                content,
            } => Either::Second(AnyOidRef(content_type, any_content(content))),
        }
    }
}

impl Sequence for BerContentInfo {
    ghost asn1 = { content_info };

    ghost value = { content_info_value };

    fn with_components<U: ComponentVisitor>(&self, visitor: &mut U) -> U::Out {
        visitor.visit(&Chosen(self.choice()))
    }

    fn read_fields(alloc: Global, r: &mut Reader<'_>, nest: u8) -> Result<Self, Error> {
        let Chosen(choice) = Chosen::<Choice>::read_components(alloc, r, nest)?;
        match choice {
            Either::First(alternative) => Ok(Self::Data(alternative.into_components().0.0)),
            Either::Second(AnyOid(content_type, content)) => Ok(Self::Unknown {
                content_type,
                content: content_of(content),
            }),
        }
    }

    fn clone_fields(&self, alloc: Global) -> Result<Self, Error> {
        match self {
            BerContentInfo::Data(octets) => Ok(BerContentInfo::Data(octets.try_clone(alloc)?)),
            BerContentInfo::Unknown {
                content_type,
                content,
            } => {
                let content_type = content_type.try_clone(alloc)?;
                let content = content.try_clone(alloc)?;
                Ok(BerContentInfo::Unknown {
                    content_type,
                    content,
                })
            }
        }
    }

    ghost equal = { content_info_equal };
}
