//! Enveloped data (RFC 5652, 6.1).

ghost use Rattle.std.specs.Prelude.{map};
ghost use Rattle.asn1_core.specs.Der.{list_equal, option_equal, two_equal, with_end};
ghost use Rattle.x509_base.specs.Names.{attribute_equal, attribute_value};
ghost use Rattle.pkcs7_enveloped.specs.Enveloped.{encrypted_content_info, encrypted_content_info_value, originator_info, originator_info_value, EnvelopedValue, enveloped_value, enveloped, encrypted_content_equal, originator_equal};
ghost use Rattle.pkcs7_enveloped.specs.laws.Enveloped.{lawful_enveloped};
ghost use Rattle.pkcs7_enveloped.specs.Versions.{version_equal};

use crate::recipients::RecipientInfo;
use asn1_core::prelude::*;
use pkcs7_content::CmsVersion;
use pkcs7_signed_crl::{CertificateSet, RevocationInfoChoices};
use std::alloc::Global;
use x509_base::{AlgorithmIdentifier, Attribute};

/// `ContentType ::= OBJECT IDENTIFIER` (RFC 5652, 3)
pub type ContentType = ObjectIdentifierAsn1;

/// `ContentEncryptionAlgorithmIdentifier ::= AlgorithmIdentifier` (RFC 5652, 10.1.4)
pub type ContentEncryptionAlgorithmIdentifier = AlgorithmIdentifier;

/// `EncryptedContent ::= OCTET STRING`
pub type EncryptedContent = OctetStringAsn1;

/// `UnprotectedAttributes ::= SET OF Attribute`
pub type UnprotectedAttributes = Asn1SetOf<Attribute>;

/// `RecipientInfos ::= SET OF RecipientInfo`
pub type RecipientInfos<R = RecipientInfo> = Asn1SetOf<R>;

/// `EncryptedContentInfo ::= SEQUENCE { contentType ContentType, contentEncryptionAlgorithm
/// ContentEncryptionAlgorithmIdentifier, encryptedContent [0] IMPLICIT EncryptedContent OPTIONAL }`
#[derive(Debug, Drop, PartialEq)]
pub struct EncryptedContentInfo {
    pub content_type: ContentType,
    pub content_encryption_algorithm: ContentEncryptionAlgorithmIdentifier,
    /// Absent where the content is elsewhere.
    pub encrypted_content: Optional<Option<ImplicitContextTag0<EncryptedContent>>>,
}

impl Sequence for EncryptedContentInfo {
    ghost asn1 = { encrypted_content_info };

    ghost value = { encrypted_content_info_value };

    fn with_components<U: ComponentVisitor>(&self, visitor: &mut U) -> U::Out {
        let content = MaybeRef(&self.encrypted_content.0, End);
        let encryption = Required(Ref(&self.content_encryption_algorithm), content);
        visitor.visit(&Required(Ref(&self.content_type), encryption))
    }

    fn read_fields(alloc: Global, r: &mut Reader<'_>, nest: u8) -> Result<Self, Error> {
        let components: types_of!(content_type, algorithm, content OPTIONAL) =
            ReadComponents::read_components(alloc, r, nest)?;
        let fields_of!(content_type, algorithm, content OPTIONAL) = components;
        Ok(EncryptedContentInfo {
            content_type,
            content_encryption_algorithm: algorithm,
            encrypted_content: Optional(content),
        })
    }

    #[inline(always)]
    fn clone_fields(&self, alloc: Global) -> Result<Self, Error> {
        clone_fields_of!(self, alloc; EncryptedContentInfo {
            content_type, content_encryption_algorithm, encrypted_content
        })
    }

    ghost equal = { encrypted_content_equal };
}

/// `OriginatorInfo ::= SEQUENCE { certs [0] IMPLICIT CertificateSet OPTIONAL, crls [1] IMPLICIT RevocationInfoChoices
/// OPTIONAL }`. An absent set and an empty one are told apart.
#[derive(Debug, Drop, PartialEq)]
pub struct OriginatorInfo {
    pub certs: Optional<Option<ImplicitContextTag0<CertificateSet>>>,
    pub crls: Optional<Option<ImplicitContextTag1<RevocationInfoChoices>>>,
}

impl Sequence for OriginatorInfo {
    ghost asn1 = { originator_info };

    ghost value = { originator_info_value };

    fn with_components<U: ComponentVisitor>(&self, visitor: &mut U) -> U::Out {
        visitor.visit(&MaybeRef(&self.certs.0, MaybeRef(&self.crls.0, End)))
    }

    fn read_fields(alloc: Global, r: &mut Reader<'_>, nest: u8) -> Result<Self, Error> {
        let components: types_of!(certs OPTIONAL, crls OPTIONAL) = ReadComponents::read_components(
            alloc, r, nest,
        )?;
        let fields_of!(certs OPTIONAL, crls OPTIONAL) = components;
        Ok(OriginatorInfo {
            certs: Optional(certs),
            crls: Optional(crls),
        })
    }

    #[inline(always)]
    fn clone_fields(&self, alloc: Global) -> Result<Self, Error> {
        clone_fields_of!(self, alloc; OriginatorInfo { certs, crls })
    }

    ghost equal = { originator_equal };
}

/// `EnvelopedData ::= SEQUENCE { version CMSVersion, originatorInfo [0] IMPLICIT OriginatorInfo OPTIONAL,
/// recipientInfos RecipientInfos, encryptedContentInfo EncryptedContentInfo, unprotectedAttrs [1] IMPLICIT
/// UnprotectedAttributes OPTIONAL }`, with recipients of the type `R`.
#[derive(Debug, Drop, PartialEq)]
pub struct EnvelopedData<R = RecipientInfo> {
    pub version: CmsVersion,
    pub originator_info: Optional<Option<ImplicitContextTag0<OriginatorInfo>>>,
    pub recipient_infos: RecipientInfos<R>,
    pub encrypted_content_info: EncryptedContentInfo,
    pub unprotected_attrs: Optional<Option<ImplicitContextTag1<UnprotectedAttributes>>>,
}

impl<R: DerSerialize> DerSerialize for EnvelopedData<R> {
    ghost Value = { EnvelopedValue R.Value };

    ghost value = { enveloped_value R.value };

    ghost format = { enveloped R.format };

    fn put<W: Writer>(&self, w: &mut W) -> Result<(), WriteError> {
        let attributes = MaybeRef(&self.unprotected_attrs.0, End);
        let content = Required(Ref(&self.encrypted_content_info), attributes);
        let recipients = Required(Ref(&self.recipient_infos), content);
        let originator = MaybeRef(&self.originator_info.0, recipients);
        put_within(0x30, &Required(Ref(&self.version), originator), w)
    }

    fn well_formed_at(&self, limit: u8) -> bool {
        let attributes = MaybeRef(&self.unprotected_attrs.0, End);
        let content = Required(Ref(&self.encrypted_content_info), attributes);
        let recipients = Required(Ref(&self.recipient_infos), content);
        let originator = MaybeRef(&self.originator_info.0, recipients);
        Required(Ref(&self.version), originator).components_well_formed_at(limit)
    }
}

impl<R: DerDeserialize> DerDeserialize for EnvelopedData<R> {
    fn read(alloc: Global, r: &mut Reader<'_>, nest: u8) -> Result<Self, Error> {
        let fields_of!(
            version, originator OPTIONAL, recipient_infos, encrypted_content_info,
            attributes OPTIONAL
        ) = read_within(alloc, r, nest, 0x30)?;
        Ok(EnvelopedData {
            version,
            originator_info: Optional(originator),
            recipient_infos,
            encrypted_content_info,
            unprotected_attrs: Optional(attributes),
        })
    }

    fn begins(tag: u8) -> bool {
        tag == 0x30
    }

    ghost lawful = { lawful_enveloped R.DerSerialize.format R.lawful };
}

impl<R: EqualByText> EqualByText for EnvelopedData<R> {
    ghost equal_by_text = { λ x y.
        two_equal (version_equal x.version y.version)
        (two_equal (option_equal _ (λ o. originator_info_value o.0) (λ a b. originator_equal a.0 b.0) x.originator_info.0 y.originator_info.0)
        (two_equal (list_equal R.eq R.DerSerialize.value R.equal_by_text x.recipient_infos.0.items y.recipient_infos.0.items)
        (two_equal (encrypted_content_equal x.encrypted_content_info y.encrypted_content_info)
        (with_end (option_equal _ (λ a. map attribute_value a.0.0.items) (λ a b. list_equal _ _ attribute_equal a.0.0.items b.0.0.items) x.unprotected_attrs.0 y.unprotected_attrs.0))))) };
}

impl<R: TryClone + EqualByText> TryClone for EnvelopedData<R> {
    #[inline(always)]
    fn try_clone(&self, alloc: Global) -> Result<Self, Error> {
        clone_of!(self, alloc; EnvelopedData {
            originator_info, recipient_infos, encrypted_content_info, unprotected_attrs;
            version
        })
    }
}
