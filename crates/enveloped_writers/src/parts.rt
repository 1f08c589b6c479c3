//! Enveloped data whose recipients are put in order.

ghost use Rattle.std.specs.Prelude.{map};
ghost use Rattle.asn1_core.specs.Asn1.{ANY, SEQUENCE};
ghost use Rattle.asn1_core.specs.Der.{ElementOctets};
ghost use Rattle.enveloped_writers.specs.Values.{content_value, enveloped_value, file_value};
ghost use Rattle.part_ranges.specs.Enveloped.{EnvelopedFileValue, enveloped_file};
ghost use Rattle.pkcs7_enveloped.specs.Enveloped.{EnvelopedValue, encrypted_content_info, enveloped};

use asn1_borrowed::{ElementRef, ImplicitTag0OctetsRef};
use asn1_choices::OnlyOid;
use asn1_core::prelude::*;
use part_ranges::enveloped::EnvelopedDataType;
use pkcs7_content::CmsVersion;
use x509_base::{AlgorithmIdentifier, Attribute};
use x509_pkcs7::OriginatorInfo;

/// `EncryptedContentInfo`.
#[derive(Drop)]
pub(crate) struct ContentParts<'a> {
    pub(crate) content_type: KnownOid<'a>,
    pub(crate) algorithm: AlgorithmIdentifier,
    pub(crate) content: Option<ImplicitTag0OctetsRef<'a>>,
}

impl DerSerialize for ContentParts<'_> {
    ghost Value = { encrypted_content_info.Value };

    ghost value = { content_value };

    ghost format = { (SEQUENCE encrypted_content_info).format };

    fn put<W: Writer>(&self, w: &mut W) -> Result<(), WriteError> {
        put_of!(self, w; content_type, algorithm, content OPTIONAL)
    }

    fn well_formed_at(&self, limit: u8) -> bool {
        formed_of!(self, limit; content_type, algorithm, content OPTIONAL)
    }
}

/// `EnvelopedData`.
#[derive(Drop)]
pub(crate) struct EnvelopedParts<'a> {
    pub(crate) version: CmsVersion,
    /// Always `None`.
    pub(crate) originator: Option<ImplicitContextTag0<OriginatorInfo>>,
    pub(crate) recipients: Asn1SetOf<ElementRef<'a>>,
    pub(crate) content: ContentParts<'a>,
    pub(crate) attributes: Option<ImplicitContextTag1<Asn1SetOf<Attribute>>>,
}

impl DerSerialize for EnvelopedParts<'_> {
    ghost Value = { EnvelopedValue ElementOctets };

    ghost value = { enveloped_value };

    ghost format = { enveloped ANY.format };

    fn put<W: Writer>(&self, w: &mut W) -> Result<(), WriteError> {
        put_of!(self, w; version, originator OPTIONAL, recipients, content, attributes OPTIONAL)
    }

    fn well_formed_at(&self, limit: u8) -> bool {
        formed_of!(self, limit; version, originator OPTIONAL, recipients, content, attributes OPTIONAL)
    }
}

/// The `ContentInfo` of enveloped data (RFC 5652, 3).
#[derive(Drop)]
pub(crate) struct EnvelopedFile<'a> {
    pub(crate) enveloped_data: ExplicitContextTag0<EnvelopedParts<'a>>,
}

impl DerSerialize for EnvelopedFile<'_> {
    ghost Value = { EnvelopedFileValue };

    ghost value = { file_value };

    ghost format = { enveloped_file };

    fn put<W: Writer>(&self, w: &mut W) -> Result<(), WriteError> {
        put_of!(self, w; (OnlyOid::<EnvelopedDataType>::new()), enveloped_data)
    }

    fn well_formed_at(&self, limit: u8) -> bool {
        self.enveloped_data.well_formed_at(limit)
    }
}
