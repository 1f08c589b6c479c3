//! Signed data with its sets put in order.

ghost use Rattle.std.specs.Prelude.{◌≡◌, ℕ, List, map};
ghost use Rattle.asn1_core.specs.Der.{ElementOctets, each, raw, within};
ghost use Rattle.signed_writers.specs.Given.{GivenFileValue, GivenSignedValue, given_file, given_signed};
ghost use Rattle.signed_writers.specs.PartValues.{file_value, signed_value};

use crate::content::ContentInfo;
use asn1_borrowed::ElementRef;
use asn1_choices::OnlyOid;
use asn1_core::prelude::*;
use pkcs7_content::CmsVersion;
use pkcs7_signed::SignedDataType;

/// `[0] IMPLICIT SET OF` elements.
#[derive(Drop)]
pub(crate) struct Certificates<'a>(pub(crate) Vec<ElementRef<'a>>);

impl DerSerialize for Certificates<'_> {
    ghost Value = { List ElementOctets };

    ghost value = { λ x. map (λ e. e.0.now) x.0.items };

    ghost format = { within 0xA0 (each raw) };

    fn put<W: Writer>(&self, w: &mut W) -> Result<(), WriteError> {
        put_within(0xA0, &self.0, w)
    }

    fn well_formed_at(&self, limit: u8) -> bool {
        self.0.components_well_formed_at(limit)
    }
}

/// `[1] IMPLICIT SET OF` elements.
#[derive(Drop)]
pub(crate) struct RevocationLists<'a>(pub(crate) Vec<ElementRef<'a>>);

impl DerSerialize for RevocationLists<'_> {
    ghost Value = { List ElementOctets };

    ghost value = { λ x. map (λ e. e.0.now) x.0.items };

    ghost format = { within 0xA1 (each raw) };

    fn put<W: Writer>(&self, w: &mut W) -> Result<(), WriteError> {
        put_within(0xA1, &self.0, w)
    }

    fn well_formed_at(&self, limit: u8) -> bool {
        self.0.components_well_formed_at(limit)
    }
}

/// `SignedData`, with its algorithms and signers encoded.
#[derive(Drop)]
pub(crate) struct SignedParts<'a> {
    pub(crate) version: CmsVersion,
    pub(crate) digest_algorithms: Asn1SetOf<Asn1RawDer>,
    pub(crate) content_info: ContentInfo<'a>,
    pub(crate) certificates: Option<Certificates<'a>>,
    pub(crate) crls: Option<RevocationLists<'a>>,
    pub(crate) signers_infos: Asn1SetOf<Asn1RawDer>,
}

impl DerSerialize for SignedParts<'_> {
    ghost Value = { GivenSignedValue };

    ghost value = { signed_value };

    ghost format = { given_signed };

    fn put<W: Writer>(&self, w: &mut W) -> Result<(), WriteError> {
        put_of!(self, w;
            version, digest_algorithms, content_info, certificates OPTIONAL, crls OPTIONAL, signers_infos
        )
    }

    fn well_formed_at(&self, limit: u8) -> bool {
        formed_of!(self, limit;
            version, digest_algorithms, content_info, certificates OPTIONAL, crls OPTIONAL, signers_infos
        )
    }
}

/// The `ContentInfo` of signed data (RFC 5652, 3).
#[derive(Drop)]
pub(crate) struct SignedFile<'a> {
    pub(crate) signed_data: ExplicitContextTag0<SignedParts<'a>>,
}

impl DerSerialize for SignedFile<'_> {
    ghost Value = { GivenFileValue };

    ghost value = { file_value };

    ghost format = { given_file };

    fn put<W: Writer>(&self, w: &mut W) -> Result<(), WriteError> {
        put_of!(self, w; (OnlyOid::<SignedDataType>::new()), signed_data)
    }

    fn well_formed_at(&self, limit: u8) -> bool {
        self.signed_data.well_formed_at(limit)
    }
}
