//! Enveloped data under its content type (RFC 5652, 3 and 6.1), with recipients of every kind, each kept as it is.

ghost use Rattle.std.specs.Prelude.{◌≡◌, ℕ, List, map};
ghost use Rattle.std.proofs.Common.{refl};
ghost use Rattle.asn1_core.specs.Der.{list_equal, oid_from_test, option_equal, two_equal, with_end};
ghost use Rattle.part_ranges.specs.Enveloped.{enveloped_data_oid, envelope, EnvelopeValue, envelope_value};
ghost use Rattle.part_ranges.specs.laws.Enveloped.{lawful_envelope};
ghost use Rattle.x509_base.specs.Names.{attribute_equal, attribute_value};
ghost use Rattle.pkcs7_enveloped.specs.Enveloped.{encrypted_content_equal, originator_equal, originator_info_value};
ghost use Rattle.x509_pkcs7.specs.laws.RawSigned.{with_head};
ghost use Rattle.pkcs7_enveloped.specs.Versions.{version_equal};

use asn1_choices::{Named, OnlyOid};
use asn1_core::prelude::*;
use std::alloc::Global;
use x509_pkcs7::EnvelopedData;

/// `id-envelopedData` (RFC 5652, 6.1)
const ENVELOPED_DATA: [u8; 9] = [0x2A, 0x86, 0x48, 0x86, 0xF7, 0x0D, 0x01, 0x07, 0x03];

/// Names `id-envelopedData`.
#[derive(Drop)]
pub struct EnvelopedDataType;

impl Named for EnvelopedDataType {
    ghost OID = { enveloped_data_oid };

    fn octets() -> &'static [u8] {
        &ENVELOPED_DATA
    }

    ghost valid = { oid_from_test enveloped_data_oid refl };
}

/// `ContentInfo ::= SEQUENCE { contentType ContentType, content [0] EXPLICIT ANY DEFINED BY contentType }` (RFC 5652,
/// 3) of `id-envelopedData`, with recipients of the type `R`.
#[derive(Debug, Drop, PartialEq)]
pub struct Envelope<R = Asn1RawDer> {
    pub enveloped_data: ExplicitContextTag0<EnvelopedData<R>>,
}

impl<R: DerSerialize> DerSerialize for Envelope<R> {
    ghost Value = { EnvelopeValue R.Value };

    ghost value = { envelope_value R.value };

    ghost format = { envelope R.format };

    fn put<W: Writer>(&self, w: &mut W) -> Result<(), WriteError> {
        put_of!(self, w; (OnlyOid::<EnvelopedDataType>::new()), enveloped_data)
    }

    fn well_formed_at(&self, limit: u8) -> bool {
        self.enveloped_data.well_formed_at(limit)
    }
}

impl<R: DerDeserialize> DerDeserialize for Envelope<R> {
    fn read(alloc: Global, r: &mut Reader<'_>, nest: u8) -> Result<Self, Error> {
        let Required(_, Required(enveloped_data, End)) = read_within::<
            Required<OnlyOid<EnvelopedDataType>, _>,
        >(alloc, r, nest, 0x30)?;
        Ok(Envelope { enveloped_data })
    }

    fn begins(tag: u8) -> bool {
        tag == 0x30
    }

    ghost lawful = { lawful_envelope R.DerSerialize.format R.lawful };
}

impl<R: EqualByText> EqualByText for Envelope<R> {
    ghost equal_by_text = { λ x y.
        with_head (with_end
        (two_equal (version_equal x.enveloped_data.0.version y.enveloped_data.0.version)
        (two_equal (option_equal _ (λ o. originator_info_value o.0) (λ a b. originator_equal a.0 b.0) x.enveloped_data.0.originator_info.0 y.enveloped_data.0.originator_info.0)
        (two_equal (list_equal R.eq R.DerSerialize.value R.equal_by_text x.enveloped_data.0.recipient_infos.0.items y.enveloped_data.0.recipient_infos.0.items)
        (two_equal (encrypted_content_equal x.enveloped_data.0.encrypted_content_info y.enveloped_data.0.encrypted_content_info)
        (with_end (option_equal _ (λ a. map attribute_value a.0.0.items) (λ a b. list_equal _ _ attribute_equal a.0.0.items b.0.0.items) x.enveloped_data.0.unprotected_attrs.0 y.enveloped_data.0.unprotected_attrs.0))))))) };
}

impl<R: TryClone + EqualByText> TryClone for Envelope<R> {
    fn try_clone(&self, alloc: Global) -> Result<Self, Error> {
        Ok(Envelope {
            enveloped_data: self.enveloped_data.try_clone(alloc)?,
        })
    }
}
