//! Signed data with content of any type, and signers of one of several types (RFC 5652, 5.1).

ghost use Rattle.std.specs.Prelude.{◌≡◌, ℕ, List, map};
ghost use Rattle.asn1_core.specs.Der.{set_of, lawful_set, list_equal, with_end};
ghost use Rattle.x509_pkcs7.specs.RawSigned.{signed_data_oid, raw_revocation_info_choices, raw_revocation_info_choices_value, RawSignedValue, raw_signed_value, raw_signed, RawCertificateValue, raw_certificate, raw_revocation_info_choices_equal, raw_signed_equal};
ghost use Rattle.x509_pkcs7.specs.laws.RawSigned.{lawful_raw_signed, lawful_raw_certificate, with_head};

use crate::raw_contents::RawEncapsulatedContentInfo;
use crate::raw_signers::RawSignerInfo;
use asn1_choices::OnlyOid;
use asn1_core::prelude::*;
use pkcs7_content::CmsVersion;
use pkcs7_signed::SignedDataType;
use pkcs7_signed_crl::{CertificateSet, DigestAlgorithmIdentifiers};
use std::alloc::Global;

/// `RevocationInfoChoices ::= SET OF RevocationInfoChoice`, under its tag `[1] IMPLICIT`, each kept as it is.
#[derive(Debug, Drop, PartialEq, Eq)]
pub struct RawRevocationInfoChoices(pub Vec<Asn1RawDer>);

impl TaggedType for RawRevocationInfoChoices {
    ghost asn1 = { raw_revocation_info_choices };

    ghost value = { raw_revocation_info_choices_value };

    ghost TAG = { 0xA1 };

    const TAG: u8 = 0xA1;

    fn put_tagged<W: Writer>(&self, tag: u8, w: &mut W) -> Result<(), WriteError> {
        put_within(tag, &self.0, w)
    }

    fn is_well_formed_at(&self, limit: u8) -> bool {
        self.0.components_well_formed_at(limit)
    }

    fn read_open_contents(alloc: Global, r: &mut Reader<'_>, nest: u8) -> Result<Self, Error> {
        Ok(RawRevocationInfoChoices(read_inside(alloc, r, nest, 0xA1)?))
    }

    fn clone_value(&self, alloc: Global) -> Result<Self, Error> {
        Ok(RawRevocationInfoChoices(self.0.try_clone(alloc)?))
    }

    ghost tagged = { raw_revocation_info_choices.tagged };

    ghost equal = { raw_revocation_info_choices_equal };
}

/// `SignerInfos ::= SET OF SignerInfo`
#[derive(Debug, Drop, PartialEq, Eq)]
pub struct RawSignersInfos<S = RawSignerInfo>(pub Asn1SetOf<S>);

impl<S: DerSerialize> DerSerialize for RawSignersInfos<S> {
    ghost Value = { List S.Value };

    ghost value = { λ x. map S.value x.0.0.items };

    ghost format = { set_of S.format };

    fn put<W: Writer>(&self, w: &mut W) -> Result<(), WriteError> {
        self.0.put(w)
    }

    fn well_formed_at(&self, limit: u8) -> bool {
        self.0.well_formed_at(limit)
    }
}

impl<S: DerDeserialize> DerDeserialize for RawSignersInfos<S> {
    fn read(alloc: Global, r: &mut Reader<'_>, nest: u8) -> Result<Self, Error> {
        Ok(RawSignersInfos(Asn1SetOf::read(alloc, r, nest)?))
    }

    fn begins(tag: u8) -> bool {
        tag == 0x31
    }

    ghost lawful = { lawful_set S.DerSerialize.format S.lawful };
}

impl<S: EqualByText> EqualByText for RawSignersInfos<S> {
    ghost equal_by_text = { λ x y. list_equal S.eq S.DerSerialize.value S.equal_by_text x.0.0.items y.0.0.items };
}

impl<S: TryClone + EqualByText> TryClone for RawSignersInfos<S> {
    fn try_clone(&self, alloc: Global) -> Result<Self, Error> {
        Ok(RawSignersInfos(self.0.try_clone(alloc)?))
    }
}

/// `SignedData ::= SEQUENCE { version CMSVersion, digestAlgorithms DigestAlgorithmIdentifiers, encapContentInfo
/// EncapsulatedContentInfo, certificates [0] IMPLICIT CertificateSet OPTIONAL, crls [1] IMPLICIT RevocationInfoChoices
/// OPTIONAL, signerInfos SignerInfos }`, with signers of the type `S`: `RawSignerInfo`, `SignerInfo`, or `Asn1RawDer`.
/// It takes no nesting level itself, unlike `SignedData`, only those that an `S` takes. Absent certificates are none.
#[derive(Debug, Drop, PartialEq)]
pub struct RawSignedData<S = RawSignerInfo> {
    pub version: CmsVersion,
    pub digest_algorithms: DigestAlgorithmIdentifiers,
    pub content_info: RawEncapsulatedContentInfo,
    pub certificates: Optional<CertificateSet>,
    /// Absent revocation information and an empty set of it are told apart.
    pub crls: Option<RawRevocationInfoChoices>,
    pub signers_infos: RawSignersInfos<S>,
}

impl<S: DerSerialize> DerSerialize for RawSignedData<S> {
    ghost Value = { RawSignedValue S.Value };

    ghost value = { raw_signed_value S.value };

    ghost format = { raw_signed S.format };

    fn put<W: Writer>(&self, w: &mut W) -> Result<(), WriteError> {
        put_of!(self, w;
            version, digest_algorithms, content_info, (&self.certificates.0) DEFAULT,
            crls OPTIONAL, signers_infos
        )
    }

    fn well_formed_at(&self, limit: u8) -> bool {
        formed_of!(self, limit;
            version, digest_algorithms, content_info, (&self.certificates.0) DEFAULT,
            crls OPTIONAL, signers_infos
        )
    }
}

impl<S: DerDeserialize> DerDeserialize for RawSignedData<S> {
    fn read(alloc: Global, r: &mut Reader<'_>, nest: u8) -> Result<Self, Error> {
        let fields_of!(
            version, digest_algorithms, content_info, certificates DEFAULT, crls OPTIONAL,
            signers_infos
        ) = read_within(alloc, r, nest, 0x30)?;
        Ok(RawSignedData {
            version,
            digest_algorithms,
            content_info,
            certificates: Optional(certificates),
            crls,
            signers_infos,
        })
    }

    fn begins(tag: u8) -> bool {
        tag == 0x30
    }

    ghost lawful = { lawful_raw_signed S.DerSerialize.format S.lawful };
}

impl<S: EqualByText> EqualByText for RawSignedData<S> {
    ghost equal_by_text = { raw_signed_equal S.eq S.DerSerialize.value S.equal_by_text };
}

impl<S: TryClone + EqualByText> TryClone for RawSignedData<S> {
    fn try_clone(&self, alloc: Global) -> Result<Self, Error> {
        clone_of!(self, alloc; RawSignedData {
            digest_algorithms, content_info, certificates, crls, signers_infos;
            version
        })
    }
}

/// `ContentInfo ::= SEQUENCE { contentType ContentType, content [0] EXPLICIT ANY DEFINED BY contentType }` (RFC 5652,
/// 3) of `id-signedData`, which is no field, since it is the only content type.
#[derive(Debug, Drop, PartialEq)]
pub struct RawPkcs7Certificate<S = RawSignerInfo> {
    pub signed_data: ExplicitContextTag0<RawSignedData<S>>,
}

impl<S: DerSerialize> DerSerialize for RawPkcs7Certificate<S> {
    ghost Value = { RawCertificateValue S.Value };

    ghost value = { λ x. (signed_data_oid, (raw_signed_value S.value x.signed_data.0, tt)) };

    ghost format = { raw_certificate S.format };

    fn put<W: Writer>(&self, w: &mut W) -> Result<(), WriteError> {
        put_of!(self, w; (OnlyOid::<SignedDataType>::new()), signed_data)
    }

    fn well_formed_at(&self, limit: u8) -> bool {
        self.signed_data.well_formed_at(limit)
    }
}

impl<S: DerDeserialize> DerDeserialize for RawPkcs7Certificate<S> {
    fn read(alloc: Global, r: &mut Reader<'_>, nest: u8) -> Result<Self, Error> {
        let Required(_, Required(signed_data, End)) = read_within::<
            Required<OnlyOid<SignedDataType>, _>,
        >(alloc, r, nest, 0x30)?;
        Ok(RawPkcs7Certificate { signed_data })
    }

    fn begins(tag: u8) -> bool {
        tag == 0x30
    }

    ghost lawful = { lawful_raw_certificate S.DerSerialize.format S.lawful };
}

impl<S: EqualByText> EqualByText for RawPkcs7Certificate<S> {
    ghost equal_by_text = { λ x y. with_head (with_end (raw_signed_equal S.eq S.DerSerialize.value S.equal_by_text x.signed_data.0 y.signed_data.0)) };
}

impl<S: TryClone + EqualByText> TryClone for RawPkcs7Certificate<S> {
    fn try_clone(&self, alloc: Global) -> Result<Self, Error> {
        Ok(RawPkcs7Certificate {
            signed_data: self.signed_data.try_clone(alloc)?,
        })
    }
}
