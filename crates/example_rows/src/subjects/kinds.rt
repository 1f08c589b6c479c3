//! The types of the kinds, by the tables of their layers.

use crate::checks::{check_row as at, is_kept_under_tags as under_tags};
use crate::rows::Row;
use std::alloc::Global;
use std::test::Fail;
use x509_containers::{
    AlgorithmKind, AuthenticodeKind, CertificateSet, ContentKind, EnvelopedKind, KekRecipientInfo,
    Kind, OriginatorInfo, OtherRevocationInfoFormat, RawPfx, RevocationInfoChoices, SignedDataKind,
    SignedPartKind, SpcSerializedObject, StoreKind, TrustListKind, algorithm_kinds, at_type,
    authenticode_kinds, content_kinds, enveloped_kinds, from_bytes, mac_range, signed_data_kinds,
    signed_part_kinds, store_kinds, trust_list_kinds,
};

/// Asks what a row says of the type of a kind.
pub fn check_row(alloc: Global, kind: Kind, row: &Row) -> Result<(), Fail> {
    check_at_its_type(alloc, kind, row)?;
    check_besides(alloc, kind, row)
}

fn check_at_its_type(alloc: Global, kind: Kind, row: &Row) -> Result<(), Fail> {
    match kind {
        Kind::Algorithm(kind) => algorithm(alloc, kind, row),
        Kind::Authenticode(kind) => authenticode(alloc, kind, row),
        Kind::Content(kind) => content(alloc, kind, row),
        Kind::Enveloped(kind) => enveloped(alloc, kind, row),
        Kind::SignedData(kind) => signed_data(alloc, kind, row),
        Kind::SignedPart(kind) => signed_part(alloc, kind, row),
        Kind::Store(kind) => store(alloc, kind, row),
        Kind::TrustList(kind) => trust_list(alloc, kind, row),
    }
}

fn algorithm(alloc: Global, kind: AlgorithmKind, row: &Row) -> Result<(), Fail> {
    algorithm_kinds!(at_type(kind, at, (alloc, row)))
}

fn authenticode(alloc: Global, kind: AuthenticodeKind, row: &Row) -> Result<(), Fail> {
    authenticode_kinds!(at_type(kind, at, (alloc, row)))
}

fn content(alloc: Global, kind: ContentKind, row: &Row) -> Result<(), Fail> {
    content_kinds!(at_type(kind, at, (alloc, row)))
}

fn enveloped(alloc: Global, kind: EnvelopedKind, row: &Row) -> Result<(), Fail> {
    enveloped_kinds!(at_type(kind, at, (alloc, row)))
}

fn signed_data(alloc: Global, kind: SignedDataKind, row: &Row) -> Result<(), Fail> {
    signed_data_kinds!(at_type(kind, at, (alloc, row)))
}

fn signed_part(alloc: Global, kind: SignedPartKind, row: &Row) -> Result<(), Fail> {
    signed_part_kinds!(at_type(kind, at, (alloc, row)))
}

fn store(alloc: Global, kind: StoreKind, row: &Row) -> Result<(), Fail> {
    store_kinds!(at_type(kind, at, (alloc, row)))
}

fn trust_list(alloc: Global, kind: TrustListKind, row: &Row) -> Result<(), Fail> {
    trust_list_kinds!(at_type(kind, at, (alloc, row)))
}

/// Asks that what a MAC covers is looked for in what is accepted alone, and the rest refused alike.
fn has_mac_range(alloc: Global, row: &Row) -> Result<(), Fail> {
    let refused = from_bytes::<RawPfx>(alloc, &row.input).err();
    if mac_range(alloc, &row.input).err() == refused {
        return Ok(());
    }
    Err(Fail::new("another refusal of the range of a MAC"))
}

/// Asks what a row says under other tags, of the types that have a tag of their own, and of what a MAC covers.
fn check_besides(alloc: Global, kind: Kind, row: &Row) -> Result<(), Fail> {
    match kind {
        Kind::Authenticode(AuthenticodeKind::SpcSerializedObject) => {
            under_tags::<SpcSerializedObject>(alloc, row)
        }
        Kind::SignedPart(SignedPartKind::CertificateSet) => {
            under_tags::<CertificateSet>(alloc, row)
        }
        Kind::SignedPart(SignedPartKind::OtherRevocationInfoFormat) => {
            under_tags::<OtherRevocationInfoFormat>(alloc, row)
        }
        Kind::SignedPart(SignedPartKind::RevocationInfoChoices) => {
            under_tags::<RevocationInfoChoices>(alloc, row)
        }
        Kind::Enveloped(EnvelopedKind::KekRecipientInfo) => {
            under_tags::<KekRecipientInfo>(alloc, row)
        }
        Kind::Enveloped(EnvelopedKind::OriginatorInfo) => under_tags::<OriginatorInfo>(alloc, row),
        Kind::Store(StoreKind::RawPfx) => has_mac_range(alloc, row),
        _ => Ok(()),
    }
}
