//! Elements, numbers and leaves. These are no kinds of `derbox`.

use crate::checks::{check_row as at, check_under_tags as under_tags};
use crate::rows::Row;
use std::alloc::Global;
use std::test::Fail;
use x509_containers::{
    Asn1RawDer, BitStringAsn1, BmpStringAsn1, GeneralizedTimeAsn1, IA5StringAsn1, IntegerAsn1,
    ObjectIdentifierAsn1, OctetStringAsn1, UTCTimeAsn1, Utf8StringAsn1,
};

/// What comes of a row, where the word names one of these types.
pub fn check_row(alloc: Global, word: &str, row: &Row) -> Option<Result<(), Fail>> {
    Some(match word {
        "asn1rawder" => at::<Asn1RawDer>(alloc, row),
        "bitstringasn1" => under_tags::<BitStringAsn1>(alloc, row),
        "bmpstringasn1" => under_tags::<BmpStringAsn1>(alloc, row),
        "generalizedtimeasn1" => under_tags::<GeneralizedTimeAsn1>(alloc, row),
        "ia5stringasn1" => under_tags::<IA5StringAsn1>(alloc, row),
        "integerasn1" => under_tags::<IntegerAsn1>(alloc, row),
        "objectidentifierasn1" => under_tags::<ObjectIdentifierAsn1>(alloc, row),
        "octetstringasn1" => under_tags::<OctetStringAsn1>(alloc, row),
        "u32" => under_tags::<u32>(alloc, row),
        "u8" => under_tags::<u8>(alloc, row),
        "utctimeasn1" => under_tags::<UTCTimeAsn1>(alloc, row),
        "utf8stringasn1" => under_tags::<Utf8StringAsn1>(alloc, row),
        _ => return None,
    })
}
