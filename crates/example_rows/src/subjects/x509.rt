//! The types of X.509, what a time stamp signs, and page hashes. These are no kinds of `derbox`.

use crate::checks::{check_row as at, check_under_tags as under_tags};
use crate::rows::Row;
use std::alloc::Global;
use std::test::Fail;
use x509_containers::{
    AlgorithmIdentifier, Attribute, CertificateHead, DigestInfo, Extension, Extensions, Name,
    NameValue, PageHashes, RawAlgorithmIdentifier, SubjectKeyIdentifier, Time, TstInfo, Version,
};

/// What comes of a row, where the word names one of these types.
pub fn check_row(alloc: Global, word: &str, row: &Row) -> Option<Result<(), Fail>> {
    Some(match word {
        "algorithmidentifier" => at::<AlgorithmIdentifier>(alloc, row),
        "attribute" => at::<Attribute>(alloc, row),
        "certificatehead" => at::<CertificateHead>(alloc, row),
        "digestinfo" => at::<DigestInfo>(alloc, row),
        "extension" => at::<Extension>(alloc, row),
        "extensions" => at::<Extensions>(alloc, row),
        "name" => at::<Name>(alloc, row),
        "namevalue" => at::<NameValue>(alloc, row),
        "pagehashes" => at::<PageHashes>(alloc, row),
        "rawalgorithmidentifier" => at::<RawAlgorithmIdentifier>(alloc, row),
        "subjectkeyidentifier" => under_tags::<SubjectKeyIdentifier>(alloc, row),
        "time" => at::<Time>(alloc, row),
        "tstinfo" => at::<TstInfo>(alloc, row),
        "version" => at::<Version>(alloc, row),
        _ => return None,
    })
}
