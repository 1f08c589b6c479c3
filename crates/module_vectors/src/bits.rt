//! The functions of named bits.

use crate::rows::Row;
use asn1_core::from_bytes;
use rfc3161::pkixtsp::{
    PkiFailureInfo, pki_failure_info_add_info_not_available, pki_failure_info_bad_alg,
    pki_failure_info_bad_data_format, pki_failure_info_bad_request,
    pki_failure_info_system_failure, pki_failure_info_time_not_available,
    pki_failure_info_unaccepted_extension, pki_failure_info_unaccepted_policy,
};
use rfc5280::pkix1_implicit88::{
    KeyUsage, ReasonFlags, key_usage_crl_sign, key_usage_data_encipherment,
    key_usage_decipher_only, key_usage_digital_signature, key_usage_encipher_only,
    key_usage_key_agreement, key_usage_key_cert_sign, key_usage_key_encipherment,
    key_usage_non_repudiation, reason_flags_aa_compromise, reason_flags_affiliation_changed,
    reason_flags_ca_compromise, reason_flags_certificate_hold, reason_flags_cessation_of_operation,
    reason_flags_key_compromise, reason_flags_privilege_withdrawn, reason_flags_superseded,
    reason_flags_unused,
};
use std::alloc::Global;
use std::test::Fail;
use vector_checks::checks::expect;

/// The names of the bits that are 1, with spaces between them.
fn names(alloc: Global, bits: &[(&str, bool)]) -> Result<String, Fail> {
    let mut names = String::new(alloc);
    for (name, is_one) in bits {
        if *is_one {
            if !names.is_empty() {
                names.push(' ')?;
            }
            names.push_str(name)?;
        }
    }
    Ok(names)
}

fn failures(alloc: Global, input: &[u8]) -> Result<String, Fail> {
    let bits: PkiFailureInfo = from_bytes(alloc, input)?;
    names(
        alloc,
        &[
            ("badAlg", pki_failure_info_bad_alg(&bits)),
            ("badRequest", pki_failure_info_bad_request(&bits)),
            ("badDataFormat", pki_failure_info_bad_data_format(&bits)),
            (
                "timeNotAvailable",
                pki_failure_info_time_not_available(&bits),
            ),
            (
                "unacceptedPolicy",
                pki_failure_info_unaccepted_policy(&bits),
            ),
            (
                "unacceptedExtension",
                pki_failure_info_unaccepted_extension(&bits),
            ),
            (
                "addInfoNotAvailable",
                pki_failure_info_add_info_not_available(&bits),
            ),
            ("systemFailure", pki_failure_info_system_failure(&bits)),
        ],
    )
}

fn usages(alloc: Global, input: &[u8]) -> Result<String, Fail> {
    let bits: KeyUsage = from_bytes(alloc, input)?;
    names(
        alloc,
        &[
            ("digitalSignature", key_usage_digital_signature(&bits)),
            ("nonRepudiation", key_usage_non_repudiation(&bits)),
            ("keyEncipherment", key_usage_key_encipherment(&bits)),
            ("dataEncipherment", key_usage_data_encipherment(&bits)),
            ("keyAgreement", key_usage_key_agreement(&bits)),
            ("keyCertSign", key_usage_key_cert_sign(&bits)),
            ("cRLSign", key_usage_crl_sign(&bits)),
            ("encipherOnly", key_usage_encipher_only(&bits)),
            ("decipherOnly", key_usage_decipher_only(&bits)),
        ],
    )
}

fn reasons(alloc: Global, input: &[u8]) -> Result<String, Fail> {
    let bits: ReasonFlags = from_bytes(alloc, input)?;
    names(
        alloc,
        &[
            ("unused", reason_flags_unused(&bits)),
            ("keyCompromise", reason_flags_key_compromise(&bits)),
            ("cACompromise", reason_flags_ca_compromise(&bits)),
            (
                "affiliationChanged",
                reason_flags_affiliation_changed(&bits),
            ),
            ("superseded", reason_flags_superseded(&bits)),
            (
                "cessationOfOperation",
                reason_flags_cessation_of_operation(&bits),
            ),
            ("certificateHold", reason_flags_certificate_hold(&bits)),
            (
                "privilegeWithdrawn",
                reason_flags_privilege_withdrawn(&bits),
            ),
            ("aACompromise", reason_flags_aa_compromise(&bits)),
        ],
    )
}

/// Asks that the bits of the value that are 1 are those whose names the row shows.
pub fn check_row(alloc: Global, word: &str, row: &Row) -> Result<(), Fail> {
    let named = match word {
        "rfc3161::PkiFailureInfo" => failures(alloc, &row.input)?,
        "rfc5280::KeyUsage" => usages(alloc, &row.input)?,
        "rfc5280::ReasonFlags" => reasons(alloc, &row.input)?,
        _ => return Err(Fail::new("no type of named bits has this word")),
    };
    expect(row.shown.first() == Some(&named), "the names of the bits")
}
