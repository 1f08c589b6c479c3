//! The types of the crates that are made of ASN.1 modules, by the words of rows.

use crate::checks::check_row as at;
use crate::rows::Row;
use std::alloc::Global;
use std::test::Fail;

/// Certificates and what they hold, and after them revocation lists.
fn certificates(alloc: Global, word: &str, row: &Row) -> Option<Result<(), Fail>> {
    Some(match word {
        "rfc5280::Certificate" => at::<rfc5280::Certificate>(alloc, row),
        "rfc5280::DirectoryString" => at::<rfc5280::DirectoryString>(alloc, row),
        "rfc5280::RelativeDistinguishedName" => at::<rfc5280::RelativeDistinguishedName>(
            alloc, row,
        ),
        "rfc5280::SubjectPublicKeyInfo" => at::<rfc5280::SubjectPublicKeyInfo>(alloc, row),
        "rfc5280::TbsCertificate" => at::<rfc5280::TbsCertificate>(alloc, row),
        "rfc5280::Validity" => at::<rfc5280::Validity>(alloc, row),
        _ => return revocation_lists(alloc, word, row),
    })
}

/// Revocation lists and what they hold.
fn revocation_lists(alloc: Global, word: &str, row: &Row) -> Option<Result<(), Fail>> {
    Some(match word {
        "rfc5280::CertificateList" => at::<rfc5280::CertificateList>(alloc, row),
        "rfc5280::TbsCertList" => at::<rfc5280::TbsCertList>(alloc, row),
        "rfc5280::TbsCertListRevokedCertificates" => at::<rfc5280::TbsCertListRevokedCertificates>(
            alloc, row,
        ),
        _ => return None,
    })
}

/// General names, and after them extensions that hold them.
fn names(alloc: Global, word: &str, row: &Row) -> Option<Result<(), Fail>> {
    Some(match word {
        "rfc5280::AnotherName" => at::<rfc5280::AnotherName>(alloc, row),
        "rfc5280::EdiPartyName" => at::<rfc5280::EdiPartyName>(alloc, row),
        "rfc5280::GeneralName" => at::<rfc5280::GeneralName>(alloc, row),
        "rfc5280::GeneralNames" => at::<rfc5280::GeneralNames>(alloc, row),
        "rfc5280::GeneralSubtree" => at::<rfc5280::GeneralSubtree>(alloc, row),
        "rfc5280::OrAddress" => at::<rfc5280::OrAddress>(alloc, row),
        _ => return name_extensions(alloc, word, row),
    })
}

/// Extensions that hold general names.
fn name_extensions(alloc: Global, word: &str, row: &Row) -> Option<Result<(), Fail>> {
    Some(match word {
        "rfc5280::AccessDescription" => at::<rfc5280::AccessDescription>(alloc, row),
        "rfc5280::AuthorityInfoAccessSyntax" => at::<rfc5280::AuthorityInfoAccessSyntax>(
            alloc, row,
        ),
        "rfc5280::AuthorityKeyIdentifier" => at::<rfc5280::AuthorityKeyIdentifier>(alloc, row),
        "rfc5280::NameConstraints" => at::<rfc5280::NameConstraints>(alloc, row),
        _ => return None,
    })
}

/// Extensions on policies.
fn policies(alloc: Global, word: &str, row: &Row) -> Option<Result<(), Fail>> {
    Some(match word {
        "rfc5280::CertificatePolicies" => at::<rfc5280::CertificatePolicies>(alloc, row),
        "rfc5280::DisplayText" => at::<rfc5280::DisplayText>(alloc, row),
        "rfc5280::NoticeReference" => at::<rfc5280::NoticeReference>(alloc, row),
        "rfc5280::PolicyConstraints" => at::<rfc5280::PolicyConstraints>(alloc, row),
        "rfc5280::PolicyInformation" => at::<rfc5280::PolicyInformation>(alloc, row),
        "rfc5280::PolicyMappings" => at::<rfc5280::PolicyMappings>(alloc, row),
        "rfc5280::PolicyMappingsItem" => at::<rfc5280::PolicyMappingsItem>(alloc, row),
        "rfc5280::PolicyQualifierInfo" => at::<rfc5280::PolicyQualifierInfo>(alloc, row),
        "rfc5280::UserNotice" => at::<rfc5280::UserNotice>(alloc, row),
        _ => return None,
    })
}

/// Other extensions.
fn other_extensions(alloc: Global, word: &str, row: &Row) -> Option<Result<(), Fail>> {
    Some(match word {
        "rfc5280::BasicConstraints" => at::<rfc5280::BasicConstraints>(alloc, row),
        "rfc5280::CrlDistributionPoints" => at::<rfc5280::CrlDistributionPoints>(alloc, row),
        "rfc5280::CrlReason" => at::<rfc5280::CrlReason>(alloc, row),
        "rfc5280::DistributionPoint" => at::<rfc5280::DistributionPoint>(alloc, row),
        "rfc5280::DistributionPointName" => at::<rfc5280::DistributionPointName>(alloc, row),
        "rfc5280::ExtKeyUsageSyntax" => at::<rfc5280::ExtKeyUsageSyntax>(alloc, row),
        "rfc5280::InvalidityDate" => at::<rfc5280::InvalidityDate>(alloc, row),
        "rfc5280::IssuingDistributionPoint" => at::<rfc5280::IssuingDistributionPoint>(alloc, row),
        "rfc5280::KeyUsage" => at::<rfc5280::KeyUsage>(alloc, row),
        "rfc5280::PrivateKeyUsagePeriod" => at::<rfc5280::PrivateKeyUsagePeriod>(alloc, row),
        "rfc5280::ReasonFlags" => at::<rfc5280::ReasonFlags>(alloc, row),
        "rfc5280::SubjectDirectoryAttributes" => at::<rfc5280::SubjectDirectoryAttributes>(
            alloc, row,
        ),
        _ => return None,
    })
}

/// Requests, responses and what a time stamp signs.
fn time_stamps(alloc: Global, word: &str, row: &Row) -> Option<Result<(), Fail>> {
    Some(match word {
        "rfc3161::Accuracy" => at::<rfc3161::Accuracy>(alloc, row),
        "rfc3161::ContentInfo" => at::<rfc3161::ContentInfo>(alloc, row),
        "rfc3161::MessageImprint" => at::<rfc3161::MessageImprint>(alloc, row),
        "rfc3161::PkiFreeText" => at::<rfc3161::PkiFreeText>(alloc, row),
        "rfc3161::PkiStatusInfo" => at::<rfc3161::PkiStatusInfo>(alloc, row),
        "rfc3161::TimeStampReq" => at::<rfc3161::TimeStampReq>(alloc, row),
        "rfc3161::TimeStampResp" => at::<rfc3161::TimeStampResp>(alloc, row),
        "rfc3161::TstInfo" => at::<rfc3161::TstInfo>(alloc, row),
        _ => return None,
    })
}

/// What is asked of an OCSP responder.
fn requests(alloc: Global, word: &str, row: &Row) -> Option<Result<(), Fail>> {
    Some(match word {
        "rfc6960::CertId" => at::<rfc6960::CertId>(alloc, row),
        "rfc6960::OcspRequest" => at::<rfc6960::OcspRequest>(alloc, row),
        "rfc6960::Request" => at::<rfc6960::Request>(alloc, row),
        "rfc6960::Signature" => at::<rfc6960::Signature>(alloc, row),
        "rfc6960::TbsRequest" => at::<rfc6960::TbsRequest>(alloc, row),
        _ => return None,
    })
}

/// What an OCSP responder returns, and after it what that signs.
fn responses(alloc: Global, word: &str, row: &Row) -> Option<Result<(), Fail>> {
    Some(match word {
        "rfc6960::BasicOcspResponse" => at::<rfc6960::BasicOcspResponse>(alloc, row),
        "rfc6960::BasicResponseBytes" => at::<rfc6960::BasicResponseBytes>(alloc, row),
        "rfc6960::OcspResponse" => at::<rfc6960::OcspResponse>(alloc, row),
        "rfc6960::OcspResponseStatus" => at::<rfc6960::OcspResponseStatus>(alloc, row),
        "rfc6960::ResponseBytes" => at::<rfc6960::ResponseBytes>(alloc, row),
        _ => return statuses(alloc, word, row),
    })
}

/// What an OCSP responder signs, and after it values of extensions.
fn statuses(alloc: Global, word: &str, row: &Row) -> Option<Result<(), Fail>> {
    Some(match word {
        "rfc6960::CertStatus" => at::<rfc6960::CertStatus>(alloc, row),
        "rfc6960::ResponderId" => at::<rfc6960::ResponderId>(alloc, row),
        "rfc6960::ResponseData" => at::<rfc6960::ResponseData>(alloc, row),
        "rfc6960::RevokedInfo" => at::<rfc6960::RevokedInfo>(alloc, row),
        "rfc6960::SingleResponse" => at::<rfc6960::SingleResponse>(alloc, row),
        _ => return ocsp_extensions(alloc, word, row),
    })
}

/// Values of extensions of OCSP.
fn ocsp_extensions(alloc: Global, word: &str, row: &Row) -> Option<Result<(), Fail>> {
    Some(match word {
        "rfc6960::AcceptableResponses" => at::<rfc6960::AcceptableResponses>(alloc, row),
        "rfc6960::CrlId" => at::<rfc6960::CrlId>(alloc, row),
        "rfc6960::PreferredSignatureAlgorithm" => at::<rfc6960::PreferredSignatureAlgorithm>(
            alloc, row,
        ),
        "rfc6960::PreferredSignatureAlgorithms" => at::<rfc6960::PreferredSignatureAlgorithms>(
            alloc, row,
        ),
        "rfc6960::ServiceLocator" => at::<rfc6960::ServiceLocator>(alloc, row),
        _ => return None,
    })
}

/// A module with a type of each form.
fn forms(alloc: Global, word: &str, row: &Row) -> Option<Result<(), Fail>> {
    Some(match word {
        "made_forms::Head" => at::<made_forms::Head>(alloc, row),
        "made_forms::Message" => at::<made_forms::Message>(alloc, row),
        "made_forms::Sender" => at::<made_forms::Sender>(alloc, row),
        "made_forms::State" => at::<made_forms::State>(alloc, row),
        _ => return None,
    })
}

/// What comes of a row, if the word names a type of one group.
type CheckRow = fn(Global, &str, &Row) -> Option<Result<(), Fail>>;

/// Asks what a row says of the type that the word names.
pub fn check_row(alloc: Global, word: &str, row: &Row) -> Result<(), Fail> {
    let groups: [CheckRow; 8] = [
        certificates,
        names,
        policies,
        other_extensions,
        time_stamps,
        requests,
        responses,
        forms,
    ];
    for check_row in groups {
        if let Some(outcome) = check_row(alloc, word, row) {
            return outcome;
        }
    }
    Err(Fail::new("no type has this word"))
}
