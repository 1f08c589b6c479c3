//! Where the parts of algorithms that encrypt with a password are. The places are those that `openssl asn1parse` shows.

use password_ranges::{
    EncryptedRanges, PasswordRanges, Pbes2Ranges, Pbkdf2Ranges, Refusal, SaltRanges,
    encrypted_contents_ranges, encrypted_key_ranges, password_ranges,
};
use std::alloc::Global;
use std::ops::Range;
use std::test::Fail;
use vector_checks::checks::expect;

/// By hand: an `EncryptedPrivateKeyInfo` by PBES2, with all that PBKDF2 may have.
pub(crate) fn key() -> &'static [u8] {
    b"\
    \x30\x62\x30\x5A\x06\x09\x2A\x86\x48\x86\xF7\x0D\x01\x05\x0D\x30\x4D\x30\x2C\x06\x09\x2A\x86\x48\x86\
    \xF7\x0D\x01\x05\x0C\x30\x1F\x04\x08\x73\x61\x6C\x74\x73\x61\x6C\x74\x02\x02\x08\x00\x02\x01\x20\x30\
    \x0C\x06\x08\x2A\x86\x48\x86\xF7\x0D\x02\x09\x05\x00\x30\x1D\x06\x09\x60\x86\x48\x01\x65\x03\x04\x01\
    \x2A\x04\x10\x00\x01\x02\x03\x04\x05\x06\x07\x08\x09\x0A\x0B\x0C\x0D\x0E\x0F\x04\x04\x01\x02\x03\x04"
}

/// By hand: `pbeWithSHAAnd3-KeyTripleDES-CBC`.
pub(crate) fn triple_des() -> &'static [u8] {
    b"\
    \x30\x1C\x06\x0A\x2A\x86\x48\x86\xF7\x0D\x01\x0C\x01\x03\x30\x0E\x04\x08\x73\x61\x6C\x74\x73\x61\x6C\
    \x74\x02\x02\x08\x00"
}

/// By hand: `pbeWithMD5AndDES-CBC`.
pub(crate) fn md5_and_des() -> &'static [u8] {
    b"\
    \x30\x1B\x06\x09\x2A\x86\x48\x86\xF7\x0D\x01\x05\x03\x30\x0E\x04\x08\x73\x61\x6C\x74\x73\x61\x6C\x74\
    \x02\x02\x08\x00"
}

/// By hand: PBKDF2 alone, which encrypts nothing.
pub(crate) fn bare_pbkdf2() -> &'static [u8] {
    b"\
    \x30\x1B\x06\x09\x2A\x86\x48\x86\xF7\x0D\x01\x05\x0C\x30\x0E\x04\x08\x73\x61\x6C\x74\x73\x61\x6C\x74\
    \x02\x02\x08\x00"
}

/// By hand: encrypted contents by PBES2, whose salt is from another source, and RC2.
pub(crate) fn contents() -> &'static [u8] {
    b"\
    \x30\x5A\x06\x09\x2A\x86\x48\x86\xF7\x0D\x01\x07\x06\xA0\x4D\x30\x4B\x02\x01\x00\x30\x46\x06\x09\x2A\
    \x86\x48\x86\xF7\x0D\x01\x07\x01\x30\x36\x06\x09\x2A\x86\x48\x86\xF7\x0D\x01\x05\x0D\x30\x29\x30\x16\
    \x06\x09\x2A\x86\x48\x86\xF7\x0D\x01\x05\x0C\x30\x09\x30\x04\x06\x02\x2A\x03\x02\x01\x01\x30\x0F\x06\
    \x08\x2A\x86\x48\x86\xF7\x0D\x03\x02\x30\x03\x02\x01\x3A\x80\x01\x05"
}

/// By hand: contents that are elsewhere, by an algorithm without parameters.
pub(crate) fn absent() -> &'static [u8] {
    b"\
    \x30\x25\x06\x09\x2A\x86\x48\x86\xF7\x0D\x01\x07\x06\xA0\x18\x30\x16\x02\x01\x00\x30\x11\x06\x09\x2A\
    \x86\x48\x86\xF7\x0D\x01\x07\x01\x30\x04\x06\x02\x2A\x03"
}

/// What was found is there.
fn are_at(found: Result<EncryptedRanges, Refusal>, wanted: &EncryptedRanges) -> Result<(), Fail> {
    match found {
        Ok(found) => expect(found == *wanted, "they are elsewhere"),
        Err(_) => Err(Fail::new("they are refused")),
    }
}

/// An algorithm of no known kind.
fn unknown(algorithm: Range<usize>, parameters: Option<Range<usize>>) -> PasswordRanges {
    PasswordRanges {
        algorithm,
        parameters,
        pbes1: None,
        pkcs12: None,
        pbes2: None,
    }
}

fn salt_at(salt: Range<usize>) -> Option<SaltRanges> {
    Some(SaltRanges {
        salt,
        iterations: 2048,
    })
}

fn by_pbkdf2() -> Pbes2Ranges {
    Pbes2Ranges {
        derivation: 21..30,
        derivation_parameters: Some(30..63),
        pbkdf2: Some(Pbkdf2Ranges {
            salt: Some(34..42),
            iterations: 2048,
            key_length: Some(32),
            prf: Some(53..61),
        }),
        encryption: 67..76,
        encryption_parameters: Some(76..94),
        initialization_vector: Some(78..94),
    }
}

fn by_another_source() -> Pbes2Ranges {
    Pbes2Ranges {
        derivation: 52..61,
        derivation_parameters: Some(61..72),
        pbkdf2: Some(Pbkdf2Ranges {
            salt: None,
            iterations: 1,
            key_length: None,
            prf: None,
        }),
        encryption: 76..84,
        encryption_parameters: Some(84..89),
        initialization_vector: None,
    }
}

fn by_pbes2(
    algorithm: Range<usize>,
    parameters: Range<usize>,
    pbes2: Pbes2Ranges,
    encrypted: Range<usize>,
) -> EncryptedRanges {
    EncryptedRanges {
        algorithm: PasswordRanges {
            algorithm,
            parameters: Some(parameters),
            pbes1: None,
            pkcs12: None,
            pbes2: Some(pbes2),
        },
        encrypted: Some(encrypted),
    }
}

#[test]
fn an_encrypted_key(rt: HostRuntime) -> Result<(), Fail> {
    let wanted = by_pbes2(6..15, 15..94, by_pbkdf2(), 96..100);
    are_at(encrypted_key_ranges(rt.alloc(), key()), &wanted)
}

#[test]
fn encrypted_contents(rt: HostRuntime) -> Result<(), Fail> {
    let wanted = by_pbes2(37..46, 46..89, by_another_source(), 91..92);
    are_at(encrypted_contents_ranges(rt.alloc(), contents()), &wanted)
}

#[test]
fn contents_that_are_elsewhere(rt: HostRuntime) -> Result<(), Fail> {
    let wanted = EncryptedRanges {
        algorithm: unknown(37..39, None),
        encrypted: None,
    };
    are_at(encrypted_contents_ranges(rt.alloc(), absent()), &wanted)
}

/// What was found of an algorithm is there.
fn is_at(found: Result<PasswordRanges, Refusal>, wanted: &PasswordRanges) -> Result<(), Fail> {
    match found {
        Ok(found) => expect(found == *wanted, "it is elsewhere"),
        Err(_) => Err(Fail::new("it is refused")),
    }
}

#[test]
fn an_algorithm_of_pkcs_12(rt: HostRuntime) -> Result<(), Fail> {
    let wanted = PasswordRanges {
        algorithm: 4..14,
        parameters: Some(14..30),
        pbes1: None,
        pkcs12: salt_at(18..26),
        pbes2: None,
    };
    is_at(password_ranges(rt.alloc(), triple_des()), &wanted)
}

#[test]
fn an_algorithm_of_pbes1(rt: HostRuntime) -> Result<(), Fail> {
    let wanted = PasswordRanges {
        algorithm: 4..13,
        parameters: Some(13..29),
        pbes1: salt_at(17..25),
        pkcs12: None,
        pbes2: None,
    };
    is_at(password_ranges(rt.alloc(), md5_and_des()), &wanted)
}

#[test]
fn a_salt_and_a_count_of_another_algorithm(rt: HostRuntime) -> Result<(), Fail> {
    let wanted = unknown(4..13, Some(13..29));
    is_at(password_ranges(rt.alloc(), bare_pbkdf2()), &wanted)
}

fn is_refused(alloc: Global, input: &[u8]) -> Result<(), Fail> {
    let as_key = encrypted_key_ranges(alloc, input);
    expect(as_key.is_err(), "it is read as a key")?;
    let as_contents = encrypted_contents_ranges(alloc, input);
    expect(as_contents.is_err(), "it is read as contents")
}

#[test]
fn an_algorithm_is_neither_key_nor_contents(rt: HostRuntime) -> Result<(), Fail> {
    is_refused(rt.alloc(), triple_des())
}
