//! Algorithms that encrypt with a password, written from their parts: the same octets as those whose parts are found.

use crate::passwords_in_place::{absent, bare_pbkdf2, contents, key, md5_and_des, triple_des};
use asn1_core::Error;
use password_writers::{
    Algorithm, Derivation, EncryptedContents, EncryptedKey, Encryption, Other, Pbes2, Pbkdf2,
    Salted, WithVector, write_algorithm, write_encrypted_contents, write_encrypted_key,
};
use std::test::Fail;
use vector_checks::checks::expect;

/// `pbeWithSHAAnd3-KeyTripleDES-CBC`
const TRIPLE_DES: &[u8] = b"\x2A\x86\x48\x86\xF7\x0D\x01\x0C\x01\x03";

/// `pbeWithMD5AndDES-CBC`
const MD5_AND_DES: &[u8] = b"\x2A\x86\x48\x86\xF7\x0D\x01\x05\x03";

/// `id-PBKDF2`
const PBKDF2: &[u8] = b"\x2A\x86\x48\x86\xF7\x0D\x01\x05\x0C";

/// `id-hmacWithSHA256`
const HMAC_WITH_SHA256: &[u8] = b"\x2A\x86\x48\x86\xF7\x0D\x02\x09";

/// `aes256-CBC-PAD`
const AES_256: &[u8] = b"\x60\x86\x48\x01\x65\x03\x04\x01\x2A";

/// `rc2CBC`
const RC2: &[u8] = b"\x2A\x86\x48\x86\xF7\x0D\x03\x02";

fn is_written(written: Result<Vec<u8>, Error>, wanted: &[u8]) -> Result<(), Fail> {
    match written {
        Ok(text) => expect(text.as_slice() == wanted, "it is written otherwise"),
        Err(_) => Err(Fail::new("it is refused")),
    }
}

fn is_refused(written: Result<Vec<u8>, Error>) -> Result<(), Fail> {
    match written {
        Err(Error::Invalid) => Ok(()),
        _ => Err(Fail::new("it isn't refused as invalid")),
    }
}

fn by_pbes2<'a>() -> Algorithm<'a> {
    Algorithm::Pbes2(Pbes2 {
        derivation: Derivation::Pbkdf2(Pbkdf2 {
            salt: b"saltsalt",
            iterations: 2048,
            key_length: Some(32),
            prf: Some(HMAC_WITH_SHA256),
        }),
        encryption: Encryption::WithVector(WithVector {
            algorithm: AES_256,
            vector: b"\x00\x01\x02\x03\x04\x05\x06\x07\x08\x09\x0A\x0B\x0C\x0D\x0E\x0F",
        }),
    })
}

#[test]
fn an_encrypted_key(rt: HostRuntime) -> Result<(), Fail> {
    let given = EncryptedKey {
        algorithm: by_pbes2(),
        encrypted: b"\x01\x02\x03\x04",
    };
    is_written(write_encrypted_key(rt.alloc(), &given), key())
}

#[test]
fn encrypted_contents(rt: HostRuntime) -> Result<(), Fail> {
    let algorithm = Algorithm::Pbes2(Pbes2 {
        derivation: Derivation::Other(Other {
            algorithm: PBKDF2,
            parameters: Some(b"\x30\x09\x30\x04\x06\x02\x2A\x03\x02\x01\x01"),
        }),
        encryption: Encryption::Other(Other {
            algorithm: RC2,
            parameters: Some(b"\x30\x03\x02\x01\x3A"),
        }),
    });
    let given = EncryptedContents {
        algorithm,
        encrypted: Some(b"\x05"),
    };
    is_written(write_encrypted_contents(rt.alloc(), &given), contents())
}

#[test]
fn contents_that_are_elsewhere(rt: HostRuntime) -> Result<(), Fail> {
    let algorithm = Algorithm::Other(Other {
        algorithm: b"\x2A\x03",
        parameters: None,
    });
    let given = EncryptedContents {
        algorithm,
        encrypted: None,
    };
    is_written(write_encrypted_contents(rt.alloc(), &given), absent())
}

fn with_salt<'a>(algorithm: &'a [u8]) -> Algorithm<'a> {
    Algorithm::Salted(Salted {
        algorithm,
        salt: b"saltsalt",
        iterations: 2048,
    })
}

#[test]
fn a_salt_and_a_count(rt: HostRuntime) -> Result<(), Fail> {
    is_written(
        write_algorithm(rt.alloc(), &with_salt(TRIPLE_DES)),
        triple_des(),
    )?;
    is_written(
        write_algorithm(rt.alloc(), &with_salt(MD5_AND_DES)),
        md5_and_des(),
    )
}

#[test]
fn parameters_as_an_element(rt: HostRuntime) -> Result<(), Fail> {
    let given = Algorithm::Other(Other {
        algorithm: PBKDF2,
        parameters: Some(b"\x30\x0E\x04\x08\x73\x61\x6C\x74\x73\x61\x6C\x74\x02\x02\x08\x00"),
    });
    is_written(write_algorithm(rt.alloc(), &given), bare_pbkdf2())
}

/// PBKDF2 without what may be left out.
#[test]
fn what_is_left_out(rt: HostRuntime) -> Result<(), Fail> {
    let given = Algorithm::Pbes2(Pbes2 {
        derivation: Derivation::Pbkdf2(Pbkdf2 {
            salt: b"",
            iterations: 0,
            key_length: None,
            prf: None,
        }),
        encryption: Encryption::Other(Other {
            algorithm: b"\x2A\x03",
            parameters: None,
        }),
    });
    let wanted = b"\
    \x30\x27\x06\x09\x2A\x86\x48\x86\xF7\x0D\x01\x05\x0D\x30\x1A\x30\x12\x06\x09\x2A\x86\x48\x86\xF7\x0D\
    \x01\x05\x0C\x30\x05\x04\x00\x02\x01\x00\x30\x04\x06\x02\x2A\x03";
    is_written(write_algorithm(rt.alloc(), &given), wanted)
}

#[test]
fn no_object_identifier(rt: HostRuntime) -> Result<(), Fail> {
    is_refused(write_algorithm(rt.alloc(), &with_salt(b"\x80\x01")))?;
    is_refused(write_algorithm(rt.alloc(), &with_salt(b"")))
}

#[test]
fn no_element(rt: HostRuntime) -> Result<(), Fail> {
    let given = Algorithm::Other(Other {
        algorithm: b"\x2A\x03",
        parameters: Some(b"\x05\x00\x00"),
    });
    is_refused(write_algorithm(rt.alloc(), &given))
}
