//! Algorithms that encrypt with a password, and what holds them, built from what a caller in C gives.

ghost use Rattle.std.specs.Prelude.{◌≡◌, Some, MatchOption, MatchResult};
ghost use Rattle.asn1_core.specs.Der.{option_value};
ghost use Rattle.password_calls.specs.Built.{BuildsParameters, GivesNone, HasBuilt, IsAlgorithmOf, IsDerivationOf, IsEncryptedOf, IsEncryptionOf, IsGivenFor, IsPbkdf2Of, IsSaltedOf, IsPbes2Of, IsVectorOf};
ghost use Rattle.password_calls.specs.WrongParts.{IsScheme, IsWrongAlgorithm, IsWrongDerivation, IsWrongEncryption, IsWrongPart, IsWrongPbes2, IsWrongPbkdf2, IsWrongSalted, IsWrongVector};
ghost use Rattle.call_values.specs.Given.{HasNone};
ghost use Rattle.password_calls.specs.NotBuilt.{IsNotBuilt, unless_refused};
ghost use Rattle.password_writers.specs.Values.{algorithm_value, derivation_value, encryption_value, pbes2_value, pbkdf2_value, salted_value, vector_value};
ghost use Rattle.password_calls.specs.declared.passwords.Holder.TheVariants as Holders;

use crate::others::other_of;
use crate::passwords::{Holder, Password, holder_of};
use asn1_choices::OidTable;
use asn1_core::Error;
use call_values::given::{number_if, number_of, oid_if, oid_of, part_if, part_of};
use call_values::not_built::NotBuilt;
use call_values::outputs::put_octets;
use call_values::status;
use call_values::status::status_of;
use password_ranges::{Pbes1Kind, Pkcs12Kind};
use password_writers::{
    Algorithm, Derivation, EncryptedContents, EncryptedKey, Encryption, Pbes2, Pbkdf2, Salted,
    WithVector, write_algorithm, write_encrypted_contents, write_encrypted_key,
};
use std::alloc::Global;

// Those of `der_password_part` in der.h, which says more of each.
const ALGORITHM: usize = 1;

const PARAMETERS: usize = 2;

const DERIVATION: usize = 3;

const DERIVATION_PARAMETERS: usize = 4;

const SALT: usize = 5;

const PRF: usize = 6;

const ENCRYPTION: usize = 7;

const ENCRYPTION_PARAMETERS: usize = 8;

const INITIALIZATION_VECTOR: usize = 9;

const ENCRYPTED: usize = 10;

const ITERATIONS: usize = 11;

const KEY_LENGTH: usize = 12;

const SCHEME: usize = 13;

/// What a row says that the algorithm is.
#[derive(Clone, Copy)]
enum Scheme {
    Pbes1,
    Pkcs12,
    Pbes2,
    /// One with its parameters as an element.
    Other,
}

/// `None` where it says more than one.
fn scheme_of(row: &Password) -> Option<Scheme>
    ensures { MatchOption result (HasNone (IsScheme row.now)) (λ scheme. IsScheme row.now scheme) }
{
    if row.is_pbes1 != 0 {
        if row.is_pkcs12 != 0 || row.is_pbes2 != 0 {
            return None;
        }
        return Some(Scheme::Pbes1);
    }
    if row.is_pkcs12 != 0 {
        if row.is_pbes2 != 0 {
            return None;
        }
        return Some(Scheme::Pkcs12);
    }
    if row.is_pbes2 != 0 {
        return Some(Scheme::Pbes2);
    }
    Some(Scheme::Other)
}

/// One of the algorithms `K`, with a salt and a count.
fn salted_of<'a, K: OidTable>(input: &'a [u8], row: &Password) -> Result<Salted<'a>, usize>
    ensures { MatchResult result
        (λ x. IsSaltedOf K.table input.now row.now (salted_value x))
        (λ n. IsWrongSalted K.table input.now row.now n × HasNone (IsSaltedOf K.table input.now row.now)) }
{
    let algorithm = oid_of(input, row.algorithm, ALGORITHM)?;
    let Some(_kind) = K::with_octets(algorithm) else {
        return Err(ALGORITHM);
    };
    if row.has_salt == 0 {
        return Err(SALT);
    }
    let salt = part_of(input, row.salt, SALT)?;
    let iterations = number_of(row.iterations, ITERATIONS)?;
    Ok(Salted {
        algorithm,
        salt,
        iterations,
    })
}

fn pbkdf2_of<'a>(input: &'a [u8], row: &Password) -> Result<Pbkdf2<'a>, usize>
    ensures { MatchResult result
        (λ x. IsPbkdf2Of input.now row.now (pbkdf2_value x))
        (λ n. IsWrongPbkdf2 input.now row.now n × HasNone (IsPbkdf2Of input.now row.now)) }
{
    let salt = part_of(input, row.salt, SALT)?;
    let iterations = number_of(row.iterations, ITERATIONS)?;
    let key_length = number_if(row.has_key_length, row.key_length, KEY_LENGTH)?;
    let prf = oid_if(input, row.has_prf, row.prf, PRF)?;
    Ok(Pbkdf2 {
        salt,
        iterations,
        key_length,
        prf,
    })
}

/// PBKDF2 with a salt, or a function with its parameters as an element. PBKDF2 has the one or the other.
fn derivation_of<'a>(input: &'a [u8], row: &Password) -> Result<Derivation<'a>, usize>
    ensures { MatchResult result
        (λ x. IsDerivationOf input.now row.now (derivation_value x))
        (λ n. IsWrongDerivation input.now row.now n × HasNone (IsDerivationOf input.now row.now)) }
{
    if row.is_pbkdf2 != 0 {
        if row.has_salt != 0 {
            return Ok(Derivation::Pbkdf2(pbkdf2_of(input, row)?));
        }
        if row.has_derivation_parameters == 0 {
            return Err(SALT);
        }
    }
    Ok(Derivation::Other(other_of(
        input,
        (row.derivation, DERIVATION),
        row.has_derivation_parameters,
        (row.derivation_parameters, DERIVATION_PARAMETERS),
    )?))
}

fn vector_of<'a>(input: &'a [u8], row: &Password) -> Result<WithVector<'a>, usize>
    ensures { MatchResult result
        (λ x. IsVectorOf input.now row.now (vector_value x))
        (λ n. IsWrongVector input.now row.now n × HasNone (IsVectorOf input.now row.now)) }
{
    let algorithm = oid_of(input, row.encryption, ENCRYPTION)?;
    let vector = part_of(input, row.initialization_vector, INITIALIZATION_VECTOR)?;
    Ok(WithVector { algorithm, vector })
}

/// A scheme with an initialization vector, or with its parameters as an element.
fn encryption_of<'a>(input: &'a [u8], row: &Password) -> Result<Encryption<'a>, usize>
    ensures { MatchResult result
        (λ x. IsEncryptionOf input.now row.now (encryption_value x))
        (λ n. IsWrongEncryption input.now row.now n × HasNone (IsEncryptionOf input.now row.now)) }
{
    if row.has_initialization_vector != 0 {
        return Ok(Encryption::WithVector(vector_of(input, row)?));
    }
    Ok(Encryption::Other(other_of(
        input,
        (row.encryption, ENCRYPTION),
        row.has_encryption_parameters,
        (row.encryption_parameters, ENCRYPTION_PARAMETERS),
    )?))
}

/// PBES2.
fn pbes2_of<'a>(input: &'a [u8], row: &Password) -> Result<Pbes2<'a>, usize>
    ensures { MatchResult result
        (λ x. IsPbes2Of input.now row.now (pbes2_value x))
        (λ n. IsWrongPbes2 input.now row.now n × HasNone (IsPbes2Of input.now row.now)) }
{
    let derivation = derivation_of(input, row)?;
    let encryption = encryption_of(input, row)?;
    Ok(Pbes2 {
        derivation,
        encryption,
    })
}

/// The algorithm that a row gives, or the number of the part that can't be written.
fn algorithm_of<'a>(input: &'a [u8], row: &Password) -> Result<Algorithm<'a>, usize>
    ensures { MatchResult result
        (λ x. IsAlgorithmOf input.now row.now (algorithm_value x))
        (λ n. IsWrongAlgorithm input.now row.now n × HasNone (IsAlgorithmOf input.now row.now)) }
{
    match scheme_of(row) {
        Some(Scheme::Pbes1) => Ok(Algorithm::Salted(salted_of::<Pbes1Kind>(input, row)?)),
        Some(Scheme::Pkcs12) => Ok(Algorithm::Salted(salted_of::<Pkcs12Kind>(input, row)?)),
        Some(Scheme::Pbes2) => Ok(Algorithm::Pbes2(pbes2_of(input, row)?)),
        Some(Scheme::Other) => Ok(Algorithm::Other(other_of(
            input,
            (row.algorithm, ALGORITHM),
            row.has_parameters,
            (row.parameters, PARAMETERS),
        )?)),
        None => Err(SCHEME),
    }
}

/// A refusal of writing.
fn unless_refused<T>(written: Result<T, Error>) -> Result<T, NotBuilt>
    ensures { result ≡ unless_refused written }
{
    match written {
        Ok(text) => Ok(text),
        Err(error) => Err(NotBuilt::Refused(error)),
    }
}

fn algorithm_text(alloc: Global, input: &[u8], row: &Password) -> Result<Vec<u8>, NotBuilt>
    ensures { MatchResult result
        (λ text. HasBuilt Holders.Algorithm input.now row.now text.items)
        (λ wrong. IsNotBuilt Holders.Algorithm input.now row.now wrong) }
{
    match algorithm_of(input, row) {
        Ok(algorithm) => unless_refused(write_algorithm(alloc, &algorithm)),
        Err(part) => Err(NotBuilt::Part(part)),
    }
}

/// What is encrypted of a key, which has to be there.
fn encrypted_of_key<'a>(input: &'a [u8], row: &Password) -> Result<&'a [u8], usize>
    ensures { MatchResult result
        (λ x. IsEncryptedOf input.now row.now (Some x.now))
        (λ n. (n ≡ 10) × HasNone (λ x. IsEncryptedOf input.now row.now (Some x))) }
{
    if row.has_encrypted == 0 {
        return Err(ENCRYPTED);
    }
    part_of(input, row.encrypted, ENCRYPTED)
}

fn key_given<'a>(input: &'a [u8], row: &Password) -> Result<EncryptedKey<'a>, usize>
    ensures { MatchResult result
        (λ x. IsGivenFor input.now row.now (algorithm_value x.algorithm) (Some x.encrypted.now))
        (λ n. IsWrongPart Holders.Key input.now row.now n × GivesNone Holders.Key input.now row.now) }
{
    let algorithm = algorithm_of(input, row)?;
    let encrypted = encrypted_of_key(input, row)?;
    Ok(EncryptedKey {
        algorithm,
        encrypted,
    })
}

fn key_text(alloc: Global, input: &[u8], row: &Password) -> Result<Vec<u8>, NotBuilt>
    ensures { MatchResult result
        (λ text. HasBuilt Holders.Key input.now row.now text.items)
        (λ wrong. IsNotBuilt Holders.Key input.now row.now wrong) }
{
    match key_given(input, row) {
        Ok(key) => unless_refused(write_encrypted_key(alloc, &key)),
        Err(part) => Err(NotBuilt::Part(part)),
    }
}

fn contents_given<'a>(input: &'a [u8], row: &Password) -> Result<EncryptedContents<'a>, usize>
    ensures { MatchResult result
        (λ x. IsGivenFor input.now row.now (algorithm_value x.algorithm) (option_value (λ o. o.now) x.encrypted))
        (λ n. IsWrongPart Holders.Contents input.now row.now n × GivesNone Holders.Contents input.now row.now) }
{
    let algorithm = algorithm_of(input, row)?;
    let encrypted = part_if(input, row.has_encrypted, row.encrypted, ENCRYPTED)?;
    Ok(EncryptedContents {
        algorithm,
        encrypted,
    })
}

fn contents_text(alloc: Global, input: &[u8], row: &Password) -> Result<Vec<u8>, NotBuilt>
    ensures { MatchResult result
        (λ text. HasBuilt Holders.Contents input.now row.now text.items)
        (λ wrong. IsNotBuilt Holders.Contents input.now row.now wrong) }
{
    match contents_given(input, row) {
        Ok(contents) => unless_refused(write_encrypted_contents(alloc, &contents)),
        Err(part) => Err(NotBuilt::Part(part)),
    }
}

fn text_for(
    alloc: Global,
    holder: Holder,
    input: &[u8],
    row: &Password,
) -> Result<Vec<u8>, NotBuilt>
    ensures { MatchResult result
        (λ text. HasBuilt holder input.now row.now text.items)
        (λ wrong. IsNotBuilt holder input.now row.now wrong) }
{
    match holder {
        Holder::Algorithm => algorithm_text(alloc, input, row),
        Holder::Key => key_text(alloc, input, row),
        Holder::Contents => contents_text(alloc, input, row),
    }
}

/// Builds what `holder` says of what is given, as octets of the input and numbers, and writes it to the front of `out`: the
/// encoding that `der_password_parameters` reads back as these. At `NORMAL` `written` is its length, at `NO_ROOM`, where
/// `out` is too short, the length that it needs, and otherwise 0. `UNKNOWN_KIND` where no holder has that number. At
/// `INVALID` a part can't be written, and `part` is its number in der.h, and otherwise 0. At `TOO_LONG` the encoding is too
/// long, and `NO_MEMORY` is answered for want of memory. Unless at `NORMAL` `out` is as it was.
pub fn der_build_parameters(
    alloc: Global,
    holder: usize,
    input: &[u8],
    given: &Password,
    out: &mut [u8],
    written: &mut usize,
    part: &mut usize,
) -> u32
    ensures { BuildsParameters holder input.now given.now out.old out.new written.new part.new result }
{
    *written = 0;
    *part = 0;
    let Some(holder) = holder_of(holder) else {
        return status::UNKNOWN_KIND;
    };
    match text_for(alloc, holder, input, given) {
        Ok(text) => put_octets(&text, out, written),
        Err(NotBuilt::Part(number)) => {
            *part = number;
            status::INVALID
        }
        Err(NotBuilt::Refused(error)) => status_of(error),
    }
}
