//! How inputs are encrypted with a password, for callers in C.

ghost use Rattle.std.specs.Prelude.{◌≡◌, ◌≢◌, MatchOption, MatchResult};
ghost use Rattle.password_calls.specs.Passwords.{FindsParameters, HasParts, IsHolderRefusal, number_of, number_or_none, password_row, with_pbes1, with_pbes2, with_pbkdf2, with_pkcs12};

use call_values::outputs::{place_of, status_of_refusal};
use call_values::ranges::{NOTHING, Octets, is_there, octets_of, octets_or_none};
use call_values::status;
use input_ranges::Refusal;
use password_ranges::{
    PasswordRanges, Pbes2Ranges, Pbkdf2Ranges, SaltRanges, encrypted_contents_ranges,
    encrypted_key_ranges, password_ranges,
};
use std::alloc::Global;
use std::ops::Range;

/// Where the parts of an algorithm that encrypts with a password are, and its numbers: `der_password_parts` of der.h, which
/// says more of its fields.
#[repr(C)]
#[derive(Clone, Copy)]
pub struct Password {
    /// 1 where the algorithm has parameters, otherwise 0.
    pub has_parameters: usize,
    /// 1 where it is one of PBES1, and they read as a salt and a count, otherwise 0.
    pub is_pbes1: usize,
    /// 1 where it is one of `pkcs-12PbeIds`, and they read as a salt and a count, otherwise 0.
    pub is_pkcs12: usize,
    /// 1 where it is PBES2, and they read as those of PBES2, otherwise 0.
    pub is_pbes2: usize,
    /// 1 where its key derivation function has parameters, otherwise 0.
    pub has_derivation_parameters: usize,
    /// 1 where that is PBKDF2, and they read as those of PBKDF2, otherwise 0.
    pub is_pbkdf2: usize,
    /// 1 where there is a salt, otherwise 0.
    pub has_salt: usize,
    /// 1 where the length of the key is given, otherwise 0.
    pub has_key_length: usize,
    /// 1 where the PRF is given, otherwise 0.
    pub has_prf: usize,
    /// 1 where the encryption scheme has parameters, otherwise 0.
    pub has_encryption_parameters: usize,
    /// 1 where these read as an OCTET STRING, otherwise 0.
    pub has_initialization_vector: usize,
    /// 1 where there are octets that are encrypted, otherwise 0.
    pub has_encrypted: usize,
    pub iterations: usize,
    pub key_length: usize,
    pub algorithm: Octets,
    pub parameters: Octets,
    pub derivation: Octets,
    pub derivation_parameters: Octets,
    pub salt: Octets,
    pub prf: Octets,
    pub encryption: Octets,
    pub encryption_parameters: Octets,
    pub initialization_vector: Octets,
    pub encrypted: Octets,
}

/// What is there of no algorithm.
pub const NO_PASSWORD: Password = Password {
    has_parameters: 0,
    is_pbes1: 0,
    is_pkcs12: 0,
    is_pbes2: 0,
    has_derivation_parameters: 0,
    is_pbkdf2: 0,
    has_salt: 0,
    has_key_length: 0,
    has_prf: 0,
    has_encryption_parameters: 0,
    has_initialization_vector: 0,
    has_encrypted: 0,
    iterations: 0,
    key_length: 0,
    algorithm: NOTHING,
    parameters: NOTHING,
    derivation: NOTHING,
    derivation_parameters: NOTHING,
    salt: NOTHING,
    prf: NOTHING,
    encryption: NOTHING,
    encryption_parameters: NOTHING,
    initialization_vector: NOTHING,
    encrypted: NOTHING,
};

fn number_or_none(number: &Option<u32>) -> usize
    ensures { result ≡ number_or_none number.now }
{
    match number {
        Some(number) => *number as usize,
        None => 0,
    }
}

/// The row with the parameters of PBES1, if there are some.
fn with_pbes1(pbes1: &Option<SaltRanges>, row: Password) -> Password
    ensures { result ≡ with_pbes1 pbes1.now row }
{
    match pbes1 {
        Some(pbes1) => Password {
            is_pbes1: 1,
            has_salt: 1,
            iterations: pbes1.iterations as usize,
            salt: octets_of(&pbes1.salt),
            ..row
        },
        None => row,
    }
}

/// The row with those of one of `pkcs-12PbeIds`, if there are some.
fn with_pkcs12(pkcs12: &Option<SaltRanges>, row: Password) -> Password
    ensures { result ≡ with_pkcs12 pkcs12.now row }
{
    match pkcs12 {
        Some(pkcs12) => Password {
            is_pkcs12: 1,
            has_salt: 1,
            iterations: pkcs12.iterations as usize,
            salt: octets_of(&pkcs12.salt),
            ..row
        },
        None => row,
    }
}

/// The row with the parameters of PBKDF2, if there are some.
fn with_pbkdf2(pbkdf2: &Option<Pbkdf2Ranges>, row: Password) -> Password
    ensures { result ≡ with_pbkdf2 pbkdf2.now row }
{
    match pbkdf2 {
        Some(pbkdf2) => Password {
            is_pbkdf2: 1,
            has_salt: is_there(&pbkdf2.salt),
            has_key_length: is_there(&pbkdf2.key_length),
            has_prf: is_there(&pbkdf2.prf),
            iterations: pbkdf2.iterations as usize,
            key_length: number_or_none(&pbkdf2.key_length),
            salt: octets_or_none(&pbkdf2.salt),
            prf: octets_or_none(&pbkdf2.prf),
            ..row
        },
        None => row,
    }
}

/// The row with the parameters of PBES2, if there are some.
fn with_pbes2(pbes2: &Option<Pbes2Ranges>, row: Password) -> Password
    ensures { result ≡ with_pbes2 pbes2.now row }
{
    match pbes2 {
        Some(pbes2) => {
            let row = Password {
                is_pbes2: 1,
                has_derivation_parameters: is_there(&pbes2.derivation_parameters),
                has_encryption_parameters: is_there(&pbes2.encryption_parameters),
                has_initialization_vector: is_there(&pbes2.initialization_vector),
                derivation: octets_of(&pbes2.derivation),
                derivation_parameters: octets_or_none(&pbes2.derivation_parameters),
                encryption: octets_of(&pbes2.encryption),
                encryption_parameters: octets_or_none(&pbes2.encryption_parameters),
                initialization_vector: octets_or_none(&pbes2.initialization_vector),
                ..row
            };
            with_pbkdf2(&pbes2.pbkdf2, row)
        }
        None => row,
    }
}

fn row_of(ranges: &PasswordRanges, encrypted: &Option<Range<usize>>) -> Password
    ensures { result ≡ password_row ranges.now encrypted.now }
{
    let row = Password {
        has_parameters: is_there(&ranges.parameters),
        has_encrypted: is_there(encrypted),
        algorithm: octets_of(&ranges.algorithm),
        parameters: octets_or_none(&ranges.parameters),
        encrypted: octets_or_none(encrypted),
        ..NO_PASSWORD
    };
    let row = with_pkcs12(&ranges.pkcs12, with_pbes1(&ranges.pbes1, row));
    with_pbes2(&ranges.pbes2, row)
}

/// What holds the algorithm.
#[derive(Clone, Copy)]
pub enum Holder {
    /// It is an `AlgorithmIdentifier` itself.
    Algorithm,
    /// An `EncryptedPrivateKeyInfo`.
    Key,
    /// A `ContentInfo` of `encryptedData`.
    Contents,
}

/// What has that number in der.h.
#[tactic(auto, using(crate::proofs::PasswordRows::no_holder_number))]
pub fn holder_of(number: usize) -> Option<Holder>
    ensures { MatchOption result ((holder : Holder) → number ≢ number_of holder) (λ holder. number ≡ number_of holder) }
{
    match number {
        0 => Some(Holder::Algorithm),
        1 => Some(Holder::Key),
        2 => Some(Holder::Contents),
        _ => None,
    }
}

fn row_in(alloc: Global, holder: Holder, input: &[u8]) -> Result<Password, Refusal>
    ensures { MatchResult result (λ row. HasParts holder input.now row) (λ e. IsHolderRefusal holder input.now e) }
{
    match holder {
        Holder::Algorithm => {
            let ranges = password_ranges(alloc, input)?;
            Ok(row_of(&ranges, &None))
        }
        Holder::Key => {
            let ranges = encrypted_key_ranges(alloc, input)?;
            Ok(row_of(&ranges.algorithm, &ranges.encrypted))
        }
        Holder::Contents => {
            let ranges = encrypted_contents_ranges(alloc, input)?;
            Ok(row_of(&ranges.algorithm, &ranges.encrypted))
        }
    }
}

/// Writes how the input is encrypted with a password to `out`, as `password_ranges`, `encrypted_key_ranges` and
/// `encrypted_contents_ranges` find it; `holder` says what the input is. `UNKNOWN_KIND` where no holder has that number. From
/// `MALFORMED` to `TOO_DEEP` the input isn't what it says, and `place` is where; at `NO_MEMORY` it is an offset without use,
/// and otherwise 0. Unless at `NORMAL` all of `out` is 0.
#[tactic(auto, using(crate::proofs::PasswordRows::parameters_found, crate::proofs::PasswordRows::no_holder))]
pub fn der_password_parameters(
    alloc: Global,
    holder: usize,
    input: &[u8],
    out: &mut Password,
    place: &mut usize,
) -> u32
    ensures { FindsParameters holder input.now out.new place.new result }
{
    *out = NO_PASSWORD;
    *place = 0;
    let Some(holder) = holder_of(holder) else {
        return status::UNKNOWN_KIND;
    };
    match row_in(alloc, holder, input) {
        Ok(row) => {
            *out = row;
            status::NORMAL
        }
        Err(refusal) => {
            *place = place_of(refusal);
            status_of_refusal(refusal)
        }
    }
}
