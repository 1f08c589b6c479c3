//! What an algorithm's parameters say, and where.

ghost use Rattle.std.specs.Prelude.{◌≡◌, ◌+◌, ◌<◌, ◌^◌, length, MatchResult};
ghost use Rattle.asn1_core.specs.Der.{option_value};
ghost use Rattle.asn1_core_element.specs.declared.error.Error.TheVariants.{Memory};
ghost use Rattle.located_rows.specs.Rows.{LeadsTo};
ghost use Rattle.password_ranges.specs.HeadValues.{pbkdf2_value};
ghost use Rattle.password_ranges.specs.Parameters.{parameters_in};
ghost use Rattle.password_ranges.specs.PasswordRoutes.{algorithm_oid, derivation_oid, derivation_parameters, encryption_oid, encryption_parameters, only_salt, parameters, pbkdf2_salt, prf_oid, vector};
ghost use Rattle.password_ranges.specs.Passwords.{ArePasswordRanges, ArePbes2Ranges, ArePbkdf2Ranges, AreSaltRanges, IsPbes2OrNone, OrNone, leading, prf_in, specified_in};
ghost use Rattle.password_ranges.specs.Schemes.{pbes2_read_value};
ghost use Rattle.pkcs12_algs.specs.Pbes1.{pbes1_params_value};
ghost use Rattle.pkcs12_algs.specs.Pbkdf2.{pbkdf2_salt_source_value};
ghost use Rattle.x509_base.specs.AlgorithmParts.{algorithm_identifier_value};

use crate::algorithms::{known_parameters_of, parameters_of, parameters_of_kind};
use crate::heads::{Pbes2Head, Pbkdf2Head};
use crate::oids::{PBES2, PBKDF2};
use crate::ranges::{PasswordRanges, Pbes2Ranges, Pbkdf2Ranges, SaltRanges};
use crate::salt_kinds::{Pbes1Kind, Pkcs12Kind};
use crate::steps::steps;
use asn1_core::{Error, OctetStringAsn1};
use asn1_located::Step;
use located_rows::range_from;
use pkcs12_algs::{Pbes1Params, Pbkdf2SaltSource};
use std::alloc::Global;
use std::ops::Range;
use x509_base::AlgorithmIdentifier;

/// What the parameters of PBES2 were read as.
#[derive(Drop)]
pub(crate) struct Pbes2Read {
    params: Pbes2Head,
    pbkdf2: Option<Pbkdf2Head>,
    vector: Option<OctetStringAsn1>,
}

/// Reads the parameters of PBES2, and in them those of PBKDF2 and the initialization vector. `None` of another algorithm, and
/// of parameters that don't read as those of PBES2. Refuses by `Memory` alone.
fn read_pbes2(alloc: Global, algorithm: &AlgorithmIdentifier) -> Result<Option<Pbes2Read>, Error>
    ensures { MatchResult result
        (λ s. IsPbes2OrNone (algorithm_identifier_value algorithm.now) (option_value pbes2_read_value s))
        (λ e. e ≡ Memory) }
{
    let Some(params) = known_parameters_of::<Pbes2Head>(alloc, &PBES2, algorithm)? else {
        return Ok(None);
    };
    let pbkdf2 = known_parameters_of::<Pbkdf2Head>(alloc, &PBKDF2, &params.0.0)?;
    let vector = parameters_of::<OctetStringAsn1>(alloc, &params.0.1.0)?;
    Ok(Some(Pbes2Read {
        params,
        pbkdf2,
        vector,
    }))
}

/// The octets of the salt in parameters of a salt and a count.
fn only_salt(start: usize, octets: &[u8]) -> Range<usize>
    requires { start + length octets.now < 2 ^ 64 }
    ensures { LeadsTo only_salt.steps start octets.now result.start result.end }
{
    range_from(
        start,
        octets,
        &steps![Inside After Element Inside Element Inside],
    )
}

fn salt_ranges(start: usize, octets: &[u8], params: &Option<Pbes1Params>) -> Option<SaltRanges>
    requires { start + length octets.now < 2 ^ 64 }
    ensures { OrNone (AreSaltRanges (leading start octets.now)) (option_value pbes1_params_value params.now) result }
{
    match params {
        Some(params) => Some(SaltRanges {
            salt: only_salt(start, octets),
            iterations: params.iterations,
        }),
        None => None,
    }
}

/// The octets of the salt of PBKDF2, where they are there.
fn pbkdf2_salt(start: usize, octets: &[u8]) -> Range<usize>
    requires { start + length octets.now < 2 ^ 64 }
    ensures { LeadsTo pbkdf2_salt.steps start octets.now result.start result.end }
{
    range_from(
        start,
        octets,
        &steps![
            Inside After Element Inside Element Inside After Element
            Inside Element Inside
        ],
    )
}

fn salt_range(start: usize, octets: &[u8], salt: &Pbkdf2SaltSource) -> Option<Range<usize>>
    requires { start + length octets.now < 2 ^ 64 }
    ensures { OrNone (leading start octets.now _ _ pbkdf2_salt) (specified_in (pbkdf2_salt_source_value salt.now)) result }
{
    match salt {
        Pbkdf2SaltSource::Specified(_) => Some(pbkdf2_salt(start, octets)),
        Pbkdf2SaltSource::OtherSource(_) => None,
    }
}

/// The contents octets of the PRF's object identifier, where they are there.
fn prf_oid(start: usize, octets: &[u8]) -> Range<usize>
    requires { start + length octets.now < 2 ^ 64 }
    ensures { LeadsTo prf_oid.steps start octets.now result.start result.end }
{
    range_from(
        start,
        octets,
        &steps![
            Inside After Element Inside Element Inside After Element
            Inside After After Past(0x02) Element Inside Element Inside
        ],
    )
}

fn prf_range(start: usize, octets: &[u8], prf: &Option<AlgorithmIdentifier>) -> Option<Range<usize>>
    requires { start + length octets.now < 2 ^ 64 }
    ensures { OrNone (leading start octets.now _ _ prf_oid) (prf_in (option_value algorithm_identifier_value prf.now)) result }
{
    match prf {
        Some(_) => Some(prf_oid(start, octets)),
        None => None,
    }
}

fn length_of(length: &Option<u32>) -> Option<u32>
    ensures { result ≡ option_value (λ n. n) length.now }
{
    match length {
        Some(length) => Some(*length),
        None => None,
    }
}

fn pbkdf2_parts(start: usize, octets: &[u8], params: &Pbkdf2Head) -> Pbkdf2Ranges
    requires { start + length octets.now < 2 ^ 64 }
    ensures { ArePbkdf2Ranges (leading start octets.now) (pbkdf2_value params.now) result }
{
    Pbkdf2Ranges {
        salt: salt_range(start, octets, &params.0.0),
        iterations: params.0.1.0,
        key_length: length_of(&params.0.1.1.0),
        prf: prf_range(start, octets, &params.0.1.1.1.0),
    }
}

fn pbkdf2_ranges(start: usize, octets: &[u8], params: &Option<Pbkdf2Head>) -> Option<Pbkdf2Ranges>
    requires { start + length octets.now < 2 ^ 64 }
    ensures { OrNone (ArePbkdf2Ranges (leading start octets.now)) (option_value pbkdf2_value params.now) result }
{
    match params {
        Some(params) => Some(pbkdf2_parts(start, octets, params)),
        None => None,
    }
}

fn derivation(start: usize, octets: &[u8]) -> Range<usize>
    requires { start + length octets.now < 2 ^ 64 }
    ensures { LeadsTo derivation_oid.steps start octets.now result.start result.end }
{
    range_from(
        start,
        octets,
        &steps![Inside After Element Inside Element Inside Element Inside],
    )
}

fn derivation_parameters(
    start: usize,
    octets: &[u8],
    algorithm: &AlgorithmIdentifier,
) -> Option<Range<usize>>
    requires { start + length octets.now < 2 ^ 64 }
    ensures { OrNone (leading start octets.now _ _ derivation_parameters) (parameters_in (algorithm_identifier_value algorithm.now)) result }
{
    match algorithm.parameters() {
        Some(_) => Some(range_from(
            start,
            octets,
            &steps![Inside After Element Inside Element Inside After Element],
        )),
        None => None,
    }
}

fn encryption(start: usize, octets: &[u8]) -> Range<usize>
    requires { start + length octets.now < 2 ^ 64 }
    ensures { LeadsTo encryption_oid.steps start octets.now result.start result.end }
{
    range_from(
        start,
        octets,
        &steps![Inside After Element Inside After Element Inside Element Inside],
    )
}

fn encryption_parameters(
    start: usize,
    octets: &[u8],
    algorithm: &AlgorithmIdentifier,
) -> Option<Range<usize>>
    requires { start + length octets.now < 2 ^ 64 }
    ensures { OrNone (leading start octets.now _ _ encryption_parameters) (parameters_in (algorithm_identifier_value algorithm.now)) result }
{
    match algorithm.parameters() {
        Some(_) => Some(range_from(
            start,
            octets,
            &steps![Inside After Element Inside After Element Inside After Element],
        )),
        None => None,
    }
}

/// The octets of the initialization vector, where they are there.
fn vector(start: usize, octets: &[u8]) -> Range<usize>
    requires { start + length octets.now < 2 ^ 64 }
    ensures { LeadsTo vector.steps start octets.now result.start result.end }
{
    range_from(
        start,
        octets,
        &steps![Inside After Element Inside After Element Inside After Element Inside],
    )
}

fn vector_range(start: usize, octets: &[u8], read: &Option<OctetStringAsn1>) -> Option<Range<usize>>
    requires { start + length octets.now < 2 ^ 64 }
    ensures { OrNone (leading start octets.now _ _ vector) (option_value (λ o. o.0.items) read.now) result }
{
    match read {
        Some(_) => Some(vector(start, octets)),
        None => None,
    }
}

fn pbes2_ranges(start: usize, octets: &[u8], read: &Option<Pbes2Read>) -> Option<Pbes2Ranges>
    requires { start + length octets.now < 2 ^ 64 }
    ensures { OrNone (ArePbes2Ranges (leading start octets.now)) (option_value pbes2_read_value read.now) result }
{
    match read {
        Some(read) => Some(Pbes2Ranges {
            derivation: derivation(start, octets),
            derivation_parameters: derivation_parameters(start, octets, &read.params.0.0),
            pbkdf2: pbkdf2_ranges(start, octets, &read.pbkdf2),
            encryption: encryption(start, octets),
            encryption_parameters: encryption_parameters(start, octets, &read.params.0.1.0),
            initialization_vector: vector_range(start, octets, &read.vector),
        }),
        None => None,
    }
}

/// The contents octets of the algorithm's object identifier.
fn algorithm_oid(start: usize, octets: &[u8]) -> Range<usize>
    requires { start + length octets.now < 2 ^ 64 }
    ensures { LeadsTo algorithm_oid.steps start octets.now result.start result.end }
{
    range_from(start, octets, &steps![Inside Element Inside])
}

fn parameters_range(
    start: usize,
    octets: &[u8],
    algorithm: &AlgorithmIdentifier,
) -> Option<Range<usize>>
    requires { start + length octets.now < 2 ^ 64 }
    ensures { OrNone (leading start octets.now _ _ parameters) (parameters_in (algorithm_identifier_value algorithm.now)) result }
{
    match algorithm.parameters() {
        Some(_) => Some(range_from(start, octets, &steps![Inside After Element])),
        None => None,
    }
}

/// All ranges of an algorithm that was read, whose element begins at `start` of an input with these octets. Refuses by
/// `Memory` alone.
pub(crate) fn ranges_at(
    alloc: Global,
    start: usize,
    octets: &[u8],
    algorithm: &AlgorithmIdentifier,
) -> Result<PasswordRanges, Error>
    requires { start + length octets.now < 2 ^ 64 }
    ensures { MatchResult result
        (λ r. ArePasswordRanges (leading start octets.now) (algorithm_identifier_value algorithm.now) r)
        (λ e. e ≡ Memory) }
{
    let pbes1 = parameters_of_kind::<Pbes1Kind, Pbes1Params>(alloc, algorithm)?;
    let pkcs12 = parameters_of_kind::<Pkcs12Kind, Pbes1Params>(alloc, algorithm)?;
    let pbes2 = read_pbes2(alloc, algorithm)?;
    Ok(PasswordRanges {
        algorithm: algorithm_oid(start, octets),
        parameters: parameters_range(start, octets, algorithm),
        pbes1: salt_ranges(start, octets, &pbes1),
        pkcs12: salt_ranges(start, octets, &pkcs12),
        pbes2: pbes2_ranges(start, octets, &pbes2),
    })
}
