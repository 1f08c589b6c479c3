//! Parameters of algorithms, read by types of their own.

ghost use Rattle.std.specs.Prelude.{◌≡◌, ◌≢◌, MatchResult};
ghost use Rattle.asn1_core.specs.Der.{option_value};
ghost use Rattle.asn1_core_element.specs.declared.error.Error.TheVariants.{Memory};
ghost use Rattle.password_ranges.specs.Parameters.{AreKnownOrNone, AreOfKindOrNone, AreParametersOrNone};
ghost use Rattle.x509_base.specs.AlgorithmParts.{algorithm_identifier_value};

use asn1_choices::OidTable;
use asn1_core::from_bytes;
use asn1_core::prelude::*;
use asn1_core_oid::is_oid_of;
use std::alloc::Global;
use x509_base::AlgorithmIdentifier;

/// Why something isn't read doesn't matter, unless memory was refused: then this refuses too.
fn without_answer(error: Error) -> Result<(), Error>
    ensures { MatchResult result (λ _. error ≢ Memory) (λ e. e ≡ Memory) }
{
    match error {
        Error::Memory => Err(Error::Memory),
        _ => Ok(()),
    }
}

/// The parameters of an algorithm as a `P`. `None` where it has none, or they don't read as that. Refuses by `Memory` alone.
pub(crate) fn parameters_of<P: DerDeserialize>(
    alloc: Global,
    algorithm: &AlgorithmIdentifier,
) -> Result<Option<P>, Error>
    ensures { MatchResult result
        (λ p. AreParametersOrNone P.format (algorithm_identifier_value algorithm.now) (option_value P.value p))
        (λ e. e ≡ Memory) }
{
    let Some(element) = algorithm.parameters() else {
        return Ok(None);
    };
    match from_bytes::<P>(alloc, element.0.as_slice()) {
        Ok(parameters) => Ok(Some(parameters)),
        Err(error) => {
            without_answer(error)?;
            Ok(None)
        }
    }
}

/// The same of the algorithm with this object identifier, which is given by its contents octets. `None` of any other.
pub(crate) fn known_parameters_of<P: DerDeserialize>(
    alloc: Global,
    oid: &[u8],
    algorithm: &AlgorithmIdentifier,
) -> Result<Option<P>, Error>
    ensures { MatchResult result
        (λ p. AreKnownOrNone oid.now P.format (algorithm_identifier_value algorithm.now) (option_value P.value p))
        (λ e. e ≡ Memory) }
{
    if !is_oid_of(algorithm.algorithm(), oid) {
        return Ok(None);
    }
    parameters_of(alloc, algorithm)
}

/// The same of an algorithm of the kinds `K`. `None` of any other.
#[tactic(auto, using(crate::proofs::Known::no_kind))]
pub(crate) fn parameters_of_kind<K: OidTable, P: DerDeserialize>(
    alloc: Global,
    algorithm: &AlgorithmIdentifier,
) -> Result<Option<P>, Error>
    ensures { MatchResult result
        (λ p. AreOfKindOrNone K.table P.format (algorithm_identifier_value algorithm.now) (option_value P.value p))
        (λ e. e ≡ Memory) }
{
    match K::with_octets(algorithm.algorithm().octets()) {
        Some(_) => parameters_of(alloc, algorithm),
        None => Ok(None),
    }
}
