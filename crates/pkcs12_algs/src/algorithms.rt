//! Algorithms that are known by their object identifiers, whatever their parameters are, and any other.

ghost use Rattle.std.specs.Prelude.{◌≡◌, ℕ, List, Bool, true, false, MatchResult, MatchOption};
ghost use Rattle.std.proofs.Common.{inr};
ghost use Rattle.asn1_core_element.specs.declared.error.Error.TheVariants.{Memory};
ghost use Rattle.asn1_core.specs.Der.{Clones, GivesComponents};
ghost use Rattle.x509_base.specs.AlgorithmParts.{raw_algorithm_identifier_value};
ghost use Rattle.pkcs12_algs.specs.Algorithms.{ListedOrRaw, listed_or_raw, from_raw, into_raw, IsKnown};
ghost use Rattle.pkcs12_algs.specs.Tables.{is_listed, are_oids};

use crate::oids::known_oid;
use asn1_choices::WriteChoice;
use asn1_core::prelude::*;
use std::alloc::Global;
use x509_base::RawAlgorithmIdentifier;
use x509_base::algorithms::put_algorithm;

/// Algorithms that are known by their object identifiers, and any other.
pub(crate) trait Algorithm: Drop {
    /// The contents octets of the known object identifiers.
    ghost OIDS: { List (List ℕ) };

    ghost value: { Self → ListedOrRaw OIDS };

    /// The contents octets of a known object identifier, or the algorithm identifier with another.
    fn parts(&self) -> Result<&'static [u8], &RawAlgorithmIdentifier>
        ensures { MatchResult result (λ octets. IsKnown OIDS (value self.now) octets.now) (λ raw. value self.now ≡ inr (raw_algorithm_identifier_value raw.now)) };

    /// The algorithm with that known object identifier.
    fn known(octets: &[u8]) -> Option<Self>
        ensures { MatchOption result (is_listed OIDS octets.now ≡ false) (λ x. IsKnown OIDS (value x) octets.now) };

    /// Any other algorithm.
    fn other(raw: RawAlgorithmIdentifier) -> Self
        ensures { value result ≡ inr (raw_algorithm_identifier_value raw) };

    ghost valid: { are_oids OIDS ≡ true };
}

/// The algorithm that an algorithm identifier names. The parameters of a known one are dropped.
pub(crate) fn algorithm_from_raw<T: Algorithm>(raw: RawAlgorithmIdentifier) -> T
    ensures { T.value result ≡ from_raw T.OIDS (raw_algorithm_identifier_value raw) }
{
    match T::known(raw.algorithm().octets()) {
        Some(known) => known,
        None => T::other(raw),
    }
}

/// Its algorithm identifier: of a known one, without parameters. Refuses by `Memory` alone.
pub(crate) fn raw_of_algorithm<T: Algorithm>(
    alloc: Global,
    algorithm: &T,
) -> Result<RawAlgorithmIdentifier, Error>
    ensures { MatchResult result (λ raw. raw_algorithm_identifier_value raw ≡ into_raw T.OIDS (T.value algorithm.now)) (λ e. e ≡ Memory) }
{
    match algorithm.parts() {
        Ok(octets) => Ok(RawAlgorithmIdentifier::from_parts(known_oid(alloc, octets)?, None)),
        Err(raw) => raw.try_clone(alloc),
    }
}

/// A clone of an algorithm. Only what isn't known takes memory.
pub(crate) fn clone_algorithm<T: Algorithm>(alloc: Global, algorithm: &T) -> Result<T, Error>
    ensures { Clones T.value algorithm.now result }
{
    match algorithm.parts() {
        Ok(octets) => match T::known(octets) {
            Some(known) => Ok(known),
            None => unreachable!(),
        },
        Err(raw) => Ok(T::other(raw.try_clone(alloc)?)),
    }
}

/// Reads the contents of its algorithm identifier.
pub(crate) fn read_algorithm<T: Algorithm>(
    alloc: Global,
    r: &mut Reader<'_>,
    nest: u8,
) -> Result<T, Error>
    requires { r.old.refused ≡ false }
    ensures { GivesComponents T.value (listed_or_raw T.OIDS).format nest r.old r.new result }
{
    let raw = RawAlgorithmIdentifier::read_fields(alloc, r, nest)?;
    Ok(algorithm_from_raw(raw))
}

/// The contents of its algorithm identifier, for writing.
#[derive(Drop)]
pub(crate) struct AlgorithmRef<'a, T>(pub &'a T);

impl<T: Algorithm> WriteComponents for AlgorithmRef<'_, T> {
    ghost Value = { ListedOrRaw T.OIDS };

    ghost value = { λ x. T.value x.0.now };

    ghost format = { (listed_or_raw T.OIDS).format };

    fn put_components<W: Writer>(&self, w: &mut W) -> Result<(), WriteError> {
        match self.0.parts() {
            Ok(octets) => put_algorithm(octets, w),
            Err(raw) => raw.put_choice(w),
        }
    }

    fn components_well_formed_at(&self, limit: u8) -> bool {
        match self.0.parts() {
            Ok(_) => true,
            Err(raw) => {
                T::known(raw.algorithm().octets()).is_none() && raw.well_formed_at(limit)
            }
        }
    }
}
