//! A PKCS #12 file, built from what a caller in C gives.

ghost use Rattle.std.specs.Prelude.{◌≡◌, MatchResult};
ghost use Rattle.asn1_core.specs.Der.{IsOid, option_value};
ghost use Rattle.asn1_core_element.specs.declared.error.Error.TheVariants.{Memory};
ghost use Rattle.store_calls.specs.BuiltStores.{BuildsStore, HasBuiltStore, IsCountOf, IsMacOf, IsNoStore, IsSafeOf, IsWrongMac, IsWrongStore};
ghost use Rattle.call_values.specs.Given.{HasNone, IfGiven};
ghost use Rattle.store_calls.specs.MacParts.{mac_value};
ghost use Rattle.call_values.specs.Read.{HasOne, IsUnreadOf};
ghost use Rattle.password_writers.specs.Values.{other_value};
ghost use Rattle.pkcs12_algs.specs.Digests.{mac_data_value};
ghost use Rattle.x509_base.specs.AlgorithmParts.{raw_algorithm_identifier_value};

use asn1_core::prelude::*;
use asn1_core::{Asn1SequenceOf, Error};
use bag_ranges::RawContentInfo;
use call_values::given::{number_of, part_of};
use call_values::not_built::NotBuilt;
use call_values::outputs::put_octets;
use call_values::ranges::{NOTHING, Octets};
use call_values::readings::read_as;
use call_values::status;
use call_values::status::status_of;
use password_calls::others::other_of;
use password_writers::Other;
use pkcs12_algs::{MacData, Pkcs12DigestAlgorithm, Pkcs12DigestInfo};
use std::alloc::Global;
use store_writers::write_store;
use x509_base::RawAlgorithmIdentifier;

// Those of `der_store_part` in der.h, which says more of each.
const SAFE: usize = 1;

const DIGEST_ALGORITHM: usize = 2;

const DIGEST_PARAMETERS: usize = 3;

const DIGEST: usize = 4;

const SALT: usize = 5;

const ITERATIONS: usize = 6;

/// A PKCS #12 file, as numbers and ranges of an input: `der_store_given` of der.h, which says more of its fields.
#[repr(C)]
#[derive(Clone, Copy)]
pub struct StoreGiven {
    /// 0 where it has no MAC.
    pub has_mac: usize,
    /// 0 where the digest algorithm has no parameters.
    pub has_digest_parameters: usize,
    pub iterations: usize,
    pub safe: Octets,
    pub digest_algorithm: Octets,
    pub digest_parameters: Octets,
    pub digest: Octets,
    pub salt: Octets,
}

/// What is given of no file.
pub const NO_STORE: StoreGiven = StoreGiven {
    has_mac: 0,
    has_digest_parameters: 0,
    iterations: 0,
    safe: NOTHING,
    digest_algorithm: NOTHING,
    digest_parameters: NOTHING,
    digest: NOTHING,
    salt: NOTHING,
};

/// The parts of a MAC.
#[derive(Clone, Copy)]
struct MacParts<'a> {
    algorithm: Other<'a>,
    digest: &'a [u8],
    salt: &'a [u8],
    iterations: Option<u32>,
}

/// A count, or nothing for 1, which is left out.
fn count_of(given: usize) -> Result<Option<u32>, usize>
    ensures { MatchResult result (λ o. IsCountOf given (option_value (λ n. n) o)) (λ n. (n ≡ 6) × HasNone (IsCountOf given)) }
{
    if given == 1 {
        return Ok(None);
    }
    Ok(Some(number_of(given, ITERATIONS)?))
}

fn mac_parts<'a>(input: &'a [u8], row: &StoreGiven) -> Result<MacParts<'a>, usize>
    ensures { MatchResult result
        (λ x. IsMacOf input.now row.now (mac_value x) × IsOid x.algorithm.algorithm.now)
        (λ n. IsWrongMac input.now row.now n × HasNone (IsMacOf input.now row.now)) }
{
    let algorithm = other_of(
        input,
        (row.digest_algorithm, DIGEST_ALGORITHM),
        row.has_digest_parameters,
        (row.digest_parameters, DIGEST_PARAMETERS),
    )?;
    let digest = part_of(input, row.digest, DIGEST)?;
    let salt = part_of(input, row.salt, SALT)?;
    let iterations = count_of(row.iterations)?;
    Ok(MacParts {
        algorithm,
        digest,
        salt,
        iterations,
    })
}

/// The parameters of an algorithm, copied.
fn parameters_of(alloc: Global, octets: Option<&[u8]>) -> Result<Option<Asn1RawDer>, Error>
    ensures { MatchResult result
        (λ o. option_value (λ p. p.0.items) o ≡ option_value (λ p. p.now) octets.entry)
        (λ e. e ≡ Memory) }
{
    match octets {
        Some(octets) => Ok(Some(Asn1RawDer(Vec::from_slice(alloc, octets)?))),
        None => Ok(None),
    }
}

/// An algorithm by its parts, copied.
fn algorithm_of(alloc: Global, parts: &Other<'_>) -> Result<RawAlgorithmIdentifier, Error>
    requires { IsOid parts.now.algorithm.now }
    ensures { MatchResult result
        (λ raw. raw_algorithm_identifier_value raw ≡ other_value parts.now)
        (λ e. e ≡ Memory) }
{
    let algorithm = ObjectIdentifier::from_checked(Vec::from_slice(alloc, parts.algorithm)?);
    let parameters = parameters_of(alloc, parts.parameters)?;
    Ok(RawAlgorithmIdentifier::from_parts(algorithm, parameters))
}

/// A MAC by its parts, copied.
fn mac_of(alloc: Global, parts: &MacParts<'_>) -> Result<MacData, Error>
    requires { IsOid parts.now.algorithm.algorithm.now }
    ensures { MatchResult result (λ mac. mac_data_value mac ≡ mac_value parts.now) (λ e. e ≡ Memory) }
{
    let algorithm = algorithm_of(alloc, &parts.algorithm)?;
    Ok(MacData {
        mac: Pkcs12DigestInfo {
            digest_algorithm: Pkcs12DigestAlgorithm::from_raw(algorithm),
            digest: OctetStringAsn1(Vec::from_slice(alloc, parts.digest)?),
        },
        salt: OctetStringAsn1(Vec::from_slice(alloc, parts.salt)?),
        iterations: parts.iterations,
    })
}

/// The MAC, unless there is none.
fn mac_if(alloc: Global, input: &[u8], row: &StoreGiven) -> Result<Option<MacData>, NotBuilt>
    ensures { MatchResult result
        (λ o. IfGiven row.now.has_mac (IsMacOf input.now row.now) (option_value mac_data_value o))
        (λ wrong. IsUnreadOf (IsWrongStore input.now row.now) (HasOne (IfGiven row.now.has_mac (IsMacOf input.now row.now))) wrong) }
{
    if row.has_mac == 0 {
        return Ok(None);
    }
    match mac_parts(input, row) {
        Ok(parts) => match mac_of(alloc, &parts) {
            Ok(mac) => Ok(Some(mac)),
            Err(error) => Err(NotBuilt::Refused(error)),
        },
        Err(part) => Err(NotBuilt::Part(part)),
    }
}

/// The AuthenticatedSafe.
fn safe_of<'a>(alloc: Global, input: &'a [u8], row: &StoreGiven) -> Result<&'a [u8], NotBuilt>
    ensures { MatchResult result
        (λ x. IsSafeOf input.now row.now x.now)
        (λ wrong. IsUnreadOf (IsWrongStore input.now row.now) (HasOne (IsSafeOf input.now row.now)) wrong) }
{
    match part_of(input, row.safe, SAFE) {
        Ok(octets) => {
            let _contents: Asn1SequenceOf<RawContentInfo> = read_as(alloc, octets, SAFE)?;
            Ok(octets)
        }
        Err(part) => Err(NotBuilt::Part(part)),
    }
}

fn store_text(alloc: Global, input: &[u8], row: &StoreGiven) -> Result<Vec<u8>, NotBuilt>
    ensures { MatchResult result (λ text. HasBuiltStore input.now row.now text.items) (λ wrong. IsNoStore input.now row.now wrong) }
{
    let safe = safe_of(alloc, input, row)?;
    let mac = mac_if(alloc, input, row)?;
    match write_store(alloc, safe, mac.as_ref()) {
        Ok(text) => Ok(text),
        Err(error) => Err(NotBuilt::Refused(error)),
    }
}

/// Builds a PFX around the AuthenticatedSafe that is given, as octets of the input, with the MAC that is given or none, and
/// writes it to the front of `out`. At `NORMAL` `written` is its length, at `NO_ROOM`, where `out` is too short, the length
/// that it needs, and otherwise 0. At `INVALID` a part can't be written, and `part` is its number in der.h, and otherwise 0.
/// At `TOO_LONG` the encoding is too long, and `NO_MEMORY` is answered for want of memory. Unless at `NORMAL` `out` is as it
/// was.
pub fn der_build_store(
    alloc: Global,
    input: &[u8],
    given: &StoreGiven,
    out: &mut [u8],
    written: &mut usize,
    part: &mut usize,
) -> u32
    ensures { BuildsStore input.now given.now out.old out.new written.new part.new result }
{
    *written = 0;
    *part = 0;
    match store_text(alloc, input, given) {
        Ok(text) => put_octets(&text, out, written),
        Err(NotBuilt::Part(number)) => {
            *part = number;
            status::INVALID
        }
        Err(NotBuilt::Refused(error)) => status_of(error),
    }
}
