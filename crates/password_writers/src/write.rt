//! Writing an algorithm, and what holds it, from given parts.

ghost use Rattle.std.specs.Prelude.{◌≡◌, MatchResult};
ghost use Rattle.asn1_core.specs.Der.{option_value};
ghost use Rattle.password_ranges.specs.Heads.{ALGORITHM};
ghost use Rattle.password_ranges.specs.Holders.{encrypted_info, encrypted_key};
ghost use Rattle.password_writers.specs.Given.{algorithm_of};
ghost use Rattle.password_writers.specs.Values.{algorithm_value};
ghost use Rattle.password_writers.specs.Written.{IsNotWrittenAs, IsWrittenAs, info_of, key_of};

use crate::algorithms::Algorithm;
use crate::holders::{EncryptedContents, EncryptedKey};
use asn1_borrowed::write;
use asn1_core::Error;
use std::alloc::Global;

/// The encoding of an algorithm. Refuses by `Invalid` where an object identifier or an element in it isn't one, by `TooLong`,
/// or by `Memory`.
pub fn write_algorithm(alloc: Global, algorithm: &Algorithm<'_>) -> Result<Vec<u8>, Error>
    ensures { MatchResult result
        (λ v. IsWrittenAs ALGORITHM.format (algorithm_of (algorithm_value algorithm.now)) (algorithm_value algorithm.now) v.items)
        (λ e. IsNotWrittenAs ALGORITHM.format (algorithm_of (algorithm_value algorithm.now)) (algorithm_value algorithm.now) e) }
{
    write(alloc, algorithm)
}

/// The encoding of an encrypted key. Refuses as `write_algorithm` does.
pub fn write_encrypted_key(alloc: Global, key: &EncryptedKey<'_>) -> Result<Vec<u8>, Error>
    ensures { MatchResult result
        (λ v. IsWrittenAs encrypted_key (key_of (algorithm_value key.now.algorithm) key.now.encrypted.now) (algorithm_value key.now.algorithm) v.items)
        (λ e. IsNotWrittenAs encrypted_key (key_of (algorithm_value key.now.algorithm) key.now.encrypted.now) (algorithm_value key.now.algorithm) e) }
{
    write(alloc, key)
}

/// The encoding of encrypted contents. Refuses as `write_algorithm` does.
pub fn write_encrypted_contents(
    alloc: Global,
    contents: &EncryptedContents<'_>,
) -> Result<Vec<u8>, Error>
    ensures { MatchResult result
        (λ v. IsWrittenAs encrypted_info (info_of (algorithm_value contents.now.algorithm) (option_value (λ o. o.now) contents.now.encrypted)) (algorithm_value contents.now.algorithm) v.items)
        (λ e. IsNotWrittenAs encrypted_info (info_of (algorithm_value contents.now.algorithm) (option_value (λ o. o.now) contents.now.encrypted)) (algorithm_value contents.now.algorithm) e) }
{
    write(alloc, contents)
}
