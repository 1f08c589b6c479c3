//! Writing an AuthenticatedSafe, and a PFX.

ghost use Rattle.std.specs.Prelude.{MatchResult, map};
ghost use Rattle.asn1_borrowed.specs.Written.{IsNotWritten};
ghost use Rattle.asn1_core.specs.Der.{option_value, raw};
ghost use Rattle.pkcs12_algs.specs.Digests.{mac_data_value};
ghost use Rattle.store_writers.specs.Written.{CONTENTS, IsAuthenticatedSafeOf, IsStoreOf, content_value, store_value};
ghost use Rattle.x509_pkcs12.specs.Pfxs.{pfx};

use crate::content::Content;
use crate::stores::Store;
use asn1_borrowed::{Body, write};
use asn1_core::Error;
use pkcs12_algs::MacData;
use std::alloc::Global;

/// The encoding of the `AuthenticatedSafe` of these contents, which is what a MAC covers (RFC 7292, 4 and 4.1). Refuses by
/// `Invalid` an ill-formed `ContentInfo`, by `TooLong`, or by `Memory`.
pub fn write_authenticated_safe(alloc: Global, contents: Vec<Content<'_>>) -> Result<Vec<u8>, Error>
    ensures { MatchResult result
        (λ text. IsAuthenticatedSafeOf (map content_value contents.entry.items) text.items)
        (λ e. IsNotWritten CONTENTS.format (map content_value contents.entry.items) e) }
{
    write(alloc, &Body(contents))
}

/// The encoding of the `PFX` (RFC 7292, 4) whose `AuthenticatedSafe` has that encoding, with a MAC or none. Refuses by
/// `Invalid` what isn't exactly one element, and an ill-formed MAC; by `TooLong`, or by `Memory`. A count that is given is
/// written, also 1, which is meant where it is left out.
pub fn write_store(alloc: Global, safe: &[u8], mac: Option<&MacData>) -> Result<Vec<u8>, Error>
    ensures { MatchResult result
        (λ text. IsStoreOf safe.now (option_value (λ m. mac_data_value m.now) mac.entry) text.items)
        (λ e. IsNotWritten (pfx raw) (store_value safe.now (option_value (λ m. mac_data_value m.now) mac.entry)) e) }
{
    write(alloc, &Store { safe, mac })
}
