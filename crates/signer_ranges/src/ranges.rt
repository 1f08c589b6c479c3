//! What is found of signers.

use std::ops::Range;

/// Signed attributes, with the digest among them.
#[derive(Debug, Drop, PartialEq, Eq)]
pub struct SignedRanges {
    /// All signed attributes as the file has them, with the tag `[0]`, `A0`. The signature covers these octets with `31`
    /// in place of the first one, the tag of a SET OF (RFC 5652, 5.4).
    pub attributes: Range<usize>,
    /// The octets of `messageDigest`, which the digest of the content has to be.
    pub message_digest: Range<usize>,
}

/// What a verification of one signer needs.
#[derive(Debug, Drop, PartialEq, Eq)]
pub struct SignerRanges {
    /// `None` without signed attributes: the signature then covers the octets of the content, whose type is `id-data`.
    pub signed: Option<SignedRanges>,
    /// The octets of the content that are hashed. `None` where the signature is detached.
    pub content: Option<Range<usize>>,
    /// The whole `AlgorithmIdentifier`, with its parameters, as the next one.
    pub digest_algorithm: Range<usize>,
    pub signature_algorithm: Range<usize>,
    /// The octets of the signature.
    pub signature: Range<usize>,
    /// The first certificate of the file that the signer names. `None` where it names none of them.
    pub certificate: Option<Range<usize>>,
}

/// Some of the signers of a file.
#[derive(Debug, Drop, PartialEq, Eq)]
pub struct Signers {
    /// How many signers the file has.
    pub count: usize,
    /// Those that were asked for, in their order. `None` where signed attributes are an empty set, lack `messageDigest` or
    /// `contentType`, have one of them several times, with no value or with several, or name another type than the
    /// content's, or where there are none and the content's type isn't `id-data`: RFC 5652 (5.3, 11.1, 11.2) forbids all
    /// of that, and no such signature counts.
    pub found: Vec<Option<SignerRanges>>,
}
