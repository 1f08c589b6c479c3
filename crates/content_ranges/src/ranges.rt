//! What is found of the content.

use std::ops::Range;

/// Where the parts of `SpcPeImageData` are.
#[derive(Debug, Drop, PartialEq, Eq)]
pub struct ImageRanges {
    /// The contents octets of `flags`, a BIT STRING: first the count of its unused bits. `None` where it is absent.
    pub flags: Option<Range<usize>>,
    /// The element in `file`: an `SpcLink`, as it is. `None` where `file` is absent.
    pub link: Option<Range<usize>>,
}

/// Where the parts of `SpcIndirectDataContent` are.
#[derive(Debug, Drop, PartialEq, Eq)]
pub struct IndirectRanges {
    /// The contents octets of the object identifier in `data`, which says what was hashed: an image, a cabinet, a script.
    pub ty: Range<usize>,
    /// The element of the value in `data`. `None` where it is absent.
    pub value: Option<Range<usize>>,
    /// The parts of the value. `None` where it isn't that of an image, or doesn't read as image data.
    pub image: Option<ImageRanges>,
    /// The element of the digest's algorithm.
    pub digest_algorithm: Range<usize>,
    /// The octets of the digest.
    pub digest: Range<usize>,
}

/// Where the parts of a `CertificateTrustList` are, without its entries.
#[derive(Debug, Drop, PartialEq, Eq)]
pub struct TrustListRanges {
    /// The contents octets of `version`, an INTEGER. `None` where it is absent, which is v1.
    pub version: Option<Range<usize>>,
    /// The element of `subjectUsage`, a SEQUENCE OF OBJECT IDENTIFIER.
    pub usages: Range<usize>,
    /// The octets of `listIdentifier`.
    pub list_identifier: Option<Range<usize>>,
    /// The contents octets of `sequenceNumber`, an INTEGER.
    pub sequence_number: Option<Range<usize>>,
    /// The element of `ctlThisUpdate`, a UTCTime or a GeneralizedTime.
    pub this_update: Range<usize>,
    /// The element of `ctlNextUpdate`.
    pub next_update: Option<Range<usize>>,
    /// The element of `subjectAlgorithm`, which made the identifiers of the entries.
    pub algorithm: Range<usize>,
    /// The element in `ctlExtensions`, as it is.
    pub extensions: Option<Range<usize>>,
}

/// Where the parts of a `TrustedSubject`, an entry of a trust list, are.
#[derive(Debug, Drop, PartialEq, Eq)]
pub struct EntryRanges {
    /// The octets of `subjectIdentifier`: of a certificate its digest.
    pub identifier: Range<usize>,
    /// The element of `subjectAttributes`, a SET OF Attribute. `None` where they are absent.
    pub attributes: Option<Range<usize>>,
}
