//! What is found of bags.

use std::ops::Range;

/// What a bag holds, by its object identifier and, of a certificate or revocation list, the one in it.
#[derive(Clone, Copy, Debug, PartialEq, Eq)]
pub enum BagKind {
    Key,
    ShroudedKey,
    /// An X.509 certificate.
    Certificate,
    /// An X.509 revocation list.
    Crl,
    Secret,
    /// Further bags, which follow it one level down.
    SafeContents,
    Other,
    /// No bag, but a whole `ContentInfo` that isn't plain data: encrypted bags, say, which no call decrypts.
    Unread,
    /// A certificate of another type, as an SDSI one.
    OtherCertificate,
    /// A revocation list of another type.
    OtherCrl,
}

/// A bag in a store.
#[derive(Debug, Drop, PartialEq, Eq)]
pub struct BagRanges {
    pub kind: BagKind,
    /// In how many bags of kind SafeContents it is.
    pub level: u8,
    /// The whole element.
    pub element: Range<usize>,
    /// The DER of an X.509 certificate or revocation list, without the OCTET STRING around it; of one of another type, its
    /// element, without the tag `[0]` around it. Of any other bag, the element of its value, without that tag. Of what is
    /// unread, the whole element.
    pub value: Range<usize>,
    /// The contents octets of its only `friendlyName`: UTF-16, two octets for each unit, the high one first.
    pub friendly_name: Option<Range<usize>>,
    /// The octets of its only `localKeyId`.
    pub local_key_id: Option<Range<usize>>,
}
