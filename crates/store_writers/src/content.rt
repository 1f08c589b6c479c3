//! An item of an AuthenticatedSafe.

ghost use Rattle.store_writers.specs.Written.{CONTENT, content_value};
ghost use Rattle.bag_ranges.specs.RawContentInfos.{raw_content_info};

use asn1_borrowed::OctetsRef;
use asn1_core::prelude::*;
use asn1_core_oid::known::DATA;
use bag_ranges::RawContentInfo;

/// A `ContentInfo` of an `AuthenticatedSafe` (RFC 7292, 4.1).
#[derive(Drop)]
pub enum Content<'a> {
    /// `data`: the octets of the encoding of a `SafeContents`, which aren't examined.
    Data(&'a [u8]),
    /// Any `ContentInfo`: encrypted bags, say.
    Info(RawContentInfo),
}

impl DerSerialize for Content<'_> {
    ghost Value = { raw_content_info.Value };

    ghost value = { content_value };

    ghost format = { CONTENT.format };

    fn put<W: Writer>(&self, w: &mut W) -> Result<(), WriteError> {
        match self {
            Content::Data(octets) => put_within(
                0x30,
                &Required(
                    KnownOid(&DATA),
                    Required(ExplicitContextTag0(OctetsRef(octets)), End),
                ),
                w,
            ),
            Content::Info(info) => info.put(w),
        }
    }

    fn well_formed_at(&self, limit: u8) -> bool {
        match self {
            Content::Data(_octets) => true,
            Content::Info(info) => info.well_formed_at(limit),
        }
    }
}
