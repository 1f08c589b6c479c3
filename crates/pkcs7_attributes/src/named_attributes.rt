//! The attributes that a signer has by name (RFC 5652, 11).

ghost use Rattle.std.specs.Prelude.{◌≡◌, [], MatchOption};
ghost use Rattle.asn1_core.specs.Der.{object_identifier, octet_string, octets_of};
ghost use Rattle.pkcs7_attributes.specs.Attributes.{attributes_value};
ghost use Rattle.pkcs7_attributes.specs.NamedAttributes.{content_type_oid, message_digest_oid, signing_time_oid};
ghost use Rattle.x509_base.specs.AttributesByOid.{with_oid, IsFirst, GivesOnly};
ghost use Rattle.x509_base.specs.Names.{attribute_value};
ghost use Rattle.x509_base.specs.Times.{time, time_value};

use crate::attributes::Attributes;
use asn1_core::prelude::*;
use std::alloc::Global;
use x509_base::{FirstAttribute, Time, first_attribute, only_value_as};

/// `id-contentType`
pub const CONTENT_TYPE: [u8; 9] = [0x2A, 0x86, 0x48, 0x86, 0xF7, 0x0D, 0x01, 0x09, 0x03];

/// `id-messageDigest`
pub const MESSAGE_DIGEST: [u8; 9] = [0x2A, 0x86, 0x48, 0x86, 0xF7, 0x0D, 0x01, 0x09, 0x04];

/// `id-signingTime`
pub const SIGNING_TIME: [u8; 9] = [0x2A, 0x86, 0x48, 0x86, 0xF7, 0x0D, 0x01, 0x09, 0x05];

impl Attributes {
    /// The first attribute with an object identifier, which is given by its contents octets.
    pub fn attribute(&self, oid: &[u8]) -> Option<FirstAttribute<'_>>
        ensures { MatchOption result (with_oid oid.now (attributes_value self.now) ≡ [])
            (λ first. IsFirst (with_oid oid.now (attributes_value self.now)) (attribute_value first.attribute.now) first.is_only) }
    {
        first_attribute(&self.0.0, oid)
    }

    /// The type of the content that is signed (11.1). `None` where there is no such attribute; what is wrong is refused, as
    /// is a second one, or one without value or with several. So it is of the next two.
    pub fn content_type(&self, alloc: Global) -> Result<Option<ObjectIdentifierAsn1>, Error>
        ensures { GivesOnly (λ oid. octets_of oid.0) object_identifier (with_oid content_type_oid (attributes_value self.now)) result }
    {
        only_value_as(alloc, &self.0.0, &CONTENT_TYPE)
    }

    /// The digest of the content that is signed (11.2).
    pub fn message_digest(&self, alloc: Global) -> Result<Option<OctetStringAsn1>, Error>
        ensures { GivesOnly (λ octets. octets.0.items) octet_string (with_oid message_digest_oid (attributes_value self.now)) result }
    {
        only_value_as(alloc, &self.0.0, &MESSAGE_DIGEST)
    }

    /// When the signer says that it signed (11.3).
    pub fn signing_time(&self, alloc: Global) -> Result<Option<Time>, Error>
        ensures { GivesOnly time_value time.format (with_oid signing_time_oid (attributes_value self.now)) result }
    {
        only_value_as(alloc, &self.0.0, &SIGNING_TIME)
    }
}
