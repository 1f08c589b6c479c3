//! The attributes that a signer signs.

ghost use Rattle.std.specs.Prelude.{◌≡◌, MatchResult, map};
ghost use Rattle.std.specs.List.{AllByRecursion};
ghost use Rattle.asn1_core.specs.Der.{IsOid, object_identifier, octet_string, option_value};
ghost use Rattle.asn1_leaves_times.specs.Times.{moment_of_generalized};
ghost use Rattle.asn1_sets.specs.Encodings.{Adds};
ghost use Rattle.attribute_writers.specs.Attributes.{ATTRIBUTE, alone};
ghost use Rattle.pkcs7_attributes.specs.NamedAttributes.{content_type_oid, message_digest_oid, signing_time_oid};
ghost use Rattle.signed_writers.specs.GivenAttributes.{IsTypeOrNone, is_further, signing_time, time_of};
ghost use Rattle.signed_writers.specs.WrittenAttributes.{AreSignedAttributes, AreTexts, HasNoSet, HasNoAttributes};
ghost use Rattle.x509_base.specs.Times.{time, time_value};

use asn1_borrowed::OctetsRef;
use asn1_core::prelude::*;
use asn1_core::to_vec;
use asn1_core_oid::{is_oid, is_oid_of};
use asn1_leaves::{GeneralizedTime, GeneralizedTimeAsn1, UTCTime, UTCTimeAsn1};
use asn1_sets::put_in_order;
use attribute_writers::{Further, push_further, push_value};
use pkcs7_attributes::named_attributes::{CONTENT_TYPE, MESSAGE_DIGEST, SIGNING_TIME};
use std::alloc::Global;
use x509_base::{Attribute, Time};

/// Signed attributes to be written (RFC 5652, 5.3).
#[derive(Clone, Copy)]
pub struct SignedAttributes<'a> {
    /// The contents octets of the object identifier that is the content's type (RFC 5652, 11.1). `None` where there is no such
    /// attribute, as in those that aren't signed and in a countersignature's.
    pub content_type: Option<&'a [u8]>,
    /// The digest of the content (11.2).
    pub message_digest: Option<&'a [u8]>,
    /// When the signer signs (11.3). It is written as UTCTime in the years 1950 to 2049, and otherwise as GeneralizedTime.
    pub signing_time: Option<GeneralizedTime>,
    /// Further attributes, in any order. Of them, those of these three types aren't written, whatever they hold, also where the
    /// field above is `None`.
    pub attributes: &'a [Attribute],
}

/// Those of none of the three types.
struct FurtherOfSigner {}

impl Further for FurtherOfSigner {
    ghost further = { is_further };

    fn is_further(attribute: &Attribute) -> bool {
        !is_oid_of(&attribute.ty.0, &CONTENT_TYPE)
            && !is_oid_of(&attribute.ty.0, &MESSAGE_DIGEST)
            && !is_oid_of(&attribute.ty.0, &SIGNING_TIME)
    }
}

/// A time of signing, as RFC 5652, 11.3 has it.
fn time_at(time: GeneralizedTime) -> Time
    ensures { time_value result ≡ signing_time (moment_of_generalized time) }
{
    match UTCTime::new(
        time.year(),
        time.month(),
        time.day(),
        time.hour(),
        time.minute(),
        time.second(),
    ) {
        Some(utc) => Time::Utc(UTCTimeAsn1(utc)),
        None => Time::Generalized(GeneralizedTimeAsn1(time)),
    }
}

/// Adds the encoding of a content type, if there is one.
fn push_content_type(
    alloc: Global,
    octets: Option<&[u8]>,
    texts: &mut Vec<Asn1RawDer>,
) -> Result<(), Error>
    ensures { Adds ATTRIBUTE.format (IsTypeOrNone (option_value (λ o. o.now) octets.entry)) (alone content_type_oid object_identifier (option_value (λ o. o.now) octets.entry)) texts.old.items texts.new.items result }
{
    if let Some(octets) = octets {
        if !is_oid(octets) {
            return Err(Error::Invalid);
        }
        push_value(alloc, &CONTENT_TYPE, KnownOid(octets), texts)?;
    }
    Ok(())
}

/// Adds the encoding of a digest, if there is one.
fn push_digest(
    alloc: Global,
    octets: Option<&[u8]>,
    texts: &mut Vec<Asn1RawDer>,
) -> Result<(), Error>
    ensures { Adds ATTRIBUTE.format (Unit {0}) (alone message_digest_oid octet_string (option_value (λ o. o.now) octets.entry)) texts.old.items texts.new.items result }
{
    if let Some(octets) = octets {
        push_value(alloc, &MESSAGE_DIGEST, OctetsRef(octets), texts)?;
    }
    Ok(())
}

/// Adds the encoding of a time of signing, if there is one.
fn push_time(
    alloc: Global,
    moment: Option<GeneralizedTime>,
    texts: &mut Vec<Asn1RawDer>,
) -> Result<(), Error>
    ensures { Adds ATTRIBUTE.format (Unit {0}) (alone signing_time_oid time.format (time_of moment)) texts.old.items texts.new.items result }
{
    if let Some(moment) = moment {
        push_value(alloc, &SIGNING_TIME, time_at(moment), texts)?;
    }
    Ok(())
}

/// The encodings of the attributes, in the order of DER.
fn texts_of(alloc: Global, given: &SignedAttributes<'_>) -> Result<Vec<Asn1RawDer>, Error>
    ensures { MatchResult result (λ texts. AreTexts given.now (map (λ x. x.0.items) texts.items)) (λ e. HasNoAttributes given.now e) }
{
    let mut texts = Vec::new(alloc);
    push_content_type(alloc, given.content_type, &mut texts)?;
    push_digest(alloc, given.message_digest, &mut texts)?;
    push_time(alloc, given.signing_time, &mut texts)?;
    push_further::<FurtherOfSigner>(alloc, given.attributes, &mut texts)?;
    put_in_order(texts.as_mut_slice());
    Ok(texts)
}

/// The encoding of these attributes as a SET OF, in the order of DER: what a signature covers (RFC 5652, 5.4). A
/// `SignerInfo` has the same octets with `A0`, the tag `[0]`, in place of `31`. The values of a further attribute stay in their
/// order. Without any attribute it is `31 00`, which no signer may have. Refuses by `Invalid` a content type that is no object
/// identifier, and an ill-formed attribute, unless it isn't written. Also refuses by `TooLong`, where an encoding would have
/// 2^64 octets or more, and by `Memory`.
pub fn write_attributes(alloc: Global, given: &SignedAttributes<'_>) -> Result<Vec<u8>, Error>
    ensures { MatchResult result (λ text. AreSignedAttributes given.now text.items) (λ e. HasNoSet given.now e) }
{
    to_vec(alloc, &Asn1SetOf(texts_of(alloc, given)?))
}
