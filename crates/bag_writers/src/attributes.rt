//! The attributes of a bag, as encodings.

ghost use Rattle.std.specs.Prelude.{◌≡◌, MatchResult, map};
ghost use Rattle.asn1_core.specs.Der.{option_value};
ghost use Rattle.asn1_sets.specs.Encodings.{Adds};
ghost use Rattle.attribute_writers.specs.Attributes.{ATTRIBUTE};
ghost use Rattle.bag_writers.specs.GivenAttributes.{IsName, is_further, key_ids, names};
ghost use Rattle.bag_writers.specs.Written.{HasAttributes, HasNoAttributes, HasTexts};

use crate::bags::{Attributed, Bag};
use crate::utf16::{NameRef, is_utf16};
use asn1_borrowed::OctetsRef;
use asn1_core::prelude::*;
use asn1_sets::put_in_order;
use attribute_writers::{Further, push_further, push_value};
use pkcs12_bags::parts::oids::{FRIENDLY_NAME, LOCAL_KEY_ID, is_oid_of, octets_of_known};
use std::alloc::Global;
use x509_base::Attribute;

/// Adds the encoding of a friendly name, if there is one.
fn push_name(alloc: Global, octets: Option<&[u8]>, texts: &mut Vec<Asn1RawDer>) -> Result<(), Error>
    ensures { Adds ATTRIBUTE.format (IsName (option_value (λ o. o.now) octets.entry)) (names (option_value (λ o. o.now) octets.entry)) texts.old.items texts.new.items result }
{
    if let Some(octets) = octets {
        if !is_utf16(octets) {
            return Err(Error::Invalid);
        }
        push_value(
            alloc,
            octets_of_known(FRIENDLY_NAME),
            NameRef(octets),
            texts,
        )?;
    }
    Ok(())
}

/// Adds the encoding of a local key identifier, if there is one.
fn push_key_id(
    alloc: Global,
    octets: Option<&[u8]>,
    texts: &mut Vec<Asn1RawDer>,
) -> Result<(), Error>
    ensures { Adds ATTRIBUTE.format (Unit {0}) (key_ids (option_value (λ o. o.now) octets.entry)) texts.old.items texts.new.items result }
{
    if let Some(octets) = octets {
        push_value(
            alloc,
            octets_of_known(LOCAL_KEY_ID),
            OctetsRef(octets),
            texts,
        )?;
    }
    Ok(())
}

/// Those that are neither a friendly name nor a local key identifier.
struct FurtherOfBag {}

impl Further for FurtherOfBag {
    ghost further = { is_further };

    fn is_further(attribute: &Attribute) -> bool {
        !is_oid_of(&attribute.ty.0, octets_of_known(FRIENDLY_NAME))
            && !is_oid_of(&attribute.ty.0, octets_of_known(LOCAL_KEY_ID))
    }
}

/// The encodings of a bag's attributes, in the order of DER.
fn texts_of(alloc: Global, bag: &Bag<'_>) -> Result<Vec<Asn1RawDer>, Error>
    ensures { MatchResult result (λ texts. HasTexts bag.now (map (λ x. x.0.items) texts.items)) (λ e. HasNoAttributes bag.now e) }
{
    let mut texts = Vec::new(alloc);
    push_name(alloc, bag.friendly_name, &mut texts)?;
    push_key_id(alloc, bag.local_key_id, &mut texts)?;
    push_further::<FurtherOfBag>(alloc, bag.attributes, &mut texts)?;
    put_in_order(texts.as_mut_slice());
    Ok(texts)
}

/// A bag with its attributes encoded, or without a set of them where it has none.
pub(crate) fn attributed<'a>(alloc: Global, bag: &Bag<'a>) -> Result<Attributed<'a>, Error>
    ensures { MatchResult result (λ x. HasAttributes bag.now x) (λ e. HasNoAttributes bag.now e) }
{
    let texts = texts_of(alloc, bag)?;
    let held = bag.held;
    if texts.is_empty() {
        return Ok(Attributed {
            held,
            attributes: None,
        });
    }
    Ok(Attributed {
        held,
        attributes: Some(Asn1SetOf(texts)),
    })
}
