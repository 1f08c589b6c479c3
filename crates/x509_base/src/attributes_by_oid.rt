//! Attributes by their object identifier (RFC 5652, 11).

ghost use Rattle.std.specs.Prelude.{◌≡◌, ◌↔◌, [], Option, IsTrue, MatchOption, MatchResult, map};
ghost use Rattle.asn1_core.specs.Der.{ElementOctets, option_value};
ghost use Rattle.asn1_core_element.specs.declared.error.Error.TheVariants.{Invalid};
ghost use Rattle.x509_base.specs.AttributesByOid.{with_oid, IsFirst, IsOnly, GivesOnly};
ghost use Rattle.x509_base.specs.Names.{attribute_value};

use crate::names::Attribute;
use asn1_core::from_bytes;
use asn1_core::prelude::*;
use asn1_core_oid::is_oid_of;
use std::alloc::Global;

/// The first attribute with some object identifier.
#[derive(Clone, Copy)]
pub struct FirstAttribute<'a> {
    pub attribute: &'a Attribute,
    /// Whether no later attribute has the object identifier.
    pub is_only: bool,
}

/// The first attribute with an object identifier, which is given by its contents octets. `None` where none has it.
pub fn first_attribute<'a>(attributes: &'a [Attribute], oid: &[u8]) -> Option<FirstAttribute<'a>>
    ensures { MatchOption result (with_oid oid.now (map attribute_value attributes.now) ≡ [])
        (λ first. IsFirst (with_oid oid.now (map attribute_value attributes.now)) (attribute_value first.attribute.now) first.is_only) }
{
    for (index, attribute) in attributes.iter().enumerate() {
        if is_oid_of(&attribute.ty.0, oid) {
            let is_only = none_has(&attributes[index + 1..], oid);
            return Some(FirstAttribute { attribute, is_only });
        }
    }
    None
}

/// Whether no attribute has that object identifier.
fn none_has(attributes: &[Attribute], oid: &[u8]) -> bool
    ensures { IsTrue result ↔ (with_oid oid.now (map attribute_value attributes.now) ≡ []) }
{
    for attribute in attributes {
        if is_oid_of(&attribute.ty.0, oid) {
            return false;
        }
    }
    true
}

/// The one value of the only attribute with an object identifier, as an element. `None` where no attribute has it.
/// `Error::Invalid` where several have it, or where the one that has it has no value or several.
pub fn only_value<'a>(
    attributes: &'a [Attribute],
    oid: &[u8],
) -> Result<Option<&'a Asn1RawDer>, Error>
    ensures { MatchResult result
        (λ value. IsOnly (with_oid oid.now (map attribute_value attributes.now)) (option_value (λ v. v.now.0.items) value))
        (λ e. (e ≡ Invalid) × ((value : Option ElementOctets) → IsOnly (with_oid oid.now (map attribute_value attributes.now)) value → ⊥)) }
{
    let Some(first) = first_attribute(attributes, oid) else {
        return Ok(None);
    };
    if !first.is_only {
        return Err(Error::Invalid);
    }
    match first.attribute.value.0.as_slice() {
        [value] => Ok(Some(value)),
        _ => Err(Error::Invalid),
    }
}

/// The same value, read as `T`, which may take memory. What isn't a `T` is refused as `from_bytes` refuses it.
pub fn only_value_as<T: DerDeserialize>(
    alloc: Global,
    attributes: &[Attribute],
    oid: &[u8],
) -> Result<Option<T>, Error>
    ensures { GivesOnly T.value T.format (with_oid oid.now (map attribute_value attributes.now)) result }
{
    match only_value(attributes, oid)? {
        Some(value) => Ok(Some(from_bytes(alloc, value.0.as_slice())?)),
        None => Ok(None),
    }
}
