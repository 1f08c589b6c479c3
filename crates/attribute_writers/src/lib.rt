//! Attributes (RFC 5652, 5.3) of a bag, or of a signer, as encodings: made of values, or as they were read.
#![tactic(auto)]

ghost use Rattle.std.specs.Prelude.{◌≡◌, [], ◌∷◌, Bool, MatchResult, map};
ghost use Rattle.std.specs.List.{AllByRecursion, filter};
ghost use Rattle.asn1_core_writers.specs.Texts.{IsWriteError};
ghost use Rattle.asn1_sets.specs.Encodings.{Adds};
ghost use Rattle.attribute_writers.specs.Attributes.{ATTRIBUTE, attribute_text, is_formed};
ghost use Rattle.x509_base.specs.Names.{attribute, attribute_value};

use asn1_borrowed::Body;
use asn1_core::prelude::*;
use asn1_core::to_vec;
use asn1_sets::{SetOfOne, encoded};
use std::alloc::Global;
use x509_base::Attribute;

/// Which attributes are further ones: those of a type whose value the caller doesn't give by itself.
pub trait Further {
    ghost further: { attribute.Value → Bool };

    fn is_further(attribute: &Attribute) -> bool
        ensures { result ≡ further (attribute_value attribute.now) };
}

/// The encoding of an attribute with one value.
fn with_value<T: DerSerialize + Drop>(alloc: Global, oid: &[u8], value: T) -> Result<Vec<u8>, Error>
    ensures { MatchResult result
        (λ text. text.items ≡ attribute_text (oid.now, (T.format.text (T.value value) ∷ [], tt)))
        (λ e. IsWriteError (attribute_text (oid.now, (T.format.text (T.value value) ∷ [], tt))) e) }
{
    to_vec(
        alloc,
        &Body(Required(KnownOid(oid), Required(SetOfOne(value), End))),
    )
}

/// Appends the encoding of an attribute with one value. That the octets are those of an object identifier isn't tested, nor
/// that the value is well-formed.
pub fn push_value<T: DerSerialize + Drop>(
    alloc: Global,
    oid: &[u8],
    value: T,
    texts: &mut Vec<Asn1RawDer>,
) -> Result<(), Error>
    ensures { Adds ATTRIBUTE.format (Unit {0}) ((oid.now, (T.format.text (T.value value) ∷ [], tt)) ∷ []) texts.old.items texts.new.items result }
{
    texts.push(Asn1RawDer(with_value(alloc, oid, value)?))?;
    Ok(())
}

/// Appends the encodings of those attributes that are further ones. Refuses an ill-formed one of them by `Invalid`.
pub fn push_further<F: Further>(
    alloc: Global,
    attributes: &[Attribute],
    texts: &mut Vec<Asn1RawDer>,
) -> Result<(), Error>
    ensures { Adds ATTRIBUTE.format (AllByRecursion is_formed (filter F.further (map attribute_value attributes.now))) (filter F.further (map attribute_value attributes.now)) texts.old.items texts.new.items result }
{
    for attribute in attributes {
        if F::is_further(attribute) {
            texts.push(encoded(alloc, attribute)?)?;
        }
    }
    Ok(())
}
