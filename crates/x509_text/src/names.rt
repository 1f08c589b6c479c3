//! Names as text.

ghost use Rattle.std.specs.Prelude.{◌≡◌, ◌++◌, ℕ, List, drop, MatchResult};
ghost use Rattle.asn1_core_element.specs.declared.error.Error.TheVariants.{Memory};
ghost use Rattle.asn1_core_oid.specs.Refusal.{IsRefusal};
ghost use Rattle.x509_base.specs.Names.{name_value_value, name_parts};
ghost use Rattle.x509_text.specs.Characters.{characters, Appends};
ghost use Rattle.x509_text.specs.Names.{before, IsBackwards, IsAttributeText, IsNameText, HasOne, HasLongType};

use crate::attribute_types::short_name;
use crate::characters::{put, put_all};
use crate::values::{write_hexadecimal, write_value};
use asn1_core::{Asn1SequenceOf, Asn1SetOf};
use asn1_core_element::Error;
use std::alloc::Global;
use x509_base::{Name, NameValue};

/// What has a text in a name.
trait InText {
    ghost IsText: { Self → List ℕ → Type 0 };

    ghost IsLong: { Self → Type 0 };

    fn write(&self, alloc: Global, text: &mut String) -> Result<(), Error>
        ensures { MatchResult result (λ _. Appends text.old text.new (Self.IsText self.now)) (IsRefusal (Self.IsLong self.now)) };
}

/// Appends the separator, unless no item follows.
fn write_separator<T>(
    items: &[T],
    from: usize,
    separator: char,
    text: &mut String,
) -> Result<(), Error>
    ensures { MatchResult result
        (λ _. characters text.new ≡ characters text.old ++ before separator (drop from items.now))
        (λ e. e ≡ Memory) }
{
    if from < items.len() {
        put(separator, text)?;
    }
    Ok(())
}

/// Appends items from the last one to the first.
fn write_backwards<T: InText>(
    alloc: Global,
    items: &[T],
    separator: char,
    text: &mut String,
) -> Result<(), Error>
    ensures { MatchResult result
        (λ _. Appends text.old text.new (IsBackwards T.IsText separator items.now))
        (IsRefusal (HasOne T.IsLong items.now)) }
{
    let mut left = items.len();
    while left > 0 {
        write_separator(items, left, separator, text)?;
        left -= 1;
        items[left].write(alloc, text)?;
    }
    Ok(())
}

impl InText for NameValue {
    ghost IsText = { λ v. IsAttributeText (name_value_value v) };

    ghost IsLong = { λ v. HasLongType (name_value_value v) };

    fn write(&self, alloc: Global, text: &mut String) -> Result<(), Error> {
        let value = self.value.0.as_slice();
        match short_name(self.ty.0.octets()) {
            Some(name) => {
                put_all(name, text)?;
                put('=', text)?;
                write_value(alloc, value, text)
            }
            None => {
                let dotted = self.ty.0.to_text(alloc)?;
                put_all(dotted.as_str(), text)?;
                put('=', text)?;
                write_hexadecimal(value, text)
            }
        }
    }
}

impl<T: InText> InText for Asn1SetOf<T> {
    ghost IsText = { λ s. IsBackwards T.IsText 43 s.0.items };

    ghost IsLong = { λ s. HasOne T.IsLong s.0.items };

    fn write(&self, alloc: Global, text: &mut String) -> Result<(), Error> {
        write_backwards(alloc, self.0.as_slice(), '+', text)
    }
}

impl<T: InText> InText for Asn1SequenceOf<T> {
    ghost IsText = { λ s. IsBackwards T.IsText 44 s.0.items };

    ghost IsLong = { λ s. HasOne T.IsLong s.0.items };

    fn write(&self, alloc: Global, text: &mut String) -> Result<(), Error> {
        write_backwards(alloc, self.0.as_slice(), ',', text)
    }
}

/// The name as text (RFC 4514), its last RelativeDistinguishedName first. `Error::Invalid` where a type without a short
/// name has a group above `u64::MAX`.
pub fn name_text(alloc: Global, name: &Name) -> Result<String, Error>
    ensures { MatchResult result
        (λ text. IsNameText (name_parts name.now) (characters text))
        (IsRefusal (HasOne (HasOne HasLongType) (name_parts name.now))) }
{
    let mut text = String::new(alloc);
    name.0.write(alloc, &mut text)?;
    Ok(text)
}
