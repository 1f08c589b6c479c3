//! Appending to a text.

ghost use Rattle.std.specs.Prelude.{◌≡◌, ◌++◌, ◌∷◌, [], MatchResult};
ghost use Rattle.std.specs.Str.{chars};
ghost use Rattle.asn1_core_element.specs.declared.error.Error.TheVariants.{Memory};
ghost use Rattle.x509_text.specs.Characters.{characters};

use asn1_core_element::Error;

/// Appends a character.
pub(crate) fn put(character: char, text: &mut String) -> Result<(), Error>
    ensures { MatchResult result (λ _. characters text.new ≡ characters text.old ++ character ∷ []) (λ e. e ≡ Memory) }
{
    text.push(character)?;
    Ok(())
}

/// Appends characters.
pub(crate) fn put_all(added: &str, text: &mut String) -> Result<(), Error>
    ensures { MatchResult result (λ _. characters text.new ≡ characters text.old ++ chars added.now) (λ e. e ≡ Memory) }
{
    text.push_str(added)?;
    Ok(())
}
