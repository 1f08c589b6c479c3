//! Values of a name with what RFC 4514, 2.4, escapes.

ghost use Rattle.std.specs.Prelude.{◌≡◌, ◌++◌, MatchResult};
ghost use Rattle.std.specs.Str.{chars};
ghost use Rattle.asn1_core_element.specs.declared.error.Error.TheVariants.{Memory};
ghost use Rattle.x509_text.specs.Characters.{characters};
ghost use Rattle.x509_text.specs.Escapes.{is_special, is_edge, escaped, escape};

use crate::characters::put;
use asn1_core_element::Error;

/// Whether the character is escaped wherever it is.
fn is_special(character: char) -> bool
    ensures { result ≡ is_special character }
{
    matches!(character, '"' | '+' | ',' | ';' | '<' | '>' | '\\')
}

/// Whether it is escaped as the first or as the last.
fn is_edge(is_first: bool, is_last: bool, character: char) -> bool
    ensures { result ≡ is_edge is_first is_last character }
{
    is_first && (character == ' ' || character == '#') || is_last && character == ' '
}

fn write_character(
    is_first: bool,
    is_last: bool,
    character: char,
    text: &mut String,
) -> Result<(), Error>
    ensures { MatchResult result
        (λ _. characters text.new ≡ characters text.old ++ escaped is_first is_last character)
        (λ e. e ≡ Memory) }
{
    if character == '\0' {
        put('\\', text)?;
        put('0', text)?;
        return put('0', text);
    }
    if is_special(character) || is_edge(is_first, is_last, character) {
        put('\\', text)?;
    }
    put(character, text)
}

/// Appends a value with what is escaped in it.
pub fn write_escaped(value: &str, text: &mut String) -> Result<(), Error>
    ensures { MatchResult result
        (λ _. characters text.new ≡ characters text.old ++ escape (chars value.now))
        (λ e. e ≡ Memory) }
{
    let mut is_first = true;
    let mut rest = value.chars();
    while let Some(character) = rest.next() {
        let is_last = rest.as_str().is_empty();
        write_character(is_first, is_last, character, text)?;
        is_first = false;
    }
    Ok(())
}
