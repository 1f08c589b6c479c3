//! The lines that are written in place of an encoding. Each ends in a line feed.

ghost use Rattle.std.specs.Prelude.{◌≡◌, MatchResult};
ghost use Rattle.asn1_core_element.specs.declared.error.Error.TheVariants.{Memory};
ghost use Rattle.der_engine.specs.Lines.{normal_line, loose_line, refusal_line};

use crate::outcome::Mode;
use asn1_core_element::Error;
use std::alloc::Global;

/// The line of an input of so many bytes that is the encoding of its value.
pub(crate) fn normal_line(alloc: Global, input_len: usize) -> Result<Vec<u8>, Error>
    ensures { MatchResult result (λ v. v.items ≡ normal_line input_len) (λ e. e ≡ Memory) }
{
    let line = format!(in alloc; "normal {input_len}\n")?;
    Ok(line.into_bytes())
}

/// The line of an input of so many bytes whose value has another encoding.
pub(crate) fn loose_line(alloc: Global, input_len: usize, text_len: usize) -> Result<Vec<u8>, Error>
    ensures { MatchResult result (λ v. v.items ≡ loose_line input_len text_len) (λ e. e ≡ Memory) }
{
    let line = format!(in alloc; "loose {input_len} -> {text_len}\n")?;
    Ok(line.into_bytes())
}

/// What is written of a refusal: its line in checking, nothing in rewriting.
pub fn refusal(mode: Mode, error: Error) -> &'static str
    ensures { result.now ≡ refusal_line mode error }
{
    match (mode, error) {
        (Mode::Rewrite, _) => "",
        (Mode::Check, Error::Malformed) => "refused: malformed\n",
        (Mode::Check, Error::Missing) => "refused: missing\n",
        (Mode::Check, Error::Invalid) => "refused: invalid\n",
        (Mode::Check, Error::TooDeep) => "refused: too deep\n",
        (Mode::Check, Error::TooLong) => "refused: too long\n",
        (Mode::Check, Error::Memory) => "refused: no memory\n",
    }
}
