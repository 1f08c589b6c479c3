//! What is said of an input that is accepted.

ghost use Rattle.std.specs.Prelude.{◌≡◌};
ghost use Rattle.der_engine.specs.Verdicts.{check_of, end_of};

use asn1_core_element::Error;

/// What an accepted input is.
#[derive(Clone, Copy, Debug, PartialEq, Eq)]
pub struct Verdict {
    /// Where the end begins that the input and the encoding of its value have in common, in a loose input; `None` in a
    /// normal one, which is the encoding itself.
    pub loose_end: Option<usize>,
    /// How many bytes the encoding of its value has.
    pub encoding_len: usize,
}

/// Whether the input is normal, and the length of its encoding, without the places.
pub(crate) fn check_of(located: Result<Verdict, (Error, usize)>) -> Result<(bool, usize), Error>
    ensures { result ≡ check_of located }
{
    match located {
        Ok(verdict) => Ok((verdict.loose_end.is_none(), verdict.encoding_len)),
        Err((error, _)) => Err(error),
    }
}

/// Where the input is loose.
pub(crate) fn end_of(located: Result<Verdict, (Error, usize)>) -> Result<Option<usize>, Error>
    ensures { result ≡ end_of located }
{
    match located {
        Ok(verdict) => Ok(verdict.loose_end),
        Err((error, _)) => Err(error),
    }
}
