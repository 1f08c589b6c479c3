//! Algorithms that are given with their parameters as an element.

ghost use Rattle.std.specs.Prelude.{MatchResult};
ghost use Rattle.password_writers.specs.Values.{other_value};
ghost use Rattle.call_values.specs.Given.{HasNone};
ghost use Rattle.password_calls.specs.Others.{IsOtherOf, IsWrongOther};

use call_values::given::{element_if, oid_of};
use call_values::ranges::Octets;
use password_writers::Other;

/// An algorithm with its parameters as an element, or without any where the flag is 0. Each part comes with its number.
pub fn other_of<'a>(
    input: &'a [u8],
    algorithm: (Octets, usize),
    has_parameters: usize,
    parameters: (Octets, usize),
) -> Result<Other<'a>, usize>
    ensures { MatchResult result
        (λ x. IsOtherOf input.now algorithm.0 has_parameters parameters.0 (other_value x))
        (λ n. IsWrongOther input.now algorithm.0 algorithm.1 has_parameters parameters.0 parameters.1 n
        × HasNone (IsOtherOf input.now algorithm.0 has_parameters parameters.0)) }
{
    let oid = oid_of(input, algorithm.0, algorithm.1)?;
    let element = element_if(input, has_parameters, parameters.0, parameters.1)?;
    Ok(Other {
        algorithm: oid,
        parameters: element,
    })
}
