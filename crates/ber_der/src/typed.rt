//! Values of BER.

ghost use Rattle.asn1_core_format.specs.Whole.{AnswersInput};
ghost use Rattle.ber_der.specs.Der.{IsDer};
ghost use Rattle.ber_der.specs.Typed.{AnswersBer};

use crate::convert::to_der;
use asn1_core_element::Error;
use asn1_core_format::{DerDeserialize, from_bytes};
use std::alloc::Global;

/// The value of the DER of the input, which `to_der` gives. For DER it answers as `from_bytes`.
pub fn from_ber<T: DerDeserialize>(alloc: Global, bytes: &[u8]) -> Result<T, Error>
    ensures ber { AnswersBer T.value T.format bytes.now result }
    ensures der { IsDer 64 bytes.now → AnswersInput T.value T.format 64 bytes.now result }
{
    let der = to_der(alloc, bytes)?;
    from_bytes(alloc, der.as_slice())
}
