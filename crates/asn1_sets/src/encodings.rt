//! Encodings of values, in the order of DER.

ghost use Rattle.std.specs.Prelude.{◌≡◌, [], ◌∷◌, MatchResult, map};
ghost use Rattle.std.specs.List.{AllByRecursion};
ghost use Rattle.asn1_sets.specs.Encodings.{AreEncodings, HasNoTexts};

use crate::order::put_in_order;
use asn1_borrowed::write;
use asn1_core::prelude::*;
use std::alloc::Global;

/// The encoding of a well-formed value. Refuses what isn't by `Invalid`, and otherwise by `TooLong` or `Memory`.
pub fn encoded<T: DerSerialize>(alloc: Global, value: &T) -> Result<Asn1RawDer, Error>
    ensures { MatchResult result
        (λ x. T.format.IsWellFormed 64 (T.value value.now) × (x.0.items ≡ T.format.text (T.value value.now)))
        (λ e. HasNoTexts T.format (T.format.IsWellFormed 64 (T.value value.now)) (T.value value.now ∷ []) e) }
{
    Ok(Asn1RawDer(write(alloc, value)?))
}

/// The encodings of well-formed values, in the order that DER has them in within a SET OF (X.690, 11.6). Refuses an
/// ill-formed one by `Invalid`, and otherwise by `TooLong` or `Memory`.
pub fn encoded_in_order<T: DerSerialize>(
    alloc: Global,
    values: &[T],
) -> Result<Vec<Asn1RawDer>, Error>
    ensures { MatchResult result
        (λ texts. AreEncodings T.format (map T.value values.now) (map (λ x. x.0.items) texts.items))
        (λ e. HasNoTexts T.format (AllByRecursion (T.format.IsWellFormed 64) (map T.value values.now)) (map T.value values.now) e) }
{
    let mut texts = Vec::new(alloc);
    for value in values {
        texts.push(encoded(alloc, value)?)?;
    }
    put_in_order(texts.as_mut_slice());
    Ok(texts)
}
