//! What holds of BER and its DER, for callers to cite. DER is what `is_der` calls so: X.690, 10.1 and 10.2.

ghost use Rattle.std.specs.Prelude.{◌≡◌, ◌<◌, ◌≤◌, ◌+◌, ◌*◌, ◌^◌, ◌++◌, true, ℕ, List, length};
ghost use Rattle.asn1_core_element.specs.Element.{element};
ghost use Rattle.ber_der.specs.Ber.{IsBer, IsUnambiguousBer};
ghost use Rattle.ber_der.specs.Counts.{elements};
ghost use Rattle.ber_der.specs.Der.{IsDer};
ghost use Rattle.ber_der.specs.declared.contexts.Role.TheVariants.{Whole, Segment};

/// An encoding of BER has one DER, and is no proper beginning of another.
pub fn each_encoding_has_one_der()
    ensures { (k : ℕ) (a b d e x : List ℕ) → IsBer k Whole a d → IsBer k Whole b e → a ++ x ≡ b → (a ≡ b) × (d ≡ e) }
{}

/// What an encoding is converted to is DER, that is by X.690, 10.1 and 10.2.
pub fn what_is_converted_is_der()
    ensures { (k : ℕ) (b d : List ℕ) → IsBer k Whole b d → IsDer k d }
{}

/// DER of less than 2^64 octets stays as it is, also where the element that `to_der` joins is refused: DER has none, since
/// that has an indefinite length. An element `[0]` of definite length is kept by both.
pub fn der_stays()
    ensures { (k : ℕ) (b : List ℕ) → length b < 2 ^ 64 → IsDer k b → IsBer k Whole b b × IsUnambiguousBer k Whole b b }
{}

/// A second conversion changes nothing, of DER of less than 2^64 octets.
pub fn converting_reaches_an_end()
    ensures { (k : ℕ) (b d : List ℕ) → length d < 2 ^ 64 → IsBer k Whole b d → IsBer k Whole d d }
{}

/// The octets of an OCTET STRING, in segments or in one piece, are the contents of what it is converted to.
pub fn octets_stay()
    ensures { (k : ℕ) (b octets : List ℕ) → IsBer k Segment b octets → IsBer k Whole b (element 4 octets) }
{}

/// An input without elements of the kind that `to_der` joins, which have two readings and an indefinite length, has the
/// same DER, whether such are joined or refused.
pub fn what_is_unambiguous_is_converted_alike()
    ensures { (k : ℕ) (b d : List ℕ) → IsUnambiguousBer k Whole b d → IsBer k Whole b d }
{}

/// What is converted with at most so many levels of nesting is converted alike with one more.
pub fn a_larger_limit_converts_alike()
    ensures { (k : ℕ) (b d : List ℕ) → IsBer k Whole b d → IsBer (k + 1) Whole b d }
{}

/// An encoding has at most half as many elements as bytes, all that it holds counted.
pub fn elements_are_few()
    ensures { (k : ℕ) (b d : List ℕ) (is : IsBer k Whole b d) → 2 * elements true k Whole b d is ≤ length b }
{}
