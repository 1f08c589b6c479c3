//! What holds of every type that reads and writes.

ghost use Rattle.std.specs.Prelude.{◌≡◌, ◌↔◌, ◌+◌, ◌≤◌, ℕ, List, [], ◌++◌};
ghost use Rattle.asn1_core_element.specs.Element.{IsTagByte};
ghost use Rattle.asn1_core_format.specs.EmptySets.{set_or_none};
ghost use Rattle.asn1_core_format.specs.Format.{IsLawful, IsLawfulComponents};
ghost use Rattle.asn1_core_format.specs.NeedsLevel.{needs_level};
ghost use Rattle.asn1_core_format.specs.Nexts.{IsSameAt};

use crate::traits::DerDeserialize;

/// No accepted input is a proper beginning of another, and each has one value.
pub fn no_accepted_input_begins_another<T: DerDeserialize>()
    ensures { (k : ℕ) (a b x : List ℕ) (u v : T.Value) → T.format.Reads k a u → T.format.Reads k b v
        → a ++ x ≡ b → (a ≡ b) × (x ≡ []) × (u ≡ v) }
{}

/// After one rewriting a second changes nothing.
pub fn rewriting_reaches_an_end<T: DerDeserialize>()
    ensures { (k : ℕ) (v : T.Value) → T.format.IsWellFormed k v
        → (T.format.text (T.format.normal v) ≡ T.format.text v) × (T.format.normal (T.format.normal v) ≡ T.format.normal v) }
{}

/// Two well-formed values have the same encoding exactly where their normal values are the same.
pub fn texts_tell_normal_values<T: DerDeserialize>()
    ensures { (k : ℕ) (u v : T.Value) → T.format.IsWellFormed k u → T.format.IsWellFormed k v
        → (T.format.text u ≡ T.format.text v) ↔ (T.format.normal u ≡ T.format.normal v) }
{}

/// What is canonical (normal) with nesting of at most so many levels is so with one more.
pub fn normal_texts_stay_normal<T: DerDeserialize>()
    ensures { (k : ℕ) (b : List ℕ) → T.format.IsNormal k b → T.format.IsNormal (k + 1) b }
{}

/// What is read at one limit of nesting is read at every larger one, as the same value alone, and is normal there
/// exactly where it is normal at that limit.
pub fn limits_agree<T: DerDeserialize>()
    ensures { (k j : ℕ) (b : List ℕ) (v : T.Value) → k ≤ j → T.format.Reads k b v → IsSameAt T.format k j b v }
{}

/// A type that needs a nesting level to be left is lawful, as the type that it is made of is.
pub fn types_that_need_a_level_are_lawful<T: DerDeserialize>()
    ensures { IsLawful (needs_level T.format) }
{}

/// A set at the end of contents, left out where it is empty, is lawful, under each tag.
pub fn sets_left_out_are_lawful<T: DerDeserialize>(_tag: u8)
    requires tag { IsTagByte _tag }
    ensures { IsLawfulComponents (set_or_none _tag T.format) }
{}
