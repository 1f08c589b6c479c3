//! What callers conclude from the laws of the library: each function calls one law, and its contract doesn't follow
//! without it.
#![tactic(auto)]

ghost use Rattle.std.specs.Prelude.{◌≡◌, ℕ, ◌+◌, List, [], ◌++◌, Some};
ghost use Rattle.asn1_core.specs.Der.{raw, element, IsTagByte, set_or_none, needs_level, within};
ghost use Rattle.asn1_choices.specs.DefinedBy.{any_defined_by};
ghost use Rattle.x509_pkcs12.specs.MacOctets.{mac_octets, auth_safe_of, Covers};
ghost use Rattle.x509_pkcs12.specs.Pfxs.{PfxValue, pfx};

use asn1_choices::{AnyDefinedBy, sequences_defined_by_are_lawful};
use asn1_core::DerDeserialize;
use asn1_core_format::laws::{
    limits_agree, no_accepted_input_begins_another, normal_texts_stay_normal,
    rewriting_reaches_an_end, sets_left_out_are_lawful, texts_tell_normal_values,
    types_that_need_a_level_are_lawful,
};
use x509_pkcs12::{
    AuthenticatedSafeDataRepr, mac_octets_stand_in_the_input, mac_octets_stand_in_the_text,
    mac_octets_survive_where_normal, reads_as_the_raw_one,
};

/// What is accepted is refused as soon as anything follows it, so a reader never has to guess where a file ends.
pub fn nothing_follows<T: DerDeserialize>()
    ensures { (k : ℕ) (b x : List ℕ) (u v : T.Value) → T.format.Reads k b u → T.format.Reads k (b ++ x) v → x ≡ [] }
{
    no_accepted_input_begins_another::<T>();
}

/// A normaliser that runs twice writes what it wrote the first time.
pub fn normalising_twice<T: DerDeserialize>()
    ensures { (k : ℕ) (v : T.Value) → T.format.IsWellFormed k v
        → T.format.text (T.format.normal (T.format.normal v)) ≡ T.format.text v }
{
    rewriting_reaches_an_end::<T>();
}

/// Two normal values with the same encoding are equal, so a cache may keep one by its encoding.
pub fn one_value_an_encoding<T: DerDeserialize>()
    ensures { (k : ℕ) (u v : T.Value) → T.format.IsWellFormed k u → T.format.IsWellFormed k v
        → T.format.normal u ≡ u → T.format.normal v ≡ v → T.format.text u ≡ T.format.text v → u ≡ v }
{
    texts_tell_normal_values::<T>();
}

/// What is normal, that is canonical DER, at a nesting limit is so at a limit two levels higher.
pub fn normal_two_levels_higher<T: DerDeserialize>()
    ensures { (k : ℕ) (b : List ℕ) → T.format.IsNormal k b → T.format.IsNormal (k + 1 + 1) b }
{
    normal_texts_stay_normal::<T>();
}

/// Whoever reads with 8 nesting levels and whoever reads with 64 get the same value of what both accept.
pub fn limits_give_one_value<T: DerDeserialize>()
    ensures { (b : List ℕ) (u v : T.Value) → T.format.Reads 8 b u → T.format.Reads 64 b v → v ≡ u }
{
    limits_agree::<T>();
}

/// A type that needs a remaining nesting level has one value for an input.
pub fn types_that_need_a_level_have_one_value<T: DerDeserialize>()
    ensures { (k : ℕ) (b : List ℕ) (u v : T.Value) → (needs_level T.format).Reads k b u → (needs_level T.format).Reads k b v → u ≡ v }
{
    types_that_need_a_level_are_lawful::<T>();
}

/// A body with a set that is left out where it is empty has one value for contents.
pub fn sets_left_out_have_one_value<T: DerDeserialize>(tag: u8)
    requires tag { IsTagByte tag }
    ensures { (k : ℕ) (b : List ℕ) (u v : _) → (set_or_none tag T.format).Reads k b u → (set_or_none tag T.format).Reads k b v → u ≡ v }
{
    sets_left_out_are_lawful::<T>(tag);
}

/// A SEQUENCE whose object identifier says what follows has one value for an input.
pub fn defined_by_has_one_value<P: AnyDefinedBy>()
    ensures { (k : ℕ) (b : List ℕ) (u v : _) → (within 0x30 (any_defined_by P.defined_by)).Reads k b u
        → (within 0x30 (any_defined_by P.defined_by)).Reads k b v → u ≡ v }
{
    sequences_defined_by_are_lawful::<P>();
}

/// What is accepted as a PFX in any representation is accepted as a raw one, with the same version.
pub fn accepted_as_a_raw_one<R: AuthenticatedSafeDataRepr>()
    ensures { (k : ℕ) (b : List ℕ) (v : PfxValue R.Value) → (pfx R.format).Reads k b v
        → (w : PfxValue (List ℕ)) × (pfx raw).Reads k b w × (w.0 ≡ v.0) }
{
    reads_as_the_raw_one::<R>();
}

/// The octets that a MAC covers are in the input, so a verifier hashes its own buffer.
pub fn mac_octets_are_in_the_input()
    ensures { (k : ℕ) (b octets : List ℕ) (w : PfxValue (List ℕ)) → (pfx raw).Reads k b w → mac_octets w ≡ Some octets
        → (version : List ℕ) × (mac : List ℕ) × (b ≡ element 0x30 (version ++ (auth_safe_of octets ++ mac))) }
{
    mac_octets_stand_in_the_input();
}

/// They are in what is written, too.
pub fn mac_octets_are_in_the_encoding()
    ensures { (octets : List ℕ) (w : PfxValue (List ℕ)) → mac_octets w ≡ Some octets
        → (version : List ℕ) × (mac : List ℕ) × ((pfx raw).text w ≡ element 0x30 (version ++ (auth_safe_of octets ++ mac))) }
{
    mac_octets_stand_in_the_text();
}

/// Where the octets that a MAC covers are normal, a PFX that is rewritten keeps its MAC, in every representation.
pub fn normal_octets_keep_their_mac<R: AuthenticatedSafeDataRepr>()
    ensures { (k : ℕ) (b octets : List ℕ) (w : PfxValue (List ℕ)) (v : PfxValue R.Value) → (pfx raw).Reads k b w
        → (pfx R.format).Reads k b v → mac_octets w ≡ Some octets → R.format.IsNormal k octets
        → Covers ((pfx R.format).text v) octets }
{
    mac_octets_survive_where_normal::<R>();
}
