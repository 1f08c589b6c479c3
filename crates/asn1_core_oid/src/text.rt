//! Arcs in decimal.

ghost use Rattle.std.specs.Prelude.{◌≡◌, ◌≢◌, ℕ, ◌+◌, ◌*◌, ◌^◌, ◌<◌, ◌≤◌, List, [], ◌∷◌, ◌++◌, string_bytes, MatchOption, MatchResult};
ghost use Rattle.asn1_core_element.specs.declared.error.Error.TheVariants.{Memory};
ghost use Rattle.std.specs.List.{flat_map};
ghost use Rattle.std.specs.Fmt.{decimal};
ghost use Rattle.std.specs.Option.{SomeIff};
ghost use Rattle.asn1_core_oid.specs.OidText.{IsArcs, SpellsArcs, dotted};
ghost use Rattle.asn1_core_oid.specs.Refusal.{IsRefusal};

use asn1_core_element::Error;
use std::alloc::Global;
use std::fmt::Write;

/// The number that a numeral spells. `None` where it has a leading zero or a sign, or where the number is above
/// `u64::MAX`.
fn read_arc(numeral: &str) -> Option<u64>
    ensures { MatchOption result
        ((n : ℕ) → n < 2 ^ 64 → numeral.now ≢ decimal n)
        (λ n. (n < 2 ^ 64) × (numeral.now ≡ decimal n)) }
{
    if numeral.starts_with('0') {
        return if numeral.len() == 1 { Some(0) } else { None };
    }
    if numeral.starts_with('+') {
        return None;
    }
    numeral.parse().ok()
}

/// The arcs that a text spells.
pub(crate) fn read_arcs(alloc: Global, text: &str) -> Result<Vec<u64>, Error>
    ensures { MatchResult result
        (λ arcs. SpellsArcs text.now arcs.items)
        (IsRefusal ((arcs : List ℕ) → ¬ (SpellsArcs text.now arcs))) }
{
    let mut arcs = Vec::new(alloc);
    for numeral in text.split('.') {
        arcs.push(read_arc(numeral).ok_or(Error::Invalid)?)?;
    }
    Ok(arcs)
}

/// The group that the first two arcs share. `None` where no object identifier begins with them, or where the
/// group is above `u64::MAX`.
pub(crate) fn first_group(first: u64, second: u64) -> Option<u64>
    ensures { SomeIff result
        ((first ≤ 2) × (first < 2 → second < 40) × (40 * first + second < 2 ^ 64))
        (40 * first + second) }
{
    if first > 2 || first < 2 && second >= 40 {
        return None;
    }
    (40 * first).checked_add(second)
}

/// The first two arcs, from the group that they share.
pub(crate) fn first_arcs(group: u64) -> (u64, u64)
    ensures { IsArcs (result.0 ∷ result.1 ∷ []) × (group ≡ 40 * result.0 + result.1) }
{
    let first = (group / 40).min(2);
    (first, group - 40 * first)
}

/// Appends arcs to others, each after a dot.
pub(crate) fn write_arcs(arcs: &[u64], text: &mut String) -> Result<(), Error>
    ensures { MatchResult result
        (λ _. string_bytes text.new ≡ string_bytes text.old ++ flat_map dotted arcs.now)
        (λ e. e ≡ Memory) }
{
    for arc in arcs {
        write!(text, ".{arc}")?;
    }
    Ok(())
}
