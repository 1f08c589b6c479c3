//! Tables of the names of object identifiers.

ghost use Rattle.std.specs.Prelude.{◌≡◌, ◌↔◌, ℕ, List, map, IsTrue, MatchOption};
ghost use Rattle.oid_names.specs.Tables.{row_value, IsNamed};

/// An object identifier, as its contents octets, and its name.
#[derive(Clone, Copy)]
pub struct NamedOid {
    pub octets: &'static [u8],
    pub name: &'static str,
}

fn is_same(one: &[u8], other: &[u8]) -> bool
    ensures { IsTrue result ↔ (one.now ≡ other.now) }
{
    one == other
}

/// The name of the first row with these octets.
pub fn name_in(rows: &[NamedOid], octets: &[u8]) -> Option<&'static str>
    ensures { MatchOption result
        ((name : List ℕ) → ¬ (IsNamed (map row_value rows.now) octets.now name))
        (λ name. IsNamed (map row_value rows.now) octets.now name.now) }
{
    for row in rows {
        if is_same(row.octets, octets) {
            return Some(row.name);
        }
    }
    None
}
