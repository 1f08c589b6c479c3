//! The contents octets of an object identifier.

ghost use Rattle.std.specs.Prelude.{◌≡◌, ◌+◌, ◌++◌, ◌↔◌, map, IsTrue, MatchResult};
ghost use Rattle.std.specs.List.{flat_map};
ghost use Rattle.std.specs.Int.Digits.{digits_of};
ghost use Rattle.asn1_core_oid.specs.Oid.{base128, IsOid};
ghost use Rattle.asn1_core_oid.specs.OidText.{SpellsGroups, HasLongGroup};
ghost use Rattle.asn1_core_oid.specs.Refusal.{IsRefusal};
ghost use Rattle.asn1_core_element.specs.declared.error.Error.TheVariants.{Memory};

use asn1_core_element::Error;
use std::alloc::Global;

/// Whether the bytes are the contents octets of an object identifier (X.690, 8.19.2): one group or more, each in the
/// fewest octets.
pub fn is_oid(octets: &[u8]) -> bool
    ensures { IsTrue result ↔ IsOid octets.now }
{
    let mut inside = false;
    for octet in octets {
        if *octet == 0x80 && !inside {
            return false;
        }
        inside = *octet >= 0x80;
    }
    !octets.is_empty() && !inside
}

/// The numbers of the groups. `Error::Invalid` where one is above `u64::MAX`.
pub(crate) fn read_groups(alloc: Global, octets: &[u8]) -> Result<Vec<u64>, Error>
    requires { IsOid octets.now }
    ensures { MatchResult result
        (λ groups. SpellsGroups octets.now groups.items)
        (IsRefusal (HasLongGroup octets.now)) }
{
    let mut groups = Vec::new(alloc);
    let mut group: u64 = 0;
    for octet in octets {
        // No further digit fits.
        if group > u64::MAX / 128 {
            return Err(Error::Invalid);
        }
        group = group * 128 + u64::from(*octet % 128);
        if *octet < 128 {
            groups.push(group)?;
            group = 0;
        }
    }
    Ok(groups)
}

/// Writes the digits of base 128 that don't end a group.
fn write_leading(n: u64, out: &mut Vec<u8>) -> Result<(), Error>
    ensures { MatchResult result
        (λ _. out.new.items ≡ out.old.items ++ map (λ d. 0x80 + d) (digits_of 128 n))
        (λ e. e ≡ Memory) }
{
    if n == 0 {
        return Ok(());
    }
    write_leading(n / 128, out)?;
    out.push(0x80 + (n % 128) as u8)?;
    Ok(())
}

/// Writes a group.
pub(crate) fn write_group(n: u64, out: &mut Vec<u8>) -> Result<(), Error>
    ensures { MatchResult result (λ _. out.new.items ≡ out.old.items ++ base128 n) (λ e. e ≡ Memory) }
{
    write_leading(n / 128, out)?;
    out.push((n % 128) as u8)?;
    Ok(())
}

/// Writes groups.
pub(crate) fn write_groups(groups: &[u64], out: &mut Vec<u8>) -> Result<(), Error>
    ensures { MatchResult result
        (λ _. out.new.items ≡ out.old.items ++ flat_map base128 groups.now)
        (λ e. e ≡ Memory) }
{
    for group in groups {
        write_group(*group, out)?;
    }
    Ok(())
}
