//! Values as `==` and clones see them.

ghost use Rattle.std.specs.Prelude.{◌≡◌, ◌↔◌, ℕ, List, Option, map, IsTrue};
ghost use Rattle.std.proofs.Common.{rules};
ghost use Rattle.asn1_core_format.specs.Components.{option_value};
ghost use Rattle.asn1_core_format.specs.Views.{SeesEqual, Clones};
ghost use Rattle.asn1_core_format.specs.laws.Views.{list_equal, option_equal};

use crate::traits::DerSerialize;
use asn1_core_element::Error;
use std::alloc::Global;

/// A type whose `==` is equality of what it contains. A type with an encoding has it by `EqualByText`.
pub trait Viewed: PartialEq {
    /// What a value contains, and not where it lies in memory.
    ghost View: { Type 0 };

    ghost view: { Self → View };

    ghost equal: { SeesEqual Self.PartialEq.eq view };
}

/// A type with an encoding whose `==` is equality of the values that encodings are of. So `==` and clones can't keep
/// less than the encoding says. No trait that reads or writes asks for it.
pub trait EqualByText: DerSerialize + PartialEq {
    ghost equal_by_text: { SeesEqual Self.PartialEq.eq Self.DerSerialize.value };
}

impl<T: EqualByText> Viewed for T {
    ghost View = { T.DerSerialize.Value };

    ghost view = { T.DerSerialize.value };

    ghost equal = { T.equal_by_text };
}

/// A clone that takes memory.
pub trait TryClone: Viewed + Drop {
    /// A value that equals `self`. Refuses by `Memory` alone.
    fn try_clone(&self, alloc: Global) -> Result<Self, Error>
        ensures { Clones Self.view self.now result };
}

impl EqualByText for u8 {
    ghost equal_by_text = { Prim.search rules };
}

impl TryClone for u8 {
    fn try_clone(&self, _alloc: Global) -> Result<Self, Error> {
        Ok(*self)
    }
}

impl EqualByText for u32 {
    ghost equal_by_text = { Prim.search rules };
}

impl TryClone for u32 {
    fn try_clone(&self, _alloc: Global) -> Result<Self, Error> {
        Ok(*self)
    }
}

impl<T: Viewed> Viewed for Vec<T> {
    ghost View = { List T.View };

    ghost view = { λ v. map T.view v.items };

    ghost equal = { λ x y. list_equal T.eq T.view T.equal x.items y.items };
}

impl<T: TryClone> TryClone for Vec<T> {
    fn try_clone(&self, alloc: Global) -> Result<Self, Error> {
        let mut items = Vec::with_capacity(alloc, self.len())?;
        for item in self {
            items.push(item.try_clone(alloc)?)?;
        }
        Ok(items)
    }
}

impl<T: Viewed> Viewed for Option<T> {
    ghost View = { Option T.View };

    ghost view = { option_value T.view };

    ghost equal = { option_equal T.eq T.view T.equal };
}

impl<T: TryClone> TryClone for Option<T> {
    #[inline(always)]
    fn try_clone(&self, alloc: Global) -> Result<Self, Error> {
        match self {
            Some(value) => Ok(Some(value.try_clone(alloc)?)),
            None => Ok(None),
        }
    }
}

/// Whether two values contain the same: `==` tells.
pub fn is_same<T: Viewed>(a: &T, b: &T) -> bool
    ensures { IsTrue result ↔ (T.view a.now ≡ T.view b.now) }
{
    a == b
}
