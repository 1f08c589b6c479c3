//! Parts in memory of their own: while a signer a level down is read, they take a pointer of the stack.

ghost use Rattle.std.specs.Prelude.{◌≡◌, map, MatchResult};
ghost use Rattle.asn1_core_element.specs.declared.error.Error.TheVariants.{Memory};

use asn1_core::prelude::*;
use std::alloc::Global;

/// A value in memory of its own.
pub(crate) struct Boxed<T>(pub Box<T>);

/// It isn't inlined, since it takes the value out of its memory, onto the stack.
impl<T: Drop> Drop for Boxed<T> {
    #[inline(never)]
    fn drop(self) {
        let Boxed(_) = self;
    }
}

impl<T: DerSerialize> DerSerialize for Boxed<T> {
    ghost Value = { T.Value };

    ghost value = { λ x. T.value x.0.value };

    ghost format = { T.format };

    fn put<W: Writer>(&self, w: &mut W) -> Result<(), WriteError> {
        self.0.as_ref().put(w)
    }

    fn well_formed_at(&self, limit: u8) -> bool {
        self.0.as_ref().well_formed_at(limit)
    }
}

impl<T: DerDeserialize> DerDeserialize for Boxed<T> {
    #[inline(never)]
    fn read(alloc: Global, r: &mut Reader<'_>, nest: u8) -> Result<Self, Error> {
        let value = T::read(alloc, r, nest)?;
        let value = in_box(alloc, value)?;
        Ok(value)
    }

    fn begins(tag: u8) -> bool {
        T::begins(tag)
    }

    ghost lawful = { T.lawful };
}

/// The value in memory of its own. Refuses by `Memory` alone. It isn't inlined, so that the stack holds the value once
/// while it is read.
#[inline(never)]
pub(crate) fn in_box<T: Drop>(alloc: Global, value: T) -> Result<Boxed<T>, Error>
    ensures { MatchResult result (λ b. b.0.value ≡ value) (λ e. e ≡ Memory) }
{
    let room = Box::new(alloc, value)?;
    Ok(Boxed(room))
}

impl<T> Boxed<T> {
    /// The value.
    #[inline(never)]
    pub(crate) fn open(self) -> T
        ensures { result ≡ self.0.value }
    {
        Box::into_inner(self.room())
    }

    /// The memory that holds the value.
    fn room(self) -> Box<T>
        ensures { result.value ≡ self.0.value }
    {
        let Boxed(room) = self;
        room
    }
}

/// The values of a list, out of their boxes. Refuses by `Memory` alone.
#[inline(never)]
pub(crate) fn opened<T: DerSerialize + Drop>(
    alloc: Global,
    boxes: Vec<Boxed<T>>,
) -> Result<Vec<T>, Error>
    ensures { MatchResult result
        (λ v. map T.value v.items ≡ map (λ b. T.value b.0.value) boxes.items)
        (λ e. e ≡ Memory) }
{
    let mut items = Vec::with_capacity(alloc, boxes.len())?;
    for item in boxes {
        items.push(Box::into_inner(item.room()))?;
    }
    Ok(items)
}
