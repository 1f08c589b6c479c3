//! What is alike in the methods of every SEQUENCE.

/// The body of a SEQUENCE over references to its fields: `body_of!(self; id, data, count OPTIONAL)`. A field is
/// followed by `OPTIONAL` where it is an `Option`, and by `DEFAULT` where its type has a default. Any other part is an
/// expression in parentheses, as `(Null)`.
#[macro_export]
macro_rules! body_of {
    ($value:ident;) => { $crate::prelude::End };
    ($value:ident; $field:ident OPTIONAL $(, $($rest:tt)*)?) => {
        $crate::prelude::MaybeRef(&$value.$field, $crate::body_of!($value; $($($rest)*)?))
    };
    ($value:ident; $field:ident DEFAULT $(, $($rest:tt)*)?) => {
        $crate::prelude::OmittedRef(&$value.$field, $crate::body_of!($value; $($($rest)*)?))
    };
    ($value:ident; $field:ident $(, $($rest:tt)*)?) => {
        $crate::prelude::Required($crate::prelude::Ref(&$value.$field), $crate::body_of!($value; $($($rest)*)?))
    };
    ($value:ident; $part:ident($field:ident) DEFAULT $(, $($rest:tt)*)?) => {
        $crate::prelude::Omitted($part($value.$field), $crate::body_of!($value; $($($rest)*)?))
    };
    ($value:ident; ($part:expr) OPTIONAL $(, $($rest:tt)*)?) => {
        $crate::prelude::Maybe($part, $crate::body_of!($value; $($($rest)*)?))
    };
    ($value:ident; (&$part:expr) DEFAULT $(, $($rest:tt)*)?) => {
        $crate::prelude::OmittedRef(&$part, $crate::body_of!($value; $($($rest)*)?))
    };
    ($value:ident; ($part:expr) DEFAULT $(, $($rest:tt)*)?) => {
        $crate::prelude::Omitted($part, $crate::body_of!($value; $($($rest)*)?))
    };
    ($value:ident; ($part:expr) $(, $($rest:tt)*)?) => {
        $crate::prelude::Required($part, $crate::body_of!($value; $($($rest)*)?))
    };
}

/// The parts of a SEQUENCE's body as a pattern, with the words of `body_of`, for a reading that does more than
/// `read_fields_of`: `let fields_of!((Null), count OPTIONAL) = read_within(alloc, r, nest, 0x30)?;`. What isn't a field is a
/// pattern in parentheses.
#[macro_export]
macro_rules! fields_of {
    () => { $crate::prelude::End };
    ($field:ident OPTIONAL $(, $($rest:tt)*)?) => {
        $crate::prelude::Maybe($field, $crate::fields_of!($($($rest)*)?))
    };
    ($field:ident DEFAULT $(, $($rest:tt)*)?) => {
        $crate::prelude::Omitted($field, $crate::fields_of!($($($rest)*)?))
    };
    ($field:ident $(, $($rest:tt)*)?) => {
        $crate::prelude::Required($field, $crate::fields_of!($($($rest)*)?))
    };
    ($part:ident($field:ident) DEFAULT $(, $($rest:tt)*)?) => {
        $crate::prelude::Omitted($part($field), $crate::fields_of!($($($rest)*)?))
    };
    (($part:pat) OPTIONAL $(, $($rest:tt)*)?) => {
        $crate::prelude::Maybe($part, $crate::fields_of!($($($rest)*)?))
    };
    (($part:pat) DEFAULT $(, $($rest:tt)*)?) => {
        $crate::prelude::Omitted($part, $crate::fields_of!($($($rest)*)?))
    };
    (($part:pat) $(, $($rest:tt)*)?) => {
        $crate::prelude::Required($part, $crate::fields_of!($($($rest)*)?))
    };
}

/// Writes a SEQUENCE, as the body of `DerSerialize::put`: `put_of!(self, w; id, data, count OPTIONAL)`, with the parts
/// of `body_of`.
#[macro_export]
macro_rules! put_of {
    ($value:ident, $w:ident; $($parts:tt)*) => {
        $crate::prelude::put_within(0x30, &$crate::body_of!($value; $($parts)*), $w)
    };
}

/// Whether the parts of a SEQUENCE are well-formed, as the body of `DerSerialize::well_formed_at`: `formed_of!(self,
/// limit; id, data, count OPTIONAL)`.
#[macro_export]
macro_rules! formed_of {
    ($value:ident, $limit:ident; $($parts:tt)*) => {
        $crate::body_of!($value; $($parts)*).components_well_formed_at($limit)
    };
}

/// Clones a struct with named fields, as the body of `TryClone::try_clone`: `clone_of!(self, alloc; Attribute { ty,
/// value })`. Fields after a `;` are `Copy`, and are copied.
#[macro_export]
macro_rules! clone_of {
    ($value:ident, $alloc:ident; $type:ident { $($field:ident),* $(; $($copied:ident),*)? }) => {
        Ok($type {
            $($field: $value.$field.try_clone($alloc)?,)*
            $($($copied: $value.$copied,)*)?
        })
    };
}

/// Hands the components of a SEQUENCE to a visitor, as the body of `Sequence::with_components`:
/// `with_components_of!(self, visitor; Stamp { id, data, count OPTIONAL })`. A field that is a part in a type of its
/// own is in that type's parentheses, as `DefaultFalse(critical) DEFAULT`.
///
/// `with_components_of`, `read_fields_of` and `clone_fields_of` take the same list, so a table can give it to all three: `macro_rules! stamp {
/// ($by:ident($($by_what:ident),*)) => { $by!($($by_what),*; Stamp { id, data, count OPTIONAL }) }; }`, with bodies such
/// as `stamp!(with_components_of(self, visitor))`.
#[macro_export]
macro_rules! with_components_of {
    ($value:ident, $visitor:ident; $type:ident { $($parts:tt)* }) => {
        $visitor.visit(&$crate::body_of!($value; $($parts)*))
    };
}

/// Reads the parts of a SEQUENCE, as the body of `Sequence::read_fields`: `read_fields_of!(alloc, r, nest; Stamp { id, data,
/// count OPTIONAL })`.
#[macro_export]
macro_rules! read_fields_of {
    ($alloc:ident, $r:ident, $nest:ident; $type:ident { $($parts:tt)* }) => {{
        let $crate::fields_of!($($parts)*): $crate::types_of!($($parts)*) = $crate::prelude::ReadComponents::read_components($alloc, $r, $nest)?;
        Ok($crate::struct_of!($type; ; $($parts)*))
    }};
}

/// The types of the parts that `read_fields_of` reads, as far as the words say them.
#[macro_export]
macro_rules! types_of {
    () => { $crate::prelude::End };
    ($part:ident($field:ident) DEFAULT $(, $($rest:tt)*)?) => {
        $crate::prelude::Omitted<$part, $crate::types_of!($($($rest)*)?)>
    };
    ($field:ident OPTIONAL $(, $($rest:tt)*)?) => {
        $crate::prelude::Maybe<_, $crate::types_of!($($($rest)*)?)>
    };
    ($field:ident DEFAULT $(, $($rest:tt)*)?) => {
        $crate::prelude::Omitted<_, $crate::types_of!($($($rest)*)?)>
    };
    ($field:ident $(, $($rest:tt)*)?) => {
        $crate::prelude::Required<_, $crate::types_of!($($($rest)*)?)>
    };
}

/// The struct that `read_fields_of` makes, field by field.
#[macro_export]
macro_rules! struct_of {
    ($type:ident; $($field:ident)*;) => { $type { $($field),* } };
    ($type:ident; $($done:ident)*; $part:ident($field:ident) $word:ident $(, $($rest:tt)*)?) => {
        $crate::struct_of!($type; $($done)* $field; $($($rest)*)?)
    };
    ($type:ident; $($done:ident)*; $field:ident $($word:ident)? $(, $($rest:tt)*)?) => {
        $crate::struct_of!($type; $($done)* $field; $($($rest)*)?)
    };
}

/// Clones the parts of a SEQUENCE, as the body of `Sequence::clone_fields`: `clone_fields_of!(self, alloc; Stamp { id, data,
/// count OPTIONAL })`. A field that is a part in a type of its own is copied.
#[macro_export]
macro_rules! clone_fields_of {
    (@ $value:ident $alloc:ident $type:ident [$($made:tt)*]) => { Ok($type { $($made)* }) };
    (@ $value:ident $alloc:ident $type:ident [$($made:tt)*] $part:ident($field:ident) $word:ident $(, $($rest:tt)*)?) => {
        $crate::clone_fields_of!(@ $value $alloc $type [$($made)* $field: $value.$field,] $($($rest)*)?)
    };
    (@ $value:ident $alloc:ident $type:ident [$($made:tt)*] $field:ident $($word:ident)? $(, $($rest:tt)*)?) => {
        $crate::clone_fields_of!(@ $value $alloc $type [$($made)* $field: $value.$field.try_clone($alloc)?,] $($($rest)*)?)
    };
    ($value:ident, $alloc:ident; $type:ident { $($parts:tt)* }) => {
        $crate::clone_fields_of!(@ $value $alloc $type [] $($parts)*)
    };
}
