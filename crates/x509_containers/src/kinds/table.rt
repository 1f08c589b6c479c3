//! What code is made of the tables of kinds.

/// Calls a macro with the table of a layer. An entry is a kind with its word, as `RawPfx = "rawpfx"`, and its type has
/// the name of the kind, as in `Pfx<ParsedAuthenticatedSafeDataRepr> = "pfx"` with its argument.
#[macro_export]
macro_rules! table_of_kinds {
    ($by:ident $arguments:tt $kinds:ident $($kind:ident $(<$argument:ident>)? = $word:literal,)*) => {
        $by! { $arguments $($crate::$kinds::$kind = $word, $crate::$kind $(<$crate::$argument>)?;)* }
    };
}

/// Calls a function at the type of a kind of a layer: `store_kinds!(at_type(kind, check_as, (alloc, input)))`.
#[macro_export]
macro_rules! at_type {
    (($value:expr, $call:ident, $arguments:tt) $($kind:path = $word:literal, $type:ty;)*) => {
        match $value {
            $($kind => $call::<$type> $arguments,)*
        }
    };
}

/// The word of a kind of a layer: `store_kinds!(word_of_kind(kind))`.
macro_rules! word_of_kind {
    (($value:expr) $($kind:path = $word:literal, $type:ty;)*) => {
        match $value {
            $($kind => $word,)*
        }
    };
}

/// The kinds before those of a layer, those, and the kinds of the layers that follow, each with its table before it.
macro_rules! all_kinds {
    (([$($before:tt)*] $layer:ident) $($kind:path = $word:literal, $type:ty;)*) => {
        &[$($before)* $(Kind::$layer($kind),)*]
    };
    (([$($before:tt)*] $layer:ident, $table:ident $($after:tt)*) $($kind:path = $word:literal, $type:ty;)*) => {
        $table!(all_kinds([$($before)* $(Kind::$layer($kind),)*] $($after)*))
    };
}

pub(crate) use all_kinds;
pub(crate) use word_of_kind;
