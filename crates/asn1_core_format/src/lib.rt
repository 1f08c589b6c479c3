//! Formats: what the values of a type are written as and read from, the laws of a type that does both, and the
//! parts of which such types are made. The definitions of formats are in `specs/`, the laws beside them.
#![tactic(auto)]

pub mod components;
pub mod eithers;
pub mod laws;
pub mod leaves;
pub mod lists;
pub mod numbers;
pub mod one_level_down;
pub mod recursive;
pub mod sequences;
pub mod sets;
pub mod tagged;
pub mod tails;
pub mod traits;
pub mod types;
pub mod views;
pub mod visitors;
pub mod whole;
pub mod within;

pub use components::{
    Alone, End, HasDefault, Maybe, MaybeRef, Omitted, OmittedRef, ReadComponents, Required,
    WriteComponents, put_both,
};
pub use eithers::{Alternatives, Either};
pub use leaves::{Leaf, read_leaf, read_leaf_contents};
pub use one_level_down::OneLevelDown;
pub use recursive::{ItemLevel, LevelBelow, SameLevel, read_below_within, read_list_with};
pub use sequences::Sequence;
pub use sets::{SetOrNone, is_left_out, read_set_below_with, read_set_or_none_with, read_set_with};
pub use tagged::{DerTagged, read_retagged};
pub use tails::{ReadComponentsWith, Tail, read_within_with};
pub use traits::{DerDeserialize, DerSerialize, MAX_NESTING, Ref};
pub use types::{Asn1Type, DefaultType, TaggedType};
pub use views::{EqualByText, TryClone, Viewed};
pub use visitors::ComponentVisitor;
pub use whole::{
    from_bytes, from_bytes_counted, from_bytes_limited, from_bytes_located,
    from_bytes_located_limited, to_vec, write_to,
};
pub use within::{put_within, read_inside, read_within};
