//! Text for people: names, object identifiers and integers.
#![tactic(auto)]

pub mod attribute_types;
mod characters;
mod encodings;
mod escapes;
pub mod integers;
pub mod laws;
mod names;
mod values;

pub use attribute_types::short_name;
pub use encodings::{encoded_name_text, oid_text};
pub use escapes::write_escaped;
pub use integers::{MAX_INTEGER_OCTETS, integer_text};
pub use names::name_text;
pub use values::{string_of, write_value};
