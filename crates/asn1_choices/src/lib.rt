//! Contents that begin with an object identifier, which says what follows it: `SEQUENCE { type OBJECT IDENTIFIER, value
//! ANY DEFINED BY type }` and the like. A choice is a chain of alternatives, each for one object identifier or those of
//! a table, with any body after it; a known object identifier is compared in place in the input, and never kept.
//! `KnownOrRaw` is a choice by tag.
#![tactic(auto)]

mod alternatives;
mod choices;
mod defined_by;
mod known_or_raw;
mod nested;
mod tables;

pub use alternatives::{Alternative, AnyOid, AnyOidRef, Named, OnlyOid};
pub use choices::{Chosen, ReadChoice, WriteChoice};
pub use defined_by::{
    AnyDefinedBy, OidAnd, read_inside_defined_by, read_sequence_defined_by,
    sequences_defined_by_are_lawful,
};
pub use known_or_raw::KnownOrRaw;
pub use nested::read_nested_or;
pub use tables::{Among, OidTable};
