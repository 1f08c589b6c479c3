//! Names of object identifiers that people meet in containers and certificates, by their contents octets.
#![tactic(auto)]

mod groups;
pub mod tables;

pub use groups::object_name;
pub use tables::name_in;
