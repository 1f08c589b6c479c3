//! Tests of the library and of the program by their public calls, of what neither a row nor a contract says: calls that
//! take memory beside reading, writing and cloning, room and writes, places and kinds of refusal, words of errors,
//! ill-formed and built values of many levels, failing streams, and a representation of a caller's own. Expected values
//! are those of the standards, or of other tools.
#![tactic(auto)]

#[cfg(test)]
mod bags;
#[cfg(test)]
mod built_signed;
#[cfg(test)]
mod built_stores;
#[cfg(test)]
mod errors;
#[cfg(test)]
mod key_stores;
#[cfg(test)]
mod kinds;
#[cfg(test)]
mod known_algorithms;
#[cfg(test)]
mod large;
#[cfg(test)]
mod levels;
#[cfg(test)]
mod mac_inputs;
#[cfg(test)]
mod moments;
#[cfg(test)]
mod object_identifiers;
#[cfg(test)]
mod octets_repr;
#[cfg(test)]
mod places;
#[cfg(test)]
mod program;
#[cfg(test)]
mod readers;
#[cfg(test)]
mod representations;
#[cfg(test)]
mod runs;
#[cfg(test)]
mod sinks;
#[cfg(test)]
mod spc_strings;
#[cfg(test)]
mod strings;
#[cfg(test)]
mod times;
#[cfg(test)]
mod utf16_names;
#[cfg(test)]
mod values;
