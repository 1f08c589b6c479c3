//! Tests of signed data, signed attributes, indirect data and enveloped data that are written from their parts, by
//! public calls.
#![tactic(auto)]

#[cfg(test)]
mod attributes;
#[cfg(test)]
mod enveloped;
#[cfg(test)]
mod files;
#[cfg(test)]
mod files_written;
#[cfg(test)]
mod given;
#[cfg(test)]
mod indirect;
#[cfg(test)]
mod parts;
#[cfg(test)]
mod refused_parts;
#[cfg(test)]
mod refused_signers;
#[cfg(test)]
mod versions;
