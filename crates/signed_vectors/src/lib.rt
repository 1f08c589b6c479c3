//! Tests of signed and enveloped data by their public calls, of what neither a row nor a contract says: calls that take
//! memory beside reading, writing and cloning, constructors and getters, parts of containers, attributes, signers and
//! recipients. Expected values are those of the standards, or of other tools.
#![tactic(auto)]

#[cfg(test)]
mod attributes;
#[cfg(test)]
mod authenticode;
#[cfg(test)]
mod certificate_heads;
#[cfg(test)]
mod constructors;
#[cfg(test)]
mod contents_as;
#[cfg(test)]
mod parts;
#[cfg(test)]
mod recipients;
#[cfg(test)]
mod signed_parts;
#[cfg(test)]
mod signers;
#[cfg(test)]
mod store_parts;
