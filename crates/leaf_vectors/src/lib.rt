//! Tests of `asn1_module_leaves`: each type read, written and cloned, and what it refuses. Encodings are those of
//! X.690, 8.2, 8.4, 8.8 and 8.23.
#![tactic(auto)]

#[cfg(test)]
mod leaves;
