//! Tests of `ber_der` and `pkcs12_ber` by their public calls, of what no row of `ber_trial` says. Expected values are those
//! of the standards, or of `openssl asn1parse`.
#![tactic(auto)]

#[cfg(test)]
mod conversions;
#[cfg(test)]
mod stores;
