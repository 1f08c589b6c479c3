//! Tests of what a verifier asks of signed data, and of where parts are in files, by public calls, over files of openssl.
#![tactic(auto)]

#[cfg(test)]
mod certificates_in_place;
#[cfg(test)]
mod contents_in_place;
#[cfg(test)]
mod parts_in_place;
#[cfg(test)]
mod raw_signers;
#[cfg(test)]
mod signers_in_place;
