//! Tests of where the bags of PKCS #12 stores, the parameters of passwords and the parts of a caller's own type are, and of
//! bags, stores, and algorithms that encrypt with a password, that are written from their parts, by public calls.
#![tactic(auto)]

#[cfg(test)]
mod bags_in_place;
#[cfg(test)]
mod bags_written;
#[cfg(test)]
mod content_infos;
#[cfg(test)]
mod parcels_in_place;
#[cfg(test)]
mod passwords_in_place;
#[cfg(test)]
mod passwords_written;
#[cfg(test)]
mod stores;
#[cfg(test)]
mod stores_written;
