//! Enveloped data (RFC 5652, 6) and its recipients, written from parts that a caller has as octets.
#![tactic(auto)]

pub mod enveloped;
mod parts;
pub mod recipients;
mod versions;

pub use enveloped::{Enveloped, EnvelopedPart, NotEnveloped, write_enveloped_data};
pub use recipients::{NotRecipient, Recipient, RecipientName, RecipientPart, write_recipient};
