//! The types of Forms, made of `forms.asn1`; not to be edited.
#![tactic(auto)]

pub mod forms;

pub use forms::{Head, Message, Sender, State};
