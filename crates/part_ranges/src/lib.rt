//! Where an input has all items of a part, in one reading.
#![tactic(auto)]

pub mod attributes;
pub mod certificates;
pub mod envelope_parts;
pub mod enveloped;

pub use attributes::{AttributeSet, attribute_ranges};
pub use certificates::certificate_ranges;
pub use envelope_parts::{EnvelopePart, envelope_ranges};
pub use enveloped::Envelope;
