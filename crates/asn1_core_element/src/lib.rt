//! Elements of DER (ITU-T X.690): what one is, why a reading or a writing is refused, the reader that goes over the
//! elements of an input and counts their headers, and the numbers that the contents of an INTEGER hold.
#![tactic(auto)]

pub mod element;
pub mod error;
pub mod front;
pub mod numbers;
pub mod reader;

pub use error::Error;
pub use numbers::unsigned;
pub use reader::Reader;
