//! What Authenticode signs, written from parts that a caller has as octets.
#![tactic(auto)]

pub mod bits;
pub mod data;
mod write;

pub use bits::is_bits;
pub use data::{ImageData, IndirectData, PE_IMAGE};
pub use write::{write_image_data, write_indirect_data};
