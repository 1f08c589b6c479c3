//! Values of the restricted character string types and of BIT STRING (ITU-T X.690, 8.23 and 8.6), each kept as its
//! contents octets.
#![tactic(auto)]

pub mod bit_string;
pub mod bmp_string;
pub mod char_set;
pub mod ia5_string;
pub mod string_error;
pub mod utf8_string;

pub use bit_string::BitString;
pub use bmp_string::{BMPString, BmpString, is_bmp};
pub use char_set::CharSetError;
pub use ia5_string::{IA5String, is_ia5};
pub use string_error::StringError;
pub use utf8_string::{Utf8String, is_utf8};
