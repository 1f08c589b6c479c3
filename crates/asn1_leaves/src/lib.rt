//! Leaves of DER, that is primitive types: integers, bit strings, restricted strings and times, each as one element.
#![tactic(auto)]

pub mod bits;
pub mod integers;
pub mod strings;
pub mod times;

pub use asn1_leaves_strings::{
    BMPString, BitString, BmpString, CharSetError, IA5String, StringError, Utf8String,
};
pub use asn1_leaves_times::{GeneralizedTime, UTCTime};
pub use bits::BitStringAsn1;
pub use integers::IntegerAsn1;
pub use strings::{BMPStringAsn1, BmpStringAsn1, IA5StringAsn1, Utf8StringAsn1};
pub use times::{GeneralizedTimeAsn1, UTCTimeAsn1};
