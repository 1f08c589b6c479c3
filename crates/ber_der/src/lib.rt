//! BER (ITU-T X.690, 8.1) converted to DER: definite lengths in the fewest octets (10.1), OCTET STRINGs in one piece
//! (10.2). The contents of primitive encodings are kept, and so is the order of all elements.
#![tactic(auto)]

pub mod canonical;
pub mod contexts;
pub mod convert;
pub mod laws;
pub mod lengths;
pub mod typed;

pub use canonical::is_der;
pub use convert::{MAX_NESTING, to_der, to_der_limited, to_der_located, to_der_unambiguous};
pub use laws::{
    a_larger_limit_converts_alike, converting_reaches_an_end, der_stays, each_encoding_has_one_der,
    elements_are_few, octets_stay, what_is_converted_is_der,
    what_is_unambiguous_is_converted_alike,
};
pub use typed::from_ber;
