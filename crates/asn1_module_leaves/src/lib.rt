//! The universal types that `asn1_core` and `asn1_leaves` have no field for: BOOLEAN without a default, ENUMERATED, NULL,
//! and strings whose characters aren't tested. Crates that are made of ASN.1 modules hold them.
#![tactic(auto)]

pub mod bits;
pub mod constants;
pub mod enumerated;
pub mod kept;
pub mod under;

pub use bits::has_bit;
pub use constants::{BooleanAsn1, NullAsn1};
pub use enumerated::{Enumerated, EnumeratedAsn1, enumerated_from_contents};
pub use kept::{
    KeptAsn1, NumericStringAsn1, PrintableStringAsn1, TeletexStringAsn1, UniversalStringAsn1,
    VisibleStringAsn1,
};
pub use under::Under;
