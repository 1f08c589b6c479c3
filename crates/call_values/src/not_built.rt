//! Why a call builds nothing.

use asn1_core::Error;

/// Why nothing is built.
pub enum NotBuilt {
    /// The part with that number can't be written.
    Part(usize),
    /// Writing refused it.
    Refused(Error),
}
