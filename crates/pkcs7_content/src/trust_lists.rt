//! Microsoft's certificate trust lists, typed down to the properties that their attributes give.

pub mod attributes;
pub mod entries;
pub mod policies;
mod properties;
pub mod values;

pub use attributes::CTLEntryAttribute;
pub use entries::{CTLEntry, Ctl};
pub use policies::{CertPolicy, PolicyQualifier, RootProgramChainPolicy};
pub use values::CTLEntryAttributeValues;
