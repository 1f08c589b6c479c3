//! The core of DER: elements and their reader, the traits of types that read and write with the laws that they meet,
//! octet strings, numbers, object identifiers, raw elements, and wrappers for every lawful type.
#![tactic(auto)]

pub mod booleans;
pub mod containers;
pub mod defaults;
pub mod explicit;
pub mod implicit;
pub mod lists;
mod macros;
pub mod nulls;
pub mod objects;
pub mod octets;
pub mod prelude;
pub mod raw;
pub mod versions;

pub use asn1_core_element::{Error, Reader};
pub use asn1_core_format::laws::{
    limits_agree, no_accepted_input_begins_another, normal_texts_stay_normal,
    rewriting_reaches_an_end, texts_tell_normal_values,
};
pub use asn1_core_format::{
    DerDeserialize, DerSerialize, DerTagged, EqualByText, MAX_NESTING, TryClone, Viewed,
    from_bytes, from_bytes_counted, from_bytes_limited, from_bytes_located,
    from_bytes_located_limited, to_vec, write_to,
};
pub use asn1_core_oid::ObjectIdentifier;
pub use asn1_core_streams::{
    ReadError, Sink, Source, StdSink, StdSource, WriteFailed, read_all, send,
};
pub use asn1_core_writers::{WriteError, Writer};
pub use booleans::DefaultFalse;
pub use containers::{OctetStringAsn1Container, Optional};
pub use defaults::DefaultNumber;
pub use explicit::{Explicit, ExplicitContextTag0, ExplicitContextTag1, ExplicitContextTag2};
pub use implicit::{Implicit, ImplicitContextTag0, ImplicitContextTag1};
pub use lists::{Asn1SequenceOf, Asn1SetOf};
pub use nulls::Null;
pub use objects::{KnownOid, ObjectIdentifierAsn1, OidRef};
pub use octets::OctetStringAsn1;
pub use raw::Asn1RawDer;
pub use versions::FixedVersion;
