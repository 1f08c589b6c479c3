//! All that a new type is made of, for `use asn1_core::prelude::*`: the traits that read and write, the parts of a
//! SEQUENCE, elements around them, and the writers.

pub use crate::{
    Asn1RawDer, Asn1SequenceOf, Asn1SetOf, DefaultFalse, DefaultNumber, Explicit,
    ExplicitContextTag0, ExplicitContextTag1, ExplicitContextTag2, FixedVersion, Implicit,
    ImplicitContextTag0, ImplicitContextTag1, KnownOid, Null, ObjectIdentifierAsn1,
    OctetStringAsn1, OctetStringAsn1Container, Optional, body_of, clone_fields_of, clone_of,
    fields_of, formed_of, put_of, read_fields_of, struct_of, types_of, with_components_of,
};
pub use asn1_core_element::{Error, Reader};
pub use asn1_core_format::{
    Alone, Alternatives, Asn1Type, ComponentVisitor, DefaultType, DerDeserialize, DerSerialize,
    DerTagged, Either, End, EqualByText, HasDefault, Leaf, MAX_NESTING, Maybe, MaybeRef, Omitted,
    OmittedRef, ReadComponents, Ref, Required, Sequence, TaggedType, TryClone, Viewed,
    WriteComponents, is_left_out, put_both, put_within, read_inside, read_leaf, read_leaf_contents,
    read_retagged, read_within,
};
pub use asn1_core_oid::ObjectIdentifier;
pub use asn1_core_writers::{WriteError, Writer, put_element, put_unsigned};
