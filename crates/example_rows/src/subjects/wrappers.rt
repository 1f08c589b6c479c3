//! Lists, tags and containers, whose words name what is in them too, and types of a caller's own, written in each way.
//! These are no kinds of `derbox`.

use crate::checks::{
    check_in_each_way as in_each_way, check_row as at, check_under_tags as under_tags,
};
use crate::rows::Row;
use example_stamp::Stamp;
use example_stamp::labels::Label;
use example_stamp::parcels::Parcel;
use example_ticket::{Holder, Ticket};
use std::alloc::Global;
use std::test::Fail;
use x509_containers::{
    Asn1RawDer, Asn1SequenceOf, Asn1SetOf, ExplicitContextTag0, ExplicitContextTag1,
    ExplicitContextTag2, ImplicitContextTag0, ImplicitContextTag1, ObjectIdentifierAsn1,
    OctetStringAsn1, OctetStringAsn1Container,
};

type TaggedSets = Asn1SequenceOf<ExplicitContextTag0<Asn1SetOf<OctetStringAsn1>>>;

type TaggedNumbers = Asn1SequenceOf<ExplicitContextTag1<u8>>;

type ContainedNumbers = OctetStringAsn1Container<Asn1SequenceOf<u8>>;

/// What comes of a row, where the word names one of the lists and containers.
pub fn check_list(alloc: Global, word: &str, row: &Row) -> Option<Result<(), Fail>> {
    Some(match word {
        "asn1sequenceof-asn1rawder" => under_tags::<Asn1SequenceOf<Asn1RawDer>>(alloc, row),
        "asn1sequenceof-explicitcontexttag0-asn1setof-octetstringasn1" => {
            under_tags::<TaggedSets>(alloc, row)
        }
        "asn1sequenceof-explicitcontexttag1-u8" => under_tags::<TaggedNumbers>(alloc, row),
        "asn1sequenceof-octetstringasn1" => in_each_way::<Asn1SequenceOf<OctetStringAsn1>>(
            alloc, row,
        ),
        "asn1sequenceof-u8" => under_tags::<Asn1SequenceOf<u8>>(alloc, row),
        "asn1setof-u8" => under_tags::<Asn1SetOf<u8>>(alloc, row),
        "octetstringasn1container-asn1sequenceof-u8" => in_each_way::<ContainedNumbers>(alloc, row),
        "octetstringasn1container-octetstringasn1" => {
            in_each_way::<OctetStringAsn1Container<OctetStringAsn1>>(alloc, row)
        }
        "octetstringasn1container-u8" => in_each_way::<OctetStringAsn1Container<u8>>(alloc, row),
        "holder" => in_each_way::<Holder>(alloc, row),
        "label" => in_each_way::<Label>(alloc, row),
        "parcel" => in_each_way::<Parcel>(alloc, row),
        "stamp" => in_each_way::<Stamp>(alloc, row),
        "ticket" => in_each_way::<Ticket>(alloc, row),
        _ => return None,
    })
}

/// What comes of a row, where the word names one of the tags.
pub fn check_tag(alloc: Global, word: &str, row: &Row) -> Option<Result<(), Fail>> {
    Some(match word {
        "explicitcontexttag0-asn1rawder" => at::<ExplicitContextTag0<Asn1RawDer>>(alloc, row),
        "explicitcontexttag0-octetstringasn1" => {
            at::<ExplicitContextTag0<OctetStringAsn1>>(alloc, row)
        }
        "explicitcontexttag0-u8" => at::<ExplicitContextTag0<u8>>(alloc, row),
        "explicitcontexttag1-u8" => at::<ExplicitContextTag1<u8>>(alloc, row),
        "explicitcontexttag2-u8" => at::<ExplicitContextTag2<u8>>(alloc, row),
        "implicitcontexttag0-asn1sequenceof-u8" => {
            at::<ImplicitContextTag0<Asn1SequenceOf<u8>>>(alloc, row)
        }
        "implicitcontexttag0-objectidentifierasn1" => {
            at::<ImplicitContextTag0<ObjectIdentifierAsn1>>(alloc, row)
        }
        "implicitcontexttag0-u32" => at::<ImplicitContextTag0<u32>>(alloc, row),
        "implicitcontexttag1-asn1setof-u8" => {
            at::<ImplicitContextTag1<Asn1SetOf<u8>>>(alloc, row)
        }
        "implicitcontexttag1-octetstringasn1" => {
            at::<ImplicitContextTag1<OctetStringAsn1>>(alloc, row)
        }
        _ => return None,
    })
}
