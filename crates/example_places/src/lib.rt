//! Where parts of a caller's own type are in an input: docs/ARCHITECTURE.md explains how to find one.
#![tactic(auto)]

ghost use Rattle.asn1_core.specs.Asn1.{SEQUENCE};
ghost use Rattle.asn1_core.specs.Der.{IsValueOf};
ghost use Rattle.asn1_located.specs.Places.{Locates};
ghost use Rattle.example_places.specs.ParcelRoutes.{data_of_stamp, note};
ghost use Rattle.example_stamp.specs.Parcels.{parcel};

use asn1_located::{Place, Step, walk};

/// The octets of the note in an encoding of a `Parcel` that has one.
pub fn note(input: &[u8]) -> Option<Place<'_>>
    ensures { (v : parcel.Value) → IsValueOf (SEQUENCE parcel).format 64 input.now v → Locates note 64 input.now v result }
{
    walk(
        0,
        input,
        &[
            Step::Inside,
            Step::After,
            Step::Past(0x01),
            Step::Past(0x02),
            Step::Element,
            Step::Inside,
            Step::Inside,
        ],
    )
}

/// The octets of the data of a stamp, in an encoding of a `Parcel` that has a stamp with that index.
pub fn data_of_stamp(input: &[u8], index: usize) -> Option<Place<'_>>
    ensures { (v : parcel.Value) → IsValueOf (SEQUENCE parcel).format 64 input.now v → Locates (data_of_stamp index) 64 input.now v result }
{
    walk(
        0,
        input,
        &[
            Step::Inside,
            Step::After,
            Step::Past(0x01),
            Step::Past(0x02),
            Step::Past(0xBE),
            Step::Element,
            Step::Inside,
            Step::Nth(index),
            Step::Element,
            Step::Inside,
            Step::After,
            Step::Element,
            Step::Inside,
        ],
    )
}
