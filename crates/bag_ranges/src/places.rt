//! Where the parts of a store are. The steps to a part are those of its route in `specs/BagRoutes.antt`.

ghost use Rattle.std.specs.Prelude.{[], ◌∷◌};
ghost use Rattle.asn1_located.specs.declared.walks.Step.TheVariants.{Element};
ghost use Rattle.bag_ranges.specs.BagRoutes.{auth_safe_element, bag_value, bags_in, other_element, safe_in_data, store_contents, x509_octets};
ghost use Rattle.bag_ranges.specs.Bags.{key_id_octets};
ghost use Rattle.bag_ranges.specs.Contained.{LeadsIn};
ghost use Rattle.located_rows.specs.Rows.{LeadsTo};

use asn1_located::Step;
use located_rows::range_from;
use std::ops::Range;

/// Where steps lead from the octets of the input in a range. It is empty, and at 0, where they lead nowhere: whoever asks
/// knows that the part is there.
fn part(input: &[u8], place: &Range<usize>, steps: &[Step]) -> Range<usize>
    ensures { LeadsIn steps.now input.now place.now result }
{
    match input.get(place.start..place.end) {
        Some(octets) => range_from(place.start, octets, steps),
        None => 0..0,
    }
}

/// The first element of a range.
pub(crate) fn first_element(input: &[u8], place: &Range<usize>) -> Range<usize>
    ensures { LeadsIn (Element ∷ []) input.now place.now result }
{
    part(input, place, &[Step::Element])
}

/// The element that a bag's value is.
pub(crate) fn element_of_bag(input: &[u8], bag: &Range<usize>) -> Range<usize>
    ensures { LeadsIn bag_value.steps input.now bag.now result }
{
    part(
        input,
        bag,
        &[Step::Inside, Step::After, Step::Element, Step::Inside],
    )
}

/// The octets of an X.509 certificate or revocation list, of a bag that has one.
pub(crate) fn x509_octets(input: &[u8], bag: &Range<usize>) -> Range<usize>
    ensures { LeadsIn (x509_octets 0).steps input.now bag.now result }
{
    part(
        input,
        bag,
        &[
            Step::Inside,
            Step::After,
            Step::Element,
            Step::Inside,
            Step::Inside,
            Step::After,
            Step::Inside,
            Step::Inside,
        ],
    )
}

/// The element of one of another type.
pub(crate) fn other_element(input: &[u8], bag: &Range<usize>) -> Range<usize>
    ensures { LeadsIn (other_element 0).steps input.now bag.now result }
{
    part(
        input,
        bag,
        &[
            Step::Inside,
            Step::After,
            Step::Element,
            Step::Inside,
            Step::Inside,
            Step::After,
            Step::Inside,
        ],
    )
}

/// The octets of the first value of a bag's attribute with an index.
pub(crate) fn attribute_octets(input: &[u8], bag: &Range<usize>, index: usize) -> Range<usize>
    ensures { LeadsIn (key_id_octets index).steps input.now bag.now result }
{
    part(
        input,
        bag,
        &[
            Step::Inside,
            Step::After,
            Step::After,
            Step::Element,
            Step::Inside,
            Step::Nth(index),
            Step::Element,
            Step::Inside,
            Step::After,
            Step::Element,
            Step::Inside,
            Step::Nth(0),
            Step::Element,
            Step::Inside,
        ],
    )
}

/// A bag's attribute with an index.
pub(crate) fn attribute(input: &[u8], bag: &Range<usize>, index: usize) -> Range<usize> {
    part(
        input,
        bag,
        &[
            Step::Inside,
            Step::After,
            Step::After,
            Step::Element,
            Step::Inside,
            Step::Nth(index),
            Step::Element,
        ],
    )
}

/// The bags in a `SafeContents`.
pub(crate) fn bags_in(input: &[u8], safe_contents: &Range<usize>) -> Range<usize>
    ensures { LeadsIn bags_in.steps input.now safe_contents.now result }
{
    part(input, safe_contents, &[Step::Inside])
}

/// The element in a content.
pub(crate) fn element_of_content(input: &[u8], content: &Range<usize>) -> Range<usize> {
    part(
        input,
        content,
        &[Step::Inside, Step::After, Step::Element, Step::Inside],
    )
}

/// The `SafeContents` in data.
pub(crate) fn safe_in_data(input: &[u8], content: &Range<usize>) -> Range<usize>
    ensures { LeadsIn safe_in_data.steps input.now content.now result }
{
    part(
        input,
        content,
        &[
            Step::Inside,
            Step::After,
            Step::Element,
            Step::Inside,
            Step::Inside,
        ],
    )
}

/// `authSafe` of a store.
pub(crate) fn auth_safe(input: &[u8]) -> Range<usize>
    ensures { LeadsTo auth_safe_element.steps 0 input.now result.start result.end }
{
    range_from(0, input, &[Step::Inside, Step::After, Step::Element])
}

/// The octets of the `AuthenticatedSafe` in a store whose `authSafe` is data.
pub(crate) fn safe_octets(input: &[u8]) -> Range<usize> {
    range_from(
        0,
        input,
        &[
            Step::Inside,
            Step::After,
            Step::Element,
            Step::Inside,
            Step::After,
            Step::Inside,
            Step::Inside,
        ],
    )
}

/// Its contents.
pub(crate) fn store_contents(input: &[u8]) -> Range<usize>
    ensures { LeadsTo store_contents.steps 0 input.now result.start result.end }
{
    range_from(
        0,
        input,
        &[
            Step::Inside,
            Step::After,
            Step::Element,
            Step::Inside,
            Step::After,
            Step::Inside,
            Step::Inside,
            Step::Inside,
        ],
    )
}
