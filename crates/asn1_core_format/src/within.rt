//! Parts in an element: a SEQUENCE, a SET, an EXPLICIT tag, an OCTET STRING around an encoding.

ghost use Rattle.std.specs.Prelude.{◌≡◌, ℕ, false, true};
ghost use Rattle.asn1_core_element.specs.Element.{IsTagByte, retag};
ghost use Rattle.asn1_core_format.specs.Format.{Gives};
ghost use Rattle.asn1_core_format.specs.Components.{GivesComponents, within};
ghost use Rattle.asn1_core_format.specs.Tagged.{inside};
ghost use Rattle.asn1_core_writers.specs.Texts.{CountsText};

use crate::components::{ReadComponents, WriteComponents};
use asn1_core_element::element::open_element;
use asn1_core_element::{Error, Reader};
use asn1_core_writers::{Measure, WriteError, Writer, put_head};
use std::alloc::Global;

/// Reads an element with that tag, whose contents are the parts.
pub fn read_within<R: ReadComponents>(
    alloc: Global,
    r: &mut Reader<'_>,
    nest: u8,
    tag: u8,
) -> Result<R, Error>
    requires sound { r.old.refused ≡ false }
    requires tag { IsTagByte tag }
    requires tags { R.distinct ≡ true }
    ensures { Gives R.value (within tag R.format) nest r.old r.new result }
{
    let outer = open_element(r, tag)?;
    let components = R::read_components(alloc, r, nest)?;
    r.end(outer)?;
    Ok(components)
}

/// Reads the parts in an element with that tag, whose contents are open.
pub fn read_inside<R: ReadComponents>(
    alloc: Global,
    r: &mut Reader<'_>,
    nest: u8,
    _tag: u8,
) -> Result<R, Error>
    requires sound { r.old.refused ≡ false }
    requires tags { R.distinct ≡ true }
    ensures { GivesComponents R.value (inside _tag (within _tag R.format)) nest r.old r.new result }
{
    R::read_components(alloc, r, nest)
}

/// The length of the encoding of a body.
fn components_len<R: WriteComponents>(components: &R) -> Result<usize, WriteError>
    ensures { CountsText (R.format.text (R.value components.now)) result }
{
    let mut w = Measure::new();
    components.put_components(&mut w)?;
    Ok(w.total())
}

/// Writes an element with that tag, whose contents are the parts. It is also what any other element with these
/// contents becomes under this tag.
#[tactic(auto, using(asn1_core_element::specs::laws::ElementLaws::retag_element))]
pub fn put_within<R: WriteComponents, W: Writer>(
    tag: u8,
    components: &R,
    w: &mut W,
) -> Result<(), WriteError>
    requires { W.MayTake w.old }
    ensures text { W.Takes ((within tag R.format).text (R.value components.now)) w.old w.new result }
    ensures retagged { (own : ℕ) → W.Takes (retag tag ((within own R.format).text (R.value components.now))) w.old w.new result }
{
    put_parts(tag, components, w)
}

/// From the end the contents come before their header, so their length is counted as they are written.
fn put_parts<R: WriteComponents, W: Writer>(
    tag: u8,
    components: &R,
    w: &mut W,
) -> Result<(), WriteError>
    requires { W.MayTake w.old }
    ensures { W.Takes ((within tag R.format).text (R.value components.now)) w.old w.new result }
{
    if W::is_backward() {
        let before = w.count();
        components.put_components(w)?;
        put_head(tag, w.count() - before, w)
    } else {
        let len = components_len(components)?;
        put_head(tag, len, w)?;
        components.put_components(w)
    }
}
