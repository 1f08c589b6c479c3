//! One element, read.

ghost use Rattle.std.specs.Prelude.{◌≡◌, false, MatchResult};
ghost use Rattle.asn1_core_element.specs.Element.{IsTagByte};
ghost use Rattle.asn1_core_element.specs.Reading.{HasReadHeader, RefusedElement, ElementGives, OpenGives};

use crate::error::Error;
use crate::reader::Reader;

/// Reads the header of an element with that tag, whose contents are then left to read.
fn header_of(r: &mut Reader<'_>, tag: u8) -> Result<usize, Error>
    requires sound { r.old.refused ≡ false }
    requires tag { IsTagByte tag }
    ensures { MatchResult result (λ n. HasReadHeader r.old r.new tag n) (λ e. RefusedElement tag r.old r.new e) }
{
    let (found, len) = r.header()?;
    if found != tag {
        return Err(Error::Invalid);
    }
    Ok(len)
}

/// Takes an element with that tag, and answers its contents.
pub fn contents_of<'a>(r: &mut Reader<'a>, tag: u8) -> Result<&'a [u8], Error>
    requires sound { r.old.refused ≡ false }
    requires tag { IsTagByte tag }
    ensures { ElementGives (λ c. c.now) tag r.old r.new result }
{
    let len = header_of(r, tag)?;
    Ok(r.contents(len))
}

/// Enters an element with that tag, and answers where the contents end that were open before.
pub fn open_element(r: &mut Reader<'_>, tag: u8) -> Result<usize, Error>
    requires sound { r.old.refused ≡ false }
    requires tag { IsTagByte tag }
    ensures { OpenGives tag r.old r.new result }
{
    let len = header_of(r, tag)?;
    Ok(r.open(len))
}
