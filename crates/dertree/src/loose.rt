//! Where a loose input isn't canonical, and why: it is compared, element by element, with the encoding of its value.

use ber_lines::lines::{Line, Opening};
use ber_lines::walk::Walk;
use std::alloc::{AllocError, Global};
use std::fmt;

/// Why an element isn't canonical.
#[derive(Clone, Copy)]
pub enum Cause {
    /// It is an algorithm identifier without parameters, which get NULL.
    AbsentParameters,
    /// It is the parameters of an algorithm that has NULL.
    OtherParameters,
    /// It is an explicit FALSE (X.690, 11.5).
    DefaultFalse,
    /// It is an empty set that is left out.
    EmptySet,
    /// It has no flags, and gets those that are the default.
    AbsentFlags,
    /// None of these.
    Other,
}

impl fmt::Display for Cause {
    fn fmt<W: fmt::Write>(&self, f: &mut fmt::Formatter<W>) -> fmt::Result {
        f.write_str(match self {
            Cause::AbsentParameters => "absent parameters, which are written as 05 00",
            Cause::OtherParameters => "parameters, which are written as 05 00",
            Cause::DefaultFalse => "FALSE, which is the default and isn't written",
            Cause::EmptySet => "an empty set, which isn't written",
            Cause::AbsentFlags => "absent flags, which are written as 03 02 05 80",
            Cause::Other => "written otherwise",
        })
    }
}

/// An element that isn't canonical: where it begins, and why. What is absent is said of the element that lacks it.
#[derive(Clone, Copy)]
pub struct LooseElement {
    pub offset: usize,
    pub cause: Cause,
}

/// How a line of an input, and the next one of the encoding of its value, differ.
#[derive(Clone, Copy)]
enum Change {
    /// They don't, by themselves.
    Same,
    /// The encoding has its line beside those of the input.
    Added(Cause),
    /// It leaves the line of the input out.
    LeftOut(Cause),
    /// It has its line instead.
    Replaced(Cause),
}

/// Whether a line is a whole element.
fn is_element(line: &Line<'_>, tag: u8, contents: &[u8]) -> bool {
    line.front.tag() == Some(tag) && line.contents == contents
}

fn is_null(line: &Line<'_>) -> bool {
    is_element(line, 0x05, &[])
}

fn is_flags(line: &Line<'_>) -> bool {
    is_element(line, 0x03, &[0x05, 0x80])
}

fn is_same(line: &Line<'_>, written: &Line<'_>) -> bool {
    line.depth == written.depth
        && line.front.tag() == written.front.tag()
        && (line.is_open || written.is_open || line.contents == written.contents)
}

/// Why a line of the input is left out.
fn cause_left_out(line: &Line<'_>) -> Cause {
    if is_element(line, 0x01, &[0x00]) {
        Cause::DefaultFalse
    } else if is_element(line, 0xA0, &[]) || is_element(line, 0xA1, &[]) {
        Cause::EmptySet
    } else {
        Cause::Other
    }
}

fn change_of(line: &Line<'_>, written: &Line<'_>) -> Change {
    if is_same(line, written) {
        return Change::Same;
    }
    if is_null(written) {
        return if line.depth == written.depth {
            Change::Replaced(Cause::OtherParameters)
        } else {
            Change::Added(Cause::AbsentParameters)
        };
    }
    if is_flags(written) {
        return Change::Added(Cause::AbsentFlags);
    }
    Change::LeftOut(cause_left_out(line))
}

/// All lines of bytes, where each octet string that is one whole element is open.
fn lines_of<'a>(alloc: Global, bytes: &'a [u8]) -> Result<Vec<Line<'a>>, AllocError> {
    let mut lines = Vec::new(alloc);
    let mut walk = Walk::new(alloc, bytes, Opening::EACH_WHOLE);
    while let Some(line) = walk.next()? {
        lines.push(line)?;
    }
    Ok(lines)
}

/// A comparison of an input with the encoding of its value.
#[derive(Drop)]
struct Comparison {
    /// How many lines of the encoding were found in the input, or put there.
    found: usize,
    /// Where the last line of the input begins, after all that it is in.
    offsets: Vec<usize>,
    /// What lines of the input are in that has others instead, by its depth.
    replaced: Option<usize>,
    /// Whether a difference was found that has none of the causes, after which no more is compared.
    is_lost: bool,
    places: Vec<LooseElement>,
}

impl Comparison {
    fn new(alloc: Global) -> Comparison {
        Comparison {
            found: 0,
            offsets: Vec::new(alloc),
            replaced: None,
            is_lost: false,
            places: Vec::new(alloc),
        }
    }

    /// Notes an element that isn't canonical.
    fn note(&mut self, offset: usize, cause: Cause) -> Result<(), AllocError> {
        self.is_lost = matches!(cause, Cause::Other);
        self.places.push(LooseElement { offset, cause })?;
        Ok(())
    }

    /// Notes the element that lacks a line of the encoding.
    fn note_absent(&mut self, written: &Line<'_>, cause: Cause) -> Result<(), AllocError> {
        let offset = match self.offsets.get(written.depth.saturating_sub(1)) {
            Some(offset) => *offset,
            None => 0,
        };
        self.found = self.found.saturating_add(1);
        self.note(offset, cause)
    }

    /// Keeps where a line begins.
    fn set_offset(&mut self, line: &Line<'_>) -> Result<(), AllocError> {
        self.offsets.truncate(line.depth);
        self.offsets.push(line.offset)?;
        Ok(())
    }

    /// Whether nothing is to be said of a line.
    fn skips(&mut self, line: &Line<'_>) -> bool {
        if let Some(depth) = self.replaced {
            if line.depth > depth {
                return true;
            }
            self.replaced = None;
        }
        self.is_lost
    }

    /// Compares the next line of the input.
    fn compare(&mut self, line: &Line<'_>, encoding: &[Line<'_>]) -> Result<(), AllocError> {
        if self.skips(line) {
            return Ok(());
        }
        for written in encoding.iter().skip(self.found) {
            match change_of(line, written) {
                Change::Added(cause) => self.note_absent(written, cause)?,
                Change::LeftOut(cause) => return self.note(line.offset, cause),
                Change::Replaced(cause) => {
                    self.found = self.found.saturating_add(1);
                    self.replaced = Some(line.depth);
                    return self.note(line.offset, cause);
                }
                Change::Same => {
                    self.found = self.found.saturating_add(1);
                    return self.set_offset(line);
                }
            }
        }
        self.note(line.offset, cause_left_out(line))
    }

    /// Compares what the encoding has beyond the last line of the input.
    fn end(&mut self, encoding: &[Line<'_>]) -> Result<(), AllocError> {
        for written in encoding.iter().skip(self.found) {
            if self.is_lost {
                return Ok(());
            }
            let cause = if is_null(written) {
                Cause::AbsentParameters
            } else if is_flags(written) {
                Cause::AbsentFlags
            } else {
                Cause::Other
            };
            self.note_absent(written, cause)?;
        }
        Ok(())
    }
}

/// The elements of an input that aren't canonical, by the encoding of its value.
pub fn loose_places(
    alloc: Global,
    input: &[u8],
    encoding: &[u8],
) -> Result<Vec<LooseElement>, AllocError> {
    let written = lines_of(alloc, encoding)?;
    let mut comparison = Comparison::new(alloc);
    let mut walk = Walk::new(alloc, input, Opening::EACH_WHOLE);
    while let Some(line) = walk.next()? {
        comparison.compare(&line, written.as_slice())?;
    }
    comparison.end(written.as_slice())?;
    let Comparison { places, .. } = comparison;
    Ok(places)
}
