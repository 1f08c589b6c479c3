//! A tree, written line by line.

use crate::loose::LooseElement;
use crate::names::Names;
use crate::values::{octets_text, value_text};
use crate::verdict::Verdict;
use ber_der::contexts::Role;
use ber_lines::lines::{Front, Line, Opening};
use ber_lines::tags::Tag;
use ber_lines::walk::{Step, Walk};
use std::alloc::Global;
use std::io::{self, Write};

/// Lines of deeper elements aren't indented further.
const DEEPEST_INDENT: usize = 32;

/// What is said of an input, and of which place in it.
#[derive(Clone, Copy)]
pub struct Mark {
    pub verdict: Verdict,
    pub place: usize,
}

/// Writes the tag, the length, and what of the element only BER allows (X.690, 8.1.3, 8.7.3).
fn write_tag<W: Write>(w: &mut W, tag: u8, line: &Line<'_>) -> io::Result<()> {
    let (tag, len, header_len) = (Tag(tag), line.contents.len(), line.header_len);
    match line.front {
        Front::Indefinite(_) => write!(w, "{tag}, indefinite length")?,
        Front::Longer(_) => write!(
            w,
            "{tag} {len}, length in {} octets",
            header_len.saturating_sub(1)
        )?,
        _ => write!(w, "{tag} {len}")?,
    }
    if line.role == Role::Segment {
        w.write_all(b", segment")?;
    }
    Ok(())
}

fn write_line<W: Write>(alloc: Global, w: &mut W, line: &Line<'_>) -> io::Result<()> {
    let (offset, depth, len) = (line.offset, line.depth, line.contents.len());
    write!(w, "{offset:>7} {depth:>3} ")?;
    for _ in 0..depth.min(DEEPEST_INDENT) {
        w.write_all(b"  ")?;
    }
    let Some(tag) = line.front.tag() else {
        if line.front.is_end() {
            return w.write_all(b"end of contents");
        }
        if line.front.is_missing_end() {
            return w.write_all(b"missing end of contents");
        }
        let octets = octets_text(alloc, line.contents)?;
        let bytes = if len == 1 {
            "byte that is"
        } else {
            "bytes that are"
        };
        return write!(w, "{len} {bytes} no element: {octets}");
    };
    write_tag(w, tag, line)?;
    if !line.is_open {
        let value = value_text(alloc, tag, line.contents)?;
        if !value.is_empty() {
            write!(w, ": {value}")?;
        }
    }
    Ok(())
}

/// Writes indices, from the top.
fn write_path<W: Write>(w: &mut W, relation: &str, path: &[Step]) -> io::Result<()> {
    let mut before = relation;
    for step in path {
        write!(w, "{before}{}", step.index)?;
        before = ".";
    }
    Ok(())
}

/// Writes the verdict, the place, and the indices, from the top, of the element there, or of the one that it is in or
/// after.
fn write_mark<W: Write>(w: &mut W, mark: &Mark, relation: &str, path: &[Step]) -> io::Result<()> {
    let (verdict, place) = (mark.verdict, mark.place);
    let preposition = verdict.preposition();
    write!(w, ">>> {verdict} {preposition} {place}")?;
    write_path(w, relation, path)?;
    writeln!(w)
}

/// What is said of elements beside their lines.
#[derive(Drop)]
pub struct Notes<'a> {
    pub mark: Option<Mark>,
    /// The elements that aren't canonical, in their order.
    pub places: Vec<LooseElement>,
    pub names: Option<Names<'a>>,
}

impl<'a> Notes<'a> {
    /// The octet that the octet strings hold which have to be open: at the next of the places from an index on that
    /// begins later, or else the one that the mark is about.
    fn next_place(&self, index: usize, at: usize) -> Option<usize> {
        for place in self.places.iter().skip(index) {
            if place.offset > at {
                return Some(place.offset);
            }
        }
        match &self.mark {
            Some(mark) => Some(mark.verdict.octet(mark.place)),
            None => None,
        }
    }

    /// Writes why the element of a line isn't canonical, before the line, and answers how many places were written so
    /// far.
    fn write_places<W: Write>(
        &self,
        w: &mut W,
        written: usize,
        line: &Line<'_>,
        path: &[Step],
    ) -> io::Result<usize> {
        let mut count = written;
        for place in self.places.iter().skip(written) {
            if place.offset > line.offset {
                return Ok(count);
            }
            let (offset, cause) = (place.offset, place.cause);
            write!(w, ">>> not canonical at {offset}")?;
            write_path(w, ", ", path)?;
            writeln!(w, ": {cause}")?;
            count = count.saturating_add(1);
        }
        Ok(count)
    }

    /// Writes the mark, if it is at the element of a line.
    fn write_mark_at<W: Write>(&self, w: &mut W, line: &Line<'_>, path: &[Step]) -> io::Result<()> {
        match &self.mark {
            Some(mark) if mark.place == line.offset => write_mark(w, mark, ", ", path),
            _ => Ok(()),
        }
    }

    /// Writes what is said before a line, and answers how many places were written so far. A missing end has nothing
    /// before it: what begins at its offset follows.
    fn write_before<W: Write>(
        &self,
        w: &mut W,
        written: usize,
        line: &Line<'_>,
        path: &[Step],
    ) -> io::Result<usize> {
        if line.front.is_missing_end() {
            return Ok(written);
        }
        let written = self.write_places(w, written, line, path)?;
        self.write_mark_at(w, line, path)?;
        Ok(written)
    }

    /// Writes the name of the element of a line, and ends the line; and then the mark, if it is in what the line shows,
    /// which ends at `end`.
    fn write_end<W: Write>(
        &mut self,
        w: &mut W,
        line: &Line<'a>,
        end: usize,
        path: &[Step],
    ) -> io::Result<()> {
        if let Some(names) = &mut self.names
            && line.front.tag().is_some()
        {
            names.pass(line)?;
            names.write(w, line.depth)?;
        }
        writeln!(w)?;
        match &self.mark {
            Some(mark) if line.offset < mark.place && mark.place < end => {
                write_mark(w, mark, ", in ", path)
            }
            _ => Ok(()),
        }
    }
}

/// Writes a line for each element, with its name, and before it what isn't canonical in it, and the mark before or
/// after the line of its element.
pub fn write_tree<'a, W: Write>(
    alloc: Global,
    w: &mut W,
    input: &'a [u8],
    opening: Opening,
    notes: &mut Notes<'a>,
) -> io::Result<()> {
    let mut walk = Walk::new(alloc, input, opening);
    let mut written = 0;
    walk.lead_to(notes.next_place(written, walk.at()));
    while let Some(line) = walk.next()? {
        written = notes.write_before(w, written, &line, walk.path())?;
        write_line(alloc, w, &line)?;
        notes.write_end(w, &line, walk.at(), walk.path())?;
        walk.lead_to(notes.next_place(written, walk.at()));
    }
    match &notes.mark {
        Some(mark) if mark.place == input.len() => write_mark(w, mark, ", after ", walk.path()),
        _ => Ok(()),
    }
}
