//! The fields that elements are, by the table of types. Where it doesn't fit an element, that has no name.

use crate::fields::FIELDS;
use ber_der::contexts::Role;
use ber_lines::lines::Line;
use std::alloc::{AllocError, Global};
use std::io::{self, Write};

/// Elements that are in more others than these have no names.
const DEEPEST_NAMED: usize = 128;

const OBJECT_IDENTIFIER: u8 = 0x06;

const DIGITS: &[u8; 16] = b"0123456789ABCDEF";

/// Whether a text spells octets in hexadecimal.
fn spells(text: &str, octets: &[u8]) -> bool {
    let mut rest = text.as_bytes();
    for octet in octets {
        let [high, low, after @ ..] = rest else {
            return false;
        };
        let (sixteens, ones) = (usize::from(*octet / 16), usize::from(*octet % 16));
        if *high != DIGITS[sixteens] || *low != DIGITS[ones] {
            return false;
        }
        rest = after;
    }
    rest.is_empty()
}

/// A row of the table: an element that the contents of a type may have.
#[derive(Clone, Copy)]
struct Component {
    /// Whether it may be left out, or another row may be there instead.
    may_be_left_out: bool,
    /// What it adds to the name of what holds it.
    name: &'static str,
    /// Its tag in hexadecimal, or `-` for any.
    tag: &'static str,
    /// The node of what it holds.
    node: &'static str,
    /// The octets of the object identifier that has to be the last before it, if there is one.
    identifier: Option<&'static str>,
}

impl Component {
    fn new(line: &'static str) -> Component {
        let (line, may_be_left_out) = match line.strip_prefix('?') {
            Some(rest) => (rest, true),
            None => (line, false),
        };
        let mut words = line.split(' ');
        let name = words.next().unwrap_or("");
        let tag = words.next().unwrap_or("");
        let node = words.next().unwrap_or("");
        let identifier = match words.next() {
            Some(word) => word.strip_prefix('='),
            None => None,
        };
        Component {
            may_be_left_out,
            name,
            tag,
            node,
            identifier,
        }
    }

    /// Whether more elements than one may be it.
    fn is_item(self) -> bool {
        self.name.starts_with('[')
    }

    /// Whether an element with a tag may be it, in either form, since strings of BER may be constructed.
    fn fits(self, tag: u8, identifier: &[u8]) -> bool {
        if let Some(wanted) = self.identifier
            && !spells(wanted, identifier)
        {
            return false;
        }
        self.tag == "-" || spells(self.tag, &[tag | 0x20]) || spells(self.tag, &[tag & 0xDF])
    }
}

/// The elements that the contents of a type may have.
#[derive(Clone, Copy)]
struct Node {
    name: &'static str,
    rows: &'static str,
}

/// The table of types.
#[derive(Drop)]
pub struct Table {
    nodes: Vec<Node>,
}

impl Table {
    pub fn new(alloc: Global) -> Result<Table, AllocError> {
        let mut nodes = Vec::new(alloc);
        let text = str::from_utf8(FIELDS).unwrap_or("");
        for node in text.split("\n\n") {
            if let Some((name, rows)) = node.split_once('\n') {
                nodes.push(Node { name, rows })?;
            }
        }
        Ok(Table { nodes })
    }

    /// The rows of a node.
    fn rows(&self, name: &str) -> Option<&'static str> {
        for node in self.nodes.iter() {
            if node.name == name {
                return Some(node.rows);
            }
        }
        None
    }

    /// The rows of the node of a kind or a type, by its word.
    pub fn rows_of_type(&self, word: &str) -> Option<&'static str> {
        if word.starts_with('/') {
            return None;
        }
        self.rows(word)
    }

    /// Writes the words of all kinds and types, a line each.
    pub fn write_words<W: Write>(&self, w: &mut W) -> io::Result<()> {
        for node in self.nodes.iter() {
            if !node.name.starts_with('/') {
                let name = node.name;
                writeln!(w, "{name}")?;
            }
        }
        Ok(())
    }
}

/// Contents whose elements get names.
#[derive(Clone, Copy)]
struct Frame<'a> {
    /// The rows of the type whose contents they are; none, where the table doesn't know it.
    rows: &'static str,
    /// How many of these are before the first that may come next.
    passed: usize,
    /// How many elements were there.
    count: usize,
    /// What the last element adds to the name of what holds it; nothing, if it fits no row.
    name: Option<&'static str>,
    /// The contents of the last object identifier, here or around.
    identifier: &'a [u8],
}

impl<'a> Frame<'a> {
    fn new(rows: &'static str, identifier: &'a [u8]) -> Frame<'a> {
        Frame {
            rows,
            passed: 0,
            count: 0,
            name: None,
            identifier,
        }
    }

    /// The row that an element with a tag fits, and how many are before it.
    fn fitting(self, tag: u8) -> Option<(usize, Component)> {
        for (index, line) in self.rows.split('\n').enumerate() {
            if index < self.passed {
                continue;
            }
            let row = Component::new(line);
            if row.fits(tag, self.identifier) {
                return Some((index, row));
            }
            if !row.may_be_left_out {
                return None;
            }
        }
        None
    }

    /// Goes past an element, and answers the node of what that holds. An element that fits no row changes nothing for
    /// those after it.
    fn pass(&mut self, tag: u8, contents: &'a [u8]) -> &'static str {
        self.count = self.count.saturating_add(1);
        let found = self.fitting(tag);
        if tag == OBJECT_IDENTIFIER {
            self.identifier = contents;
        }
        let Some((index, row)) = found else {
            self.name = None;
            return "";
        };
        self.name = Some(row.name);
        if !row.is_item() {
            self.passed = index.saturating_add(1);
        }
        row.node
    }

    /// Writes what the last element adds to the name of what holds it.
    fn write_part<W: Write>(&self, w: &mut W) -> io::Result<()> {
        let name = self.name.unwrap_or("");
        if let Some(rest) = name.strip_prefix("[]") {
            let index = self.count.saturating_sub(1);
            return write!(w, "[{index}]{rest}");
        }
        let added = name.strip_prefix('~').unwrap_or(name);
        w.write_all(added.as_bytes())
    }
}

/// The names of the elements of a tree, line by line.
#[derive(Drop)]
pub struct Names<'a> {
    table: Table,
    /// The contents that are open, the whole input first, and those of the last element.
    frames: Vec<Frame<'a>>,
}

impl<'a> Names<'a> {
    /// The names in an input of a type that has these rows.
    pub fn new(alloc: Global, table: Table, rows: &'static str) -> Result<Names<'a>, AllocError> {
        let mut frames = Vec::new(alloc);
        frames.push(Frame::new(rows, &[]))?;
        Ok(Names { table, frames })
    }

    /// Goes past the next line.
    pub fn pass(&mut self, line: &Line<'a>) -> Result<(), AllocError> {
        let Some(tag) = line.front.tag() else {
            return Ok(());
        };
        self.frames.truncate(line.depth.saturating_add(1));
        if self.frames.len() <= line.depth {
            return Ok(());
        }
        let Some(mut frame) = self.frames.pop() else {
            return Ok(());
        };
        let mut node = frame.pass(tag, line.contents);
        if line.role == Role::Segment {
            frame.name = self.name_of_segment();
            node = "";
        }
        self.frames.push(frame)?;
        if line.depth < DEEPEST_NAMED {
            let rows = self.table.rows(node).unwrap_or("");
            self.frames.push(Frame::new(rows, frame.identifier))?;
        }
        Ok(())
    }

    /// What a segment adds to the name of the string that it is in: no part, and no name where that has none.
    fn name_of_segment(&self) -> Option<&'static str> {
        match self.frames.last() {
            Some(string) if string.name.is_some() => Some("~"),
            _ => None,
        }
    }

    /// Writes the name of the element of the last line, at its depth, or `?` where it has none.
    pub fn write<W: Write>(&self, w: &mut W, depth: usize) -> io::Result<()> {
        let is_named = match self.frames.get(depth) {
            Some(frame) => frame.name.is_some(),
            None => false,
        };
        if !is_named {
            return w.write_all(b" -- ?");
        }
        w.write_all(b" -- ")?;
        for frame in self.frames.iter().take(depth.saturating_add(1)) {
            frame.write_part(w)?;
        }
        Ok(())
    }
}
