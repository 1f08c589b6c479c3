//! From an input to the lines of its tree, by a list of the contents that are open.

ghost use Rattle.std.specs.Prelude.{◌≡◌, ◌<◌, ◌≤◌, ◌-◌, [], length, slice_range, false, IfOk, IfSome, IfNone, MatchOption};
ghost use Rattle.ber_lines.specs.Within.{IsWithin};

use crate::lines::{Front, Line, Opening, first_item};
use ber_der::contexts::{Context, Role};
use std::alloc::{AllocError, Global};

/// Contents whose lines are shown.
#[derive(Clone, Copy)]
pub struct Open {
    /// Where they end; if their length is indefinite, where they end at the latest.
    pub end: usize,
    pub is_indefinite: bool,
}

/// An element that was shown.
#[derive(Clone, Copy)]
pub struct Step {
    /// How many elements are before it in the same contents.
    pub index: usize,
    /// Where what follows it is, and what it holds, among the parts of an element.
    after: Context,
    inside: Context,
}

impl Step {
    /// The element with that front, which is the first of its contents, if no other is before it.
    fn new(index: usize, front: Front, context: Context, role: Role) -> Self
        ensures { result.index ≡ index }
    {
        let tag = front.tag().unwrap_or(0);
        let inside = match tag {
            OCTET_STRING => Context::Other,
            _ => Context::inside(role, tag),
        };
        Step {
            index,
            after: context.after(tag),
            inside,
        }
    }
}

const OCTET_STRING: u8 = 0x04;

/// Goes over an input line by line.
#[derive(Drop)]
pub struct Walk<'a> {
    input: &'a [u8],
    opening: Opening,
    /// Where the next line begins.
    at: usize,
    /// The contents that are open, those of the outermost element first.
    opened: Vec<Open>,
    /// What the last line shows, after all that it is in.
    path: Vec<Step>,
    ghost within: { IsWithin (length input.now) at opened.items path.items },
}

impl<'a> Walk<'a> {
    ghost use Rattle.ber_lines.specs.Lines.{IsLine, IsOver, Shows, IsOpenedAfter, LeavesEnded, innermost, is_missing_end, left_over};

    pub fn new(alloc: Global, input: &'a [u8], opening: Opening) -> Self
        ensures input { result.input.now ≡ input.now }
        ensures opening { result.opening ≡ opening }
        ensures start { (result.at ≡ 0) × (result.opened.items ≡ []) }
    {
        Walk {
            input,
            opening,
            at: 0,
            opened: Vec::new(alloc),
            path: Vec::new(alloc),
        }
    }

    /// Where the next line begins.
    pub fn at(&self) -> usize
        ensures { result ≡ self.now.at }
    {
        self.at
    }

    /// From here on, opens the octet strings on the way to the octet at a place.
    pub fn lead_to(&mut self, place: Option<usize>)
        ensures input { self.new.input.now ≡ self.old.input.now }
        ensures at { self.new.at ≡ self.old.at }
        ensures opened { self.new.opened.items ≡ self.old.opened.items }
        ensures opening { self.new.opening ≡ record { reads_ber = self.old.opening.reads_ber; opens_all = self.old.opening.opens_all; place = place } }
    {
        self.opening.place = place;
    }

    /// What the last line shows, after all that it is in, from the top.
    pub fn path(&self) -> &[Step] {
        self.path.as_slice()
    }

    /// Goes out of all contents of definite length that end here, and answers which are the innermost then: the whole
    /// input, if none are open, and nothing at its end.
    fn innermost(&mut self) -> Option<Open>
        ensures input { self.new.input.now ≡ self.old.input.now }
        ensures opening { self.new.opening ≡ self.old.opening }
        ensures at { self.new.at ≡ self.old.at }
        ensures over { IfNone result (IsOver self.old.input.now self.old.opened.items self.old.at) }
        ensures leaves { IfSome result (λ _. LeavesEnded self.old.opened.items self.old.at self.new.opened.items) }
        ensures end { IfSome result (λ o. o ≡ innermost self.old.input.now self.new.opened.items) }
        ensures fits { IfSome result (λ o. o.end ≤ length self.old.input.now) }
        ensures later { IfSome result (λ o. o.is_indefinite ≡ false → self.old.at < o.end) }
    {
        loop {
            match self.opened.last() {
                Some(contents) if contents.is_indefinite => return Some(*contents),
                Some(contents) if contents.end > self.at => return Some(*contents),
                Some(_) => {
                    let _ = self.opened.pop();
                }
                None if self.at == self.input.len() => return None,
                None => {
                    return Some(Open {
                        end: self.input.len(),
                        is_indefinite: false,
                    });
                }
            }
        }
    }

    /// Where the next line is among the parts of the element at the end of the path to it.
    fn context(&self) -> Context {
        match (self.path.get(self.opened.len()), self.path.last()) {
            _ if !self.opening.reads_ber => Context::Other,
            (Some(step), _) => step.after,
            (None, Some(step)) => step.inside,
            (None, None) => Context::Other,
        }
    }

    /// The bytes that are left of the contents around the next line.
    fn bytes(&self, around: Open) -> &'a [u8]
        requires { around.end ≤ length self.now.input.now }
        ensures octets { result.now ≡ slice_range self.now.input.now self.now.at around.end }
        ensures len { length result.now ≡ around.end - self.now.at }
    {
        if self.at < around.end {
            &self.input[self.at..around.end]
        } else {
            &[]
        }
    }

    /// The line that is next, of the contents around it.
    fn line(&self, around: Open) -> Line<'a>
        requires around { around ≡ innermost self.now.input.now self.now.opened.items }
        requires later { around.is_indefinite ≡ false → self.now.at < around.end }
        requires fits { around.end ≤ length self.now.input.now }
        ensures { Shows self.now.input.now self.now.opening self.now.opened.items self.now.at result }
    {
        let bytes = self.bytes(around);
        let reads_ber = self.opening.reads_ber;
        let (front, header_len, contents) = first_item(bytes, reads_ber, around.is_indefinite);
        let start = self.at + header_len;
        Line {
            offset: self.at,
            depth: self.opened.len(),
            front,
            header_len,
            contents,
            is_open: self.opening.opens(front, contents, start),
            role: self.context().role(bytes),
        }
    }

    /// The element that a line shows, as the last of a path.
    fn step(&self, line: &Line<'_>) -> Step
        ensures { result.index ≤ self.now.at }
    {
        let index = match self.path.get(line.depth) {
            Some(step) => step.index + 1,
            None => 0,
        };
        Step::new(index, line.front, self.context(), line.role)
    }

    /// Has the path end in the step of a line, if it shows anything.
    fn set_path(&mut self, line: &Line<'_>, step: Step) -> Result<(), AllocError>
        requires { is_missing_end line.now.front ≡ false → step.index < self.old.at }
        ensures input { self.new.input.now ≡ self.old.input.now }
        ensures opening { self.new.opening ≡ self.old.opening }
        ensures at { self.new.at ≡ self.old.at }
        ensures opened { self.new.opened.items ≡ self.old.opened.items }
    {
        if line.front.is_missing_end() {
            return Ok(());
        }
        self.path.truncate(line.depth);
        self.path.push(step)?;
        Ok(())
    }

    /// Goes into the contents of a line, if they have lines, and out of those that it is the last of.
    fn set_opened(&mut self, line: &Line<'_>, end: usize) -> Result<(), AllocError>
        requires { end ≤ length self.old.input.now }
        ensures input { self.new.input.now ≡ self.old.input.now }
        ensures opening { self.new.opening ≡ self.old.opening }
        ensures at { self.new.at ≡ self.old.at }
        ensures opened { IfOk result (λ _. IsOpenedAfter self.old.opened.items line.now end self.new.opened.items) }
    {
        if line.front.is_last() {
            let depth = self.opened.len();
            self.opened.truncate(depth.saturating_sub(1));
        } else if line.is_open {
            self.opened.push(Open {
                end,
                is_indefinite: line.front.is_indefinite(),
            })?;
        }
        Ok(())
    }

    /// The next line. `None` at the end of the input, once it was said of all contents of indefinite length that their end
    /// is missing.
    pub fn next(&mut self) -> Result<Option<Line<'a>>, AllocError>
        ensures input { self.new.input.now ≡ self.old.input.now }
        ensures opening { self.new.opening ≡ self.old.opening }
        ensures line { IfOk result (λ o. MatchOption o (IsOver self.old.input.now self.old.opened.items self.old.at)
            (λ line. IsLine self.old.input.now self.old.opening
            self.old.opened.items self.old.at self.new.opened.items self.new.at line)) }
        ensures less { IfOk result (λ o. IfSome o (λ _. left_over self.old.input.now self.new.opened.items self.new.at < left_over self.old.input.now self.old.opened.items self.old.at)) }
    {
        let Some(around) = self.innermost() else {
            return Ok(None);
        };
        let line = self.line(around);
        let step = self.step(&line);
        let start = line.offset + line.header_len;
        let end = start + line.contents.len();
        self.at = if line.is_open { start } else { end };
        self.set_path(&line, step)?;
        self.set_opened(&line, end)?;
        Ok(Some(line))
    }
}
