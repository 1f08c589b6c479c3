//! A reader, which goes over the elements of an input.

ghost use Rattle.std.specs.Prelude.{◌≡◌, ◌+◌, ◌≤◌, ◌<◌, [], ◌++◌, length, take, drop, false, true, slice_get};
ghost use Rattle.asn1_core_element.specs.Reading.{HeaderGives, HasReadContents, WholeElementGives, Opened, Closed, EndGives};

use crate::error::Error;
use crate::front::front;
use std::marker::Model;

/// A reader over an input, inside of the contents that are open.
#[derive(Drop)]
pub struct Reader<'a> {
    /// All bytes from here on.
    rest: &'a [u8],
    /// How many of them are in the open contents.
    room: usize,
    /// Where the open contents end in the input.
    end: usize,
    headers: usize,
    refused: bool,
    /// How many bytes of the input there are from the last header on; before the first header, all.
    from_header: usize,
}

impl<'a> Model for Reader<'a> {
    ghost use Rattle.std.specs.Prelude.{◌+◌, ◌*◌, ◌≤◌, length, take, drop, if◌then◌else◌};
    ghost use Rattle.asn1_core_element.specs.Position.{Position};

    ghost Value = { Position };

    ghost view = { λ r. record { left = take r.room r.rest.now; beyond = drop r.room r.rest.now; end = r.end; headers = r.headers; from_header = r.from_header; refused = r.refused } };

    ghost invariant = { λ r. (r.room ≤ length r.rest.now) × (length r.rest.now ≤ r.from_header) × (2 * r.headers + r.room ≤ r.end + (if r.refused then 2 else 0)) };
}

impl<'a> Reader<'a> {
    pub fn new(input: &'a [u8]) -> Self
        ensures { result ≡ record { left = input.now; beyond = []; end = length input.now; headers = 0; from_header = length input.now; refused = false } }
    {
        Reader {
            rest: input,
            room: input.len(),
            end: input.len(),
            headers: 0,
            refused: false,
            from_header: input.len(),
        }
    }

    /// The next tag byte.
    pub fn peek(&self) -> Option<u8>
        requires { self.now.refused ≡ false }
        ensures { result ≡ slice_get self.now.left 0 }
    {
        if self.room == 0 {
            None
        } else {
            Some(self.rest[0])
        }
    }

    /// Reads the tag and the length of an element, whose contents are then left.
    pub fn header(&mut self) -> Result<(u8, usize), Error>
        requires { self.old.refused ≡ false }
        ensures { HeaderGives self.old self.new result }
    {
        let rest = self.rest;
        let room = self.room;
        self.from_header = rest.len();
        self.headers += 1;
        match front(&rest[..room]) {
            Some((tag, n, size)) => {
                self.rest = &rest[size..];
                self.room = room - size;
                Ok((tag, n))
            }
            None => {
                self.refused = true;
                if room == 0 {
                    Err(Error::Missing)
                } else {
                    Err(Error::Malformed)
                }
            }
        }
    }

    /// Takes the next bytes.
    pub fn contents(&mut self, len: usize) -> &'a [u8]
        requires sound { self.old.refused ≡ false }
        requires fits { len ≤ length self.old.left }
        ensures { HasReadContents self.old self.new len result.now }
    {
        let (contents, rest) = self.rest.split_at(len);
        self.rest = rest;
        self.room -= len;
        contents
    }

    /// Takes an element, whatever it is, and answers all of its bytes.
    pub fn whole_element(&mut self) -> Result<&'a [u8], Error>
        requires { self.old.refused ≡ false }
        ensures { WholeElementGives (λ b. b.now) self.old self.new result }
    {
        let bytes = self.rest;
        let left = self.room;
        let (_tag, len) = self.header()?;
        self.contents(len);
        Ok(&bytes[..left - self.room])
    }

    /// Goes into the next bytes, and answers where the contents end that were open before.
    pub fn open(&mut self, len: usize) -> usize
        requires sound { self.old.refused ≡ false }
        requires fits { len ≤ length self.old.left }
        ensures { Opened self.old self.new len result }
    {
        let outer = self.end;
        self.end = outer - self.room + len;
        self.room = len;
        outer
    }

    /// Goes out of the open contents, which have to be read to their end.
    /// The types of this library read their contents to the end before, so none of them meets the refusal: it is for
    /// whoever reads parts without rows.
    pub fn end(&mut self, outer: usize) -> Result<(), Error>
        requires sound { self.old.refused ≡ false }
        requires low { self.old.end ≤ outer }
        requires high { outer ≤ self.old.end + length self.old.beyond }
        ensures { EndGives self.old self.new outer result }
    {
        if self.room != 0 {
            self.refused = true;
            return Err(Error::Malformed);
        }
        self.close(outer);
        Ok(())
    }

    /// Goes out of the open contents, which were read to their end. It refuses nothing, as `end` may, so that a caller
    /// has no branch on which it drops a value that it has read: for that branch the compiled code copies large values
    /// once more at each call.
    pub fn close(&mut self, outer: usize)
        requires sound { self.old.refused ≡ false }
        requires done { self.old.left ≡ [] }
        requires low { self.old.end ≤ outer }
        requires high { outer ≤ self.old.end + length self.old.beyond }
        ensures { Closed self.old self.new outer }
    {
        self.room = outer - self.end;
        self.end = outer;
    }

    /// How many bytes are left in the open contents.
    pub fn left(&self) -> usize
        requires { self.now.refused ≡ false }
        ensures { result ≡ length self.now.left }
    {
        self.room
    }

    /// How many bytes of the input are not read yet, in the open contents and after them.
    pub fn unread(&self) -> usize
        ensures { result ≡ length self.now.left + length self.now.beyond }
    {
        self.rest.len()
    }

    /// How many bytes of the input there are from the header on that was read last, or refused; all before the first.
    pub fn from_header(&self) -> usize
        ensures { result ≡ self.now.from_header }
    {
        self.from_header
    }

    pub fn headers_read(&self) -> usize
        ensures { result ≡ self.now.headers }
    {
        self.headers
    }
}
