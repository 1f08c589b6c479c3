//! One line of a tree: what begins some bytes, and whether what it holds has lines of its own.

ghost use Rattle.std.specs.Prelude.{◌≡◌, ◌<◌, ◌≤◌, ◌+◌, ◌^◌, ◌↔◌, ◌≢◌, ◌⊎◌, length, IfNone, IfSome, IsSome, IsTrue, MatchOption};
ghost use Rattle.std.specs.Option.{IsSomeAnd};
ghost use Rattle.asn1_core_element.specs.Element.{HasNoFront};
ghost use Rattle.ber_lines.specs.declared.lines.Front.TheVariants.{Nothing};
ghost use Rattle.ber_lines.specs.Lines.{IsItem, IsElementItem, IsBerItem, BeginsWithEnd, HasNoBer, EndsAll, IsWholeBer, is_end, is_missing_end, is_last, tag_of, is_indefinite};

use crate::tags::Tag;
use asn1_core_element::front::front;
use ber_der::contexts::Role;
use ber_der::lengths::length;

const OCTET_STRING: u8 = 0x04;

/// What begins some bytes.
#[derive(Clone, Copy)]
pub enum Front {
    /// No element.
    Nothing,
    /// An element with that tag, whose length takes the fewest octets.
    Element(u8),
    /// One whose length takes more octets (X.690, 8.1.3.5).
    Longer(u8),
    /// One of indefinite length (X.690, 8.1.3.6).
    Indefinite(u8),
    /// The end of the contents of such an element (X.690, 8.1.5).
    EndOfContents,
    /// Nothing, where such contents can't go on: their end is missing.
    MissingEnd,
}

impl Front {
    /// The tag, where an element begins.
    pub fn tag(self) -> Option<u8>
        ensures { result ≡ tag_of self }
    {
        match self {
            Front::Nothing | Front::EndOfContents | Front::MissingEnd => None,
            Front::Element(tag) | Front::Longer(tag) | Front::Indefinite(tag) => Some(tag),
        }
    }

    pub fn is_indefinite(self) -> bool
        ensures { result ≡ is_indefinite self }
    {
        matches!(self, Front::Indefinite(_))
    }

    pub fn is_end(self) -> bool
        ensures { result ≡ is_end self }
    {
        matches!(self, Front::EndOfContents)
    }

    pub fn is_missing_end(self) -> bool
        ensures { result ≡ is_missing_end self }
    {
        matches!(self, Front::MissingEnd)
    }

    /// Whether the contents around end with it.
    pub fn is_last(self) -> bool
        ensures { result ≡ is_last self }
    {
        matches!(self, Front::EndOfContents | Front::MissingEnd)
    }
}

/// What one line shows: the bytes from its offset up to where its contents begin, if these have lines of their own, and
/// else up to where they end.
#[derive(Clone, Copy)]
pub struct Line<'a> {
    pub offset: usize,
    /// How many elements it is in.
    pub depth: usize,
    pub front: Front,
    pub header_len: usize,
    /// Of an indefinite length, and where no element begins: all bytes that are left in the contents around.
    pub contents: &'a [u8],
    /// Whether the contents have lines of their own.
    pub is_open: bool,
    /// Whether it is an element of its own, or a segment of an OCTET STRING (X.690, 8.7.3).
    pub role: Role,
}

/// Whether the end of contents begins the bytes: two zero octets.
fn begins_with_end(bytes: &[u8]) -> bool
    ensures { IsTrue result ↔ BeginsWithEnd bytes.now }
{
    matches!(bytes, [0, 0, ..])
}

/// As `first_item`, of bytes that no element of DER begins.
fn first_of_ber(bytes: &[u8]) -> (Front, usize, &[u8])
    requires { HasNoFront bytes.now }
    ensures item { IsBerItem bytes.now result.0 result.1 result.2.now }
    ensures fits { result.1 + length result.2.now ≤ length bytes.now }
    ensures some { 0 < length bytes.now → 0 < result.1 + length result.2.now }
    ensures header { IsSome (tag_of result.0) → 0 < result.1 }
{
    let [tag, after @ ..] = bytes else {
        return (Front::Nothing, 0, bytes);
    };
    let tag = Tag(*tag);
    if !tag.is_one_octet() {
        return (Front::Nothing, 0, bytes);
    }
    let Some((len, rest)) = length(after) else {
        return (Front::Nothing, 0, bytes);
    };
    if let Some(len) = len {
        return (Front::Longer(tag.0), bytes.len() - rest.len(), &rest[..len]);
    }
    if !tag.is_constructed() {
        return (Front::Nothing, 0, bytes);
    }
    (Front::Indefinite(tag.0), 2, rest)
}

/// What begins some bytes, how long its header is, and its contents. No header and all bytes where no element is there.
fn first_element(bytes: &[u8], reads_ber: bool) -> (Front, usize, &[u8])
    ensures item { IsElementItem reads_ber bytes.now result.0 result.1 result.2.now }
    ensures fits { result.1 + length result.2.now ≤ length bytes.now }
    ensures some { 0 < length bytes.now → 0 < result.1 + length result.2.now }
    ensures header { IsSome (tag_of result.0) → 0 < result.1 }
{
    match front(bytes) {
        Some((tag, len, size)) => (Front::Element(tag), size, &bytes[size..size + len]),
        None => {
            if reads_ber {
                first_of_ber(bytes)
            } else {
                (Front::Nothing, 0, bytes)
            }
        }
    }
}

/// As `first_element`, in contents that may end here, if their length is indefinite.
pub fn first_item(bytes: &[u8], reads_ber: bool, may_end: bool) -> (Front, usize, &[u8])
    ensures item { IsItem reads_ber may_end bytes.now result.0 result.1 result.2.now }
    ensures fits { result.1 + length result.2.now ≤ length bytes.now }
    ensures some { 0 < length bytes.now → 0 < result.1 + length result.2.now }
    ensures header { IsSome (tag_of result.0) → 0 < result.1 }
{
    if may_end && bytes.is_empty() {
        return (Front::MissingEnd, 0, &[]);
    }
    if may_end && begins_with_end(bytes) {
        return (Front::EndOfContents, 2, &[]);
    }
    first_element(bytes, reads_ber)
}

/// What follows the first item of bytes that are in so many contents of indefinite length, and in how many it is; nothing
/// where no item begins.
fn after_item(levels: usize, rest: &[u8]) -> Option<(usize, &[u8])>
    requires some { 0 < levels }
    requires fits { levels + length rest.now ≤ 2 ^ 64 }
    ensures none { IfNone result (¬ EndsAll levels rest.now) }
    ensures alike { IfSome result (λ r. EndsAll levels rest.now ↔ EndsAll r.0 r.1.now) }
    ensures fits { IfSome result (λ r. r.0 + length r.1.now ≤ levels + length rest.now) }
    ensures less { IfSome result (λ r. length r.1.now < length rest.now) }
{
    if begins_with_end(rest) {
        return Some((levels - 1, &rest[2..]));
    }
    let [tag, after @ ..] = rest else {
        return None;
    };
    let tag = Tag(*tag);
    if !tag.is_one_octet() {
        return None;
    }
    let Some((len, contents)) = length(after) else {
        return None;
    };
    if let Some(len) = len {
        return Some((levels, &contents[len..]));
    }
    if !tag.is_constructed() {
        return None;
    }
    Some((levels + 1, contents))
}

/// Whether contents of indefinite length, which begin the bytes, end where these do.
fn ends_whole(bytes: &[u8]) -> bool
    ensures { IsTrue result ↔ EndsAll 1 bytes.now }
{
    let mut levels = 1;
    let mut rest = bytes;
    while levels > 0 {
        let Some((now, after)) = after_item(levels, rest) else {
            return false;
        };
        levels = now;
        rest = after;
    }
    rest.is_empty()
}

/// Whether the bytes, which no element of DER begins, are one whole element of BER; nothing where none begins them.
fn whole_ber(bytes: &[u8]) -> Option<bool>
    requires { HasNoFront bytes.now }
    ensures { MatchOption result (HasNoBer bytes.now) (λ whole. ¬ HasNoBer bytes.now × (IsTrue whole ↔ IsWholeBer bytes.now)) }
{
    let (front, header_len, contents) = first_of_ber(bytes);
    match front {
        Front::Longer(_) => Some(header_len + contents.len() == bytes.len()),
        Front::Indefinite(_) => Some(ends_whole(contents)),
        Front::Nothing | Front::Element(_) | Front::EndOfContents | Front::MissingEnd => None,
    }
}

/// What is shown.
#[derive(Clone, Copy)]
pub struct Opening {
    /// Whether elements may be BER.
    pub reads_ber: bool,
    /// Whether octet strings that are one whole element are shown as such.
    pub opens_all: bool,
    /// Those octet strings that begin with an element, on the way to the octet at this place, are too.
    pub place: Option<usize>,
}

impl Opening {
    ghost use Rattle.ber_lines.specs.Lines.{Opens, OpensTagged, OpensOctets, OpensBer, LeadsInto};

    /// DER, with each octet string open that is one whole element.
    pub const EACH_WHOLE: Opening = Opening {
        reads_ber: false,
        opens_all: true,
        place: None,
    };

    /// Whether contents that begin at `start` have lines of their own.
    pub fn opens(self, front: Front, contents: &[u8], start: usize) -> bool
        ensures tagged { IsTrue result → IsSome (tag_of front) }
        ensures opens { IsTrue result ↔ Opens self front contents.now start }
    {
        match front {
            Front::Nothing | Front::EndOfContents | Front::MissingEnd => false,
            Front::Indefinite(_) => true,
            Front::Element(tag) | Front::Longer(tag) => self.opens_tagged(tag, contents, start),
        }
    }

    /// Whether contents under a tag have.
    fn opens_tagged(self, tag: u8, contents: &[u8], start: usize) -> bool
        ensures { IsTrue result ↔ OpensTagged self tag contents.now start }
    {
        if tag == OCTET_STRING {
            self.opens_octets(contents, start)
        } else {
            Tag(tag).is_constructed() && !contents.is_empty()
        }
    }

    /// Whether contents of an octet string have.
    fn opens_octets(self, contents: &[u8], start: usize) -> bool
        ensures { IsTrue result ↔ OpensOctets self contents.now start }
    {
        match front(contents) {
            Some((_, len, size)) => {
                self.opens_all && size + len == contents.len() || self.leads_into(contents, start)
            }
            None => self.opens_ber(contents, start),
        }
    }

    /// Whether contents of an octet string have that no element of DER begins.
    fn opens_ber(self, contents: &[u8], start: usize) -> bool
        requires { HasNoFront contents.now }
        ensures { IsTrue result ↔ OpensBer self contents.now start }
    {
        match whole_ber(contents) {
            Some(is_whole) => {
                let opens = self.opens_all && is_whole || self.leads_into(contents, start);
                self.reads_ber && opens
            }
            None => false,
        }
    }

    /// Whether the octet at the place is in contents that begin at `start`. One that follows them isn't.
    fn leads_into(self, contents: &[u8], start: usize) -> bool
        ensures { IsTrue result ↔ LeadsInto self contents.now start }
    {
        match self.place {
            Some(place) => start <= place && place - start < contents.len(),
            None => false,
        }
    }
}
