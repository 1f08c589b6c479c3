//! What an encoding is converted to, by where it is.

ghost use Rattle.std.specs.Prelude.{◌≡◌};
ghost use Rattle.ber_der.specs.Contexts.{role_in, context_after, context_inside, der_tag, may_be_constructed, may_be_primitive};

/// What an encoding is converted to.
#[derive(Clone, Copy, Debug, PartialEq, Eq)]
pub enum Role {
    /// An element of its own.
    Whole,
    /// The octets alone: a segment of an OCTET STRING (X.690, 8.7.3).
    Segment,
    /// An OCTET STRING under the implicit tag [0]: in CMS the encrypted content, which is in segments here.
    Implicit,
}

/// Where an encoding is in the contents of another.
#[derive(Clone, Copy, Debug, PartialEq, Eq)]
pub enum Context {
    /// First in a SEQUENCE.
    First,
    /// After an object identifier that is first in a SEQUENCE.
    AfterType,
    /// After such an object identifier and a SEQUENCE, in CMS a content type and an algorithm.
    AfterAlgorithm,
    /// Elsewhere.
    Other,
    /// In an OCTET STRING.
    InString,
}

impl Context {
    /// What the encoding at the front of these bytes is converted to here.
    pub fn role(self, bytes: &[u8]) -> Role
        ensures { result ≡ role_in self bytes.now }
    {
        match (self, bytes) {
            (Context::InString, _) => Role::Segment,
            (Context::AfterAlgorithm, [0xA0, 0x80, ..]) => Role::Implicit,
            _ => Role::Whole,
        }
    }

    /// The context after an encoding with that tag.
    pub fn after(self, tag: u8) -> Context
        ensures { result ≡ context_after self tag }
    {
        match (self, tag) {
            (Context::InString, _) => Context::InString,
            (Context::First, 0x06) => Context::AfterType,
            (Context::AfterType, 0x30) => Context::AfterAlgorithm,
            _ => Context::Other,
        }
    }

    /// The context at the start of the contents of a constructed encoding.
    pub fn inside(role: Role, tag: u8) -> Context
        ensures { result ≡ context_inside role tag }
    {
        match (role, tag) {
            (Role::Whole, 0x30) => Context::First,
            (Role::Whole, 0x24) => Context::InString,
            (Role::Whole, _) => Context::Other,
            _ => Context::InString,
        }
    }
}

/// The tag in DER of a constructed encoding.
pub fn der_tag(role: Role, tag: u8) -> u8
    ensures { result ≡ der_tag role tag }
{
    match (role, tag) {
        (Role::Implicit, _) => 0x80,
        (_, 0x24) => 0x04,
        _ => tag,
    }
}

/// Whether a constructed encoding may have the tag.
pub fn may_be_constructed(tag: u8) -> bool
    ensures { result ≡ may_be_constructed tag }
{
    tag > 63
        || tag == 0x24
        || tag == 0x28
        || tag == 0x2B
        || tag == 0x30
        || tag == 0x31
        || tag == 0x3D
}

/// Whether a primitive encoding may have the tag and so many contents octets.
pub fn may_be_primitive(tag: u8, len: usize) -> bool
    ensures { result ≡ may_be_primitive tag len }
{
    match tag {
        0x01 => len == 1,
        0x05 => len == 0,
        0x08 | 0x0B | 0x10 | 0x11 | 0x1D => false,
        _ => true,
    }
}
