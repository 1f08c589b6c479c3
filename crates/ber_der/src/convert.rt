//! The conversion.

ghost use Rattle.std.specs.Prelude.{◌≡◌, ◌≢◌, ◌↔◌, ◌++◌, ◌≤◌, true, false, length, take, drop, IsTrue, IfSome, MatchResult};
ghost use Rattle.ber_der.specs.Ber.{IsBer, IsUnambiguousBer, IsBerWith, Converted, ConvertedContents, ConvertedToEnd, ConvertedBody, BeginsNone, HoldsNone, EndsNone, BodyNone, HasNoDer, der_of, Allows};
ghost use Rattle.ber_der.specs.declared.contexts.Role.TheVariants.{Whole};
ghost use Rattle.asn1_core_element.specs.Element.{head};
ghost use Rattle.asn1_core_element.specs.declared.error.Error.TheVariants.{Memory};

use crate::contexts::{Context, Role, der_tag, may_be_constructed, may_be_primitive};
use crate::lengths::length;
use asn1_core_element::Error;
use asn1_core_writers::{Forward, put_head};
use std::alloc::Global;
use std::mem;

/// How many levels of constructed encodings an input has at most.
pub const MAX_NESTING: u8 = 64;

/// What the calls of one conversion share.
#[derive(Clone, Copy)]
struct Rule {
    alloc: Global,
    /// Whether an element of two readings is joined to an OCTET STRING; else it is refused.
    joins: bool,
}

/// Whether a role allows an encoding with that tag, where an OCTET STRING of its form has the tag `own`.
fn allows(rule: Rule, role: Role, tag: u8, own: u8) -> bool
    ensures { IsTrue result ↔ Allows rule.joins role tag own }
{
    match role {
        Role::Whole => true,
        Role::Segment => tag == own,
        Role::Implicit => rule.joins && tag == 0xA0,
    }
}

/// Appends a header.
fn push_head(alloc: Global, tag: u8, len: usize, out: &mut Vec<u8>) -> Result<(), Error>
    ensures { MatchResult result (λ _. out.new.items ≡ out.old.items ++ head tag len) (λ e. e ≡ Memory) }
{
    let mut buffer = Forward::new(mem::replace(out, Vec::new(alloc)));
    match put_head(tag, len, &mut buffer) {
        Ok(()) => {
            *out = buffer.into_inner();
            Ok(())
        }
        Err(_) => Err(Error::Memory),
    }
}

/// Appends what is kept of contents.
fn push_kept(
    alloc: Global,
    role: Role,
    tag: u8,
    contents: &[u8],
    out: &mut Vec<u8>,
) -> Result<(), Error>
    ensures { MatchResult result (λ _. out.new.items ≡ out.old.items ++ der_of role tag contents.now) (λ e. e ≡ Memory) }
{
    match role {
        Role::Segment => {}
        _ => push_head(alloc, tag, contents.len(), out)?,
    }
    match out.extend_from_slice(contents) {
        Ok(()) => Ok(()),
        Err(_) => Err(Error::Memory),
    }
}

/// Makes the last octets, from `start` on, which are contents, what is kept of them.
fn keep_last(
    alloc: Global,
    role: Role,
    tag: u8,
    start: usize,
    out: &mut Vec<u8>,
) -> Result<(), Error>
    requires { start ≤ length out.old.items }
    ensures { MatchResult result (λ _. out.new.items ≡ take start out.old.items ++ der_of role tag (drop start out.old.items)) (λ e. e ≡ Memory) }
{
    let end = out.len();
    match role {
        Role::Segment => Ok(()),
        _ => {
            push_head(alloc, tag, end - start, out)?;
            let size = out.len() - end;
            out[start..].rotate_right(size);
            Ok(())
        }
    }
}

/// Appends the DER of the encodings that the contents are.
#[cycle(convert)]
fn convert_contents(
    rule: Rule,
    contents: &[u8],
    start: Context,
    nest: u8,
    out: &mut Vec<u8>,
) -> Result<(), (Error, usize)>
    ensures { MatchResult result (λ _. ConvertedContents (IsBerWith rule.joins nest) start contents.now out.old.items out.new.items)
        (λ e. e.0 ≢ Memory → HoldsNone (IsBerWith rule.joins nest) start contents.now) }
{
    let mut rest = contents;
    let mut context = start;
    'parts: while let [tag, ..] = rest {
        let tag = *tag;
        rest = convert(rule, rest, context.role(rest), nest, out)?;
        context = context.after(tag);
    }
    Ok(())
}

/// Appends the DER of the encodings up to the end of contents, and answers what follows it.
#[cycle(convert)]
fn convert_to_end<'a>(
    rule: Rule,
    bytes: &'a [u8],
    start: Context,
    nest: u8,
    out: &mut Vec<u8>,
) -> Result<&'a [u8], (Error, usize)>
    ensures { MatchResult result (λ rest. ConvertedToEnd (IsBerWith rule.joins nest) start bytes.now rest.now out.old.items out.new.items)
        (λ e. e.0 ≢ Memory → EndsNone (IsBerWith rule.joins nest) start bytes.now) }
{
    let mut rest = bytes;
    let mut context = start;
    'parts: while let [tag, more, after @ ..] = rest {
        let tag = *tag;
        if tag == 0 && *more == 0 {
            return Ok(after);
        }
        rest = convert(rule, rest, context.role(rest), nest, out)?;
        context = context.after(tag);
    }
    let error = match rest {
        [] => Error::Missing,
        _ => Error::Malformed,
    };
    Err((error, rest.len()))
}

/// Appends the DER of the encodings in the contents that these bytes begin with, of that length or up to their end, and
/// answers what follows.
#[cycle(convert)]
fn convert_body<'a>(
    rule: Rule,
    len: Option<usize>,
    after: &'a [u8],
    start: Context,
    nest: u8,
    out: &mut Vec<u8>,
) -> Result<&'a [u8], (Error, usize)>
    requires { IfSome len (λ n. n ≤ length after.now) }
    ensures { MatchResult result (λ rest. ConvertedBody (IsBerWith rule.joins nest) start len after.now rest.now out.old.items out.new.items)
        (λ e. e.0 ≢ Memory → BodyNone (IsBerWith rule.joins nest) start len after.now) }
{
    let Some(len) = len else {
        return convert_to_end(rule, after, start, nest, out);
    };
    let (contents, rest) = after.split_at(len);
    match convert_contents(rule, contents, start, nest, out) {
        Ok(()) => Ok(rest),
        Err((error, left)) => Err((error, left.saturating_add(rest.len()))),
    }
}

/// Appends the DER of the encoding at the front, and answers what follows it; or why there is none, and how many of the
/// bytes are left there.
#[cycle(convert)]
fn convert<'a>(
    rule: Rule,
    bytes: &'a [u8],
    role: Role,
    nest: u8,
    out: &mut Vec<u8>,
) -> Result<&'a [u8], (Error, usize)>
    ensures { MatchResult result (λ rest. Converted (IsBerWith rule.joins nest role) bytes.now rest.now out.old.items out.new.items)
        (λ e. e.0 ≢ Memory → BeginsNone (IsBerWith rule.joins nest role) bytes.now) }
{
    let [tag, after @ ..] = bytes else {
        return Err((Error::Missing, 0));
    };
    let tag = *tag;
    if tag == 0 || tag % 32 == 31 {
        return Err((Error::Malformed, bytes.len()));
    }
    let Some((len, after)) = length(after) else {
        return Err((Error::Malformed, bytes.len()));
    };
    if tag / 32 % 2 == 0 {
        let Some(len) = len else {
            return Err((Error::Malformed, bytes.len()));
        };
        if !may_be_primitive(tag, len) || !allows(rule, role, tag, 0x04) {
            return Err((Error::Invalid, bytes.len()));
        }
        let (contents, rest) = after.split_at(len);
        match push_kept(rule.alloc, role, tag, contents, out) {
            Ok(()) => return Ok(rest),
            Err(error) => return Err((error, rest.len())),
        }
    }
    if nest == 0 {
        return Err((Error::TooDeep, bytes.len()));
    }
    if !may_be_constructed(tag) || !allows(rule, role, tag, 0x24) {
        return Err((Error::Invalid, bytes.len()));
    }
    let before = out.len();
    let start = Context::inside(role, tag);
    let rest = convert_body(rule, len, after, start, nest - 1, out)?;
    match keep_last(rule.alloc, role, der_tag(role, tag), before, out) {
        Ok(()) => Ok(rest),
        Err(error) => Err((error, rest.len())),
    }
}

/// The DER of the input, or why it has none, and where.
fn to_der_with(rule: Rule, limit: u8, bytes: &[u8]) -> Result<Vec<u8>, (Error, usize)>
    ensures { MatchResult result (λ der. IsBerWith rule.joins limit Whole bytes.now der.items)
        (λ e. HasNoDer rule.joins limit bytes.now e.0 × (e.1 ≤ length bytes.now)) }
{
    let mut out = Vec::new(rule.alloc);
    match convert(rule, bytes, Role::Whole, limit, &mut out) {
        Ok(rest) => {
            if !rest.is_empty() {
                return Err((Error::Malformed, bytes.len().saturating_sub(rest.len())));
            }
            Ok(out)
        }
        Err((error, left)) => Err((error, bytes.len().saturating_sub(left))),
    }
}

/// The DER of an input that is one encoding of BER, with at most `MAX_NESTING` levels of nesting. Lengths get the fewest
/// octets, and OCTET STRINGs in segments become one piece; all else stays, as the order of elements and the contents of
/// primitive ones.
///
/// Refused are tags of several bytes, lengths of more than eight octets, and constructed encodings of other strings than
/// OCTET STRING, in every constructed element: also in one that a type would keep as it is. So is what is no BER by its
/// form or length: of class universal a constructed encoding of a type that is primitive, a primitive one of EXTERNAL,
/// EMBEDDED PDV, SEQUENCE, SET or CHARACTER STRING (X.690, 8.17, 8.18, 8.9.1, 8.11.1 and 8.24), a BOOLEAN of other than
/// one octet (8.2.1), and a NULL with contents (8.8.2). No other contents of primitive elements are looked at.
///
/// Of the elements that have two readings one kind is joined: in a SEQUENCE that begins with an OBJECT IDENTIFIER and a
/// SEQUENCE, a third element `[0]` of indefinite length. It is taken as an OCTET STRING under an implicit tag, which it is
/// in `EncryptedContentInfo` of CMS (RFC 5652, 6.1), though it could be an explicit tag around an OCTET STRING;
/// `to_der_unambiguous` refuses it. All others, also such a `[0]` of definite length, are taken as explicit tags: OCTET
/// STRINGs right in them stay elements of their own, and aren't joined.
pub fn to_der(alloc: Global, bytes: &[u8]) -> Result<Vec<u8>, Error>
    ensures { MatchResult result (λ der. IsBer 64 Whole bytes.now der.items) (λ e. HasNoDer true 64 bytes.now e) }
{
    to_der_limited(alloc, MAX_NESTING, bytes)
}

/// As `to_der`, with at most `limit` levels of nesting. Whatever is converted at one limit is converted alike at every
/// larger one.
pub fn to_der_limited(alloc: Global, limit: u8, bytes: &[u8]) -> Result<Vec<u8>, Error>
    requires { limit ≤ 64 }
    ensures { MatchResult result (λ der. IsBer limit Whole bytes.now der.items) (λ e. HasNoDer true limit bytes.now e) }
{
    match to_der_with(Rule { alloc, joins: true }, limit, bytes) {
        Ok(der) => Ok(der),
        Err((error, _)) => Err(error),
    }
}

/// As `to_der`, but refuses by `Invalid` the element of indefinite length that `to_der` joins. Of a definite length it is
/// taken as an explicit tag here too.
pub fn to_der_unambiguous(alloc: Global, bytes: &[u8]) -> Result<Vec<u8>, Error>
    ensures { MatchResult result (λ der. IsUnambiguousBer 64 Whole bytes.now der.items) (λ e. HasNoDer false 64 bytes.now e) }
{
    match to_der_with(
        Rule {
            alloc,
            joins: false,
        },
        MAX_NESTING,
        bytes,
    ) {
        Ok(der) => Ok(der),
        Err((error, _)) => Err(error),
    }
}

/// As `to_der`, with the place where the input was refused: an offset in it, counted from 0.
///
/// - `Malformed`: where an element should begin and none does, or where the bytes begin that are left over.
/// - `Missing`: the end of the contents, or of the input, in which an element or the end of contents is missing.
/// - `Invalid`: where the element begins whose tag, form or length is refused.
/// - `TooDeep`: where the element begins that is nested too deep.
/// - `Memory`: how far the input was read.
///
/// Proved is that the place is at most the input's length.
pub fn to_der_located(alloc: Global, bytes: &[u8]) -> Result<Vec<u8>, (Error, usize)>
    ensures { MatchResult result (λ der. IsBer 64 Whole bytes.now der.items)
        (λ e. HasNoDer true 64 bytes.now e.0 × (e.1 ≤ length bytes.now)) }
{
    to_der_with(Rule { alloc, joins: true }, MAX_NESTING, bytes)
}
