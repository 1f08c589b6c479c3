//! Recipients of enveloped data, built from what a caller in C gives.

ghost use Rattle.std.specs.Prelude.{◌≡◌, MatchResult};
ghost use Rattle.cms_calls.specs.BuiltRecipient.{BuildsRecipient, HasBuiltRecipient, HasParts, IsNameOf, IsNoRecipient, IsUngiven, IsWhy, number_of, wrong_part};
ghost use Rattle.call_values.specs.Given.{HasNone};

use asn1_core::Error;
use call_values::given::part_of;
use call_values::outputs::put_octets;
use call_values::ranges::{NOTHING, Octets};
use call_values::status;
use call_values::status::status_of;
use enveloped_writers::{NotRecipient, Recipient, RecipientName, RecipientPart, write_recipient};
use signed_writers::Identifier;
use std::alloc::Global;

// Those of `der_recipient_part` in der.h, which says more of each.
const IDENTIFIER: usize = 1;

const ALGORITHM: usize = 2;

const KEY: usize = 3;

/// A recipient, as ranges of an input: `der_recipient_given` of der.h, which says more of its fields.
#[repr(C)]
#[derive(Clone, Copy)]
pub struct RecipientGiven {
    /// 0 where it has a key pair, and otherwise it has a key-encryption key.
    pub is_kek: usize,
    /// 0 where a key pair is named by its certificate.
    pub has_key_identifier: usize,
    pub certificate: Octets,
    pub key_identifier: Octets,
    pub algorithm: Octets,
    pub key: Octets,
}

/// What is given of no recipient.
pub const NO_RECIPIENT: RecipientGiven = RecipientGiven {
    is_kek: 0,
    has_key_identifier: 0,
    certificate: NOTHING,
    key_identifier: NOTHING,
    algorithm: NOTHING,
    key: NOTHING,
};

/// A part that can't be written.
#[derive(Clone, Copy)]
pub enum WrongRecipient {
    Identifier,
    Algorithm,
    Key,
}

/// Why no recipient is built.
pub enum NoRecipient {
    Part(WrongRecipient),
    NotWritten(Error),
}

fn number_of(part: WrongRecipient) -> usize
    ensures { result ≡ number_of part }
{
    match part {
        WrongRecipient::Identifier => IDENTIFIER,
        WrongRecipient::Algorithm => ALGORITHM,
        WrongRecipient::Key => KEY,
    }
}

/// What names the recipient.
fn name_of<'a>(input: &'a [u8], row: &RecipientGiven) -> Result<RecipientName<'a>, usize>
    ensures { MatchResult result (λ x. IsNameOf input.now row.now x) (λ _. HasNone (IsNameOf input.now row.now)) }
{
    if row.is_kek != 0 {
        let octets = part_of(input, row.key_identifier, IDENTIFIER)?;
        return Ok(RecipientName::Kek(octets));
    }
    if row.has_key_identifier != 0 {
        let octets = part_of(input, row.key_identifier, IDENTIFIER)?;
        return Ok(RecipientName::KeyPair(Identifier::Key(octets)));
    }
    let octets = part_of(input, row.certificate, IDENTIFIER)?;
    Ok(RecipientName::KeyPair(Identifier::Certificate(octets)))
}

/// The parts of the recipient.
fn parts_of<'a>(input: &'a [u8], row: &RecipientGiven) -> Result<Recipient<'a>, WrongRecipient>
    ensures { MatchResult result
        (λ x. HasParts input.now row.now x)
        (λ wrong. IsUngiven input.now row.now wrong) }
{
    let Ok(name) = name_of(input, row) else {
        return Err(WrongRecipient::Identifier);
    };
    let Ok(algorithm) = part_of(input, row.algorithm, ALGORITHM) else {
        return Err(WrongRecipient::Algorithm);
    };
    let Ok(key) = part_of(input, row.key, KEY) else {
        return Err(WrongRecipient::Key);
    };
    Ok(Recipient {
        name,
        algorithm,
        key,
    })
}

/// The part that `write_recipient` names. The whole never is wrong, so it may be any.
fn wrong_part(part: RecipientPart) -> WrongRecipient
    ensures { result ≡ wrong_part part }
{
    match part {
        RecipientPart::Identifier => WrongRecipient::Identifier,
        RecipientPart::Algorithm | RecipientPart::Whole => WrongRecipient::Algorithm,
    }
}

/// Why `write_recipient` writes nothing.
fn not_recipient(wrong: NotRecipient) -> NoRecipient
    ensures { IsWhy wrong result }
{
    match wrong.error {
        Error::TooLong => NoRecipient::NotWritten(Error::TooLong),
        Error::Memory => NoRecipient::NotWritten(Error::Memory),
        _ => NoRecipient::Part(wrong_part(wrong.part)),
    }
}

fn recipient_text(alloc: Global, input: &[u8], row: &RecipientGiven) -> Result<Vec<u8>, NoRecipient>
    ensures { MatchResult result
        (λ text. HasBuiltRecipient input.now row.now text.items)
        (λ no. IsNoRecipient input.now row.now no) }
{
    match parts_of(input, row) {
        Ok(parts) => match write_recipient(alloc, &parts) {
            Ok(text) => Ok(text),
            Err(wrong) => Err(not_recipient(wrong)),
        },
        Err(part) => Err(NoRecipient::Part(part)),
    }
}

/// Builds the recipient that is given, as octets of the input, and writes it to the front of `out`: one `RecipientInfo` for
/// `der_build_enveloped`. At `NORMAL` `written` is its length, at `NO_ROOM`, where `out` is too short, the length that it
/// needs, and otherwise 0. At `INVALID` a part can't be written, and `part` is its number in der.h, and otherwise 0. At
/// `TOO_LONG` the encoding is too long, and `NO_MEMORY` is answered for want of memory. Unless at `NORMAL` `out` is as it was.
pub fn der_build_recipient(
    alloc: Global,
    input: &[u8],
    given: &RecipientGiven,
    out: &mut [u8],
    written: &mut usize,
    part: &mut usize,
) -> u32
    ensures { BuildsRecipient input.now given.now out.old out.new written.new part.new result }
{
    *written = 0;
    *part = 0;
    match recipient_text(alloc, input, given) {
        Ok(text) => put_octets(&text, out, written),
        Err(NoRecipient::Part(wrong)) => {
            *part = number_of(wrong);
            status::INVALID
        }
        Err(NoRecipient::NotWritten(error)) => status_of(error),
    }
}
