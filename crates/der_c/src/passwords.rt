//! How a password encrypts.

ghost use Rattle.password_calls.specs.Built.{BuildsParameters};
ghost use Rattle.password_calls.specs.Passwords.{FindsParameters};

use password_calls::passwords::Password;
use password_calls::{built, passwords};
use std::alloc::Global;

/// As `built::der_build_parameters` of `password_calls`.
#[unsafe(no_mangle)]
pub extern "C" fn der_build_parameters(
    alloc: Global,
    holder: usize,
    input: &[u8],
    given: &Password,
    out: &mut [u8],
    written: &mut usize,
    part: &mut usize,
) -> u32
    ensures { BuildsParameters holder input.now given.now out.old out.new written.new part.new result }
{
    built::der_build_parameters(alloc, holder, input, given, out, written, part)
}

/// As `passwords::der_password_parameters` of `password_calls`.
#[unsafe(no_mangle)]
pub extern "C" fn der_password_parameters(
    alloc: Global,
    holder: usize,
    input: &[u8],
    out: &mut Password,
    place: &mut usize,
) -> u32
    ensures { FindsParameters holder input.now out.new place.new result }
{
    passwords::der_password_parameters(alloc, holder, input, out, place)
}
