//! Texts that are compared with an input, without memory.

ghost use Rattle.std.specs.Prelude.{◌≡◌, ◌↔◌, ℕ, [], Some, Ok, IsTrue, true};
ghost use Rattle.std.proofs.Common.{rules};
ghost use Rattle.asn1_core_writers.specs.Comparing.{Comparison, ComparesTo, IsBefore, IsLongestEnd, IsPlace, borrowed, before_of, place_of, compared_nothing};
ghost use Rattle.asn1_core_writers.specs.laws.Comparing.{compared_backward};

use crate::writer::{WriteError, Writer};
use std::marker::Model;

/// Holds an input against what it takes, from the end of both. After a refusal nothing is promised of where it is.
#[derive(Drop)]
pub struct Compare<'a> {
    /// What the input has before the bytes that were taken; once these are no end of it, how many bytes it has before the
    /// longest end of both.
    before: Result<&'a [u8], usize>,
    total: usize,
}

impl<'a> Model for Compare<'a> {
    ghost use Rattle.asn1_core_writers.specs.Comparing.{Comparison, borrowed};

    ghost Value = { Comparison };

    ghost view = { λ c. record { before = borrowed c.before; total = c.total } };
}

impl<'a> Compare<'a> {
    /// Nothing was taken.
    pub fn new(input: &'a [u8]) -> Compare<'a>
        ensures { result ≡ record { before = Ok input.now; total = 0 } }
    {
        Compare {
            before: Ok(input),
            total: 0,
        }
    }

    /// How many bytes were taken.
    pub fn total(&self) -> usize
        ensures { result ≡ self.now.total }
    {
        self.total
    }

    /// Where in the input the longest end begins that what was taken ends in too. It is the input's length where the last
    /// bytes differ, and 0 where the whole input is an end of what was taken.
    pub fn place(&self) -> usize
        ensures { result ≡ place_of self.now.before }
    {
        match self.before {
            Ok(before) => before.len(),
            Err(place) => place,
        }
    }

    /// Whether what was taken is the input.
    pub fn is_same(&self) -> bool
        ensures { IsTrue result ↔ (before_of self.now.before ≡ Some []) }
    {
        match self.before {
            Ok(before) => before.is_empty(),
            Err(_) => false,
        }
    }
}

/// How many bytes an input has before the longest end of it and of other bytes.
fn before_longest_end(input: &[u8], bytes: &[u8]) -> usize
    ensures { IsLongestEnd bytes.now input.now result }
{
    let mut before = input;
    let mut rest = bytes;
    while let [front @ .., last] = before {
        let [others @ .., other] = rest else {
            return before.len();
        };
        if last != other {
            return before.len();
        }
        before = front;
        rest = others;
    }
    0
}

/// What is before that end, if it is one. Only where it first differs are bytes compared one by one.
fn without_end<'a>(before: Result<&'a [u8], usize>, end: &[u8]) -> Result<&'a [u8], usize>
    ensures before { IsBefore end.now (before_of (borrowed before.entry)) (before_of (borrowed result)) }
    ensures place { IsPlace end.now (borrowed before.entry) (borrowed result) }
{
    let whole = before?;
    match whole.strip_suffix(end) {
        Some(front) => Ok(front),
        None => Err(before_longest_end(whole, end)),
    }
}

impl<'a> Writer for Compare<'a> {
    ghost Takes = { ComparesTo };

    ghost MayTake = { λ _. Unit {0} };

    ghost count = { λ w. w.total };

    ghost BACKWARD = { true };

    fn is_backward() -> bool
        ensures { result ≡ true }
    {
        true
    }

    fn bytes(&mut self, bytes: &[u8]) -> Result<(), WriteError> {
        let Some(total) = self.total.checked_add(bytes.len()) else {
            return Err(WriteError::TooLong);
        };
        self.total = total;
        self.before = without_end(self.before, bytes);
        Ok(())
    }

    fn count(&self) -> usize {
        self.total
    }

    ghost nothing = { λ w _. compared_nothing w };

    ghost goes_on = { λ _ _ _ _ _ _. tt };

    ghost forward = { Prim.search rules };

    ghost backward = { λ _. compared_backward };
}
