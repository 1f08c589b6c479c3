//! Kinds of input: each names a type, and is named by a word.

ghost use Rattle.std.specs.Prelude.{◌≡◌, ◌≤◌, List, ℕ};
ghost use Rattle.der_engine.specs.Engine.{Rewriting};
ghost use Rattle.der_engine.specs.Steps.{Checks, RewritesAfter};
ghost use Rattle.der_engine.specs.Verdicts.{FindsEnd, Locates};

use crate::verdict::{Verdict, check_of, end_of};
use asn1_core_element::Error;
use std::alloc::Global;

/// Names of types, so that the type of an input is known only when the program runs.
pub trait KindOfInput: Copy {
    /// The word that names the kind.
    ghost word_of: { Self → List ℕ };

    /// What inputs of the kind are rewritten to, with at most so many levels of nesting.
    ghost rewriting_at: { Self → ℕ → Rewriting };

    /// The word that names the kind: its type in lower case.
    fn word(self) -> &'static str
        ensures { result.now ≡ word_of self };

    /// What `check_located_as` is of the type that the kind names.
    fn check_located(
        self,
        alloc: Global,
        limit: u8,
        input: &[u8],
    ) -> Result<Verdict, (Error, usize)>
        requires { limit ≤ 64 }
        ensures { Locates (rewriting_at self limit) input.now result };

    /// What `rewrite_as_limited` is of the type that the kind names.
    fn rewrite(self, alloc: Global, limit: u8, input: &[u8], out: &mut Vec<u8>) -> Result<(), Error>
        requires { limit ≤ 64 }
        ensures { RewritesAfter (rewriting_at self limit) input.now out.old.items out.new.items result };
}

/// What `check_as_limited` is of the type that a kind names.
pub fn check_by_kind<K: KindOfInput>(
    alloc: Global,
    kind: K,
    limit: u8,
    input: &[u8],
) -> Result<(bool, usize), Error>
    requires { limit ≤ 64 }
    ensures { Checks (K.rewriting_at kind limit) input.now result }
{
    check_of(kind.check_located(alloc, limit, input))
}

/// What `loose_end_as` is of the type that a kind names.
pub fn loose_end_by_kind<K: KindOfInput>(
    alloc: Global,
    kind: K,
    limit: u8,
    input: &[u8],
) -> Result<Option<usize>, Error>
    requires { limit ≤ 64 }
    ensures { FindsEnd (K.rewriting_at kind limit) input.now result }
{
    end_of(kind.check_located(alloc, limit, input))
}
