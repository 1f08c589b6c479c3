//! What the program says of an input of each kind: the kinds of all layers together.

ghost use Rattle.std.specs.Prelude.{◌≡◌, ◌≢◌, ◌↔◌, ◌+◌, ◌<◌, ◌≤◌, IsTrue, MatchOption};
ghost use Rattle.der_engine.specs.Engine.{Runs, read_failures, write_failures};
ghost use Rattle.der_engine.specs.Steps.{Checks, RewritesAfter};
ghost use Rattle.der_engine.specs.Verdicts.{FindsEnd, Locates};
ghost use Rattle.x509_containers.specs.Kinds.{rewriting_as, rewriting_at, word_of};

mod algorithms;
mod authenticode;
mod content_infos;
mod enveloped;
mod signed_data;
mod signed_parts;
mod stores;
mod table;
mod trust_lists;

use crate::kinds::table::all_kinds;
use crate::{
    algorithm_kinds, authenticode_kinds, content_kinds, enveloped_kinds, signed_data_kinds,
    signed_part_kinds, store_kinds, trust_list_kinds,
};
pub use algorithms::AlgorithmKind;
use asn1_core::{Error, MAX_NESTING};
use asn1_core_streams::{Sink, Source};
pub use authenticode::AuthenticodeKind;
pub use content_infos::ContentKind;
use der_engine::{KindOfInput, Mode, Outcome, Verdict, check_by_kind, loose_end_by_kind};
pub use enveloped::EnvelopedKind;
pub use signed_data::SignedDataKind;
pub use signed_parts::SignedPartKind;
use std::alloc::Global;
pub use stores::StoreKind;
pub use trust_lists::TrustListKind;

/// The type that an input is read as, by layers.
#[derive(Clone, Copy, Debug, PartialEq, Eq)]
pub enum Kind {
    Algorithm(AlgorithmKind),
    Authenticode(AuthenticodeKind),
    Content(ContentKind),
    Enveloped(EnvelopedKind),
    SignedData(SignedDataKind),
    SignedPart(SignedPartKind),
    Store(StoreKind),
    TrustList(TrustListKind),
}

impl Kind {
    ghost use Rattle.x509_containers.specs.Kinds.{IsAmong, kinds};

    /// All kinds, layer by layer.
    pub fn all() -> &'static [Kind]
        ensures list { result.now ≡ kinds }
        ensures every { (kind : Kind) → IsAmong result.now kind }
    {
        algorithm_kinds!(all_kinds([] Algorithm,
            authenticode_kinds Authenticode,
            content_kinds Content,
            enveloped_kinds Enveloped,
            signed_data_kinds SignedData,
            signed_part_kinds SignedPart,
            store_kinds Store,
            trust_list_kinds TrustList))
    }

    /// The kind that a word names: the name of its type in lower case.
    pub fn from_word(word: &str) -> Option<Kind>
        ensures { MatchOption result ((kind : Kind) → word.now ≢ word_of kind) (λ kind. word.now ≡ word_of kind) }
    {
        Kind::from_octets(word.as_bytes())
    }

    /// The kind that a word names, by the octets of the word.
    pub fn from_octets(word: &[u8]) -> Option<Kind>
        ensures { MatchOption result ((kind : Kind) → word.now ≢ word_of kind) (λ kind. word.now ≡ word_of kind) }
    {
        for kind in Kind::all() {
            if is_word(*kind, word) {
                return Some(*kind);
            }
        }
        None
    }
}

/// No two kinds have one word, so what `from_word` gives is the only kind that the word names.
pub fn each_kind_has_its_own_word()
    ensures { (a b : Kind) → word_of a ≡ word_of b → a ≡ b }
{}

fn is_word(kind: Kind, word: &[u8]) -> bool
    ensures { IsTrue result ↔ (word.now ≡ word_of kind) }
{
    kind.word().as_bytes() == word
}

/// Calls a method of the kind of its layer.
macro_rules! by_layer {
    ($kind:expr, $call:ident($($argument:expr),*)) => {
        match $kind {
            Kind::Algorithm(kind) => kind.$call($($argument),*),
            Kind::Authenticode(kind) => kind.$call($($argument),*),
            Kind::Content(kind) => kind.$call($($argument),*),
            Kind::Enveloped(kind) => kind.$call($($argument),*),
            Kind::SignedData(kind) => kind.$call($($argument),*),
            Kind::SignedPart(kind) => kind.$call($($argument),*),
            Kind::Store(kind) => kind.$call($($argument),*),
            Kind::TrustList(kind) => kind.$call($($argument),*),
        }
    };
}

impl KindOfInput for Kind {
    ghost word_of = { word_of };

    ghost rewriting_at = { rewriting_at };

    fn word(self) -> &'static str {
        by_layer!(self, word())
    }

    fn check_located(
        self,
        alloc: Global,
        limit: u8,
        input: &[u8],
    ) -> Result<Verdict, (Error, usize)> {
        by_layer!(self, check_located(alloc, limit, input))
    }

    fn rewrite(
        self,
        alloc: Global,
        limit: u8,
        input: &[u8],
        out: &mut Vec<u8>,
    ) -> Result<(), Error> {
        by_layer!(self, rewrite(alloc, limit, input, out))
    }
}

/// Whether an input of the kind is normal, and how many bytes its encoding has. Refuses as `from_bytes` does,
/// and by `TooLong`.
pub fn check(alloc: Global, kind: Kind, input: &[u8]) -> Result<(bool, usize), Error>
    ensures { Checks (rewriting_as kind) input.now result }
{
    check_limited(alloc, kind, MAX_NESTING, input)
}

/// What `check` says, with at most `limit` levels of nesting: an input with more is refused by `TooDeep`. What is
/// accepted at one limit gets the same answer at every larger one.
pub fn check_limited(
    alloc: Global,
    kind: Kind,
    limit: u8,
    input: &[u8],
) -> Result<(bool, usize), Error>
    requires { limit ≤ 64 }
    ensures { Checks (rewriting_at kind limit) input.now result }
{
    check_by_kind(alloc, kind, limit, input)
}

/// What `check_limited` says, and where: in a loose input where the end begins that it and its encoding have in common,
/// and where an input is refused, as `from_bytes_located` says it. The place of `TooLong` is 0.
pub fn check_located(
    alloc: Global,
    kind: Kind,
    limit: u8,
    input: &[u8],
) -> Result<Verdict, (Error, usize)>
    requires { limit ≤ 64 }
    ensures { Locates (rewriting_at kind limit) input.now result }
{
    kind.check_located(alloc, limit, input)
}

/// Where an input of the kind is loose; `None` where it is normal. The input from the place on is what its encoding ends
/// in too, and no longer end is. Refuses as `check` does.
pub fn loose_end(alloc: Global, kind: Kind, input: &[u8]) -> Result<Option<usize>, Error>
    ensures { FindsEnd (rewriting_as kind) input.now result }
{
    loose_end_by_kind(alloc, kind, MAX_NESTING, input)
}

/// Appends the encoding of the value of an input of the kind. A refusal leaves what the vector holds as it was.
pub fn rewrite(alloc: Global, kind: Kind, input: &[u8], out: &mut Vec<u8>) -> Result<(), Error>
    ensures { RewritesAfter (rewriting_as kind) input.now out.old.items out.new.items result }
{
    rewrite_limited(alloc, kind, MAX_NESTING, input, out)
}

/// What `rewrite` does, with at most `limit` levels of nesting: an input with more is refused by `TooDeep`.
pub fn rewrite_limited(
    alloc: Global,
    kind: Kind,
    limit: u8,
    input: &[u8],
    out: &mut Vec<u8>,
) -> Result<(), Error>
    requires { limit ≤ 64 }
    ensures { RewritesAfter (rewriting_at kind limit) input.now out.old.items out.new.items result }
{
    kind.rewrite(alloc, limit, input, out)
}

/// Reads a source to its end as a value of the kind, and writes what is asked of it: in check a line, in rewrite the
/// encoding. The first read or write that fails ends the run. A source that never ends gets `Refused(Memory)`, once the
/// buffer holds what it may.
pub fn run<R: Source, W: Sink>(
    alloc: Global,
    source: &mut R,
    sink: &mut W,
    mode: Mode,
    kind: Kind,
) -> Outcome
    requires reads { R.failed source.old < u64.MAX }
    requires writes { W.failed sink.old < u64.MAX }
    ensures answer { Runs (rewriting_as kind) mode (R.coming source.old)
        W.received sink.old sink.new result }
    ensures reads { R.failed source.new ≡ R.failed source.old + read_failures result }
    ensures writes { W.failed sink.new ≡ W.failed sink.old + write_failures result }
{
    der_engine::run(alloc, source, sink, mode, kind)
}
