//! Sources that give bytes and sinks that take them. Each counts its failures, so that a caller can tell from the
//! count alone whether one happened.
#![tactic(auto)]

pub mod sink;
pub mod source;

pub use sink::{Sink, StdSink, WriteFailed, send};
pub use source::{ReadError, Source, StdSource, read_all};
