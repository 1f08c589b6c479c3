//! Writers, which take the bytes of an encoding. One measures it, one fills a buffer from its end, one an array, one
//! appends it to a buffer, one compares it with an input, and every sink takes it from its front, directly or by an
//! array where small pieces wait. A type is written by one method over any of them.
#![tactic(auto)]

pub mod backward;
pub mod buffered;
pub mod compare;
pub mod elements;
pub mod forward;
pub mod measure;
pub mod numbers;
pub mod short;
pub mod sinks;
pub mod writer;

pub use backward::Backward;
pub use buffered::Buffered;
pub use compare::Compare;
pub use elements::{put_element, put_head};
pub use forward::Forward;
pub use measure::Measure;
pub use numbers::put_unsigned;
pub use short::{SHORT, Short};
pub use writer::{WriteError, Writer};
