//! The bags of PKCS #12, which may hold bags (RFC 7292, 4.2).

pub mod bags;
mod names;
mod selections;
mod walks;

pub use bags::{SafeBag, SafeBagKind, SafeContents};
pub use selections::{certificates_among, first_with_key_id, keys_among};
