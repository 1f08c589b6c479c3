//! PKCS #12 files (RFC 7292) in BER, as NSS, GnuTLS and others write them: the octets that the MAC covers, as they are in
//! the file, and the contents, read of their DER.
#![tactic(auto)]

pub mod content_infos;
pub mod in_der;
pub mod laws;
pub mod mac_ranges;
pub mod pfxs;
pub mod reading;

pub use content_infos::BerContentInfo;
pub use laws::{a_file_has_one_reading, der_files_read_as_pfx};
pub use mac_ranges::ber_mac_range;
pub use pfxs::BerPfx;
pub use reading::{BufferOffset, read_ber_pfx};
