//! The words of errors.

use asn1_core_element::Error;
use asn1_core_streams::{ReadError, WriteFailed};
use asn1_core_writers::WriteError;
use asn1_leaves_strings::{CharSetError, StringError};
use std::test::Fail;

#[test]
fn errors_have_words(rt: HostRuntime) -> Result<(), Fail> {
    let words = format!(in rt.alloc();
        "{}, {}, {}, {}, {}, {}; {}, {}; {}, {}, {}; {}; {}, {}",
        Error::Malformed,
        Error::Missing,
        Error::Invalid,
        Error::TooDeep,
        Error::TooLong,
        Error::Memory,
        WriteError::TooLong,
        WriteError::Failed,
        ReadError::Failed,
        ReadError::Memory,
        WriteFailed,
        CharSetError,
        StringError::CharSet(CharSetError),
        StringError::Memory
    )?;
    assert_eq!(rt;
        words.as_str(),
        "malformed, missing, invalid, too deep, too long, no memory; too long, failed; read failed, no memory, write \
        failed; octets outside the character set; octets outside the character set, no memory"
    );
    Ok(())
}
