//! Reads, writes or clones what a file holds, so many times: bench/instructions counts what one such call takes.

use crate::ExampleError;
use std::alloc::Global;
use x509_containers::{
    CertificateList, DerDeserialize, EncapsulatedContentInfo, EnvelopedData, Error, MacData,
    ParsedAuthenticatedSafeDataRepr, Pfx, Pkcs7Certificate, RawPfx, SafeContents, TryClone,
    from_bytes, to_vec,
};

fn read_times<T: DerDeserialize>(alloc: Global, file: &[u8], count: u32) -> Result<(), Error> {
    for _ in 0..count {
        let _value: T = from_bytes(alloc, file)?;
    }
    Ok(())
}

fn write_times<T: DerDeserialize>(alloc: Global, file: &[u8], count: u32) -> Result<(), Error> {
    let value: T = from_bytes(alloc, file)?;
    for _ in 0..count {
        let _text = to_vec(alloc, &value)?;
    }
    Ok(())
}

fn clone_times<T: DerDeserialize + TryClone>(
    alloc: Global,
    file: &[u8],
    count: u32,
) -> Result<(), Error> {
    let value: T = from_bytes(alloc, file)?;
    for _ in 0..count {
        let _copy = value.try_clone(alloc)?;
    }
    Ok(())
}

fn repeat_as<T: DerDeserialize + TryClone>(
    alloc: Global,
    operation: &str,
    count: u32,
    file: &[u8],
) -> Result<(), ExampleError> {
    match operation {
        "read" => Ok(read_times::<T>(alloc, file, count)?),
        "write" => Ok(write_times::<T>(alloc, file, count)?),
        "clone" => Ok(clone_times::<T>(alloc, file, count)?),
        _ => Err(ExampleError::Usage),
    }
}

/// Does it to a value of the type of PKCS #7 or CMS that has this word.
fn repeat_content(
    alloc: Global,
    word: &str,
    operation: &str,
    count: u32,
    file: &[u8],
) -> Result<(), ExampleError> {
    match word {
        "encapsulatedcontentinfo" => {
            repeat_as::<EncapsulatedContentInfo>(alloc, operation, count, file)
        }
        "pkcs7certificate" => repeat_as::<Pkcs7Certificate>(alloc, operation, count, file),
        "envelopeddata" => repeat_as::<EnvelopedData>(alloc, operation, count, file),
        "certificatelist" => repeat_as::<CertificateList>(alloc, operation, count, file),
        _ => Err(ExampleError::Usage),
    }
}

/// Does it to a value of the type of PKCS #12 that has this word, or of another type.
fn repeat_word(
    alloc: Global,
    word: &str,
    operation: &str,
    count: u32,
    file: &[u8],
) -> Result<(), ExampleError> {
    match word {
        "rawpfx" => repeat_as::<RawPfx>(alloc, operation, count, file),
        "pfx" => repeat_as::<Pfx<ParsedAuthenticatedSafeDataRepr>>(alloc, operation, count, file),
        "macdata" => repeat_as::<MacData>(alloc, operation, count, file),
        "safecontents" => repeat_as::<SafeContents>(alloc, operation, count, file),
        _ => repeat_content(alloc, word, operation, count, file),
    }
}

/// Does it to a value of the type that `derbox` knows by this word.
pub fn repeat(
    alloc: Global,
    word: &str,
    operation: &str,
    count: &str,
    file: &[u8],
) -> Result<(), ExampleError> {
    let Ok(count) = count.parse::<u32>() else {
        return Err(ExampleError::Usage);
    };
    repeat_word(alloc, word, operation, count, file)
}
