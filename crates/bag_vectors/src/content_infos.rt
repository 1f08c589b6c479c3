//! Contents that aren't parsed, written and cloned.

use crate::stores::{no_data, store};
use bag_ranges::RawContentInfo;
use std::alloc::Global;
use std::test::Fail;
use vector_checks::checks::{expect, is_rewritten, is_written};

/// The content that is this part of a file. It is written as it is there, and so is its clone.
fn content_at(alloc: Global, part: Option<&[u8]>) -> Result<RawContentInfo, Fail> {
    let Some(octets) = part else {
        return Err(Fail::new("the file is short"));
    };
    let content: RawContentInfo = is_rewritten(alloc, octets, octets)?;
    is_written(alloc, &content, octets)?;
    Ok(content)
}

/// Encrypted contents.
#[test]
fn with_content(rt: HostRuntime) -> Result<(), Fail> {
    let content = content_at(rt.alloc(), store().get(401..453))?;
    let Some(inner) = &content.content else {
        return Err(Fail::new("no content"));
    };
    expect(
        store().get(416..453) == Some(inner.0.0.as_slice()),
        "another content",
    )
}

/// Data that aren't there.
#[test]
fn without_content(rt: HostRuntime) -> Result<(), Fail> {
    let content = content_at(rt.alloc(), no_data().get(24..37))?;
    expect(content.content.is_none(), "a content")
}
