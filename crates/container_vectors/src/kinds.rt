//! Kinds and modes by their words, and what an input of a kind is.

use std::alloc::Global;
use std::test::Fail;
use vector_checks::checks::expect;
use x509_containers::{
    Error, Kind, KindOfInput, Mode, StoreKind, Verdict, each_kind_has_its_own_word, refusal,
};

/// The word of each kind names it, which the law says of all.
#[test]
fn words_of_kinds(rt: HostRuntime) -> Result<(), Fail> {
    each_kind_has_its_own_word();
    for kind in Kind::all() {
        let word = KindOfInput::word(*kind);
        assert_eq!(rt; Kind::from_octets(word.as_bytes()), Some(*kind));
    }
    assert_eq!(rt;
        Kind::from_octets(b"rawpfx"),
        Some(Kind::Store(StoreKind::RawPfx))
    );
    assert_eq!(rt; Kind::from_octets(b"RawPfx"), None);
    Ok(())
}

#[test]
fn words_of_modes(rt: HostRuntime) -> Result<(), Fail> {
    assert_eq!(rt; Mode::from_word("check"), Some(Mode::Check));
    assert_eq!(rt; Mode::from_word("rewrite"), Some(Mode::Rewrite));
    assert_eq!(rt; Mode::from_word("Check"), None);
    Ok(())
}

#[test]
fn lines_of_refusals(rt: HostRuntime) -> Result<(), Fail> {
    for (error, line) in [
        (Error::Malformed, "refused: malformed\n"),
        (Error::Missing, "refused: missing\n"),
        (Error::Invalid, "refused: invalid\n"),
        (Error::TooDeep, "refused: too deep\n"),
        (Error::TooLong, "refused: too long\n"),
        (Error::Memory, "refused: no memory\n"),
    ] {
        assert_eq!(rt; refusal(Mode::Check, error), line);
        assert_eq!(rt; refusal(Mode::Rewrite, error), "");
    }
    Ok(())
}

/// SHA-1 without NULL, as Microsoft's tools write it, and the same with NULL.
const LOOSE: &[u8] = b"\x30\x0B\x30\x07\x06\x05\x2B\x0E\x03\x02\x1A\x04\x00";

const NORMAL: &[u8] = b"\x30\x0D\x30\x09\x06\x05\x2B\x0E\x03\x02\x1A\x05\x00\x04\x00";

#[test]
fn a_loose_input(rt: HostRuntime) -> Result<(), Fail> {
    let kind = Kind::from_word("pkcs12digestinfo").ok_or("no kind")?;
    let verdict = KindOfInput::check_located(kind, rt.alloc(), 64, LOOSE);
    let loose = Verdict {
        loose_end: Some(11),
        encoding_len: 15,
    };
    expect(verdict == Ok(loose), "another verdict")?;
    is_rewritten(rt.alloc(), kind)
}

/// Asks that it is rewritten after what a buffer holds.
fn is_rewritten(alloc: Global, kind: Kind) -> Result<(), Fail> {
    let mut out = Vec::from_slice(alloc, b"ab")?;
    KindOfInput::rewrite(kind, alloc, 64, LOOSE, &mut out)?;
    let after = out.as_slice().strip_prefix(b"ab");
    expect(after == Some(NORMAL), "another encoding")
}
