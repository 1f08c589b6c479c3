//! Leaves by themselves, and under an implicit tag.

use asn1_core::{DerDeserialize, EqualByText, Error, Implicit, TryClone, from_bytes};
use asn1_module_leaves::{
    BooleanAsn1, EnumeratedAsn1, KeptAsn1, NullAsn1, NumericStringAsn1, PrintableStringAsn1,
    TeletexStringAsn1, UniversalStringAsn1, VisibleStringAsn1,
};
use std::alloc::Global;
use std::test::Fail;
use vector_checks::checks::{expect, is_rewritten};

/// Reads each encoding and writes it again, and refuses each of the others.
fn reads<T: DerDeserialize + EqualByText + TryClone>(
    alloc: Global,
    accepted: &[&[u8]],
    refused: &[&[u8]],
) -> Result<(), Fail> {
    for text in accepted {
        let _value: T = is_rewritten(alloc, text, text)?;
    }
    for text in refused {
        let read: Result<T, Error> = from_bytes(alloc, text);
        expect(read.is_err(), "refused")?;
    }
    Ok(())
}

#[test]
fn constants(rt: HostRuntime) -> Result<(), Fail> {
    let refused = [b"\x01\x01\x01".as_slice(), b"\x01\x00", b"\x02\x01\x00"];
    reads::<BooleanAsn1>(rt.alloc(), &[b"\x01\x01\x00", b"\x01\x01\xFF"], &refused)?;
    reads::<NullAsn1>(rt.alloc(), &[b"\x05\x00"], &[b"\x05\x01\x00", b"\x04\x00"])?;
    reads::<Implicit<0, BooleanAsn1>>(rt.alloc(), &[b"\x80\x01\xFF"], &[b"\x80\x01\x01"])?;
    reads::<Implicit<1, NullAsn1>>(rt.alloc(), &[b"\x81\x00"], &[b"\x81\x01\x00"])
}

#[test]
fn numbers(rt: HostRuntime) -> Result<(), Fail> {
    let accepted = [b"\x0A\x01\x00".as_slice(), b"\x0A\x02\x00\xFF"];
    let refused = [
        b"\x0A\x01\xFF".as_slice(),
        b"\x0A\x02\x01\x00",
        b"\x0A\x02\x00\x01",
        b"\x02\x01\x00",
    ];
    reads::<EnumeratedAsn1>(rt.alloc(), &accepted, &refused)?;
    reads::<Implicit<2, EnumeratedAsn1>>(rt.alloc(), &[b"\x82\x01\x05"], &[b"\x82\x00"])
}

/// Reads the encoding and writes it again, and refuses the other.
fn reads_one<T: DerDeserialize + EqualByText + TryClone>(
    alloc: Global,
    accepted: &[u8],
    refused: &[u8],
) -> Result<(), Fail> {
    reads::<T>(alloc, &[accepted], &[refused])
}

#[test]
fn strings(rt: HostRuntime) -> Result<(), Fail> {
    let alloc = rt.alloc();
    reads_one::<NumericStringAsn1>(alloc, b"\x12\x0217", b"\x13\x0217")?;
    reads_one::<PrintableStringAsn1>(alloc, b"\x13\x02DE", b"\x12\x02DE")?;
    reads_one::<TeletexStringAsn1>(alloc, b"\x14\x02\xC8u", b"\x34\x02DE")?;
    reads_one::<VisibleStringAsn1>(alloc, b"\x1A\x05Jones", b"\x1A\x06Jones")?;
    reads_one::<UniversalStringAsn1>(alloc, b"\x1C\x04\x00\x00\x00A", b"\x1E\x00")?;
    // a GeneralizedTime with a fraction of a second (X.690, 11.7)
    reads_one::<KeptAsn1<0x18>>(alloc, b"\x18\x1220260102030405.25Z", b"\x17\x00")?;
    reads_one::<Implicit<3, VisibleStringAsn1>>(alloc, b"\x83\x05Jones", b"\xA3\x00")
}
