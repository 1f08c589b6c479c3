//! Clones of times, which rows copy.

use asn1_core_format::TryClone;
use asn1_leaves_times::{GeneralizedTime, UTCTime};
use std::test::Fail;

#[test]
fn clones_of_times(rt: HostRuntime) -> Result<(), Fail> {
    let utc = UTCTime::new(1950, 4, 20, 6, 52, 24).ok_or("20 April 1950")?;
    assert_eq!(rt; utc.try_clone(rt.alloc())?, utc);
    let general = GeneralizedTime::new(2024, 2, 29, 23, 59, 59).ok_or("29 February 2024")?;
    assert_eq!(rt; general.try_clone(rt.alloc())?, general);
    Ok(())
}
