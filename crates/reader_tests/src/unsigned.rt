//! Unsigned integers of up to 64 bits.

use crate::checks::{refusal, says, scalar};
use data_core::Scalar;
use std::test::Fail;

#[test]
fn a_u8_keeps_its_range(rt: HostRuntime) -> Result<(), Fail> {
    let alloc = rt.alloc();
    assert!(rt; matches!(scalar::<u8>(alloc, Scalar::U64(255)), Ok(255)));
    let large = refusal::<u8>(alloc, Scalar::U16(256));
    says(&rt, large, "invalid value: integer `256`, expected u8")?;
    let negative = refusal::<u8>(alloc, Scalar::I8(-1));
    says(&rt, negative, "invalid value: integer `-1`, expected u8")
}

#[test]
fn a_u16_keeps_its_range(rt: HostRuntime) -> Result<(), Fail> {
    let alloc = rt.alloc();
    assert!(rt; matches!(scalar::<u16>(alloc, Scalar::I64(65535)), Ok(65535)));
    let large = refusal::<u16>(alloc, Scalar::U32(65536));
    says(&rt, large, "invalid value: integer `65536`, expected u16")
}

#[test]
fn a_u32_keeps_its_range(rt: HostRuntime) -> Result<(), Fail> {
    let alloc = rt.alloc();
    assert!(rt; matches!(scalar::<u32>(alloc, Scalar::U8(0)), Ok(0)));
    let large = refusal::<u32>(alloc, Scalar::U64(4294967296));
    says(
        &rt,
        large,
        "invalid value: integer `4294967296`, expected u32",
    )
}

#[test]
fn a_u64_is_no_wide_integer(rt: HostRuntime) -> Result<(), Fail> {
    let alloc = rt.alloc();
    let greatest = scalar::<u64>(alloc, Scalar::U64(18446744073709551615));
    assert!(rt; matches!(greatest, Ok(18446744073709551615)));
    let wide = refusal::<u64>(alloc, Scalar::U128(1));
    says(&rt, wide, "invalid type: u128, expected u64")
}
