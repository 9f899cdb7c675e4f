//! Signed integers of up to 64 bits.

use crate::checks::{refusal, says, scalar};
use data_core::Scalar;
use std::test::Fail;

#[test]
fn an_i8_keeps_its_range(rt: HostRuntime) -> Result<(), Fail> {
    let alloc = rt.alloc();
    assert!(rt; matches!(scalar::<i8>(alloc, Scalar::I64(-128)), Ok(-128)));
    let large = refusal::<i8>(alloc, Scalar::U8(128));
    says(&rt, large, "invalid value: integer `128`, expected i8")
}

#[test]
fn an_i16_keeps_its_range(rt: HostRuntime) -> Result<(), Fail> {
    let alloc = rt.alloc();
    assert!(rt; matches!(scalar::<i16>(alloc, Scalar::U64(32767)), Ok(32767)));
    let small = refusal::<i16>(alloc, Scalar::I32(-32769));
    says(&rt, small, "invalid value: integer `-32769`, expected i16")
}

#[test]
fn an_i32_is_no_boolean(rt: HostRuntime) -> Result<(), Fail> {
    let alloc = rt.alloc();
    assert!(rt; matches!(scalar::<i32>(alloc, Scalar::I8(-1)), Ok(-1)));
    let boolean = refusal::<i32>(alloc, Scalar::Bool(true));
    says(&rt, boolean, "invalid type: boolean `true`, expected i32")
}

#[test]
fn an_i64_keeps_its_range(rt: HostRuntime) -> Result<(), Fail> {
    let alloc = rt.alloc();
    let least = scalar::<i64>(alloc, Scalar::I64(-9223372036854775808));
    assert!(rt; matches!(least, Ok(-9223372036854775808)));
    let large = refusal::<i64>(alloc, Scalar::U64(9223372036854775808));
    says(
        &rt,
        large,
        "invalid value: integer `9223372036854775808`, expected i64",
    )
}
