//! Integers of 128 bits.

use crate::checks::{refusal, says, scalar};
use data_core::Scalar;
use std::test::Fail;

const GREATEST_SIGNED: u128 = 170141183460469231731687303715884105727;

#[test]
fn an_i128_takes_narrow_integers(rt: HostRuntime) {
    let alloc = rt.alloc();
    assert!(rt; matches!(scalar::<i128>(alloc, Scalar::I8(-1)), Ok(-1)));
    let narrow = scalar::<i128>(alloc, Scalar::U64(18446744073709551615));
    assert!(rt; matches!(narrow, Ok(18446744073709551615)));
}

#[test]
fn an_i128_keeps_its_range(rt: HostRuntime) -> Result<(), Fail> {
    let alloc = rt.alloc();
    let greatest = scalar::<i128>(alloc, Scalar::U128(GREATEST_SIGNED));
    assert!(rt; matches!(greatest, Ok(170141183460469231731687303715884105727)));
    let large = refusal::<i128>(alloc, Scalar::U128(GREATEST_SIGNED + 1));
    says(&rt, large, "invalid value: u128, expected i128")
}

#[test]
fn a_u128_takes_what_is_not_negative(rt: HostRuntime) {
    let alloc = rt.alloc();
    assert!(rt; matches!(scalar::<u128>(alloc, Scalar::I128(1)), Ok(1)));
    let greatest = scalar::<u128>(alloc, Scalar::U128(u128::MAX));
    assert!(rt; matches!(greatest, Ok(340282366920938463463374607431768211455)));
}

#[test]
fn a_u128_is_not_negative(rt: HostRuntime) -> Result<(), Fail> {
    let alloc = rt.alloc();
    let narrow = refusal::<u128>(alloc, Scalar::I64(-1));
    says(&rt, narrow, "invalid value: integer `-1`, expected u128")?;
    let wide = refusal::<u128>(alloc, Scalar::I128(-1));
    says(&rt, wide, "invalid value: i128, expected u128")?;
    let boolean = refusal::<u128>(alloc, Scalar::Bool(true));
    says(&rt, boolean, "invalid type: boolean `true`, expected u128")
}
