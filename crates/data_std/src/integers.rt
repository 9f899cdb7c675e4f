//! The integer types have readers of their own.
ghost use Rattle.std.specs.Prelude.{◌≡◌, ◌-◌, ◌^◌, pos, negsuc};
ghost use Rattle.data_core.specs.Ask as asks;
ghost use Rattle.data_core.specs.Reads.{IsOutcome};
ghost use Rattle.data_core.specs.Tracking.{clear};
ghost use Rattle.scalar_seeds.specs.Scalars.{integer_of, wide_of};

use crate::types::Deserialize;
use scalar_seeds::{IntegerSeed, WideIntegerSeed};
use std::alloc::{AllocError, Global};

impl Deserialize for u8 {
    type Seed = IntegerSeed<u8>;

    ghost asks = { asks.u8 };

    ghost reads = { λ offer outcome. IsOutcome (pos) (integer_of (pos 0) (pos (2 ^ 8 - 1)) offer) outcome };

    ghost leaves = { λ _ now. now ≡ clear };

    fn seed(_alloc: Global) -> Result<IntegerSeed<u8>, AllocError> {
        Ok(IntegerSeed::new())
    }
}

impl Deserialize for u16 {
    type Seed = IntegerSeed<u16>;

    ghost asks = { asks.u16 };

    ghost reads = { λ offer outcome. IsOutcome (pos) (integer_of (pos 0) (pos (2 ^ 16 - 1)) offer) outcome };

    ghost leaves = { λ _ now. now ≡ clear };

    fn seed(_alloc: Global) -> Result<IntegerSeed<u16>, AllocError> {
        Ok(IntegerSeed::new())
    }
}

impl Deserialize for u32 {
    type Seed = IntegerSeed<u32>;

    ghost asks = { asks.u32 };

    ghost reads = { λ offer outcome. IsOutcome (pos) (integer_of (pos 0) (pos (2 ^ 32 - 1)) offer) outcome };

    ghost leaves = { λ _ now. now ≡ clear };

    fn seed(_alloc: Global) -> Result<IntegerSeed<u32>, AllocError> {
        Ok(IntegerSeed::new())
    }
}

impl Deserialize for u64 {
    type Seed = IntegerSeed<u64>;

    ghost asks = { asks.u64 };

    ghost reads = { λ offer outcome. IsOutcome (pos) (integer_of (pos 0) (pos (2 ^ 64 - 1)) offer) outcome };

    ghost leaves = { λ _ now. now ≡ clear };

    fn seed(_alloc: Global) -> Result<IntegerSeed<u64>, AllocError> {
        Ok(IntegerSeed::new())
    }
}

impl Deserialize for i8 {
    type Seed = IntegerSeed<i8>;

    ghost asks = { asks.i8 };

    ghost reads = { λ offer outcome. IsOutcome (λ n. n) (integer_of (negsuc (2 ^ 7 - 1)) (pos (2 ^ 7 - 1)) offer) outcome };

    ghost leaves = { λ _ now. now ≡ clear };

    fn seed(_alloc: Global) -> Result<IntegerSeed<i8>, AllocError> {
        Ok(IntegerSeed::new())
    }
}

impl Deserialize for i16 {
    type Seed = IntegerSeed<i16>;

    ghost asks = { asks.i16 };

    ghost reads = { λ offer outcome. IsOutcome (λ n. n) (integer_of (negsuc (2 ^ 15 - 1)) (pos (2 ^ 15 - 1)) offer) outcome };

    ghost leaves = { λ _ now. now ≡ clear };

    fn seed(_alloc: Global) -> Result<IntegerSeed<i16>, AllocError> {
        Ok(IntegerSeed::new())
    }
}

impl Deserialize for i32 {
    type Seed = IntegerSeed<i32>;

    ghost asks = { asks.i32 };

    ghost reads = { λ offer outcome. IsOutcome (λ n. n) (integer_of (negsuc (2 ^ 31 - 1)) (pos (2 ^ 31 - 1)) offer) outcome };

    ghost leaves = { λ _ now. now ≡ clear };

    fn seed(_alloc: Global) -> Result<IntegerSeed<i32>, AllocError> {
        Ok(IntegerSeed::new())
    }
}

impl Deserialize for i64 {
    type Seed = IntegerSeed<i64>;

    ghost asks = { asks.i64 };

    ghost reads = { λ offer outcome. IsOutcome (λ n. n) (integer_of (negsuc (2 ^ 63 - 1)) (pos (2 ^ 63 - 1)) offer) outcome };

    ghost leaves = { λ _ now. now ≡ clear };

    fn seed(_alloc: Global) -> Result<IntegerSeed<i64>, AllocError> {
        Ok(IntegerSeed::new())
    }
}

impl Deserialize for u128 {
    type Seed = WideIntegerSeed<u128>;

    ghost asks = { asks.u128 };

    ghost reads = { λ offer outcome. IsOutcome (pos) (wide_of (pos 0) (pos (2 ^ 128 - 1)) offer) outcome };

    ghost leaves = { λ _ now. now ≡ clear };

    fn seed(_alloc: Global) -> Result<WideIntegerSeed<u128>, AllocError> {
        Ok(WideIntegerSeed::new())
    }
}

impl Deserialize for i128 {
    type Seed = WideIntegerSeed<i128>;

    ghost asks = { asks.i128 };

    ghost reads = { λ offer outcome. IsOutcome (λ n. n) (wide_of (negsuc (2 ^ 127 - 1)) (pos (2 ^ 127 - 1)) offer) outcome };

    ghost leaves = { λ _ now. now ≡ clear };

    fn seed(_alloc: Global) -> Result<WideIntegerSeed<i128>, AllocError> {
        Ok(WideIntegerSeed::new())
    }
}
