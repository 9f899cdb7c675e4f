//! `bool`, `()`, `char` and `String` have readers of their own.
ghost use Rattle.std.specs.Prelude.{◌≡◌, string_bytes};
ghost use Rattle.data_core.specs.Ask as asks;
ghost use Rattle.data_core.specs.Reads.{IsOutcome};
ghost use Rattle.data_core.specs.Tracking.{clear};
ghost use Rattle.scalar_seeds.specs.Scalars.{boolean_of, character_of, text_of, unit_of};

use crate::types::Deserialize;
use scalar_seeds::{BoolSeed, CharSeed, StringSeed, UnitSeed};
use std::alloc::{AllocError, Global};

impl Deserialize for bool {
    type Seed = BoolSeed;

    ghost asks = { asks.boolean };

    ghost reads = { λ offer outcome. IsOutcome (λ b. b) (boolean_of offer) outcome };

    ghost leaves = { λ _ now. now ≡ clear };

    fn seed(_alloc: Global) -> Result<BoolSeed, AllocError> {
        Ok(BoolSeed)
    }
}

impl Deserialize for () {
    type Seed = UnitSeed;

    ghost asks = { asks.unit };

    ghost reads = { λ offer outcome. IsOutcome (λ u. u) (unit_of offer) outcome };

    ghost leaves = { λ _ now. now ≡ clear };

    fn seed(_alloc: Global) -> Result<UnitSeed, AllocError> {
        Ok(UnitSeed)
    }
}

impl Deserialize for char {
    type Seed = CharSeed;

    ghost asks = { asks.character };

    ghost reads = { λ offer outcome. IsOutcome (λ c. c) (character_of offer) outcome };

    ghost leaves = { λ _ now. now ≡ clear };

    fn seed(_alloc: Global) -> Result<CharSeed, AllocError> {
        Ok(CharSeed)
    }
}

impl Deserialize for String {
    type Seed = StringSeed;

    ghost asks = { asks.string };

    ghost reads = { λ offer outcome. IsOutcome string_bytes (text_of offer) outcome };

    ghost leaves = { λ _ now. now ≡ clear };

    fn seed(_alloc: Global) -> Result<StringSeed, AllocError> {
        Ok(StringSeed)
    }
}
