//! Readers of options.
ghost use Rattle.std.specs.Prelude.{refl};
ghost use Rattle.data_core.specs.Ask as asks;
ghost use Rattle.data_core.specs.Reads.{ReadsFrom, LeavesFrom};
ghost use Rattle.data_std.specs.Compound.{OptionReads, OptionLeaves};

use crate::reading::deserialize;
use crate::types::Deserialize;
use data_core::{DeserializeSeed, Deserializer, Hint, Scalar, Shown, Track, refused};
use std::alloc::{AllocError, Global};
use std::marker::PhantomData;

/// The reader of `Option<T>`: what is absent and a unit are none, and what is there is read as `T`.
#[derive(Drop)]
pub struct OptionSeed<T: Deserialize> {
    of: PhantomData<T>,
}

impl<T: Deserialize> DeserializeSeed for OptionSeed<T> {
    type Value = Option<T>;

    ghost asks = { λ _. asks.option };

    ghost reads = { λ _. OptionReads (ReadsFrom T.asks T.reads) };

    ghost quiet = { T.Seed.quiet };

    ghost placed = { T.Seed.placed };

    ghost leaves = { λ _. OptionLeaves (LeavesFrom T.asks T.leaves) };

    fn hint(&self) -> Hint<'_> {
        Hint::Option
    }

    fn visit<D: Deserializer>(
        self,
        alloc: Global,
        shown: Shown<D>,
        track: &mut Track,
    ) -> Result<Option<T>, D::Error> {
        match shown {
            Shown::Scalar(Scalar::None | Scalar::Unit) => Ok(None),
            Shown::Some(inner) => Ok(Some(deserialize(alloc, inner, track)?)),
            other => Err(refused(alloc, other, "option")),
        }
    }

    ghost passes_refusals = { λ _ _. (refl, λ _ h. h) };
}

impl<T: Deserialize> Deserialize for Option<T> {
    type Seed = OptionSeed<T>;

    ghost asks = { asks.option };

    ghost reads = { OptionReads (ReadsFrom T.asks T.reads) };

    ghost leaves = { OptionLeaves (LeavesFrom T.asks T.leaves) };

    fn seed(_alloc: Global) -> Result<OptionSeed<T>, AllocError> {
        Ok(OptionSeed { of: PhantomData })
    }
}
