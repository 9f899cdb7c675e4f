//! Readers of boxes.
ghost use Rattle.data_std.specs.Compound.{BoxReads};

use crate::types::Deserialize;
use data_core::{DeError, DeserializeSeed, Deserializer, Hint, Shown, Track};
use std::alloc::{AllocError, Global};

/// The reader of `Box<T>`: it takes what the reader of the inside takes, and then makes the box.
#[derive(Drop)]
pub struct BoxSeed<S: DeserializeSeed> {
    inner: S,
}

impl<S: DeserializeSeed> DeserializeSeed for BoxSeed<S> {
    type Value = Box<S::Value>;

    ghost asks = { λ seed. S.asks seed.inner };

    ghost reads = { λ seed. BoxReads (λ b. b.value) (S.reads seed.inner) };

    ghost quiet = { S.quiet };

    ghost placed = { S.placed };

    ghost leaves = { λ seed. S.leaves seed.inner };

    fn hint(&self) -> Hint<'_> {
        self.inner.hint()
    }

    fn visit<D: Deserializer>(
        self,
        alloc: Global,
        shown: Shown<D>,
        track: &mut Track,
    ) -> Result<Box<S::Value>, D::Error> {
        let value = self.inner.visit(alloc, shown, track)?;
        match Box::new(alloc, value) {
            Ok(held) => Ok(held),
            Err(_) => Err(D::Error::memory()),
        }
    }

    ghost use Rattle.data_std.specs.Compound.{box_refusal};

    ghost passes_refusals = { λ seed f. let passes = S.passes_refusals seed.inner f in (passes.0, box_refusal (λ b. b.value) (S.reads seed.inner) f passes.1) };
}

impl<T: Deserialize> Deserialize for Box<T> {
    type Seed = BoxSeed<T::Seed>;

    ghost asks = { T.asks };

    ghost reads = { BoxReads (λ b. b.value) T.reads };

    ghost leaves = { T.leaves };

    fn seed(alloc: Global) -> Result<BoxSeed<T::Seed>, AllocError> {
        Ok(BoxSeed {
            inner: T::seed(alloc)?,
        })
    }
}
