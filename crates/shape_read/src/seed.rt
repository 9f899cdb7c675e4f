//! A shape as a reader.
ghost use Rattle.std.specs.Prelude.{◌≡◌};
ghost use Rattle.data_core.specs.Outcome.{IsTold};
ghost use Rattle.data_core.specs.Tracking.{clear};
ghost use Rattle.shape_read.specs.First.{asks, visited};
ghost use Rattle.shape.specs.View.{shape_view, data_view};
ghost use Rattle.shape_read.specs.Refusals.{passes};

use crate::reader::{hint, visit};
use data_core::{DeserializeSeed, Deserializer, Hint, Shown, Track};
use shape::{Data, Shape};
use std::alloc::Global;

/// A shape as a reader. It is this project's own.
#[derive(Drop)]
pub struct ShapeSeed<'s> {
    shape: &'s Shape,
}

impl<'s> ShapeSeed<'s> {
    ghost use Rattle.shape_read.specs.ShapeSeed.{shape_of, shape_reads};

    /// A reader of the shape. Takes no memory.
    #[tactic(auto, using(crate::proofs::Seeds::told))]
    pub fn new(shape: &'s Shape) -> ShapeSeed<'s>
        ensures shape { shape_of result ≡ shape.entry.now }
        ensures told { IsTold data_view (visited (shape_view shape.entry.now)) (shape_reads result) }
    {
        ShapeSeed { shape }
    }
}

impl<'s> DeserializeSeed for ShapeSeed<'s> {
    type Value = Data;

    ghost use Rattle.shape_read.specs.ShapeSeed.{shape_of, shape_reads};

    ghost asks = { λ s. asks (shape_view (shape_of s)) };

    ghost reads = { λ s. shape_reads s };

    ghost quiet = { Unit {0} };

    ghost placed = { Unit {0} };

    ghost leaves = { λ _ _ now. now ≡ clear };

    fn hint(&self) -> Hint<'_> {
        hint(self.shape)
    }

    #[tactic(auto, using(crate::proofs::Seeds::among_outcomes))]
    fn visit<D: Deserializer>(
        self,
        alloc: Global,
        shown: Shown<D>,
        track: &mut Track,
    ) -> Result<Data, D::Error> {
        visit(alloc, self.shape, shown, track)
    }

    ghost passes_refusals = { λ s f. passes (shape_view (shape_of s)) f };
}
