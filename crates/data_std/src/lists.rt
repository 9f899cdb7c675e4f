//! Readers of lists.
ghost use Rattle.std.specs.Prelude.{◌≡◌, true, refl, OnOk};
ghost use Rattle.data_core.specs.Ask as asks;
ghost use Rattle.data_core.specs.Outcome.{Among};
ghost use Rattle.data_core.specs.Reads.{ReadsFrom, LeavesFrom};
ghost use Rattle.data_core.specs.Tracking.{Keeps, clear};
ghost use Rattle.data_std.specs.Compound.{ElementsRead, ListReads};
ghost use Rattle.data_std.specs.Swallowed.{SequenceLeaves, EachLeaves};

use crate::reading::next_element;
use crate::types::Deserialize;
use data_core::{DeError, DeserializeSeed, Deserializer, Hint, Shown, Track, refused};
use std::alloc::{AllocError, Global};
use std::marker::PhantomData;

/// The reader of `Vec<T>`: it takes a sequence, to its end, and reads each element as `T`.
#[derive(Drop)]
pub struct VecSeed<T: Deserialize> {
    of: PhantomData<T>,
}

impl<T: Deserialize> DeserializeSeed for VecSeed<T> {
    type Value = Vec<T>;

    ghost asks = { λ _. asks.seq };

    ghost reads = { λ _. ListReads (λ v. v.items) (ReadsFrom T.asks T.reads) };

    ghost quiet = { T.Seed.quiet };

    // An element that went on from a refusal would leave a path that a later refusal is not at.
    ghost placed = { T.Seed.placed × T.Seed.quiet };

    ghost leaves = { λ _. SequenceLeaves (EachLeaves (LeavesFrom T.asks T.leaves) 0) };

    fn hint(&self) -> Hint<'_> {
        Hint::Seq
    }

    fn visit<D: Deserializer>(
        self,
        alloc: Global,
        shown: Shown<D>,
        track: &mut Track,
    ) -> Result<Vec<T>, D::Error> {
        match shown {
            Shown::Seq(seq) => elements::<D, T>(alloc, seq, track),
            other => Err(refused(alloc, other, "seq")),
        }
    }

    ghost passes_refusals = { λ _ _. (refl, λ _ h. h) };
}

impl<T: Deserialize> Deserialize for Vec<T> {
    type Seed = VecSeed<T>;

    ghost asks = { asks.seq };

    ghost reads = { ListReads (λ v. v.items) (ReadsFrom T.asks T.reads) };

    ghost leaves = { SequenceLeaves (EachLeaves (LeavesFrom T.asks T.leaves) 0) };

    fn seed(_alloc: Global) -> Result<VecSeed<T>, AllocError> {
        Ok(VecSeed { of: PhantomData })
    }
}

// The elements that are left.
fn elements<D: Deserializer, T: Deserialize>(
    alloc: Global,
    seq: D::Seq,
    track: &mut Track,
) -> Result<Vec<T>, D::Error>
    ensures reads { Among D.Error.fault (T.Seed.placed × T.Seed.quiet) D.tracks result
        (ElementsRead (λ v. v.items) (ReadsFrom T.asks T.reads) (D.sequence seq).taken (D.sequence seq).left)
        track.old track.new }
    ensures keeps { Keeps D.Error.fault T.Seed.quiet D.tracks result track.old track.new }
    ensures leaves { D.tracks ≡ true → track.old ≡ clear → OnOk result
        (EachLeaves (LeavesFrom T.asks T.leaves) (D.sequence seq).taken (D.sequence seq).left track.new) }
{
    let mut seq = seq;
    let mut items = Vec::new(alloc);
    'elements: while let Some(item) = next_element::<D, T>(alloc, &mut seq, track)? {
        if items.push(item).is_err() {
            return Err(D::Error::memory());
        }
    }
    Ok(items)
}
