//! Readers of tuples.
ghost use Rattle.std.specs.Prelude.{◌≡◌, ◌+◌, ◌<◌, true, OnOk, refl};
ghost use Rattle.data_core.specs.Ask as asks;
ghost use Rattle.data_core.specs.Sequence.{rest_of, LeavesNext};
ghost use Rattle.data_core.specs.Outcome.{Among};
ghost use Rattle.data_core.specs.Reads.{ReadsFrom, LeavesFrom};
ghost use Rattle.data_core.specs.Tracking.{Keeps, clear};
ghost use Rattle.data_std.specs.Compound.{SequenceReads, PartReads, Parts1, Parts2, Parts3, Parts4};
ghost use Rattle.data_std.specs.Swallowed.{SequenceLeaves, PartsLeave2, PartsLeave3, PartsLeave4};

use crate::reading::next_element;
use crate::types::Deserialize;
use data_core::{DeError, DeserializeSeed, Deserializer, Hint, Shown, Track, refused};
use std::alloc::{AllocError, Global};
use std::marker::PhantomData;

/// The reader of a tuple of one element, which takes a sequence of at least so many. What follows them
/// is refused where the sequence checks its end, and else left.
#[derive(Drop)]
pub struct Tuple1Seed<T0: Deserialize> {
    of: PhantomData<(T0,)>,
}

impl<T0: Deserialize> DeserializeSeed for Tuple1Seed<T0> {
    type Value = (T0,);

    ghost asks = { λ _. asks.tuple 1 };

    ghost reads = { λ _. SequenceReads (λ checks. Parts1 (ReadsFrom T0.asks T0.reads) checks 0) };

    ghost quiet = { T0.Seed.quiet };

    ghost placed = { T0.Seed.placed × T0.Seed.quiet };

    ghost leaves = { λ _. SequenceLeaves (LeavesNext (LeavesFrom T0.asks T0.leaves) 0) };

    fn hint(&self) -> Hint<'_> {
        Hint::Tuple(1)
    }

    fn visit<D: Deserializer>(
        self,
        alloc: Global,
        shown: Shown<D>,
        track: &mut Track,
    ) -> Result<(T0,), D::Error> {
        match shown {
            Shown::Seq(seq) => parts1::<D, T0>(alloc, seq, 0, track),
            other => Err(refused(alloc, other, "tuple")),
        }
    }

    ghost passes_refusals = { λ _ _. (refl, λ _ h. h) };
}

impl<T0: Deserialize> Deserialize for (T0,) {
    type Seed = Tuple1Seed<T0>;

    ghost asks = { asks.tuple 1 };

    ghost reads = { SequenceReads (λ checks. Parts1 (ReadsFrom T0.asks T0.reads) checks 0) };

    ghost leaves = { SequenceLeaves (LeavesNext (LeavesFrom T0.asks T0.leaves) 0) };

    fn seed(_alloc: Global) -> Result<Tuple1Seed<T0>, AllocError> {
        Ok(Tuple1Seed { of: PhantomData })
    }
}

/// The reader of a tuple of two elements, which takes a sequence of at least so many. What follows them
/// is refused where the sequence checks its end, and else left.
#[derive(Drop)]
pub struct Tuple2Seed<T0: Deserialize, T1: Deserialize> {
    of: PhantomData<(T0, T1)>,
}

impl<T0: Deserialize, T1: Deserialize> DeserializeSeed for Tuple2Seed<T0, T1> {
    type Value = (T0, T1);

    ghost asks = { λ _. asks.tuple 2 };

    ghost reads = { λ _. SequenceReads (λ checks. Parts2 (ReadsFrom T0.asks T0.reads) (ReadsFrom T1.asks T1.reads) checks 0) };

    ghost quiet = { T0.Seed.quiet × T1.Seed.quiet };

    ghost placed = { (T0.Seed.placed × T0.Seed.quiet) × (T1.Seed.placed × T1.Seed.quiet) };

    ghost leaves = { λ _. SequenceLeaves (PartsLeave2 (LeavesFrom T0.asks T0.leaves) (LeavesFrom T1.asks T1.leaves) 0) };

    fn hint(&self) -> Hint<'_> {
        Hint::Tuple(2)
    }

    fn visit<D: Deserializer>(
        self,
        alloc: Global,
        shown: Shown<D>,
        track: &mut Track,
    ) -> Result<(T0, T1), D::Error> {
        match shown {
            Shown::Seq(seq) => parts2::<D, T0, T1>(alloc, seq, 0, track),
            other => Err(refused(alloc, other, "tuple")),
        }
    }

    ghost passes_refusals = { λ _ _. (refl, λ _ h. h) };
}

impl<T0: Deserialize, T1: Deserialize> Deserialize for (T0, T1) {
    type Seed = Tuple2Seed<T0, T1>;

    ghost asks = { asks.tuple 2 };

    ghost reads = { SequenceReads (λ checks. Parts2 (ReadsFrom T0.asks T0.reads) (ReadsFrom T1.asks T1.reads) checks 0) };

    ghost leaves = { SequenceLeaves (PartsLeave2 (LeavesFrom T0.asks T0.leaves) (LeavesFrom T1.asks T1.leaves) 0) };

    fn seed(_alloc: Global) -> Result<Tuple2Seed<T0, T1>, AllocError> {
        Ok(Tuple2Seed { of: PhantomData })
    }
}

/// The reader of a tuple of three elements, which takes a sequence of at least so many. What follows them
/// is refused where the sequence checks its end, and else left.
#[derive(Drop)]
pub struct Tuple3Seed<T0: Deserialize, T1: Deserialize, T2: Deserialize> {
    of: PhantomData<(T0, T1, T2)>,
}

impl<T0: Deserialize, T1: Deserialize, T2: Deserialize> DeserializeSeed for Tuple3Seed<T0, T1, T2> {
    type Value = (T0, T1, T2);

    ghost asks = { λ _. asks.tuple 3 };

    ghost reads = { λ _. SequenceReads (λ checks. Parts3 (ReadsFrom T0.asks T0.reads) (ReadsFrom T1.asks T1.reads) (ReadsFrom T2.asks T2.reads) checks 0) };

    ghost quiet = { T0.Seed.quiet × (T1.Seed.quiet × T2.Seed.quiet) };

    ghost placed = { (T0.Seed.placed × T0.Seed.quiet) × ((T1.Seed.placed × T1.Seed.quiet) × (T2.Seed.placed × T2.Seed.quiet)) };

    ghost leaves = { λ _. SequenceLeaves (PartsLeave3 (LeavesFrom T0.asks T0.leaves) (LeavesFrom T1.asks T1.leaves) (LeavesFrom T2.asks T2.leaves) 0) };

    fn hint(&self) -> Hint<'_> {
        Hint::Tuple(3)
    }

    fn visit<D: Deserializer>(
        self,
        alloc: Global,
        shown: Shown<D>,
        track: &mut Track,
    ) -> Result<(T0, T1, T2), D::Error> {
        match shown {
            Shown::Seq(seq) => parts3::<D, T0, T1, T2>(alloc, seq, 0, track),
            other => Err(refused(alloc, other, "tuple")),
        }
    }

    ghost passes_refusals = { λ _ _. (refl, λ _ h. h) };
}

impl<T0: Deserialize, T1: Deserialize, T2: Deserialize> Deserialize for (T0, T1, T2) {
    type Seed = Tuple3Seed<T0, T1, T2>;

    ghost asks = { asks.tuple 3 };

    ghost reads = { SequenceReads (λ checks. Parts3 (ReadsFrom T0.asks T0.reads) (ReadsFrom T1.asks T1.reads) (ReadsFrom T2.asks T2.reads) checks 0) };

    ghost leaves = { SequenceLeaves (PartsLeave3 (LeavesFrom T0.asks T0.leaves) (LeavesFrom T1.asks T1.leaves) (LeavesFrom T2.asks T2.leaves) 0) };

    fn seed(_alloc: Global) -> Result<Tuple3Seed<T0, T1, T2>, AllocError> {
        Ok(Tuple3Seed { of: PhantomData })
    }
}

/// The reader of a tuple of four elements, which takes a sequence of at least so many. What follows them
/// is refused where the sequence checks its end, and else left.
#[derive(Drop)]
pub struct Tuple4Seed<T0: Deserialize, T1: Deserialize, T2: Deserialize, T3: Deserialize> {
    of: PhantomData<(T0, T1, T2, T3)>,
}

impl<T0: Deserialize, T1: Deserialize, T2: Deserialize, T3: Deserialize> DeserializeSeed
    for Tuple4Seed<T0, T1, T2, T3> {
    type Value = (T0, T1, T2, T3);

    ghost asks = { λ _. asks.tuple 4 };

    ghost reads = { λ _. SequenceReads (λ checks. Parts4 (ReadsFrom T0.asks T0.reads) (ReadsFrom T1.asks T1.reads) (ReadsFrom T2.asks T2.reads) (ReadsFrom T3.asks T3.reads) checks 0) };

    ghost quiet = { T0.Seed.quiet × (T1.Seed.quiet × (T2.Seed.quiet × T3.Seed.quiet)) };

    ghost placed = { (T0.Seed.placed × T0.Seed.quiet) × ((T1.Seed.placed × T1.Seed.quiet) × ((T2.Seed.placed × T2.Seed.quiet) × (T3.Seed.placed × T3.Seed.quiet))) };

    ghost leaves = { λ _. SequenceLeaves (PartsLeave4 (LeavesFrom T0.asks T0.leaves) (LeavesFrom T1.asks T1.leaves) (LeavesFrom T2.asks T2.leaves) (LeavesFrom T3.asks T3.leaves) 0) };

    fn hint(&self) -> Hint<'_> {
        Hint::Tuple(4)
    }

    fn visit<D: Deserializer>(
        self,
        alloc: Global,
        shown: Shown<D>,
        track: &mut Track,
    ) -> Result<(T0, T1, T2, T3), D::Error> {
        match shown {
            Shown::Seq(seq) => parts4::<D, T0, T1, T2, T3>(alloc, seq, 0, track),
            other => Err(refused(alloc, other, "tuple")),
        }
    }

    ghost passes_refusals = { λ _ _. (refl, λ _ h. h) };
}

impl<T0: Deserialize, T1: Deserialize, T2: Deserialize, T3: Deserialize> Deserialize
    for (T0, T1, T2, T3) {
    type Seed = Tuple4Seed<T0, T1, T2, T3>;

    ghost asks = { asks.tuple 4 };

    ghost reads = { SequenceReads (λ checks. Parts4 (ReadsFrom T0.asks T0.reads) (ReadsFrom T1.asks T1.reads) (ReadsFrom T2.asks T2.reads) (ReadsFrom T3.asks T3.reads) checks 0) };

    ghost leaves = { SequenceLeaves (PartsLeave4 (LeavesFrom T0.asks T0.leaves) (LeavesFrom T1.asks T1.leaves) (LeavesFrom T2.asks T2.leaves) (LeavesFrom T3.asks T3.leaves) 0) };

    fn seed(_alloc: Global) -> Result<Tuple4Seed<T0, T1, T2, T3>, AllocError> {
        Ok(Tuple4Seed { of: PhantomData })
    }
}

// One element from a place on, and the end.
fn parts1<D: Deserializer, T0: Deserialize>(
    alloc: Global,
    seq: D::Seq,
    place: usize,
    track: &mut Track,
) -> Result<(T0,), D::Error>
    requires taken { (D.sequence seq).taken ≡ place }
    requires small { place < 4 }
    ensures reads { Among D.Error.fault (T0.Seed.placed × T0.Seed.quiet) D.tracks result
        (Parts1 (ReadsFrom T0.asks T0.reads) (D.sequence seq).checks place (D.sequence seq).left) track.old track.new }
    ensures keeps { Keeps D.Error.fault T0.Seed.quiet D.tracks result track.old track.new }
    ensures leaves { D.tracks ≡ true → track.old ≡ clear → OnOk result
        (LeavesNext (LeavesFrom T0.asks T0.leaves) place (D.sequence seq).left track.new) }
{
    let mut seq = seq;
    let first = part::<D, T0>(alloc, &mut seq, place, track)?;
    D::end_seq(alloc, seq)?;
    Ok((first,))
}

// Two elements from a place on, and the end.
fn parts2<D: Deserializer, T0: Deserialize, T1: Deserialize>(
    alloc: Global,
    seq: D::Seq,
    place: usize,
    track: &mut Track,
) -> Result<(T0, T1), D::Error>
    requires taken { (D.sequence seq).taken ≡ place }
    requires small { place < 3 }
    ensures reads { Among D.Error.fault ((T0.Seed.placed × T0.Seed.quiet) × (T1.Seed.placed × T1.Seed.quiet)) D.tracks result
        (Parts2 (ReadsFrom T0.asks T0.reads) (ReadsFrom T1.asks T1.reads) (D.sequence seq).checks place (D.sequence seq).left) track.old track.new }
    ensures keeps { Keeps D.Error.fault (T0.Seed.quiet × T1.Seed.quiet) D.tracks result track.old track.new }
    ensures leaves { D.tracks ≡ true → track.old ≡ clear → OnOk result
        (PartsLeave2 (LeavesFrom T0.asks T0.leaves) (LeavesFrom T1.asks T1.leaves) place (D.sequence seq).left track.new) }
{
    let mut seq = seq;
    let first = part::<D, T0>(alloc, &mut seq, place, track)?;
    let (second,) = parts1::<D, T1>(alloc, seq, place + 1, track)?;
    Ok((first, second))
}

// Three elements from a place on, and the end.
fn parts3<D: Deserializer, T0: Deserialize, T1: Deserialize, T2: Deserialize>(
    alloc: Global,
    seq: D::Seq,
    place: usize,
    track: &mut Track,
) -> Result<(T0, T1, T2), D::Error>
    requires taken { (D.sequence seq).taken ≡ place }
    requires small { place < 2 }
    ensures reads { Among D.Error.fault ((T0.Seed.placed × T0.Seed.quiet) × ((T1.Seed.placed × T1.Seed.quiet) × (T2.Seed.placed × T2.Seed.quiet))) D.tracks result
        (Parts3 (ReadsFrom T0.asks T0.reads) (ReadsFrom T1.asks T1.reads) (ReadsFrom T2.asks T2.reads) (D.sequence seq).checks place (D.sequence seq).left) track.old track.new }
    ensures keeps { Keeps D.Error.fault (T0.Seed.quiet × (T1.Seed.quiet × T2.Seed.quiet)) D.tracks result track.old track.new }
    ensures leaves { D.tracks ≡ true → track.old ≡ clear → OnOk result
        (PartsLeave3 (LeavesFrom T0.asks T0.leaves) (LeavesFrom T1.asks T1.leaves) (LeavesFrom T2.asks T2.leaves) place (D.sequence seq).left track.new) }
{
    let mut seq = seq;
    let first = part::<D, T0>(alloc, &mut seq, place, track)?;
    let (second, third) = parts2::<D, T1, T2>(alloc, seq, place + 1, track)?;
    Ok((first, second, third))
}

// Four elements from a place on, and the end.
fn parts4<D: Deserializer, T0: Deserialize, T1: Deserialize, T2: Deserialize, T3: Deserialize>(
    alloc: Global,
    seq: D::Seq,
    place: usize,
    track: &mut Track,
) -> Result<(T0, T1, T2, T3), D::Error>
    requires taken { (D.sequence seq).taken ≡ place }
    requires small { place < 1 }
    ensures reads { Among D.Error.fault ((T0.Seed.placed × T0.Seed.quiet) × ((T1.Seed.placed × T1.Seed.quiet) × ((T2.Seed.placed × T2.Seed.quiet) × (T3.Seed.placed × T3.Seed.quiet)))) D.tracks result
        (Parts4 (ReadsFrom T0.asks T0.reads) (ReadsFrom T1.asks T1.reads) (ReadsFrom T2.asks T2.reads) (ReadsFrom T3.asks T3.reads) (D.sequence seq).checks place (D.sequence seq).left) track.old track.new }
    ensures keeps { Keeps D.Error.fault (T0.Seed.quiet × (T1.Seed.quiet × (T2.Seed.quiet × T3.Seed.quiet))) D.tracks result track.old track.new }
    ensures leaves { D.tracks ≡ true → track.old ≡ clear → OnOk result
        (PartsLeave4 (LeavesFrom T0.asks T0.leaves) (LeavesFrom T1.asks T1.leaves) (LeavesFrom T2.asks T2.leaves) (LeavesFrom T3.asks T3.leaves) place (D.sequence seq).left track.new) }
{
    let mut seq = seq;
    let first = part::<D, T0>(alloc, &mut seq, place, track)?;
    let (second, third, fourth) = parts3::<D, T1, T2, T3>(alloc, seq, place + 1, track)?;
    Ok((first, second, third, fourth))
}

// The element at a place, which must be there.
fn part<D: Deserializer, T: Deserialize>(
    alloc: Global,
    seq: &mut D::Seq,
    place: usize,
    track: &mut Track,
) -> Result<T, D::Error>
    requires { (D.sequence seq.old).taken ≡ place }
    ensures reads { Among D.Error.fault (T.Seed.placed × T.Seed.quiet) D.tracks result
        (PartReads (ReadsFrom T.asks T.reads) place (D.sequence seq.old).left) track.old track.new }
    ensures keeps { Keeps D.Error.fault T.Seed.quiet D.tracks result track.old track.new }
    ensures leaves { D.tracks ≡ true → track.old ≡ clear → OnOk result
        (LeavesNext (LeavesFrom T.asks T.leaves) place (D.sequence seq.old).left track.new) }
    ensures left { OnOk result ((D.sequence seq.new).left ≡ rest_of (D.sequence seq.old).left) }
    ensures taken { OnOk result ((D.sequence seq.new).taken ≡ place + 1) }
    ensures checks { OnOk result ((D.sequence seq.new).checks ≡ (D.sequence seq.old).checks) }
{
    match next_element::<D, T>(alloc, seq, track)? {
        Some(value) => Ok(value),
        None => Err(D::Error::invalid_length(alloc, place, "tuple")),
    }
}
