//! Comparisons that are counted as they are made.
ghost use Rattle.std.specs.Prelude.{◌≡◌, ◌+◌, ◌-◌, ◌<◌, length, slice_index_or};
ghost use Rattle.sorted_pairs.specs.Answers.{against, neighbours};

use crate::counted::CountedOrd;
use crate::steps::Steps;
use std::cmp::Ordering;
use std::sync::ledger::Ledger;

/// A row of comparisons, each of which is made and counted by one call.
pub trait Probe<L: Ledger> {
    ghost use Rattle.std.specs.Prelude.{List};
    ghost use Rattle.std.specs.declared.cmp.Ordering.{Ordering as Answer};

    ghost answers: { Self → List Answer };

    /// How many comparisons can be made.
    fn len(&self) -> usize
        ensures { result ≡ length (answers self.now) };

    /// Makes the comparison at a place, and counts it.
    fn compare(&self, place: usize, steps: &mut Steps<L>) -> Ordering
        requires { place < length (answers self.now) }
        ensures answer { result ≡ slice_index_or (answers self.now) place result }
        ensures counted { steps.new ≡ steps.old + 1 };
}

/// A key against the key of each pair.
#[derive(Drop)]
pub struct KeyProbe<'a, K, V> {
    pairs: &'a [(K, V)],
    key: &'a K,
}

impl<'a, K, V> KeyProbe<'a, K, V> {
    pub fn new(pairs: &'a [(K, V)], key: &'a K) -> KeyProbe<'a, K, V>
        ensures pairs { result.pairs.now ≡ pairs.now }
        ensures key { result.key.now ≡ key.now }
    {
        KeyProbe { pairs, key }
    }
}

#[tactic(auto, using(crate::proofs::Rows::rows))]
impl<'a, K: CountedOrd<L>, V, L: Ledger> Probe<L> for KeyProbe<'a, K, V> {
    ghost use Rattle.sorted_pairs.specs.Answers.{against};

    ghost answers = { λ p. against K.order p.key.now p.pairs.now };

    fn len(&self) -> usize {
        self.pairs.len()
    }

    fn compare(&self, place: usize, steps: &mut Steps<L>) -> Ordering {
        self.key.compare_counted(&self.pairs[place].0, steps)
    }
}

/// Each key against the next one.
#[derive(Drop)]
pub struct Neighbours<'a, K, V> {
    pairs: &'a [(K, V)],
}

impl<'a, K, V> Neighbours<'a, K, V> {
    pub fn new(pairs: &'a [(K, V)]) -> Neighbours<'a, K, V>
        ensures { result.pairs.now ≡ pairs.now }
    {
        Neighbours { pairs }
    }
}

#[tactic(auto, using(crate::proofs::Rows::rows))]
impl<'a, K: CountedOrd<L>, V, L: Ledger> Probe<L> for Neighbours<'a, K, V> {
    ghost use Rattle.sorted_pairs.specs.Answers.{neighbours};

    ghost answers = { λ p. neighbours K.order p.pairs.now };

    fn len(&self) -> usize {
        self.pairs.len().saturating_sub(1)
    }

    fn compare(&self, place: usize, steps: &mut Steps<L>) -> Ordering {
        self.pairs[place]
            .0
            .compare_counted(&self.pairs[place + 1].0, steps)
    }
}
