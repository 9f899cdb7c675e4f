//! Items that are taken one by one.
ghost use Rattle.std.specs.Prelude.{◌≡◌, ◌+◌, ◌≤◌, [], ◌∷◌, length, MatchOption};
ghost use Rattle.std.specs.Vec.Iter.{into_iter_items};

use std::vec;

// Items of which none or some were taken, and how many there were at first.
#[derive(Drop)]
pub(crate) struct Waiting<T: Drop> {
    items: vec::IntoIter<T>,
    total: usize,
    ghost within: { length (into_iter_items items) ≤ total },
}

impl<T: Drop> Waiting<T> {
    ghost use Rattle.data_items.specs.Waiting.{left_of, taken_of};

    pub(crate) fn new(items: Vec<T>) -> Waiting<T>
        ensures left { left_of result ≡ items.items }
        ensures taken { taken_of result ≡ 0 }
    {
        let total = items.len();
        Waiting {
            items: items.into_iter(),
            total,
        }
    }

    pub(crate) fn next(&mut self) -> Option<T>
        ensures { MatchOption result ((left_of self.old ≡ []) × (left_of self.new ≡ []) × (taken_of self.new ≡ taken_of self.old))
            (λ item. (left_of self.old ≡ item ∷ left_of self.new) × (taken_of self.new ≡ taken_of self.old + 1)) }
    {
        self.items.next()
    }

    pub(crate) fn len(&self) -> usize
        ensures { result ≡ length (left_of self.now) }
    {
        self.items.len()
    }

    pub(crate) fn taken(&self) -> usize
        ensures { result ≡ taken_of self.now }
    {
        self.total - self.items.len()
    }

    pub(crate) fn total(&self) -> usize
        ensures { result ≡ taken_of self.now + length (left_of self.now) }
    {
        self.total
    }
}
