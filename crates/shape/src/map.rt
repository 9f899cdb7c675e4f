//! What was read of entries, by rising key.
ghost use Rattle.std.specs.Prelude.{◌≡◌, ◌↔◌, ◌+◌, ◌-◌, ◌*◌, ◌^◌, ◌≤◌, IsTrue, [], length, map, option_map, IfOk, IfErr, OnOk, OnErr, None};
ghost use Rattle.sorted_pairs.specs.Pairs.{Rises, lookup, put};
ghost use Rattle.shape.specs.DataOrder.{data_order};
ghost use Rattle.shape.specs.View.{data_view, pair_view};

use crate::data::{Data, DataMap};
use crate::iter::DataMapIter;
use sorted_pairs::{Steps, place_of_key};
use std::alloc::Global;
use std::marker::Brand;
use std::mem;
use std::sync::ledger::{Blank, Ledger};

/// A pair that found no memory in a map. It is this project's own.
#[derive(Drop)]
pub struct DataUnplaced {
    pub key: Data,
    pub value: Data,
}

impl DataMap {
    /// A map without pairs. Takes no memory.
    pub fn new(alloc: Global) -> DataMap
        ensures { result ≡ [] }
    {
        DataMap {
            pairs: Vec::new(alloc),
        }
    }

    /// How many pairs there are. Takes no memory.
    pub fn len(&self) -> usize
        ensures { result ≡ length self.now }
    {
        self.pairs.len()
    }

    /// Whether there is no pair. Takes no memory.
    pub fn is_empty(&self) -> bool
        ensures { IsTrue result ↔ (self.now ≡ []) }
    {
        self.pairs.is_empty()
    }

    /// The pairs by rising key, lent. Takes no memory.
    pub fn as_slice(&self) -> &[(Data, Data)]
        ensures pairs { map pair_view result.now ≡ self.now }
        ensures rises { Rises data_order self.now }
    {
        self.pairs.as_slice()
    }

    /// The pairs by rising key, in their `Vec`. Takes no memory.
    pub fn into_vec(self) -> Vec<(Data, Data)>
        ensures pairs { map pair_view result.items ≡ self }
        ensures rises { Rises data_order self }
    {
        self.pairs
    }

    /// The pairs by rising key, each once. Takes no memory.
    pub fn iter(&self) -> DataMapIter<'_>
        ensures pairs { result ≡ self.now }
        ensures rises { Rises data_order self.now }
    {
        DataMapIter::new(self.pairs.as_slice())
    }

    /// The value of the equal key, and none where there is none. Takes no memory. It compares the key
    /// with those of some pairs, each time as deep as they nest.
    pub fn find(&self, key: &Data) -> Option<&Data>
        ensures { option_map (λ d. data_view d.now) result ≡ lookup data_order (data_view key.now) self.now }
    {
        find_uncounted::<Brand>(self, key, Blank::new(1))
    }

    /// `find`, which counts how many keys it compares: about as often as the number of pairs can be
    /// halved.
    #[tactic(auto, using(crate::proofs::Edits::edits))]
    pub fn find_counted<L: Ledger>(&self, key: &Data, steps: &mut Steps<L>) -> Option<&Data>
        ensures found { option_map (λ d. data_view d.now) result ≡ lookup data_order (data_view key.now) self.now }
        ensures cost { 2 ^ (steps.new - steps.old) ≤ 2 * length self.now + 1 }
        ensures never_falls { steps.old ≤ steps.new }
    {
        match place_of_key(self.pairs.as_slice(), key, steps) {
            Ok(i) => Some(&self.pairs[i].1),
            Err(_) => None,
        }
    }

    /// Puts a value at a key, and gives the value that an equal key had. It fails for want of memory
    /// alone, and only where there is no equal key; the map is then as before. It compares the key with
    /// those of some pairs, each time as deep as they nest.
    pub fn insert(&mut self, key: Data, value: Data) -> Result<Option<Data>, DataUnplaced>
        ensures placed { OnOk result (self.new ≡ put data_order (data_view key) (data_view value) self.old) }
        ensures old { IfOk result (λ old. option_map data_view old ≡ lookup data_order (data_view key) self.old) }
        ensures unplaced { IfErr result (λ u. (u.key ≡ key) × (u.value ≡ value)) }
        ensures unchanged { OnErr result (self.new ≡ self.old) }
        ensures absent { OnErr result (lookup data_order (data_view key) self.old ≡ None) }
    {
        insert_uncounted::<Brand>(self, key, value, Blank::new(1))
    }

    /// `insert`, which counts how many keys it compares: about as often as the number of pairs can be
    /// halved.
    #[tactic(auto, using(crate::proofs::Edits::edits))]
    pub fn insert_counted<L: Ledger>(
        &mut self,
        key: Data,
        value: Data,
        steps: &mut Steps<L>,
    ) -> Result<Option<Data>, DataUnplaced>
        ensures placed { OnOk result (self.new ≡ put data_order (data_view key) (data_view value) self.old) }
        ensures old { IfOk result (λ old. option_map data_view old ≡ lookup data_order (data_view key) self.old) }
        ensures unplaced { IfErr result (λ u. (u.key ≡ key) × (u.value ≡ value)) }
        ensures unchanged { OnErr result (self.new ≡ self.old) }
        ensures absent { OnErr result (lookup data_order (data_view key) self.old ≡ None) }
        ensures cost { 2 ^ (steps.new - steps.old) ≤ 2 * length self.old + 1 }
        ensures never_falls { steps.old ≤ steps.new }
    {
        match place_of_key(self.pairs.as_slice(), &key, steps) {
            Ok(i) => {
                drop(key);
                Ok(Some(mem::replace(&mut self.pairs[i].1, value)))
            }
            Err(i) => match self.pairs.insert(i, (key, value)) {
                Ok(()) => Ok(None),
                Err(failed) => {
                    let (key, value) = failed.value;
                    Err(DataUnplaced { key, value })
                }
            },
        }
    }
}

// `find`, from a count that is not looked at.
fn find_uncounted<'a, L: Ledger>(pairs: &'a DataMap, key: &Data, blank: Blank) -> Option<&'a Data>
    requires name { blank.name ≡ L.name }
    requires parts { blank.parts ≡ L.parts }
    requires one { L.parts ≡ 1 }
    ensures { option_map (λ d. data_view d.now) result ≡ lookup data_order (data_view key.now) pairs.now }
{
    let mut steps = Steps::<L>::new(blank);
    pairs.find_counted(key, &mut steps)
}

// `insert`, from a count that is not looked at.
fn insert_uncounted<L: Ledger>(
    pairs: &mut DataMap,
    key: Data,
    value: Data,
    blank: Blank,
) -> Result<Option<Data>, DataUnplaced>
    requires name { blank.name ≡ L.name }
    requires parts { blank.parts ≡ L.parts }
    requires one { L.parts ≡ 1 }
    ensures placed { OnOk result (pairs.new ≡ put data_order (data_view key) (data_view value) pairs.old) }
    ensures old { IfOk result (λ old. option_map data_view old ≡ lookup data_order (data_view key) pairs.old) }
    ensures unplaced { IfErr result (λ u. (u.key ≡ key) × (u.value ≡ value)) }
    ensures unchanged { OnErr result (pairs.new ≡ pairs.old) }
    ensures absent { OnErr result (lookup data_order (data_view key) pairs.old ≡ None) }
{
    let mut steps = Steps::<L>::new(blank);
    pairs.insert_counted(key, value, &mut steps)
}
