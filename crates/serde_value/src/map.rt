//! Pairs of trees by rising key.
ghost use Rattle.std.specs.Prelude.{◌≡◌, ◌↔◌, ◌+◌, ◌-◌, ◌*◌, ◌^◌, ◌≤◌, IsTrue, None, IfOk, IfErr, OnOk, OnErr, [], length, map, option_map};
ghost use Rattle.data_core.specs.Order.{node_order};
ghost use Rattle.sorted_pairs.specs.Pairs.{Rises, lookup, put};
ghost use Rattle.serde_value.specs.View.{node_view, pair_view};

use crate::map_iter::ValueMapIter;
use crate::value::{Value, ValueMap};
use sorted_pairs::{Steps, place_of_key};
use std::alloc::Global;
use std::marker::Brand;
use std::mem;
use std::sync::ledger::{Blank, Ledger};

/// A pair that a map had no memory for.
#[derive(Drop)]
pub struct Unplaced {
    pub key: Value,
    pub value: Value,
}

impl ValueMap {
    /// A map without pairs. Takes no memory.
    pub fn new(alloc: Global) -> ValueMap
        ensures { result ≡ [] }
    {
        ValueMap {
            pairs: Vec::new(alloc),
        }
    }

    /// How many pairs there are. Takes no memory.
    pub fn len(&self) -> usize
        ensures { result ≡ length self.now }
    {
        self.pairs.len()
    }

    /// Whether there is no pair. Takes no memory.
    pub fn is_empty(&self) -> bool
        ensures { IsTrue result ↔ (self.now ≡ []) }
    {
        self.pairs.is_empty()
    }

    /// The pairs by rising key, lent. Takes no memory.
    pub fn as_slice(&self) -> &[(Value, Value)]
        ensures pairs { map pair_view result.now ≡ self.now }
        ensures rises { Rises node_order self.now }
    {
        self.pairs.as_slice()
    }

    /// The pairs by rising key. Takes no memory.
    pub fn into_vec(self) -> Vec<(Value, Value)>
        ensures pairs { map pair_view result.items ≡ self }
        ensures rises { Rises node_order self }
    {
        self.pairs
    }

    /// Each pair once, by rising key. Takes no memory.
    pub fn iter(&self) -> ValueMapIter<'_>
        ensures { result ≡ self.now }
    {
        ValueMapIter::new(self)
    }

    /// The value at a key that is equal to this one. Takes no memory. A comparison of two keys
    /// recurses as deep as they are.
    pub fn find(&self, key: &Value) -> Option<&Value>
        ensures { option_map (λ v. node_view v.now) result ≡ lookup node_order (node_view key.now) self.now }
    {
        find_from::<Brand>(self, key, Blank::new(1))
    }

    /// The same, which counts each comparison of two keys: of n pairs, no more than the logarithm of
    /// 2 * n + 1, to the base 2. It is this project's own.
    #[tactic(auto, using(crate::proofs::Edits::edits))]
    pub fn find_counted<L: Ledger>(&self, key: &Value, steps: &mut Steps<L>) -> Option<&Value>
        ensures found { option_map (λ v. node_view v.now) result ≡ lookup node_order (node_view key.now) self.now }
        ensures cost { 2 ^ (steps.new - steps.old) ≤ 2 * length self.now + 1 }
        ensures never_falls { steps.old ≤ steps.new }
    {
        match place_of_key(self.pairs.as_slice(), key, steps) {
            Ok(i) => Some(&self.pairs[i].1),
            Err(_) => None,
        }
    }

    /// Puts a value at a key, and gives back what was at an equal one. That never fails: for want of
    /// memory alone, a pair whose key is new comes back, and nothing was changed. A comparison of two
    /// keys recurses as deep as they are.
    pub fn insert(&mut self, key: Value, value: Value) -> Result<Option<Value>, Unplaced>
        ensures placed { OnOk result (self.new ≡ put node_order (node_view key) (node_view value) self.old) }
        ensures old { IfOk result (λ old. option_map node_view old ≡ lookup node_order (node_view key) self.old) }
        ensures unplaced { IfErr result (λ u. (u.key ≡ key) × (u.value ≡ value)) }
        ensures unchanged { OnErr result (self.new ≡ self.old) }
        ensures only_new { OnErr result (lookup node_order (node_view key) self.old ≡ None) }
    {
        insert_from::<Brand>(self, key, value, Blank::new(1))
    }

    /// The same, which counts each comparison of two keys: of n pairs, no more than the logarithm of
    /// 2 * n + 1, to the base 2. It is this project's own.
    #[tactic(auto, using(crate::proofs::Edits::edits))]
    pub fn insert_counted<L: Ledger>(
        &mut self,
        key: Value,
        value: Value,
        steps: &mut Steps<L>,
    ) -> Result<Option<Value>, Unplaced>
        ensures placed { OnOk result (self.new ≡ put node_order (node_view key) (node_view value) self.old) }
        ensures old { IfOk result (λ old. option_map node_view old ≡ lookup node_order (node_view key) self.old) }
        ensures unplaced { IfErr result (λ u. (u.key ≡ key) × (u.value ≡ value)) }
        ensures unchanged { OnErr result (self.new ≡ self.old) }
        ensures only_new { OnErr result (lookup node_order (node_view key) self.old ≡ None) }
        ensures cost { 2 ^ (steps.new - steps.old) ≤ 2 * length self.old + 1 }
        ensures never_falls { steps.old ≤ steps.new }
    {
        match place_of_key(self.pairs.as_slice(), &key, steps) {
            Ok(i) => {
                drop(key);
                Ok(Some(mem::replace(&mut self.pairs[i].1, value)))
            }
            Err(i) => match self.pairs.insert(i, (key, value)) {
                Ok(()) => Ok(None),
                Err(failed) => {
                    let (key, value) = failed.value;
                    Err(Unplaced { key, value })
                }
            },
        }
    }
}

// What counts is let go.
fn find_from<'a, L: Ledger>(map: &'a ValueMap, key: &Value, blank: Blank) -> Option<&'a Value>
    requires name { blank.name ≡ L.name }
    requires parts { blank.parts ≡ L.parts }
    requires one { L.parts ≡ 1 }
    ensures { option_map (λ v. node_view v.now) result ≡ lookup node_order (node_view key.now) map.now }
{
    let mut steps = Steps::<L>::new(blank);
    map.find_counted(key, &mut steps)
}

// The same.
fn insert_from<L: Ledger>(
    map: &mut ValueMap,
    key: Value,
    value: Value,
    blank: Blank,
) -> Result<Option<Value>, Unplaced>
    requires name { blank.name ≡ L.name }
    requires parts { blank.parts ≡ L.parts }
    requires one { L.parts ≡ 1 }
    ensures placed { OnOk result (map.new ≡ put node_order (node_view key) (node_view value) map.old) }
    ensures old { IfOk result (λ old. option_map node_view old ≡ lookup node_order (node_view key) map.old) }
    ensures unplaced { IfErr result (λ u. (u.key ≡ key) × (u.value ≡ value)) }
    ensures unchanged { OnErr result (map.new ≡ map.old) }
    ensures only_new { OnErr result (lookup node_order (node_view key) map.old ≡ None) }
{
    let mut steps = Steps::<L>::new(blank);
    map.insert_counted(key, value, &mut steps)
}
