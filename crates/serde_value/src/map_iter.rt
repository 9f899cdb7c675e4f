//! The pairs of a map, one after another.
ghost use Rattle.std.specs.Prelude.{◌≡◌, IfSome, length, map};
ghost use Rattle.std.specs.Iterator.{YieldsFirstBy, YieldsLastBy, item_count, UpTo};
ghost use Rattle.std.specs.Iterator.SizeHint.{IsWithinCount, IsExactHint};
ghost use Rattle.serde_value.specs.View.{node_view};

use crate::value::{Value, ValueMap};
use std::iter::FusedIterator;
use std::marker::Model;

/// The pairs of a map from either end, each once: by rising key from the front. It stands for the
/// `Iter` of the `BTreeMap` in serde_value's `Value::Map`.
#[derive(Drop)]
pub struct ValueMapIter<'a> {
    pairs: &'a [(Value, Value)],
}

// The pairs that are left.
impl<'a> Model for ValueMapIter<'a> {
    ghost use Rattle.std.specs.Prelude.{List, map};
    ghost use Rattle.std.specs.Coded.{coded_list, coded×};
    ghost use Rattle.data_core.specs.Node.{Node};
    ghost use Rattle.data_core.specs.NodeCode.{coded_node};
    ghost use Rattle.serde_value.specs.View.{pair_view};

    ghost Value = { List (Node × Node) };

    ghost coded = { coded_list (coded× coded_node coded_node) };

    ghost view = { λ s. map pair_view s.pairs.now };
}

impl<'a> ValueMapIter<'a> {
    pub(crate) fn new(map: &'a ValueMap) -> ValueMapIter<'a>
        ensures { result ≡ map.now }
    {
        ValueMapIter {
            pairs: map.as_slice(),
        }
    }
}

impl<'a> Iterator for ValueMapIter<'a> {
    type Item = (&'a Value, &'a Value);

    ghost next_gives = { YieldsFirstBy (λ p. (node_view p.0.now, node_view p.1.now)) (λ left. left) };

    ghost remaining = { item_count (λ left. left) };

    fn next(&mut self) -> Option<(&'a Value, &'a Value)> {
        let (first, rest) = self.pairs.split_first()?;
        self.pairs = rest;
        Some((&first.0, &first.1))
    }

    fn size_hint(&self) -> (usize, Option<usize>)
        ensures lower { IsWithinCount result.0 (item_count (λ left. left) self.now) }
        ensures upper { IfSome result.1 (UpTo (item_count (λ left. left) self.now)) }
        ensures exact { IsExactHint result (length self.now) }
    {
        let len = self.pairs.len();
        (len, Some(len))
    }
}

impl<'a> DoubleEndedIterator for ValueMapIter<'a> {
    ghost next_back_gives = { YieldsLastBy (λ p. (node_view p.0.now, node_view p.1.now)) (λ left. left) };

    fn next_back(&mut self) -> Option<(&'a Value, &'a Value)> {
        let (last, rest) = self.pairs.split_last()?;
        self.pairs = rest;
        Some((&last.0, &last.1))
    }
}

impl ExactSizeIterator for ValueMapIter<'_> {
    fn len(&self) -> usize {
        self.pairs.len()
    }
}

impl FusedIterator for ValueMapIter<'_> {}
