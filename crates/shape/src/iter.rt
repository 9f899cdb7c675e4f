//! The pairs of a map, one after another.
ghost use Rattle.std.specs.Prelude.{◌≡◌, IfSome, length, map};
ghost use Rattle.std.specs.Iterator.{YieldsFirstBy, item_count, UpTo};
ghost use Rattle.std.specs.Iterator.SizeHint.{IsWithinCount, IsExactHint};
ghost use Rattle.shape.specs.View.{pair_view, lent_pair_view};

use crate::data::{Data, DataMap};
use std::iter::FusedIterator;
use std::marker::Model;

/// The pairs of a `DataMap` by rising key. It is this project's own.
#[derive(Drop)]
pub struct DataMapIter<'a> {
    pairs: &'a [(Data, Data)],
}

// The pairs that are left, the lowest key first.
impl<'a> Model for DataMapIter<'a> {
    ghost use Rattle.std.specs.Prelude.{List, map};
    ghost use Rattle.std.specs.Coded.{coded_list, coded×};
    ghost use Rattle.shape.specs.Shape as plain;
    ghost use Rattle.shape.specs.DataCode.{coded_data};
    ghost use Rattle.shape.specs.View.{pair_view};

    ghost Value = { List (plain.Data × plain.Data) };

    ghost coded = { coded_list (coded× coded_data coded_data) };

    ghost view = { λ i. map pair_view i.pairs.now };
}

impl<'a> DataMapIter<'a> {
    pub(crate) fn new(pairs: &'a [(Data, Data)]) -> DataMapIter<'a>
        ensures { result ≡ map pair_view pairs.now }
    {
        DataMapIter { pairs }
    }
}

impl<'a> Iterator for DataMapIter<'a> {
    type Item = (&'a Data, &'a Data);

    ghost next_gives = { YieldsFirstBy lent_pair_view (λ left. left) };

    ghost remaining = { item_count (λ left. left) };

    fn next(&mut self) -> Option<(&'a Data, &'a Data)> {
        let (first, rest) = self.pairs.split_first()?;
        self.pairs = rest;
        Some((&first.0, &first.1))
    }

    fn size_hint(&self) -> (usize, Option<usize>)
        ensures lower { IsWithinCount result.0 (item_count (λ left. left) self.now) }
        ensures upper { IfSome result.1 (UpTo (item_count (λ left. left) self.now)) }
        ensures exact { IsExactHint result (length self.now) }
    {
        let len = self.pairs.len();
        (len, Some(len))
    }
}

impl ExactSizeIterator for DataMapIter<'_> {
    fn len(&self) -> usize {
        self.pairs.len()
    }
}

impl FusedIterator for DataMapIter<'_> {}

impl<'a> IntoIterator for &'a DataMap {
    type Item = (&'a Data, &'a Data);

    type IntoIter = DataMapIter<'a>;

    ghost into_iter_gives = { λ pairs entries. entries ≡ pairs.now };

    fn into_iter(self) -> DataMapIter<'a> {
        self.iter()
    }
}
