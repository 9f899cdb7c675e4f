//! Data compare by their order.
ghost use Rattle.std.specs.Prelude.{◌≡◌, IsTrue, refl};
ghost use Rattle.std.specs.Ordering.{eq_by_cmp, on, as_partial_cmp};
ghost use Rattle.std.specs.Cmp.{eq_by_cmp_equiv, on_equiv, on_total, partial_equiv_from_equiv, partial_order_from_agreeing_total};
ghost use Rattle.shape.specs.Shape.{pairs_of};
ghost use Rattle.shape.specs.DataOrder.{data_order, payload_order, pairs_order};
ghost use Rattle.shape.specs.DataOrderLaws.{data_order_total, payload_order_total, pairs_order_total};
ghost use Rattle.shape.specs.View.{data_view, payload_view};

use crate::data::{Data, DataMap, Payload};
use crate::order::{compare, compare_maps, compare_payloads};
use std::cmp::Ordering;

/// Comparing takes no memory, and recurses as deep as the data nest.
impl PartialEq for Data {
    ghost eq = { on data_view (eq_by_cmp data_order) };

    ghost laws = { partial_equiv_from_equiv (on_equiv data_view (eq_by_cmp_equiv data_order_total)) };

    #[tactic(auto, using(crate::specs::DataOrderLaws::data_equal))]
    fn eq(&self, other: &Data) -> bool
        ensures value { result ≡ eq_by_cmp data_order (data_view self.now) (data_view other.now) }
        ensures same { IsTrue result → data_view self.now ≡ data_view other.now }
    {
        compare(self, other).is_eq()
    }
}

impl Eq for Data {
    ghost laws = { on_equiv data_view (eq_by_cmp_equiv data_order_total) };
}

impl PartialOrd for Data {
    ghost partial_cmp = { as_partial_cmp (on data_view data_order) };

    ghost laws = { partial_order_from_agreeing_total (on data_view data_order) (on_total data_view data_order_total) (λ x y. refl) (λ x y. refl) };

    fn partial_cmp(&self, other: &Data) -> Option<Ordering> {
        Some(compare(self, other))
    }
}

impl Ord for Data {
    ghost cmp = { on data_view data_order };

    ghost total = { on_total data_view data_order_total };

    ghost matches_partial_cmp = { λ x y. refl };

    ghost matches_eq = { λ x y. refl };

    fn cmp(&self, other: &Data) -> Ordering {
        compare(self, other)
    }
}

/// Comparing takes no memory, and recurses as deep as the payloads nest.
impl PartialEq for Payload {
    ghost eq = { on payload_view (eq_by_cmp payload_order) };

    ghost laws = { partial_equiv_from_equiv (on_equiv payload_view (eq_by_cmp_equiv payload_order_total)) };

    #[tactic(auto, using(crate::specs::DataOrderLaws::payload_equal))]
    fn eq(&self, other: &Payload) -> bool
        ensures value { result ≡ eq_by_cmp payload_order (payload_view self.now) (payload_view other.now) }
        ensures same { IsTrue result → payload_view self.now ≡ payload_view other.now }
    {
        compare_payloads(self, other).is_eq()
    }
}

impl Eq for Payload {
    ghost laws = { on_equiv payload_view (eq_by_cmp_equiv payload_order_total) };
}

impl PartialOrd for Payload {
    ghost partial_cmp = { as_partial_cmp (on payload_view payload_order) };

    ghost laws = { partial_order_from_agreeing_total (on payload_view payload_order) (on_total payload_view payload_order_total) (λ x y. refl) (λ x y. refl) };

    fn partial_cmp(&self, other: &Payload) -> Option<Ordering> {
        Some(compare_payloads(self, other))
    }
}

impl Ord for Payload {
    ghost cmp = { on payload_view payload_order };

    ghost total = { on_total payload_view payload_order_total };

    ghost matches_partial_cmp = { λ x y. refl };

    ghost matches_eq = { λ x y. refl };

    fn cmp(&self, other: &Payload) -> Ordering {
        compare_payloads(self, other)
    }
}

/// Maps compare as the lists of their pairs. Comparing takes no memory, and recurses as deep as the
/// maps nest.
impl PartialEq for DataMap {
    ghost eq = { on pairs_of (eq_by_cmp pairs_order) };

    ghost laws = { partial_equiv_from_equiv (on_equiv pairs_of (eq_by_cmp_equiv pairs_order_total)) };

    #[tactic(auto, using(crate::specs::DataOrderLaws::pairs_equal))]
    fn eq(&self, other: &DataMap) -> bool
        ensures value { result ≡ eq_by_cmp pairs_order (pairs_of self.now) (pairs_of other.now) }
        ensures same { IsTrue result → pairs_of self.now ≡ pairs_of other.now }
    {
        compare_maps(self, other).is_eq()
    }
}

impl Eq for DataMap {
    ghost laws = { on_equiv pairs_of (eq_by_cmp_equiv pairs_order_total) };
}

impl PartialOrd for DataMap {
    ghost partial_cmp = { as_partial_cmp (on pairs_of pairs_order) };

    ghost laws = { partial_order_from_agreeing_total (on pairs_of pairs_order) (on_total pairs_of pairs_order_total) (λ x y. refl) (λ x y. refl) };

    fn partial_cmp(&self, other: &DataMap) -> Option<Ordering> {
        Some(compare_maps(self, other))
    }
}

impl Ord for DataMap {
    ghost cmp = { on pairs_of pairs_order };

    ghost total = { on_total pairs_of pairs_order_total };

    ghost matches_partial_cmp = { λ x y. refl };

    ghost matches_eq = { λ x y. refl };

    fn cmp(&self, other: &DataMap) -> Ordering {
        compare_maps(self, other)
    }
}
