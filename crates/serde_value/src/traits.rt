//! Trees, and maps of them, compare as serde_value has it. No comparison takes memory, and each
//! recurses as deep as the tree.
ghost use Rattle.std.specs.Prelude.{◌≡◌, IsTrue, refl};
ghost use Rattle.std.specs.Ordering.{eq_by_cmp, on, as_partial_cmp};
ghost use Rattle.std.specs.Cmp.{eq_by_cmp_equiv, on_equiv, on_total, partial_equiv_from_equiv, partial_order_from_agreeing_total};
ghost use Rattle.data_core.specs.Order.{node_order};
ghost use Rattle.data_core.specs.OrderLaws.{node_order_total};
ghost use Rattle.serde_value.specs.View.{node_view, map_node};

use crate::order::{compare, compare_maps};
use crate::value::{Value, ValueMap};
use std::cmp::Ordering;

impl PartialEq for Value {
    ghost eq = { on node_view (eq_by_cmp node_order) };

    ghost laws = { partial_equiv_from_equiv (on_equiv node_view (eq_by_cmp_equiv node_order_total)) };

    fn eq(&self, other: &Value) -> bool
        ensures value { result ≡ eq_by_cmp node_order (node_view self.now) (node_view other.now) }
        ensures same { IsTrue result → node_view self.now ≡ node_view other.now }
    {
        compare(self, other).is_eq()
    }
}

impl Eq for Value {
    ghost laws = { on_equiv node_view (eq_by_cmp_equiv node_order_total) };
}

impl PartialOrd for Value {
    ghost partial_cmp = { as_partial_cmp (on node_view node_order) };

    ghost laws = { partial_order_from_agreeing_total (on node_view node_order) (on_total node_view node_order_total) (λ x y. refl) (λ x y. refl) };

    fn partial_cmp(&self, other: &Value) -> Option<Ordering> {
        Some(compare(self, other))
    }
}

impl Ord for Value {
    ghost cmp = { on node_view node_order };

    ghost total = { on_total node_view node_order_total };

    ghost matches_partial_cmp = { λ x y. refl };

    ghost matches_eq = { λ x y. refl };

    fn cmp(&self, other: &Value) -> Ordering {
        compare(self, other)
    }
}

impl PartialEq for ValueMap {
    ghost eq = { on map_node (eq_by_cmp node_order) };

    ghost laws = { partial_equiv_from_equiv (on_equiv map_node (eq_by_cmp_equiv node_order_total)) };

    fn eq(&self, other: &ValueMap) -> bool
        ensures value { result ≡ eq_by_cmp node_order (map_node self.now) (map_node other.now) }
        ensures same { IsTrue result → map_node self.now ≡ map_node other.now }
    {
        compare_maps(self, other).is_eq()
    }
}

impl Eq for ValueMap {
    ghost laws = { on_equiv map_node (eq_by_cmp_equiv node_order_total) };
}

impl PartialOrd for ValueMap {
    ghost partial_cmp = { as_partial_cmp (on map_node node_order) };

    ghost laws = { partial_order_from_agreeing_total (on map_node node_order) (on_total map_node node_order_total) (λ x y. refl) (λ x y. refl) };

    fn partial_cmp(&self, other: &ValueMap) -> Option<Ordering> {
        Some(compare_maps(self, other))
    }
}

impl Ord for ValueMap {
    ghost cmp = { on map_node node_order };

    ghost total = { on_total map_node node_order_total };

    ghost matches_partial_cmp = { λ x y. refl };

    ghost matches_eq = { λ x y. refl };

    fn cmp(&self, other: &ValueMap) -> Ordering {
        compare_maps(self, other)
    }
}
