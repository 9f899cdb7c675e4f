//! Trees of values.
use std::marker::Model;

/// A tree that captures a value: serde_value's `Value`, without floats. Comparing, copying, hashing and
/// dropping it recurse as deep as the tree.
#[cycle(value)]
#[derive(Drop)]
pub enum Value {
    Bool(bool),
    U8(u8),
    U16(u16),
    U32(u32),
    U64(u64),
    I8(i8),
    I16(i16),
    I32(i32),
    I64(i64),
    Char(char),
    String(String),
    Unit,
    Option(Option<Held>),
    Newtype(Held),
    Seq(Items),
    Map(ValueMap),
    Bytes(Vec<u8>),
}

/// A tree in a box, where serde_value has a `Box`. Dropping a deep tree recurses.
#[cycle(value)]
#[derive(Drop)]
pub struct Held {
    pub(crate) inner: Box<Value>,
}

/// Trees in order, where serde_value's `Value::Seq` has a `Vec`. Dropping deep trees recurses.
#[cycle(value)]
#[derive(Drop)]
pub struct Items {
    pub(crate) items: Vec<Value>,
}

/// Pairs of trees by rising key, where serde_value's `Value::Map` has a `BTreeMap`. Dropping deep
/// trees recurses.
#[cycle(value)]
#[derive(Drop)]
pub struct ValueMap {
    pub(crate) pairs: Vec<(Value, Value)>,
}

impl Model for Held {
    ghost use Rattle.data_core.specs.Node.{Node};
    ghost use Rattle.data_core.specs.NodeCode.{coded_node};

    ghost Value = { Node };

    ghost coded = { coded_node };

    ghost use Rattle.data_core.specs.Depth.{depth};
    ghost use Rattle.serde_value.specs.View.{node_view};

    ghost view = { λ h. node_view h.inner.value };

    ghost size = { depth };

    ghost use Rattle.std.proofs.Common.{arith};
    ghost use Rattle.serde_value.specs.Sizes.{deep≤depth};

    ghost size_decreases = { λ h i. omega (arith, deep≤depth h.inner.value) };
}

impl Model for Items {
    ghost use Rattle.std.specs.Prelude.{List, map};
    ghost use Rattle.std.specs.Coded.{coded_list};
    ghost use Rattle.data_core.specs.Node.{Node, nodes_of};
    ghost use Rattle.data_core.specs.NodeCode.{coded_node};

    ghost Value = { List Node };

    ghost coded = { coded_list coded_node };

    ghost use Rattle.data_core.specs.Depth.{depth_of_nodes};
    ghost use Rattle.serde_value.specs.View.{node_view};

    ghost view = { λ s. map node_view s.items.items };

    ghost size = { λ ns. depth_of_nodes (nodes_of ns) };

    ghost use Rattle.std.proofs.Common.{arith};
    ghost use Rattle.serde_value.specs.Sizes.{most≤depth};

    ghost size_decreases = { λ s i. omega (arith, most≤depth s.items.items) };
}

impl Model for ValueMap {
    ghost use Rattle.std.specs.Prelude.{List, map};
    ghost use Rattle.std.specs.Coded.{coded_list, coded×};
    ghost use Rattle.data_core.specs.Node.{Node, pairs_of};
    ghost use Rattle.data_core.specs.NodeCode.{coded_node};

    ghost Value = { List (Node × Node) };

    ghost coded = { coded_list (coded× coded_node coded_node) };

    ghost use Rattle.data_core.specs.Depth.{depth_of_pairs};
    ghost use Rattle.data_core.specs.Order.{node_order};
    ghost use Rattle.sorted_pairs.specs.Pairs.{Rises};
    ghost use Rattle.serde_value.specs.View.{pair_view};

    ghost view = { λ m. map pair_view m.pairs.items };

    ghost invariant = { λ m. Rises node_order (map pair_view m.pairs.items) };

    ghost size = { λ ps. depth_of_pairs (pairs_of ps) };

    ghost use Rattle.std.proofs.Common.{arith};
    ghost use Rattle.serde_value.specs.Sizes.{most≤depth_of_pairs};

    ghost size_decreases = { λ m i. omega (arith, most≤depth_of_pairs m.pairs.items) };
}
