//! Trees, and maps of them, feed a hasher: equal ones alike. It takes no memory, and recurses as deep
//! as the tree.
ghost use Rattle.std.specs.Prelude.{◌≡◌, fold, map};
ghost use Rattle.data_core.specs.Node.{nodes_of, pairs_of};
ghost use Rattle.serde_value.specs.Fed.{node_fed, nodes_fed, pairs_fed, node_fed-Alike};
ghost use Rattle.serde_value.specs.View.{node_view, map_node};

use crate::value::{Value, ValueMap};
use std::hash::{Hash, Hasher};

impl Hash for Value {
    ghost hash_input = { λ v. node_fed (node_view v) };

    ghost respects_eq = { λ x y h. node_fed-Alike.fed (node_view x) (node_view y) h };

    fn hash<H: Hasher>(&self, state: &mut H) {
        feed(self, state);
    }
}

/// It feeds what the tree of a map does.
impl Hash for ValueMap {
    ghost hash_input = { λ m. node_fed (map_node m) };

    ghost respects_eq = { λ x y h. node_fed-Alike.fed (map_node x) (map_node y) h };

    fn hash<H: Hasher>(&self, state: &mut H) {
        state.write_u8(17);
        feed_map(self, state);
    }
}

// Feeds a hasher with a tree.
#[cycle(feed)]
fn feed<H: Hasher>(value: &Value, state: &mut H)
    ensures { state.new ≡ fold H.write state.old (node_fed (node_view value.now)) }
{
    match value {
        Value::Bool(b) => {
            state.write_u8(0);
            b.hash(state);
        }
        Value::U8(n) => {
            state.write_u8(1);
            n.hash(state);
        }
        Value::U16(n) => {
            state.write_u8(2);
            n.hash(state);
        }
        Value::U32(n) => {
            state.write_u8(3);
            n.hash(state);
        }
        Value::U64(n) => {
            state.write_u8(4);
            n.hash(state);
        }
        Value::I8(n) => {
            state.write_u8(5);
            n.hash(state);
        }
        Value::I16(n) => {
            state.write_u8(6);
            n.hash(state);
        }
        Value::I32(n) => {
            state.write_u8(7);
            n.hash(state);
        }
        Value::I64(n) => {
            state.write_u8(8);
            n.hash(state);
        }
        Value::Char(c) => {
            state.write_u8(11);
            c.hash(state);
        }
        Value::String(s) => {
            state.write_u8(12);
            s.as_str().hash(state);
        }
        Value::Unit => state.write_u8(13),
        Value::Option(held) => {
            state.write_u8(14);
            match held {
                None => state.write_u8(0),
                Some(held) => {
                    state.write_u8(1);
                    feed(&held.inner, state);
                }
            }
        }
        Value::Newtype(held) => {
            state.write_u8(15);
            feed(&held.inner, state);
        }
        Value::Seq(items) => {
            state.write_u8(16);
            feed_items(&items.items, state);
        }
        Value::Map(map) => {
            state.write_u8(17);
            feed_map(map, state);
        }
        Value::Bytes(b) => {
            state.write_u8(18);
            b.as_slice().hash(state);
        }
    }
}

// A 1 before each tree, and a 0 at the end.
#[cycle(feed)]
#[tactic(auto, using(crate::proofs::Depths::depths))]
fn feed_items<H: Hasher>(items: &[Value], state: &mut H)
    ensures { state.new ≡ fold H.write state.old (nodes_fed (nodes_of (map node_view items.now))) }
{
    for item in items {
        state.write_u8(1);
        feed(item, state);
    }
    state.write_u8(0);
}

// The same of pairs.
#[cycle(feed)]
#[tactic(auto, using(crate::proofs::Depths::depths))]
fn feed_map<H: Hasher>(map: &ValueMap, state: &mut H)
    ensures { state.new ≡ fold H.write state.old (pairs_fed (pairs_of map.now)) }
{
    for (key, item) in &map.pairs {
        state.write_u8(1);
        feed(key, state);
        feed(item, state);
    }
    state.write_u8(0);
}
