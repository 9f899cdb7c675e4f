//! The order of trees: by variant, and then by what the variant holds.
ghost use Rattle.std.specs.Prelude.{◌≡◌, map};
ghost use Rattle.std.specs.Ordering.{nat_cmp};
ghost use Rattle.data_core.specs.Node.{nodes_of, pairs_of};
ghost use Rattle.data_core.specs.Order.{variant, node_order, nodes_order, pairs_order};
ghost use Rattle.serde_value.specs.View.{node_view};

use crate::value::{Value, ValueMap};
use std::cmp::Ordering;

// The number of a tree's variant, as serde_value has it; 9 and 10 are its floats'.
fn variant(value: &Value) -> u8
    ensures { result ≡ variant (node_view value.now) }
{
    match value {
        Value::Bool(_) => 0,
        Value::U8(_) => 1,
        Value::U16(_) => 2,
        Value::U32(_) => 3,
        Value::U64(_) => 4,
        Value::I8(_) => 5,
        Value::I16(_) => 6,
        Value::I32(_) => 7,
        Value::I64(_) => 8,
        Value::Char(_) => 11,
        Value::String(_) => 12,
        Value::Unit => 13,
        Value::Option(_) => 14,
        Value::Newtype(_) => 15,
        Value::Seq(_) => 16,
        Value::Map(_) => 17,
        Value::Bytes(_) => 18,
    }
}

// The order of two trees of different variants.
fn by_variant(a: &Value, b: &Value) -> Ordering
    ensures { result ≡ nat_cmp (variant (node_view a.now)) (variant (node_view b.now)) }
{
    variant(a).cmp(&variant(b))
}

// The order of two trees.
#[cycle(compare)]
pub(crate) fn compare(a: &Value, b: &Value) -> Ordering
    ensures { result ≡ node_order (node_view a.now) (node_view b.now) }
{
    match a {
        Value::Bool(x) => match b {
            Value::Bool(y) => x.cmp(y),
            _ => by_variant(a, b),
        },
        Value::U8(x) => match b {
            Value::U8(y) => x.cmp(y),
            _ => by_variant(a, b),
        },
        Value::U16(x) => match b {
            Value::U16(y) => x.cmp(y),
            _ => by_variant(a, b),
        },
        Value::U32(x) => match b {
            Value::U32(y) => x.cmp(y),
            _ => by_variant(a, b),
        },
        Value::U64(x) => match b {
            Value::U64(y) => x.cmp(y),
            _ => by_variant(a, b),
        },
        Value::I8(x) => match b {
            Value::I8(y) => x.cmp(y),
            _ => by_variant(a, b),
        },
        Value::I16(x) => match b {
            Value::I16(y) => x.cmp(y),
            _ => by_variant(a, b),
        },
        Value::I32(x) => match b {
            Value::I32(y) => x.cmp(y),
            _ => by_variant(a, b),
        },
        Value::I64(x) => match b {
            Value::I64(y) => x.cmp(y),
            _ => by_variant(a, b),
        },
        Value::Char(x) => match b {
            Value::Char(y) => x.cmp(y),
            _ => by_variant(a, b),
        },
        Value::String(x) => match b {
            Value::String(y) => x.as_str().cmp(y.as_str()),
            _ => by_variant(a, b),
        },
        Value::Unit => by_variant(a, b),
        Value::Option(x) => match b {
            Value::Option(y) => match x {
                None => match y {
                    None => Ordering::Equal,
                    Some(_) => Ordering::Less,
                },
                Some(x) => match y {
                    None => Ordering::Greater,
                    Some(y) => compare(&x.inner, &y.inner),
                },
            },
            _ => by_variant(a, b),
        },
        Value::Newtype(x) => match b {
            Value::Newtype(y) => compare(&x.inner, &y.inner),
            _ => by_variant(a, b),
        },
        Value::Seq(x) => match b {
            Value::Seq(y) => compare_items(&x.items, &y.items),
            _ => by_variant(a, b),
        },
        Value::Map(x) => match b {
            Value::Map(y) => compare_maps(x, y),
            _ => by_variant(a, b),
        },
        Value::Bytes(x) => match b {
            Value::Bytes(y) => x.as_slice().cmp(y.as_slice()),
            _ => by_variant(a, b),
        },
    }
}

// Tree by tree: the first two that differ decide, and then the lengths.
#[cycle(compare)]
#[tactic(auto, using(crate::proofs::Walks::ends))]
fn compare_items(a: &[Value], b: &[Value]) -> Ordering
    ensures { result ≡ nodes_order (nodes_of (map node_view a.now)) (nodes_of (map node_view b.now)) }
{
    for i in 0..a.len().min(b.len()) {
        match compare(&a[i], &b[i]) {
            Ordering::Equal => {}
            other => return other,
        }
    }
    a.len().cmp(&b.len())
}

// Pair by pair, each by its key and then by its value, and then the lengths.
#[cycle(compare)]
#[tactic(auto, using(crate::proofs::Walks::ends))]
pub(crate) fn compare_maps(a: &ValueMap, b: &ValueMap) -> Ordering
    ensures { result ≡ pairs_order (pairs_of a.now) (pairs_of b.now) }
{
    for i in 0..a.pairs.len().min(b.pairs.len()) {
        let (x, y) = (&a.pairs[i], &b.pairs[i]);
        match compare(&x.0, &y.0) {
            Ordering::Equal => {}
            other => return other,
        }
        match compare(&x.1, &y.1) {
            Ordering::Equal => {}
            other => return other,
        }
    }
    a.pairs.len().cmp(&b.pairs.len())
}
