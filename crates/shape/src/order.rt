//! Data in order: by variant, in the order in which they are written, and then by what they hold.
ghost use Rattle.std.specs.Prelude.{◌≡◌, map};
ghost use Rattle.std.specs.Ordering.{nat_cmp};
ghost use Rattle.shape.specs.Shape.{parts_of, pairs_of};
ghost use Rattle.shape.specs.DataOrder.{variant, payload_variant, data_order, payload_order, parts_order, pairs_order};
ghost use Rattle.shape.specs.View.{data_view, option_view, payload_view};

use crate::data::{Data, DataHeld, DataMap, Payload};
use std::cmp::Ordering;

// The number of a datum's variant.
fn variant(datum: &Data) -> u8
    ensures { result ≡ variant (data_view datum.now) }
{
    match datum {
        Data::Bool(_) => 0,
        Data::Unsigned(_) => 1,
        Data::Signed(_) => 2,
        Data::Char(_) => 3,
        Data::Text(_) => 4,
        Data::Bytes(_) => 5,
        Data::Unit => 6,
        Data::Option(_) => 7,
        Data::Newtype(_) => 8,
        Data::Seq(_) => 9,
        Data::Map(_) => 10,
        Data::Struct(_) => 11,
        Data::Enum(_, _) => 12,
    }
}

fn by_variant(a: &Data, b: &Data) -> Ordering
    ensures { result ≡ nat_cmp (variant (data_view a.now)) (variant (data_view b.now)) }
{
    variant(a).cmp(&variant(b))
}

// The number of a payload's variant.
fn payload_variant(payload: &Payload) -> u8
    ensures { result ≡ payload_variant (payload_view payload.now) }
{
    match payload {
        Payload::Unit => 0,
        Payload::Newtype(_) => 1,
        Payload::Tuple(_) => 2,
        Payload::Struct(_) => 3,
    }
}

fn by_payload_variant(a: &Payload, b: &Payload) -> Ordering
    ensures { result ≡ nat_cmp (payload_variant (payload_view a.now)) (payload_variant (payload_view b.now)) }
{
    payload_variant(a).cmp(&payload_variant(b))
}

// It takes no memory, and recurses as deep as the data nest.
#[cycle(compare)]
pub(crate) fn compare(a: &Data, b: &Data) -> Ordering
    ensures { result ≡ data_order (data_view a.now) (data_view b.now) }
{
    match a {
        Data::Bool(x) => match b {
            Data::Bool(y) => x.cmp(y),
            _ => by_variant(a, b),
        },
        Data::Unsigned(x) => match b {
            Data::Unsigned(y) => x.cmp(y),
            _ => by_variant(a, b),
        },
        Data::Signed(x) => match b {
            Data::Signed(y) => x.cmp(y),
            _ => by_variant(a, b),
        },
        Data::Char(x) => match b {
            Data::Char(y) => x.cmp(y),
            _ => by_variant(a, b),
        },
        Data::Text(x) => match b {
            Data::Text(y) => x.as_str().cmp(y.as_str()),
            _ => by_variant(a, b),
        },
        Data::Bytes(x) => match b {
            Data::Bytes(y) => x.as_slice().cmp(y.as_slice()),
            _ => by_variant(a, b),
        },
        Data::Unit => by_variant(a, b),
        Data::Option(x) => match b {
            Data::Option(y) => compare_options(x, y),
            _ => by_variant(a, b),
        },
        Data::Newtype(x) => match b {
            Data::Newtype(y) => compare(&x.inner, &y.inner),
            _ => by_variant(a, b),
        },
        Data::Seq(x) => match b {
            Data::Seq(y) => compare_items(&x.items, &y.items),
            _ => by_variant(a, b),
        },
        Data::Map(x) => match b {
            Data::Map(y) => compare_maps(x, y),
            _ => by_variant(a, b),
        },
        Data::Struct(x) => match b {
            Data::Struct(y) => compare_items(&x.items, &y.items),
            _ => by_variant(a, b),
        },
        Data::Enum(m, x) => match b {
            Data::Enum(n, y) => match m.cmp(n) {
                Ordering::Equal => compare_payloads(x, y),
                other => other,
            },
            _ => by_variant(a, b),
        },
    }
}

#[cycle(compare)]
fn compare_options(a: &Option<DataHeld>, b: &Option<DataHeld>) -> Ordering
    ensures { result ≡ data_order (option_view a.now) (option_view b.now) }
{
    match a {
        None => match b {
            None => Ordering::Equal,
            Some(_) => Ordering::Less,
        },
        Some(x) => match b {
            None => Ordering::Greater,
            Some(y) => compare(&x.inner, &y.inner),
        },
    }
}

#[cycle(compare)]
pub(crate) fn compare_payloads(a: &Payload, b: &Payload) -> Ordering
    ensures { result ≡ payload_order (payload_view a.now) (payload_view b.now) }
{
    match a {
        Payload::Unit => by_payload_variant(a, b),
        Payload::Newtype(x) => match b {
            Payload::Newtype(y) => compare(&x.inner, &y.inner),
            _ => by_payload_variant(a, b),
        },
        Payload::Tuple(x) => match b {
            Payload::Tuple(y) => compare_items(&x.items, &y.items),
            _ => by_payload_variant(a, b),
        },
        Payload::Struct(x) => match b {
            Payload::Struct(y) => compare_items(&x.items, &y.items),
            _ => by_payload_variant(a, b),
        },
    }
}

#[cycle(compare)]
#[tactic(auto, using(crate::proofs::Walks::ends))]
fn compare_items(a: &[Data], b: &[Data]) -> Ordering
    ensures { result ≡ parts_order (parts_of (map data_view a.now)) (parts_of (map data_view b.now)) }
{
    for i in 0..a.len().min(b.len()) {
        match compare(&a[i], &b[i]) {
            Ordering::Equal => {}
            other => return other,
        }
    }
    a.len().cmp(&b.len())
}

#[cycle(compare)]
#[tactic(auto, using(crate::proofs::Walks::ends))]
pub(crate) fn compare_maps(a: &DataMap, b: &DataMap) -> Ordering
    ensures { result ≡ pairs_order (pairs_of a.now) (pairs_of b.now) }
{
    for i in 0..a.pairs.len().min(b.pairs.len()) {
        let (x, y) = (&a.pairs[i], &b.pairs[i]);
        match compare(&x.0, &y.0) {
            Ordering::Equal => {}
            other => return other,
        }
        match compare(&x.1, &y.1) {
            Ordering::Equal => {}
            other => return other,
        }
    }
    a.pairs.len().cmp(&b.pairs.len())
}
