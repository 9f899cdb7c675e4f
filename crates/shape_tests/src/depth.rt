//! Shapes and trees that are nested deeper than any document.

use crate::reading::read;
use crate::shapes::seq;
use data_items::Error;
use serde_value::{Items, Value};
use shape::{Data, Shape, upgrade};
use std::alloc::{AllocError, Global};
use std::test::Fail;

// How deep all is nested here.
const DEPTH: usize = 200;

// So many sequences around a small number.
fn sequences(alloc: Global) -> Result<Shape, AllocError> {
    let mut shape = Shape::U8;
    for _ in 0..DEPTH {
        shape = seq(alloc, shape)?;
    }
    Ok(shape)
}

// So many sequences of one element around a tree.
fn lists(alloc: Global, inside: Value) -> Result<Value, AllocError> {
    let mut tree = inside;
    for _ in 0..DEPTH {
        tree = Value::Seq(Items::from_vec(vec![in alloc; tree]?));
    }
    Ok(tree)
}

// The last element.
fn inside(data: Data) -> Option<Data> {
    match data {
        Data::Seq(items) => {
            let mut items = items.into_vec();
            items.pop()
        }
        _ => None,
    }
}

// The number within so many.
fn number_within(read: Result<Data, Error>) -> Option<u64> {
    let mut data = read.ok()?;
    for _ in 0..DEPTH {
        data = inside(data)?;
    }
    match data {
        Data::Unsigned(number) => Some(number),
        _ => None,
    }
}

#[test]
fn a_number_within_sequences(rt: HostRuntime) -> Result<(), Fail> {
    let shape = upgrade(sequences(rt.alloc())?);
    let tree = lists(rt.alloc(), Value::U8(7))?;
    assert_eq!(rt; number_within(read(rt.alloc(), &shape, tree)), Some(7));
    Ok(())
}
