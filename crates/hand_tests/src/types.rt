//! Standard types that are read with a path.

use crate::told::{refusal, says};
use crate::trees::{Tree, entries, pair};
use serde_path_to_error::deserialize;
use serde_value::Value;
use std::alloc::{AllocError, Global};
use std::collections::BTreeMap;
use std::test::Fail;

// What is read of a pair as a list of numbers.
fn list(alloc: Global, first: Value, second: Value) -> Result<String, AllocError> {
    let tree = Tree::new(alloc, pair(alloc, first, second)?);
    match deserialize::<Tree, Vec<u8>>(alloc, tree) {
        Ok(numbers) => format!(in alloc; "{numbers:?}"),
        Err(error) => refusal(alloc, error),
    }
}

#[test]
fn an_element_is_refused_at_its_number(rt: HostRuntime) -> Result<(), Fail> {
    let alloc = rt.alloc();
    says(&rt, list(alloc, Value::U8(1), Value::U16(2)), "[1, 2]")?;
    says(
        &rt,
        list(alloc, Value::U8(1), Value::Bool(true)),
        "[1]: InvalidType Bool",
    )
}

// What is read of a map of 1 to 10, and of 2 to this value, as a map of numbers.
fn map(alloc: Global, value: Value) -> Result<String, AllocError> {
    let first = (Value::U8(1), Value::U8(10));
    let tree = Tree::new(alloc, entries(alloc, first, (Value::U8(2), value))?);
    match deserialize::<Tree, BTreeMap<u8, u8>>(alloc, tree) {
        Ok(map) => format!(in alloc; "{:?} {:?}", map.get(&1).copied(), map.get(&2).copied()),
        Err(error) => refusal(alloc, error),
    }
}

#[test]
fn a_value_is_refused_at_its_key(rt: HostRuntime) -> Result<(), Fail> {
    let alloc = rt.alloc();
    says(&rt, map(alloc, Value::U16(20)), "Some(10) Some(20)")?;
    says(&rt, map(alloc, Value::Unit), "2: InvalidType Unit")
}
