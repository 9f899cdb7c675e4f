//! Trees that are captured, and their deserializers.

use crate::rising::{TREES, rising};
use crate::trees::{Tree, two};
use data_core::Deserializer;
use data_items::IntoDeserializer;
use serde_value::{DeserializerError, Value};
use std::alloc::Global;
use std::test::Fail;

// Whether a tree is captured as it is.
fn is_captured(alloc: Global, tree: Value, same: &Value) -> bool {
    match tree.deserialize_into::<Value>(alloc) {
        Ok(captured) => captured == *same,
        Err(_) => false,
    }
}

#[test]
fn a_tree_is_captured_as_it_is(rt: HostRuntime) -> Result<(), Fail> {
    for i in 0..TREES {
        let same = rising(rt.alloc(), i)?;
        let tree = rising(rt.alloc(), i)?;
        assert!(rt; is_captured(rt.alloc(), tree, &same), "{i}");
    }
    Ok(())
}

#[test]
fn a_list_is_captured_again(rt: HostRuntime) -> Result<(), Fail> {
    let alloc = rt.alloc();
    let tree = two(alloc, Value::U8(1), Value::U16(1))?;
    let same = two(alloc, Value::U8(1), Value::U16(1))?;
    match tree.captured_again(alloc) {
        Ok(captured) => assert!(rt; captured == same),
        Err(_) => return Err("refused".into()),
    }
    Ok(())
}

// Twice: of a tree, and of the deserializer that it is made into.
fn made<D: IntoDeserializer<DeserializerError>>(alloc: Global, value: D) -> D::Deserializer {
    value.into_deserializer(alloc)
}

#[test]
fn a_tree_comes_back_from_its_deserializer(rt: HostRuntime) {
    let d = made(rt.alloc(), made(rt.alloc(), Value::U8(7)));
    assert!(rt; matches!(d.into_value(), Value::U8(7)));
}

#[test]
fn trees_are_read_as_people_write_them(rt: HostRuntime) {
    assert!(rt; Tree::new(rt.alloc(), Value::Unit).is_human_readable());
}
