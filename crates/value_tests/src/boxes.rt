//! Trees in a box, and trees in a list.

use serde_value::{Held, Items, Value};
use std::test::Fail;

#[test]
fn a_held_tree_comes_back(rt: HostRuntime) -> Result<(), Fail> {
    let held = Held::from_box(Box::new(rt.alloc(), Value::U8(7))?);
    assert!(rt; matches!(held.get(), Value::U8(7)));
    let held = Held::from_box(held.into_box());
    assert!(rt; matches!(held.into_inner(), Value::U8(7)));
    Ok(())
}

#[test]
fn items_come_back(rt: HostRuntime) -> Result<(), Fail> {
    let items = Items::from_vec(vec![in rt.alloc(); Value::U8(7), Value::Unit]?);
    assert_eq!(rt; items.len(), 2);
    assert!(rt; !items.is_empty());
    assert!(rt; matches!(items.as_slice(), [Value::U8(7), Value::Unit]));
    let items = items.into_vec();
    assert!(rt; matches!(items.as_slice(), [Value::U8(7), Value::Unit]));
    Ok(())
}
