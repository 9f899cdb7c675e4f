//! Trees and their maps in order, their copies, and what they feed a hasher.

use crate::rising::{TREES, rising};
use crate::trees::two_pairs;
use serde_value::{Items, Value, ValueMap};
use std::alloc::{AllocError, Global};
use std::cmp::Ordering;
use std::hash::{DefaultHasher, Hash, Hasher};
use std::test::Fail;

// How the trees at two places compare.
fn compared(alloc: Global, first: usize, second: usize) -> Result<Ordering, AllocError> {
    match (rising(alloc, first), rising(alloc, second)) {
        (Ok(first), Ok(second)) => Ok(first.cmp(&second)),
        _ => Err(AllocError),
    }
}

#[test]
fn trees_are_in_order(rt: HostRuntime) -> Result<(), Fail> {
    for i in 0..TREES {
        for j in 0..TREES {
            assert_eq!(rt; compared(rt.alloc(), i, j)?, i.cmp(&j), "{i} and {j}");
        }
    }
    Ok(())
}

fn hashed(tree: &Value) -> u64 {
    let mut state = DefaultHasher::new();
    tree.hash(&mut state);
    state.finish()
}

fn hashed_map(map: &ValueMap) -> u64 {
    let mut state = DefaultHasher::new();
    map.hash(&mut state);
    state.finish()
}

// Whether the copy of a tree is equal to it, and feeds a hasher alike.
fn is_copied(alloc: Global, tree: &Value) -> Result<bool, AllocError> {
    let copy = tree.try_clone(alloc)?;
    Ok(copy == *tree && hashed(&copy) == hashed(tree))
}

#[test]
fn a_copy_is_equal(rt: HostRuntime) -> Result<(), Fail> {
    for i in 0..TREES {
        let tree = rising(rt.alloc(), i)?;
        assert!(rt; is_copied(rt.alloc(), &tree)?, "{i}");
    }
    Ok(())
}

// Whether the copy of a map is equal to it, and feeds a hasher as its tree does.
fn is_map_copied(alloc: Global, map: ValueMap) -> Result<bool, AllocError> {
    let copy = map.try_clone(alloc)?;
    let hash = hashed_map(&copy);
    Ok(copy == map && hash == hashed(&Value::Map(map)))
}

#[test]
fn the_copy_of_a_map_is_equal(rt: HostRuntime) -> Result<(), Fail> {
    let map = two_pairs(rt.alloc())?;
    assert!(rt; is_map_copied(rt.alloc(), map)?);
    Ok(())
}

#[test]
fn the_copy_of_items_is_equal(rt: HostRuntime) -> Result<(), Fail> {
    let items = Items::from_vec(vec![in rt.alloc(); Value::U8(7), Value::Unit]?);
    let copy = items.try_clone(rt.alloc())?;
    assert!(rt; matches!(copy.as_slice(), [Value::U8(7), Value::Unit]));
    Ok(())
}
