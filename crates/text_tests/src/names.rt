//! Lists of names.

use crate::checks::named;
use data_core::Names;
use std::alloc::{AllocError, Global};
use std::test::Fail;

// The names `id`, `name` and `id`.
fn three(alloc: Global) -> Result<Names, AllocError> {
    let one = named(alloc, Names::new(alloc), "id")?;
    let two = named(alloc, one, "name")?;
    named(alloc, two, "id")
}

#[test]
fn has_each_name_at_its_place(rt: HostRuntime) -> Result<(), Fail> {
    let names = three(rt.alloc())?;
    assert_eq!(rt; names.len(), 3);
    assert!(rt; !names.is_empty());
    assert_eq!(rt; names.get(1), Some("name"));
    assert_eq!(rt; names.get(3), None);
    Ok(())
}

#[test]
fn finds_the_first_place(rt: HostRuntime) -> Result<(), Fail> {
    let names = three(rt.alloc())?;
    for (name, want) in [("id", Some(0)), ("name", Some(1)), ("na", None)] {
        assert_eq!(rt; names.find(name), want, "{name}");
    }
    Ok(())
}

#[test]
fn is_copied(rt: HostRuntime) -> Result<(), Fail> {
    let copy = three(rt.alloc())?.try_clone(rt.alloc())?;
    assert_eq!(rt; copy.len(), 3);
    assert_eq!(rt; copy.get(2), Some("id"));
    Ok(())
}
