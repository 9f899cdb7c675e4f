//! Paths, and how they are shown.
ghost use Rattle.std.specs.Prelude.{◌≡◌, IfOk, string_bytes};
ghost use Rattle.data_core.specs.PathText.{path_text};

use crate::checks::{entry, payload, says, then};
use data_core::{Path, Segment};
use std::alloc::{AllocError, Global};
use std::test::Fail;

// What a caller of `to_string` knows.
fn shown(alloc: Global, path: &Path) -> Result<String, AllocError>
    ensures { IfOk result (λ s. string_bytes s ≡ path_text path.now) }
{
    path.to_string(alloc)
}

fn shown_whole(alloc: Global, path: Result<Path, AllocError>) -> Result<String, AllocError> {
    shown(alloc, &path?)
}

fn shown_copy(alloc: Global, path: Result<Path, AllocError>) -> Result<String, AllocError> {
    let copy = path?.try_clone(alloc)?;
    shown(alloc, &copy)
}

fn one(alloc: Global) -> Result<Path, AllocError> {
    let first = entry(alloc, "a")?;
    then(Path::new(alloc), first)
}

fn two(alloc: Global) -> Result<Path, AllocError> {
    then(one(alloc)?, Segment::Seq { index: 1 })
}

fn three(alloc: Global) -> Result<Path, AllocError> {
    then(two(alloc)?, Segment::Unknown)
}

fn four(alloc: Global) -> Result<Path, AllocError> {
    let last = payload(alloc, "V")?;
    then(three(alloc)?, last)
}

#[test]
fn shows_each_step(rt: HostRuntime) -> Result<(), Fail> {
    let alloc = rt.alloc();
    says(&rt, shown(alloc, &Path::new(alloc)), ".")?;
    says(&rt, shown_whole(alloc, one(alloc)), "a")?;
    says(&rt, shown_whole(alloc, two(alloc)), "a[1]")?;
    says(&rt, shown_whole(alloc, three(alloc)), "a[1].?")?;
    says(&rt, shown_whole(alloc, four(alloc)), "a[1].?.V")
}

#[test]
fn is_copied_with_each_step(rt: HostRuntime) -> Result<(), Fail> {
    let alloc = rt.alloc();
    says(&rt, shown_copy(alloc, four(alloc)), "a[1].?.V")
}

#[test]
fn has_as_many_steps(rt: HostRuntime) -> Result<(), Fail> {
    let path = four(rt.alloc())?;
    assert_eq!(rt; path.len(), 4);
    assert!(rt; !path.is_empty());
    assert_eq!(rt; path.as_slice().len(), 4);
    Ok(())
}
