//! The steps of a path, one after another.
ghost use Rattle.std.specs.Prelude.{◌≡◌, IfOk, map};

use crate::checks::{says, then};
use data_core::{Path, Segment};
use std::alloc::{AllocError, Global};
use std::test::Fail;

// What a caller of `iter` knows.
fn steps(alloc: Global, path: &Path) -> Result<Vec<&Segment>, AllocError>
    ensures { IfOk result (λ steps. map (λ s. s.now) steps.items ≡ path.now) }
{
    path.iter().collect(alloc)
}

fn path(alloc: Global) -> Result<Path, AllocError> {
    let one = then(Path::new(alloc), Segment::Seq { index: 5 })?;
    let two = then(one, Segment::Seq { index: 6 })?;
    then(two, Segment::Seq { index: 7 })
}

// Each step by itself, one after another.
fn joined(alloc: Global, path: &Path) -> Result<String, AllocError> {
    let mut shown = String::new(alloc);
    for segment in path {
        shown.push_str(segment.to_string(alloc)?.as_str())?;
    }
    Ok(shown)
}

#[test]
fn from_both_ends(rt: HostRuntime) -> Result<(), Fail> {
    let path = path(rt.alloc())?;
    let mut segments = path.iter();
    assert!(rt; matches!(segments.next(), Some(Segment::Seq { index: 5 })));
    assert!(rt; matches!(segments.next_back(), Some(Segment::Seq { index: 7 })));
    assert_eq!(rt; segments.len(), 1);
    assert!(rt; matches!(segments.next(), Some(Segment::Seq { index: 6 })));
    assert!(rt; segments.next_back().is_none());
    Ok(())
}

#[test]
fn tells_how_many_are_left(rt: HostRuntime) -> Result<(), Fail> {
    let path = path(rt.alloc())?;
    let segments = path.iter();
    assert_eq!(rt; segments.len(), 3);
    assert_eq!(rt; segments.size_hint(), (3, Some(3)));
    Ok(())
}

#[test]
fn is_gone_over_in_order(rt: HostRuntime) -> Result<(), Fail> {
    let alloc = rt.alloc();
    let path = path(alloc)?;
    assert_eq!(rt; steps(alloc, &path)?.len(), 3);
    says(&rt, joined(alloc, &path), "[5][6][7]")
}
