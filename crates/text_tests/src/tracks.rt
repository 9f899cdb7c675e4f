//! The path of the first refusal.

use crate::checks::{entry, says, then};
use data_core::{Path, Segment, Track};
use std::alloc::{AllocError, Global};
use std::test::Fail;

// The path of a refusal in the element of an entry, after which came another one.
fn grown(alloc: Global) -> Result<Path, AllocError> {
    let outer = entry(alloc, "a")?;
    let mut track = Track::new(alloc);
    track.note(Some(Path::new(alloc)));
    track.add(Segment::Seq { index: 1 });
    track.note(None);
    track.add(outer);
    Ok(track.path())
}

// The path of a refusal that was noted with all its steps.
fn noted(alloc: Global) -> Result<Path, AllocError> {
    let one = then(Path::new(alloc), Segment::Seq { index: 4 })?;
    let two = then(one, Segment::Seq { index: 2 })?;
    let mut track = Track::new(alloc);
    track.note(Some(two));
    track.note(Some(Path::new(alloc)));
    Ok(track.path())
}

fn shown(alloc: Global, path: Result<Path, AllocError>) -> Result<String, AllocError> {
    path?.to_string(alloc)
}

#[test]
fn grows_outwards_from_the_first_refusal(rt: HostRuntime) -> Result<(), Fail> {
    let alloc = rt.alloc();
    says(&rt, shown(alloc, grown(alloc)), "a[1]")
}

#[test]
fn keeps_a_whole_path(rt: HostRuntime) -> Result<(), Fail> {
    let alloc = rt.alloc();
    says(&rt, shown(alloc, noted(alloc)), "[4][2]")
}

#[test]
fn holds_until_it_is_dropped(rt: HostRuntime) {
    let mut track = Track::new(rt.alloc());
    assert!(rt; !track.holds());
    track.note(Some(Path::new(rt.alloc())));
    assert!(rt; track.holds() && !track.is_marked());
    track.drop_path();
    assert!(rt; !track.holds());
}

#[test]
fn a_lost_path_stays_lost(rt: HostRuntime) {
    let mut track = Track::new(rt.alloc());
    track.note(None);
    track.add(Segment::Unknown);
    assert!(rt; track.is_marked());
    track.drop_path();
    assert!(rt; track.is_marked());
    assert!(rt; track.path().is_empty());
}
