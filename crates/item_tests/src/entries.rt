//! Entries that are taken by hand, and pairs as elements of which some are left.

use crate::checks::{Pairs, entries, pairs, refusal, says};
use data_core::{Deserializer, Hint, Shown, Track};
use data_std::{ignore_entries, ignore_value, next_entry, next_key, next_value};
use std::test::Fail;

#[test]
fn each_is_taken_in_order(rt: HostRuntime) -> Result<(), Fail> {
    let alloc = rt.alloc();
    let mut track = Track::new(alloc);
    let mut entries = entries(alloc, &[("a", "b"), ("c", "d")])?;
    assert_eq!(rt; Pairs::entries_left(&entries), Some(2));
    let first = next_entry::<Pairs, char, char>(alloc, &mut entries, &mut track);
    assert!(rt; matches!(first, Ok(Some(('a', 'b')))));
    assert_eq!(rt; Pairs::entries_left(&entries), Some(1));
    assert!(rt; ignore_entries::<Pairs>(alloc, &mut entries, &mut track).is_ok());
    assert!(rt; entries.end(alloc).is_ok());
    Ok(())
}

#[test]
fn a_key_and_then_its_value(rt: HostRuntime) -> Result<(), Fail> {
    let alloc = rt.alloc();
    let mut track = Track::new(alloc);
    let mut entries = entries(alloc, &[("a", "b")])?;
    let Ok(Some('a')) = next_key::<Pairs, char>(alloc, &mut entries, &mut track) else {
        return Err("no key".into());
    };
    let value = next_value::<Pairs, char>(alloc, &mut entries, &mut track);
    assert!(rt; matches!(value, Ok('b')));
    Ok(())
}

#[test]
fn a_value_is_ignored(rt: HostRuntime) -> Result<(), Fail> {
    let alloc = rt.alloc();
    let mut track = Track::new(alloc);
    let mut entries = entries(alloc, &[("a", "b")])?;
    let Ok(Some('a')) = next_key::<Pairs, char>(alloc, &mut entries, &mut track) else {
        return Err("no key".into());
    };
    assert!(rt; ignore_value::<Pairs>(alloc, &mut entries, &mut track).is_ok());
    assert!(rt; entries.end(alloc).is_ok());
    Ok(())
}

#[test]
fn some_are_left(rt: HostRuntime) -> Result<(), Fail> {
    let alloc = rt.alloc();
    let left = entries(alloc, &[("a", "b")])?.end(alloc);
    says(&rt, refusal(alloc, left), "invalid length 1, expected 0")
}

#[test]
fn pairs_tell_how_many_are_left(rt: HostRuntime) -> Result<(), Fail> {
    let alloc = rt.alloc();
    let d = pairs(alloc, &[("a", "b"), ("c", "d")])?;
    match d.show(Hint::Seq) {
        Ok(Shown::Seq(elements)) => {
            assert_eq!(rt; Pairs::elements_left(&elements), Some(2));
        }
        _ => return Err("no sequence".into()),
    }
    Ok(())
}
