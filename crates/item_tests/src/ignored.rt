//! What is read and dropped.

use crate::checks::{Pairs, Text, pairs, refusal, says, text};
use data_core::{DeserializeSeed, Shown, Track};
use data_items::{Error, UnitOnly};
use data_std::{IgnoredAny, deserialize};
use std::test::Fail;

#[test]
fn pairs_are_ignored(rt: HostRuntime) -> Result<(), Fail> {
    let alloc = rt.alloc();
    let d = pairs(alloc, &[("a", "b")])?;
    let mut track = Track::new(alloc);
    assert!(rt; deserialize::<IgnoredAny, Pairs>(alloc, d, &mut track).is_ok());
    Ok(())
}

#[test]
fn the_payload_of_a_variant_is_ignored_as_a_newtype(rt: HostRuntime) -> Result<(), Fail> {
    let alloc = rt.alloc();
    let shown: Shown<Text> = Shown::Enum(text(alloc, "on")?, UnitOnly::new());
    let mut track = Track::new(alloc);
    let read: Result<IgnoredAny, Error> = IgnoredAny.visit(alloc, shown, &mut track);
    says(
        &rt,
        refusal(alloc, read),
        "invalid type: unit variant, expected newtype variant",
    )
}
