//! Elements that are taken by hand.

use crate::checks::{Text, elements, refusal, says};
use data_core::{Deserializer, Track};
use data_items::SeqDeserializer;
use data_std::{ignore_rest, next_element};
use std::test::Fail;

type Texts = SeqDeserializer<Text>;

#[test]
fn each_is_taken_in_order(rt: HostRuntime) -> Result<(), Fail> {
    let alloc = rt.alloc();
    let mut track = Track::new(alloc);
    let mut elements = elements(alloc, &["a", "b"])?;
    assert_eq!(rt; Texts::elements_left(&elements), Some(2));
    let first = next_element::<Texts, char>(alloc, &mut elements, &mut track);
    assert!(rt; matches!(first, Ok(Some('a'))));
    assert_eq!(rt; Texts::elements_left(&elements), Some(1));
    let left = elements.end(alloc);
    says(&rt, refusal(alloc, left), "invalid length 2, expected 1")
}

#[test]
fn the_rest_is_ignored(rt: HostRuntime) -> Result<(), Fail> {
    let alloc = rt.alloc();
    let mut track = Track::new(alloc);
    let mut elements = elements(alloc, &["a", "b"])?;
    assert!(rt; ignore_rest::<Texts>(alloc, &mut elements, &mut track).is_ok());
    assert!(rt; elements.end(alloc).is_ok());
    Ok(())
}
