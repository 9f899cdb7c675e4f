//! Values of types whose readers have exactly one outcome of each offer.

use crate::checks::{Texts, answer, says, texts};
use data_core::{Deserializer, Track};
use data_items::{Error, MapDeserializer, StringDeserializer};
use data_std::{Told, deserialize_told};
use std::alloc::{AllocError, Global};
use std::collections::BTreeMap;
use std::fmt;
use std::test::Fail;

// What is read of a deserializer as a type that is told, or why it is refused.
fn told<T: Told + fmt::Debug, D: Deserializer<Error = Error>>(
    alloc: Global,
    d: D,
) -> Result<String, AllocError> {
    let mut track = Track::new(alloc);
    answer::<T>(alloc, deserialize_told(alloc, d, &mut track))
}

// A map of these pairs of texts.
fn pairs(
    alloc: Global,
    pairs: &[(&str, &str)],
) -> Result<MapDeserializer<StringDeserializer<Error>>, AllocError> {
    let mut items = Vec::new(alloc);
    for (key, value) in pairs {
        let key = StringDeserializer::new(String::from_str(alloc, key)?);
        let value = StringDeserializer::new(String::from_str(alloc, value)?);
        items.push((key, value))?;
    }
    Ok(MapDeserializer::new(alloc, items))
}

#[test]
fn a_list_is_told(rt: HostRuntime) -> Result<(), Fail> {
    let alloc = rt.alloc();
    let list = texts(alloc, &["a", "b"])?;
    says(&rt, told::<Vec<char>, Texts>(alloc, list), "['a', 'b']")
}

#[test]
fn a_map_is_told_in_the_order_of_its_keys(rt: HostRuntime) -> Result<(), Fail> {
    let alloc = rt.alloc();
    let map = pairs(alloc, &[("b", "x"), ("a", "y"), ("b", "z")])?;
    let read = told::<BTreeMap<String, char>, _>(alloc, map);
    says(&rt, read, "{\"a\": 'y', \"b\": 'z'}")
}
