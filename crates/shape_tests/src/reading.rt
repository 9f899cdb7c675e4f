//! Trees that are read by shapes.

use crate::shapes::{field, newtype_variant};
use data_core::{DeserializeSeed, Text, Track};
use data_items::Error;
use serde_value::{Value, ValueDeserializer, ValueMap};
use shape::{Data, Payload, Shape};
use shape_read::ShapeSeed;
use std::alloc::{AllocError, Global};
use std::test::Fail;

/// What is read of a tree by a shape.
pub fn read(alloc: Global, shape: &Shape, tree: Value) -> Result<Data, Error> {
    let mut track = Track::new(alloc);
    let tree = ValueDeserializer::<Error>::new(alloc, tree);
    ShapeSeed::new(shape).deserialize(alloc, tree, &mut track)
}

// A map of one text to 7.
fn entry(alloc: Global, key: &str) -> Result<Value, AllocError> {
    let mut map = ValueMap::new(alloc);
    let key = Value::String(String::from_str(alloc, key)?);
    match map.insert(key, Value::U8(7)) {
        Ok(_) => Ok(Value::Map(map)),
        Err(_) => Err(AllocError),
    }
}

// Whether a tree is read as a struct of 7.
fn is_struct_of_seven(alloc: Global, shape: &Shape, tree: Value) -> bool {
    match read(alloc, shape, tree) {
        Ok(Data::Struct(items)) => matches!(items.as_slice(), [Data::Unsigned(7)]),
        _ => false,
    }
}

#[test]
fn a_struct_is_read(rt: HostRuntime) -> Result<(), Fail> {
    let shape = Shape::Struct(Text::new(rt.alloc(), "P")?, field(rt.alloc())?);
    let tree = entry(rt.alloc(), "a")?;
    assert!(rt; is_struct_of_seven(rt.alloc(), &shape, tree));
    Ok(())
}

// Whether a tree is read as the first variant, with 7.
fn is_first_of_seven(alloc: Global, shape: &Shape, tree: Value) -> bool {
    match read(alloc, shape, tree) {
        Ok(Data::Enum(0, Payload::Newtype(held))) => matches!(held.get(), Data::Unsigned(7)),
        _ => false,
    }
}

#[test]
fn a_variant_is_read(rt: HostRuntime) -> Result<(), Fail> {
    let shape = Shape::Enum(Text::new(rt.alloc(), "C")?, newtype_variant(rt.alloc())?);
    let tree = entry(rt.alloc(), "A")?;
    assert!(rt; is_first_of_seven(rt.alloc(), &shape, tree));
    Ok(())
}
