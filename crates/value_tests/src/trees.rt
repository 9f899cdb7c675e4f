//! Trees, made of their parts.

use serde_value::{DeserializerError, Held, Items, Value, ValueDeserializer, ValueMap};
use std::alloc::{AllocError, Global};

/// The deserializer that every test here reads from.
pub type Tree = ValueDeserializer<DeserializerError>;

/// A text.
pub fn text(alloc: Global, text: &str) -> Result<Value, AllocError> {
    Ok(Value::String(String::from_str(alloc, text)?))
}

/// Bytes.
pub fn bytes(alloc: Global, bytes: &[u8]) -> Result<Value, AllocError> {
    Ok(Value::Bytes(Vec::from_slice(alloc, bytes)?))
}

/// A tree in a box.
pub fn held(alloc: Global, value: Value) -> Result<Held, AllocError> {
    Ok(Held::from_box(Box::new(alloc, value)?))
}

/// A sequence of one element.
pub fn one(alloc: Global, value: Value) -> Result<Value, AllocError> {
    Ok(Value::Seq(Items::from_vec(vec![in alloc; value]?)))
}

/// A sequence of two elements.
pub fn two(alloc: Global, first: Value, second: Value) -> Result<Value, AllocError> {
    Ok(Value::Seq(Items::from_vec(vec![in alloc; first, second]?)))
}

/// A map of one pair.
pub fn map(alloc: Global, key: Value, value: Value) -> Result<ValueMap, AllocError> {
    put(ValueMap::new(alloc), key, value)
}

/// A map with one pair more.
pub fn put(map: ValueMap, key: Value, value: Value) -> Result<ValueMap, AllocError> {
    let mut map = map;
    match map.insert(key, value) {
        Ok(_) => Ok(map),
        Err(_) => Err(AllocError),
    }
}

/// A map of 2 and of 1 to units, of which the higher key was put first.
pub fn two_pairs(alloc: Global) -> Result<ValueMap, AllocError> {
    put(
        map(alloc, Value::U8(2), Value::Unit)?,
        Value::U8(1),
        Value::Unit,
    )
}
