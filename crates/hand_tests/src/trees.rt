//! Trees that are read.

use data_items::Error;
use serde_value::{Items, Value, ValueDeserializer, ValueMap};
use std::alloc::{AllocError, Global};

/// The deserializer that every reader here reads from.
pub type Tree = ValueDeserializer<Error>;

/// A text.
pub fn text(alloc: Global, text: &str) -> Result<Value, AllocError> {
    Ok(Value::String(String::from_str(alloc, text)?))
}

/// A map of one entry, whose key is a text.
pub fn entry(alloc: Global, key: &str, value: Value) -> Result<Value, AllocError> {
    let mut map = ValueMap::new(alloc);
    match map.insert(text(alloc, key)?, value) {
        Ok(_) => Ok(Value::Map(map)),
        Err(_) => Err(AllocError),
    }
}

/// A map of two entries.
pub fn entries(
    alloc: Global,
    first: (Value, Value),
    second: (Value, Value),
) -> Result<Value, AllocError> {
    let mut map = ValueMap::new(alloc);
    if map.insert(first.0, first.1).is_err() || map.insert(second.0, second.1).is_err() {
        return Err(AllocError);
    }
    Ok(Value::Map(map))
}

/// A sequence of two elements.
pub fn pair(alloc: Global, first: Value, second: Value) -> Result<Value, AllocError> {
    Ok(Value::Seq(Items::from_vec(vec![in alloc; first, second]?)))
}
