//! Trees in the order of serde_value.

use crate::trees::{bytes, held, map, one, text, two, two_pairs};
use serde_value::{Items, Value, ValueMap};
use std::alloc::{AllocError, Global};

/// How many trees there are.
pub const TREES: usize = 42;

/// The tree at a place of a list of trees that rise.
pub fn rising(alloc: Global, place: usize) -> Result<Value, AllocError> {
    match place {
        0..=9 => Ok(rising_unsigned(place)),
        10..=19 => Ok(rising_signed(place)),
        20..=29 => rising_texts(alloc, place),
        30..=33 => rising_lists(alloc, place),
        34..=38 => Ok(Value::Map(rising_maps(alloc, place)?)),
        39 => bytes(alloc, b""),
        40 => bytes(alloc, b"ab"),
        _ => bytes(alloc, b"b"),
    }
}

fn rising_unsigned(place: usize) -> Value {
    match place {
        0 => Value::Bool(false),
        1 => Value::Bool(true),
        2 => Value::U8(1),
        3 => Value::U8(255),
        4 => Value::U16(0),
        5 => Value::U16(256),
        6 => Value::U32(0),
        7 => Value::U32(65_536),
        8 => Value::U64(0),
        _ => Value::U64(u64::MAX),
    }
}

fn rising_signed(place: usize) -> Value {
    match place {
        10 => Value::I8(-1),
        11 => Value::I8(1),
        12 => Value::I16(-256),
        13 => Value::I16(0),
        14 => Value::I32(-1),
        15 => Value::I32(0),
        16 => Value::I64(i64::MIN),
        17 => Value::I64(0),
        18 => Value::Char('a'),
        _ => Value::Char('z'),
    }
}

fn rising_texts(alloc: Global, place: usize) -> Result<Value, AllocError> {
    match place {
        20 => text(alloc, ""),
        21 => text(alloc, "a"),
        22 => text(alloc, "ab"),
        23 => text(alloc, "b"),
        24 => Ok(Value::Unit),
        25 => Ok(Value::Option(None)),
        26 => Ok(Value::Option(Some(held(alloc, Value::U8(1))?))),
        27 => Ok(Value::Option(Some(held(alloc, Value::U8(2))?))),
        28 => Ok(Value::Newtype(held(alloc, Value::Unit)?)),
        _ => Ok(Value::Newtype(held(alloc, Value::Option(None))?)),
    }
}

fn rising_lists(alloc: Global, place: usize) -> Result<Value, AllocError> {
    match place {
        30 => Ok(Value::Seq(Items::from_vec(Vec::new(alloc)))),
        31 => one(alloc, Value::U8(1)),
        32 => two(alloc, Value::U8(1), Value::U8(1)),
        _ => one(alloc, Value::U8(2)),
    }
}

fn rising_maps(alloc: Global, place: usize) -> Result<ValueMap, AllocError> {
    match place {
        34 => Ok(ValueMap::new(alloc)),
        35 => map(alloc, Value::U8(1), Value::Unit),
        36 => two_pairs(alloc),
        37 => map(alloc, Value::U8(1), Value::Option(None)),
        _ => map(alloc, Value::U8(2), Value::Unit),
    }
}
