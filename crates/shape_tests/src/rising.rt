//! Data in their order.

use data_core::Text;
use shape::{Data, DataHeld, DataItems, DataMap, Payload};
use std::alloc::{AllocError, Global};

/// How many data there are.
pub const DATA: usize = 28;

/// The data at a place of a list of data that rise, with at least one of each variant.
pub fn rising(alloc: Global, place: usize) -> Result<Data, AllocError> {
    match place {
        0..=6 => Ok(rising_scalars(place)),
        7..=13 => rising_texts(alloc, place),
        14 => Ok(Data::Seq(numbers(alloc, &[])?)),
        15 => Ok(Data::Seq(numbers(alloc, &[1, 9])?)),
        16 => Ok(Data::Seq(numbers(alloc, &[2])?)),
        17..=20 => Ok(Data::Map(rising_maps(alloc, place)?)),
        21 => Ok(Data::Struct(numbers(alloc, &[1])?)),
        22 => Ok(Data::Enum(0, Payload::Struct(numbers(alloc, &[7])?))),
        _ => Ok(Data::Enum(1, rising_payloads(alloc, place)?)),
    }
}

fn rising_scalars(place: usize) -> Data {
    match place {
        0 => Data::Bool(false),
        1 => Data::Bool(true),
        2 => Data::Unsigned(2),
        3 => Data::Unsigned(10),
        4 => Data::Signed(-2),
        5 => Data::Signed(1),
        _ => Data::Char('a'),
    }
}

fn rising_texts(alloc: Global, place: usize) -> Result<Data, AllocError> {
    match place {
        7 => Ok(Data::Text(Text::new(alloc, "a")?)),
        8 => Ok(Data::Text(Text::new(alloc, "ab")?)),
        9 => Ok(Data::Bytes(Vec::from_slice(alloc, &[9])?)),
        10 => Ok(Data::Unit),
        11 => Ok(Data::Option(None)),
        12 => Ok(Data::Option(Some(held(alloc, Data::Unit)?))),
        _ => Ok(Data::Newtype(held(alloc, Data::Unit)?)),
    }
}

fn rising_maps(alloc: Global, place: usize) -> Result<DataMap, AllocError> {
    match place {
        17 => map(alloc, 1, 2),
        18 => map(alloc, 1, 3),
        19 => put(map(alloc, 2, 0)?, 1, 3),
        _ => map(alloc, 2, 0),
    }
}

fn rising_payloads(alloc: Global, place: usize) -> Result<Payload, AllocError> {
    match place {
        23 => Ok(Payload::Unit),
        24 => Ok(Payload::Newtype(held(alloc, Data::Unit)?)),
        25 => Ok(Payload::Tuple(numbers(alloc, &[3])?)),
        26 => Ok(Payload::Tuple(numbers(alloc, &[4])?)),
        _ => Ok(Payload::Struct(numbers(alloc, &[])?)),
    }
}

/// Data in a box.
pub fn held(alloc: Global, data: Data) -> Result<DataHeld, AllocError> {
    Ok(DataHeld::from_box(Box::new(alloc, data)?))
}

fn numbers(alloc: Global, numbers: &[u64]) -> Result<DataItems, AllocError> {
    let mut items = Vec::new(alloc);
    for number in numbers {
        items.push(Data::Unsigned(*number))?;
    }
    Ok(DataItems::from_vec(items))
}

/// A map of one number to another.
pub fn map(alloc: Global, key: u64, value: i64) -> Result<DataMap, AllocError> {
    put(DataMap::new(alloc), key, value)
}

/// A map with one number more.
pub fn put(map: DataMap, key: u64, value: i64) -> Result<DataMap, AllocError> {
    let mut map = map;
    match map.insert(Data::Unsigned(key), Data::Signed(value)) {
        Ok(_) => Ok(map),
        Err(_) => Err(AllocError),
    }
}
