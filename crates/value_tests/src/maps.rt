//! Maps of trees.
ghost use Rattle.std.specs.Prelude.{◌≡◌};

use serde_value::{Value, ValueMap};
use sorted_pairs::Steps;
use std::alloc::Global;
use std::marker::Brand;
use std::sync::ledger::{Blank, Ledger};
use std::test::Fail;

// Puts a value at a number, and gives the number that stood there, where one did.
fn put(map: &mut ValueMap, key: u16, value: u8) -> Result<Option<u8>, Fail> {
    match map.insert(Value::U16(key), Value::U8(value)) {
        Ok(Some(Value::U8(old))) => Ok(Some(old)),
        Ok(_) => Ok(None),
        Err(_) => Err("no memory".into()),
    }
}

// The number at a key, where one stands there.
fn number_at(map: &ValueMap, key: &Value) -> Option<u8> {
    match map.find(key) {
        Some(Value::U8(number)) => Some(*number),
        _ => None,
    }
}

// A map of the first hundred numbers to 1, put in falling order.
fn hundred(alloc: Global) -> Result<ValueMap, Fail> {
    let mut map = ValueMap::new(alloc);
    for n in 0..100 {
        put(&mut map, 99 - n, 1)?;
    }
    Ok(map)
}

#[test]
fn each_key_is_found(rt: HostRuntime) -> Result<(), Fail> {
    let map = hundred(rt.alloc())?;
    for n in 0..100 {
        assert_eq!(rt; number_at(&map, &Value::U16(n)), Some(1), "{n}");
    }
    assert_eq!(rt; number_at(&map, &Value::U16(100)), None);
    assert_eq!(rt; number_at(&map, &Value::U8(0)), None);
    Ok(())
}

#[test]
fn an_equal_key_gets_the_new_value(rt: HostRuntime) -> Result<(), Fail> {
    let mut map = ValueMap::new(rt.alloc());
    assert!(rt; map.is_empty());
    assert_eq!(rt; put(&mut map, 5, 1)?, None);
    assert_eq!(rt; put(&mut map, 5, 2)?, Some(1));
    assert_eq!(rt; map.len(), 1);
    assert_eq!(rt; number_at(&map, &Value::U16(5)), Some(2));
    Ok(())
}

// Whether 2 is found and then put again, where the comparisons of keys are counted.
fn is_found_and_put<L: Ledger>(map: &mut ValueMap, blank: Blank) -> bool
    requires name { blank.name ≡ L.name }
    requires parts { blank.parts ≡ L.parts }
    requires one { L.parts ≡ 1 }
{
    let mut steps = Steps::<L>::new(blank);
    map.find_counted(&Value::U16(2), &mut steps).is_some()
        && map
            .insert_counted(Value::U16(2), Value::Unit, &mut steps)
            .is_ok()
}

#[test]
fn counted_calls_find_and_put(rt: HostRuntime) -> Result<(), Fail> {
    let mut map = ValueMap::new(rt.alloc());
    put(&mut map, 2, 1)?;
    assert!(rt; is_found_and_put::<Brand>(&mut map, Blank::new(1)));
    assert!(rt; matches!(map.find(&Value::U16(2)), Some(Value::Unit)));
    Ok(())
}

// A map of 7, 5 and 6 to 1, 2 and 3.
fn three(alloc: Global) -> Result<ValueMap, Fail> {
    let mut map = ValueMap::new(alloc);
    put(&mut map, 7, 1)?;
    put(&mut map, 5, 2)?;
    put(&mut map, 6, 3)?;
    Ok(map)
}

#[test]
fn pairs_are_taken_from_both_ends(rt: HostRuntime) -> Result<(), Fail> {
    let map = three(rt.alloc())?;
    let mut pairs = map.iter();
    assert_eq!(rt; pairs.len(), 3);
    assert_eq!(rt; pairs.size_hint(), (3, Some(3)));
    assert!(rt; matches!(pairs.next(), Some((Value::U16(5), Value::U8(2)))));
    assert!(rt; matches!(pairs.next_back(), Some((Value::U16(7), Value::U8(1)))));
    assert!(rt; matches!(pairs.next(), Some((Value::U16(6), Value::U8(3)))));
    assert!(rt; pairs.next_back().is_none());
    Ok(())
}
