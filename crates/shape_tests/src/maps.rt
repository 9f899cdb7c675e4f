//! Maps of data.
ghost use Rattle.std.specs.Prelude.{◌≡◌};

use crate::rising::{map, put};
use shape::{Data, DataMap};
use sorted_pairs::Steps;
use std::alloc::{AllocError, Global};
use std::marker::Brand;
use std::sync::ledger::{Blank, Ledger};
use std::test::Fail;

// A map of 3, 1 and 2 to 30, 10 and 20.
fn three(alloc: Global) -> Result<DataMap, AllocError> {
    put(put(map(alloc, 3, 30)?, 1, 10)?, 2, 20)
}

#[test]
fn an_equal_key_gets_the_new_value(rt: HostRuntime) -> Result<(), Fail> {
    let mut map = three(rt.alloc())?;
    let old = map.insert(Data::Unsigned(2), Data::Signed(21));
    assert!(rt; matches!(old, Ok(Some(Data::Signed(20)))));
    assert!(rt; map.len() == 3 && !map.is_empty());
    assert!(rt; map.find(&Data::Unsigned(2)) == Some(&Data::Signed(21)));
    assert!(rt; map.find(&Data::Signed(2)).is_none());
    Ok(())
}

#[test]
fn pairs_are_taken_by_rising_key(rt: HostRuntime) -> Result<(), Fail> {
    let map = three(rt.alloc())?;
    let mut pairs = map.iter();
    assert_eq!(rt; pairs.len(), 3);
    assert!(rt; pairs.next() == Some((&Data::Unsigned(1), &Data::Signed(10))));
    assert_eq!(rt; pairs.size_hint(), (2, Some(2)));
    assert!(rt; pairs.next() == Some((&Data::Unsigned(2), &Data::Signed(20))));
    Ok(())
}

// How many pairs a `for` goes over.
fn pairs_in(map: &DataMap) -> usize {
    let mut count = 0usize;
    for (_, _) in map {
        count = count.saturating_add(1);
    }
    count
}

#[test]
fn a_loop_goes_over_each_pair(rt: HostRuntime) -> Result<(), Fail> {
    let map = three(rt.alloc())?;
    assert_eq!(rt; pairs_in(&map), 3);
    Ok(())
}

// Whether 2 is found and then put again, where the comparisons of keys are counted.
fn is_found_and_put<L: Ledger>(map: &mut DataMap, blank: Blank) -> bool
    requires name { blank.name ≡ L.name }
    requires parts { blank.parts ≡ L.parts }
    requires one { L.parts ≡ 1 }
{
    let mut steps = Steps::<L>::new(blank);
    map.find_counted(&Data::Unsigned(2), &mut steps).is_some()
        && map
            .insert_counted(Data::Unsigned(2), Data::Unit, &mut steps)
            .is_ok()
}

#[test]
fn counted_calls_find_and_put(rt: HostRuntime) -> Result<(), Fail> {
    let mut map = three(rt.alloc())?;
    assert!(rt; is_found_and_put::<Brand>(&mut map, Blank::new(1)));
    assert!(rt; map.find(&Data::Unsigned(2)) == Some(&Data::Unit));
    Ok(())
}
