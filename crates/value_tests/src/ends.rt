//! Elements and entries of trees, and their ends.

use crate::told::says;
use crate::trees::{Tree, two, two_pairs};
use data_core::{Deserializer, Hint, Shown};
use serde_value::{DeserializerError, Value, ValueElements, ValueEntries};
use std::alloc::{AllocError, Global};
use std::test::Fail;

// The elements 1 and 2.
fn elements(alloc: Global) -> Result<ValueElements<DeserializerError>, AllocError> {
    let tree = two(alloc, Value::U8(1), Value::U8(2))?;
    match Tree::new(alloc, tree).show(Hint::Seq) {
        Ok(Shown::Seq(elements)) => Ok(elements),
        _ => Err(AllocError),
    }
}

// The number that is next among elements.
fn next_number(elements: &mut ValueElements<DeserializerError>) -> Option<u8> {
    match Tree::next_element(elements) {
        Ok(Some(element)) => match element.into_value() {
            Value::U8(number) => Some(number),
            _ => None,
        },
        _ => None,
    }
}

// The end of a sequence of two elements, of which one was taken.
fn end_of_elements(alloc: Global) -> Result<String, AllocError> {
    let mut elements = elements(alloc)?;
    let _first = next_number(&mut elements);
    match Tree::end_seq(alloc, elements) {
        Ok(()) => String::from_str(alloc, "end"),
        Err(error) => error.to_string(alloc),
    }
}

#[test]
fn an_element_that_is_left_is_refused(rt: HostRuntime) -> Result<(), Fail> {
    let alloc = rt.alloc();
    says(&rt, end_of_elements(alloc), "Invalid length 2. Expected 1")
}

// A map of 1 and of 2 to units.
fn entries(alloc: Global) -> Result<ValueEntries<DeserializerError>, AllocError> {
    let tree = Value::Map(two_pairs(alloc)?);
    match Tree::new(alloc, tree).show(Hint::Map) {
        Ok(Shown::Map(entries)) => Ok(entries),
        _ => Err(AllocError),
    }
}

// Whether the value of the first entry is the unit.
fn is_unit_first(entries: &mut ValueEntries<DeserializerError>) -> bool {
    match Tree::next_key(entries) {
        Ok(Some(_)) => match Tree::next_value(entries) {
            Ok(value) => matches!(value.into_value(), Value::Unit),
            Err(_) => false,
        },
        _ => false,
    }
}

#[test]
fn an_entry_that_is_left_is_passed_over(rt: HostRuntime) -> Result<(), Fail> {
    let mut entries = entries(rt.alloc())?;
    assert!(rt; is_unit_first(&mut entries));
    assert!(rt; Tree::end_map(rt.alloc(), entries).is_ok());
    Ok(())
}
