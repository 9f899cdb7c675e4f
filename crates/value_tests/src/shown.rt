//! What trees show.

use crate::told::says;
use crate::trees::{Tree, held, map, text, two, two_pairs};
use data_core::{Deserializer, Hint, Names, Scalar, Shown};
use serde_value::Value;
use std::alloc::{AllocError, Global};
use std::test::Fail;

fn scalar_text(alloc: Global, scalar: Scalar<String, Vec<u8>>) -> Result<String, AllocError> {
    match scalar {
        Scalar::U8(n) => format!(in alloc; "u8 {n}"),
        Scalar::None => String::from_str(alloc, "none"),
        _ => String::from_str(alloc, "another scalar"),
    }
}

// A number or a text within what is shown.
fn within(alloc: Global, part: &str, tree: Value) -> Result<String, AllocError> {
    match tree {
        Value::U8(n) => format!(in alloc; "{part} u8 {n}"),
        Value::String(text) => format!(in alloc; "{part} {text}"),
        _ => format!(in alloc; "{part} another tree"),
    }
}

fn shown_text(alloc: Global, shown: Shown<Tree>) -> Result<String, AllocError> {
    match shown {
        Shown::Scalar(scalar) => scalar_text(alloc, scalar),
        Shown::Some(inside) => within(alloc, "some", inside.into_value()),
        Shown::NewtypeStruct(inside) => within(alloc, "newtype", inside.into_value()),
        Shown::Seq(elements) => format!(in alloc; "{:?} elements", Tree::elements_left(&elements)),
        Shown::Map(entries) => format!(in alloc; "{:?} entries", Tree::entries_left(&entries)),
        Shown::Enum(name, _) => within(alloc, "variant", name.into_value()),
    }
}

// What a tree shows for a hint, or its refusal.
fn shown(alloc: Global, tree: Value, hint: Hint<'_>) -> Result<String, AllocError> {
    match Tree::new(alloc, tree).show(hint) {
        Ok(shown) => shown_text(alloc, shown),
        Err(error) => error.to_string(alloc),
    }
}

#[test]
fn a_tree_is_shown_as_it_is(rt: HostRuntime) -> Result<(), Fail> {
    let alloc = rt.alloc();
    says(&rt, shown(alloc, Value::U8(5), Hint::Any), "u8 5")?;
    let newtype = Value::Newtype(held(alloc, Value::U8(6))?);
    says(&rt, shown(alloc, newtype, Hint::Any), "newtype u8 6")?;
    let elements = two(alloc, Value::U8(1), Value::U8(2))?;
    says(&rt, shown(alloc, elements, Hint::Any), "Some(2) elements")?;
    let entries = Value::Map(two_pairs(alloc)?);
    says(&rt, shown(alloc, entries, Hint::Any), "Some(2) entries")
}

#[test]
fn a_tree_is_shown_as_it_is_asked_for(rt: HostRuntime) -> Result<(), Fail> {
    let alloc = rt.alloc();
    says(&rt, shown(alloc, Value::U8(5), Hint::Option), "some u8 5")?;
    says(&rt, shown(alloc, Value::Option(None), Hint::Option), "none")?;
    let newtype = Hint::NewtypeStruct("N");
    says(&rt, shown(alloc, Value::U8(6), newtype), "newtype u8 6")?;
    let wide = "integers of 128 bits are not supported";
    says(&rt, shown(alloc, Value::U8(1), Hint::U128), wide)?;
    says(&rt, shown(alloc, Value::U8(1), Hint::I128), wide)
}

// What a tree shows as an enum.
fn shown_enum(alloc: Global, tree: Value) -> Result<String, AllocError> {
    let variants = Names::new(alloc);
    shown(alloc, tree, Hint::Enum("E", &variants))
}

#[test]
fn a_tree_is_shown_as_an_enum(rt: HostRuntime) -> Result<(), Fail> {
    let alloc = rt.alloc();
    says(&rt, shown_enum(alloc, text(alloc, "A")?), "variant A")?;
    let entry = map(alloc, text(alloc, "A")?, Value::Unit)?;
    says(&rt, shown_enum(alloc, Value::Map(entry)), "variant A")?;
    says(
        &rt,
        shown_enum(alloc, Value::U8(1)),
        "Invalid type integer `1`. Expected string or map",
    )?;
    says(
        &rt,
        shown_enum(alloc, Value::Map(two_pairs(alloc)?)),
        "Invalid value map. Expected map with a single key",
    )
}
