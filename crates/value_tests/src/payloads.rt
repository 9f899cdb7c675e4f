//! Variants of trees, and their payloads.

use crate::told::says;
use crate::trees::{Tree, map, text, two, two_pairs};
use data_core::{Deserializer, Hint, Names, Scalar, Shown};
use serde_value::{DeserializerError, Value, ValueVariant};
use std::alloc::{AllocError, Global};
use std::test::Fail;

type Variant = ValueVariant<DeserializerError>;

// The tree of a variant A, with a payload or none.
fn tree(alloc: Global, payload: Option<Value>) -> Result<Value, AllocError> {
    match payload {
        Some(payload) => Ok(Value::Map(map(alloc, text(alloc, "A")?, payload)?)),
        None => text(alloc, "A"),
    }
}

// The name that a tree shows as an enum, and the variant under way.
fn parts(alloc: Global, payload: Option<Value>) -> Result<(Tree, Variant), AllocError> {
    let variants = Names::new(alloc);
    let tree = Tree::new(alloc, tree(alloc, payload)?);
    match tree.show(Hint::Enum("E", &variants)) {
        Ok(Shown::Enum(name, variant)) => Ok((name, variant)),
        _ => Err(AllocError),
    }
}

// The variant under way.
fn variant(alloc: Global, payload: Option<Value>) -> Result<Variant, AllocError> {
    Ok(parts(alloc, payload)?.1)
}

// The text of a name.
fn name_text(alloc: Global) -> Result<String, AllocError> {
    let (name, mut variant) = parts(alloc, None)?;
    match Tree::show_name(&mut variant, name, Hint::Identifier) {
        Ok(Shown::Scalar(Scalar::Text(name))) => Ok(name),
        _ => Err(AllocError),
    }
}

#[test]
fn a_name_is_shown(rt: HostRuntime) -> Result<(), Fail> {
    says(&rt, name_text(rt.alloc()), "A")
}

fn unit_text(alloc: Global, payload: Option<Value>) -> Result<String, AllocError> {
    let mut variant = variant(alloc, payload)?;
    match Tree::unit_variant(alloc, &mut variant) {
        Ok(()) => String::from_str(alloc, "unit"),
        Err(error) => error.to_string(alloc),
    }
}

#[test]
fn a_payload_as_a_unit(rt: HostRuntime) -> Result<(), Fail> {
    let alloc = rt.alloc();
    says(&rt, unit_text(alloc, None), "unit")?;
    says(
        &rt,
        unit_text(alloc, Some(Value::U8(1))),
        "Invalid type integer `1`. Expected unit",
    )
}

fn newtype_text(alloc: Global, payload: Option<Value>) -> Result<String, AllocError> {
    let mut variant = variant(alloc, payload)?;
    match Tree::newtype_variant(alloc, &mut variant) {
        Ok(inside) => match inside.into_value() {
            Value::U8(n) => format!(in alloc; "u8 {n}"),
            _ => String::from_str(alloc, "another tree"),
        },
        Err(error) => error.to_string(alloc),
    }
}

#[test]
fn a_payload_as_a_newtype(rt: HostRuntime) -> Result<(), Fail> {
    let alloc = rt.alloc();
    says(&rt, newtype_text(alloc, Some(Value::U8(1))), "u8 1")?;
    says(
        &rt,
        newtype_text(alloc, None),
        "Invalid type unit variant. Expected newtype variant",
    )
}

fn tuple_text(alloc: Global, payload: Option<Value>) -> Result<String, AllocError> {
    let mut variant = variant(alloc, payload)?;
    match Tree::tuple_variant(alloc, &mut variant, 2) {
        Ok(elements) => format!(in alloc; "{:?} elements", Tree::elements_left(&elements)),
        Err(error) => error.to_string(alloc),
    }
}

#[test]
fn a_payload_as_a_tuple(rt: HostRuntime) -> Result<(), Fail> {
    let alloc = rt.alloc();
    let elements = two(alloc, Value::U8(1), Value::U8(2))?;
    says(&rt, tuple_text(alloc, Some(elements)), "Some(2) elements")?;
    says(
        &rt,
        tuple_text(alloc, None),
        "Invalid type unit variant. Expected tuple variant",
    )
}

// What a payload says of its end, where so many entries of it were taken.
fn struct_text(alloc: Global, payload: Option<Value>, taken: usize) -> Result<String, AllocError> {
    let fields = Names::new(alloc);
    let mut variant = variant(alloc, payload)?;
    match Tree::struct_variant(alloc, &mut variant, &fields) {
        Ok(entries) => end_text(alloc, entries, taken),
        Err(error) => error.to_string(alloc),
    }
}

fn end_text(
    alloc: Global,
    entries: <Tree as Deserializer>::Map,
    taken: usize,
) -> Result<String, AllocError> {
    let mut entries = entries;
    for _ in 0..taken {
        let _key = Tree::next_key(&mut entries);
    }
    match Tree::end_map(alloc, entries) {
        Ok(()) => String::from_str(alloc, "end"),
        Err(error) => error.to_string(alloc),
    }
}

#[test]
fn a_payload_as_a_struct(rt: HostRuntime) -> Result<(), Fail> {
    let alloc = rt.alloc();
    let entries = Value::Map(two_pairs(alloc)?);
    says(&rt, struct_text(alloc, Some(entries), 2), "end")?;
    says(
        &rt,
        struct_text(alloc, None, 0),
        "Invalid type unit variant. Expected struct variant",
    )
}

#[test]
fn the_end_of_a_struct_variant_is_checked(rt: HostRuntime) -> Result<(), Fail> {
    let alloc = rt.alloc();
    let entries = Value::Map(two_pairs(alloc)?);
    says(
        &rt,
        struct_text(alloc, Some(entries), 1),
        "Invalid length 2. Expected 1",
    )
}

#[test]
fn a_payload_is_taken_once(rt: HostRuntime) -> Result<(), Fail> {
    let alloc = rt.alloc();
    let mut variant = variant(alloc, None)?;
    assert!(rt; Tree::unit_variant(alloc, &mut variant).is_ok());
    match Tree::unit_variant(alloc, &mut variant) {
        Ok(()) => Err("taken twice".into()),
        Err(error) => says(&rt, error.to_string(alloc), "the payload was taken"),
    }
}
