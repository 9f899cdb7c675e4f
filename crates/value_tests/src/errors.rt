//! The texts and the faults of the errors of trees.

use crate::told::says;
use data_core::{DeError, Fault, Names, Text, Unexpected};
use serde_value::DeserializerError;
use std::alloc::{AllocError, Global};
use std::test::Fail;

fn two_names(alloc: Global) -> Result<Names, AllocError> {
    let mut names = Names::new(alloc);
    for name in ["a", "b"] {
        if names.push(Text::new(alloc, name)?).is_err() {
            return Err(AllocError);
        }
    }
    Ok(names)
}

fn type_text(alloc: Global) -> Result<String, AllocError> {
    let seen = Unexpected::Bool(true);
    DeserializerError::invalid_type(alloc, seen, "a text").to_string(alloc)
}

fn value_text(alloc: Global) -> Result<String, AllocError> {
    let seen = Unexpected::Str("x");
    DeserializerError::invalid_value(alloc, seen, "a date").to_string(alloc)
}

fn length_text(alloc: Global) -> Result<String, AllocError> {
    DeserializerError::invalid_length(alloc, 3, "a pair").to_string(alloc)
}

fn variant_text(alloc: Global) -> Result<String, AllocError> {
    DeserializerError::unknown_variant(alloc, "t", &two_names(alloc)?).to_string(alloc)
}

fn field_text(alloc: Global) -> Result<String, AllocError> {
    DeserializerError::unknown_field(alloc, "t", &two_names(alloc)?).to_string(alloc)
}

#[test]
fn texts_of_what_was_seen(rt: HostRuntime) -> Result<(), Fail> {
    let alloc = rt.alloc();
    says(
        &rt,
        type_text(alloc),
        "Invalid type boolean `true`. Expected a text",
    )?;
    says(
        &rt,
        value_text(alloc),
        "Invalid value string \"x\". Expected a date",
    )?;
    says(&rt, length_text(alloc), "Invalid length 3. Expected a pair")
}

#[test]
fn texts_of_names(rt: HostRuntime) -> Result<(), Fail> {
    let alloc = rt.alloc();
    says(
        &rt,
        variant_text(alloc),
        "Unknown variant t. Expected one of a, b",
    )?;
    says(
        &rt,
        field_text(alloc),
        "Unknown field t. Expected one of a, b",
    )?;
    let missing = DeserializerError::missing_field(alloc, "f");
    says(&rt, missing.to_string(alloc), "Missing field f")?;
    let duplicate = DeserializerError::duplicate_field(alloc, "f");
    says(&rt, duplicate.to_string(alloc), "Duplicate field f")
}

#[test]
fn texts_without_parts(rt: HostRuntime) -> Result<(), Fail> {
    let alloc = rt.alloc();
    let custom = DeserializerError::custom(alloc, "no");
    says(&rt, custom.to_string(alloc), "no")?;
    let memory = DeserializerError::memory();
    says(&rt, memory.to_string(alloc), "out of memory")
}

// The name of a duplicate field.
fn duplicate(alloc: Global, error: DeserializerError) -> Result<String, AllocError> {
    match error.into_fault() {
        Some(Fault::DuplicateField(name)) => String::from_str(alloc, name.as_str()),
        _ => String::from_str(alloc, "another fault"),
    }
}

#[test]
fn a_duplicate_field_stays_one(rt: HostRuntime) -> Result<(), Fail> {
    let alloc = rt.alloc();
    let error = DeserializerError::DuplicateField(Text::new(alloc, "a")?);
    says(&rt, duplicate(alloc, error.to_error(alloc)), "a")?;
    let error = DeserializerError::DuplicateField(Text::new(alloc, "a")?);
    says(&rt, duplicate(alloc, error.into_error(alloc)), "a")
}

#[test]
fn an_error_of_items_keeps_its_text(rt: HostRuntime) -> Result<(), Fail> {
    let alloc = rt.alloc();
    let custom = DeserializerError::from(data_items::Error::custom(alloc, "no"));
    says(&rt, custom.to_string(alloc), "no")?;
    let memory = DeserializerError::from(data_items::Error::memory());
    says(&rt, memory.to_string(alloc), "out of memory")
}
