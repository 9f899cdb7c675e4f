//! Booleans, units, characters and texts.

use crate::checks::{answer, refusal, says, scalar};
use data_core::Scalar;
use std::alloc::{AllocError, Global};
use std::test::Fail;

type Shown = Scalar<String, Vec<u8>>;

fn text(alloc: Global, text: &str) -> Result<Shown, AllocError> {
    Ok(Scalar::Text(String::from_str(alloc, text)?))
}

fn bytes(alloc: Global, bytes: &[u8]) -> Result<Shown, AllocError> {
    Ok(Scalar::Bytes(Vec::from_slice(alloc, bytes)?))
}

// The character that is read, or why none is.
fn character(alloc: Global, shown: Result<Shown, AllocError>) -> Result<String, AllocError> {
    answer(alloc, scalar::<char>(alloc, shown?))
}

// The text that is read, or why none is.
fn string(alloc: Global, shown: Result<Shown, AllocError>) -> Result<String, AllocError> {
    answer(alloc, scalar::<String>(alloc, shown?))
}

#[test]
fn booleans(rt: HostRuntime) -> Result<(), Fail> {
    let alloc = rt.alloc();
    assert!(rt; matches!(scalar::<bool>(alloc, Scalar::Bool(true)), Ok(true)));
    let integer = refusal::<bool>(alloc, Scalar::U8(1));
    says(&rt, integer, "invalid type: integer `1`, expected bool")
}

#[test]
fn units(rt: HostRuntime) -> Result<(), Fail> {
    let alloc = rt.alloc();
    assert!(rt; scalar::<()>(alloc, Scalar::Unit).is_ok());
    let absent = refusal::<()>(alloc, Scalar::None);
    says(&rt, absent, "invalid type: Option value, expected unit")
}

#[test]
fn characters(rt: HostRuntime) -> Result<(), Fail> {
    let alloc = rt.alloc();
    says(&rt, character(alloc, Ok(Scalar::Char('ß'))), "'ß'")?;
    says(&rt, character(alloc, text(alloc, "ß")), "'ß'")?;
    let two = character(alloc, text(alloc, "ab"));
    says(&rt, two, "invalid value: string \"ab\", expected char")?;
    let none = character(alloc, Ok(Scalar::U8(97)));
    says(&rt, none, "invalid type: integer `97`, expected char")
}

#[test]
fn texts(rt: HostRuntime) -> Result<(), Fail> {
    let alloc = rt.alloc();
    says(&rt, string(alloc, text(alloc, "größer")), "\"größer\"")?;
    says(&rt, string(alloc, Ok(Scalar::Char('ß'))), "\"ß\"")?;
    let none = string(alloc, Ok(Scalar::Unit));
    says(&rt, none, "invalid type: unit value, expected text")
}

#[test]
fn texts_of_bytes(rt: HostRuntime) -> Result<(), Fail> {
    let alloc = rt.alloc();
    says(&rt, string(alloc, bytes(alloc, "ß".as_bytes())), "\"ß\"")?;
    let malformed = string(alloc, bytes(alloc, &[255]));
    says(&rt, malformed, "invalid value: byte array, expected text")
}
