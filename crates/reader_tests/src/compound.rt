//! Lists, boxes and options.

use crate::checks::{answer, read, refusal, says, scalar, texts, visited};
use data_core::{Scalar, Shown};
use std::alloc::{AllocError, Global};
use std::test::Fail;

// What is read as an option of a list, where these are there.
fn there(alloc: Global, items: &[&str]) -> Result<String, AllocError> {
    let shown = Shown::Some(texts(alloc, items)?);
    answer(alloc, visited::<Option<Vec<char>>>(alloc, shown))
}

// What is read as an option of a list, where a sequence is shown.
fn bare(alloc: Global, items: &[&str]) -> Result<String, AllocError> {
    read::<Option<Vec<char>>>(alloc, items)
}

#[test]
fn lists(rt: HostRuntime) -> Result<(), Fail> {
    let alloc = rt.alloc();
    says(&rt, read::<Vec<char>>(alloc, &[]), "[]")?;
    says(&rt, read::<Vec<char>>(alloc, &["a", "b"]), "['a', 'b']")?;
    let second = read::<Vec<char>>(alloc, &["a", "bc"]);
    says(&rt, second, "invalid value: string \"bc\", expected char")?;
    let none = refusal::<Vec<char>>(alloc, Scalar::U8(1));
    says(&rt, none, "invalid type: integer `1`, expected seq")
}

#[test]
fn boxes(rt: HostRuntime) -> Result<(), Fail> {
    let alloc = rt.alloc();
    says(
        &rt,
        answer(alloc, scalar::<Box<u8>>(alloc, Scalar::U64(255))),
        "255",
    )?;
    let large = refusal::<Box<u8>>(alloc, Scalar::U16(256));
    says(&rt, large, "invalid value: integer `256`, expected u8")
}

#[test]
fn options_of_nothing(rt: HostRuntime) {
    let alloc = rt.alloc();
    assert!(rt; matches!(scalar::<Option<Vec<char>>>(alloc, Scalar::None), Ok(None)));
    assert!(rt; matches!(scalar::<Option<Vec<char>>>(alloc, Scalar::Unit), Ok(None)));
}

#[test]
fn options_of_something(rt: HostRuntime) -> Result<(), Fail> {
    let alloc = rt.alloc();
    says(&rt, there(alloc, &["a"]), "Some(['a'])")?;
    says(
        &rt,
        there(alloc, &["ab"]),
        "invalid value: string \"ab\", expected char",
    )?;
    says(
        &rt,
        bare(alloc, &["a"]),
        "invalid type: sequence, expected option",
    )
}
