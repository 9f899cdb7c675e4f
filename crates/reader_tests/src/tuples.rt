//! Tuples of one to four.

use crate::checks::{read, refusal, says};
use data_core::Scalar;
use std::test::Fail;

type Pair = (char, String);

#[test]
fn tuples_of_one_to_four(rt: HostRuntime) -> Result<(), Fail> {
    let alloc = rt.alloc();
    says(&rt, read::<(char,)>(alloc, &["a"]), "('a',)")?;
    says(&rt, read::<Pair>(alloc, &["a", "bc"]), "('a', \"bc\")")?;
    let three = read::<(char, String, char)>(alloc, &["a", "bc", "d"]);
    says(&rt, three, "('a', \"bc\", 'd')")?;
    let four = read::<(char, String, char, char)>(alloc, &["a", "bc", "d", "e"]);
    says(&rt, four, "('a', \"bc\", 'd', 'e')")
}

#[test]
fn tuples_of_another_length(rt: HostRuntime) -> Result<(), Fail> {
    let alloc = rt.alloc();
    let short = read::<Pair>(alloc, &["a"]);
    says(&rt, short, "invalid length 1, expected tuple")?;
    let long = read::<Pair>(alloc, &["a", "b", "c"]);
    says(&rt, long, "invalid length 3, expected 2")
}

#[test]
fn tuples_of_other_parts(rt: HostRuntime) -> Result<(), Fail> {
    let alloc = rt.alloc();
    let first = read::<Pair>(alloc, &["ab", "c"]);
    says(&rt, first, "invalid value: string \"ab\", expected char")?;
    let none = refusal::<Pair>(alloc, Scalar::Unit);
    says(&rt, none, "invalid type: unit value, expected tuple")
}
