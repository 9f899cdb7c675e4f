//! Pairs as the entries of a map, and as elements.

use crate::checks::{read, says};
use std::collections::BTreeMap;
use std::test::Fail;

type Letters = BTreeMap<char, char>;

#[test]
fn maps(rt: HostRuntime) -> Result<(), Fail> {
    let alloc = rt.alloc();
    says(&rt, read::<Letters>(alloc, &[]), "{}")?;
    let three = [("c", "d"), ("a", "b"), ("c", "e")];
    says(&rt, read::<Letters>(alloc, &three), "{'a': 'b', 'c': 'e'}")
}

#[test]
fn a_refused_key_and_a_refused_value(rt: HostRuntime) -> Result<(), Fail> {
    let alloc = rt.alloc();
    let key = read::<Letters>(alloc, &[("ab", "c")]);
    says(&rt, key, "invalid value: string \"ab\", expected char")?;
    let value = read::<Letters>(alloc, &[("a", "b"), ("c", "de")]);
    says(&rt, value, "invalid value: string \"de\", expected char")
}

#[test]
fn pairs_as_elements(rt: HostRuntime) -> Result<(), Fail> {
    let alloc = rt.alloc();
    let two = [("c", "d"), ("a", "b")];
    says(
        &rt,
        read::<Vec<(char, char)>>(alloc, &two),
        "[('c', 'd'), ('a', 'b')]",
    )
}
