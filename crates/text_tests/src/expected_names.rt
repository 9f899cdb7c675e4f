//! The names that an error says were expected.

use crate::checks::{named, says};
use data_core::{DeError, Names};
use data_items::Error;
use std::alloc::{AllocError, Global};
use std::test::Fail;

fn one(alloc: Global) -> Result<Names, AllocError> {
    named(alloc, Names::new(alloc), "a")
}

fn two(alloc: Global) -> Result<Names, AllocError> {
    named(alloc, one(alloc)?, "b")
}

fn three(alloc: Global) -> Result<Names, AllocError> {
    named(alloc, two(alloc)?, "c")
}

// The text of an unknown field, where these are known.
fn field(alloc: Global, names: Result<Names, AllocError>) -> Result<String, AllocError> {
    Error::unknown_field(alloc, "t", &names?).to_string(alloc)
}

// The text of an unknown variant, where these are known.
fn variant(alloc: Global, names: Result<Names, AllocError>) -> Result<String, AllocError> {
    Error::unknown_variant(alloc, "t", &names?).to_string(alloc)
}

#[test]
fn names_the_fields(rt: HostRuntime) -> Result<(), Fail> {
    let alloc = rt.alloc();
    let want = "unknown field `t`, there are no fields";
    says(&rt, field(alloc, Ok(Names::new(alloc))), want)?;
    says(
        &rt,
        field(alloc, one(alloc)),
        "unknown field `t`, expected `a`",
    )?;
    let want = "unknown field `t`, expected one of `a`, `b`, `c`";
    says(&rt, field(alloc, three(alloc)), want)
}

#[test]
fn names_the_variants(rt: HostRuntime) -> Result<(), Fail> {
    let alloc = rt.alloc();
    let want = "unknown variant `t`, there are no variants";
    says(&rt, variant(alloc, Ok(Names::new(alloc))), want)?;
    says(
        &rt,
        variant(alloc, two(alloc)),
        "unknown variant `t`, expected `a` or `b`",
    )
}
