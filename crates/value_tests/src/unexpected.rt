//! The texts of what a reader saw.

use crate::told::says;
use data_core::Unexpected as Lent;
use serde_value::Unexpected;
use std::alloc::{AllocError, Global};
use std::test::Fail;

// The text of the owned copy.
fn owned(alloc: Global, lent: Lent<'_>) -> Result<String, AllocError> {
    Unexpected::from_core(alloc, lent)?.to_string(alloc)
}

#[test]
fn texts_of_scalars(rt: HostRuntime) -> Result<(), Fail> {
    let alloc = rt.alloc();
    says(&rt, owned(alloc, Lent::Bool(true)), "boolean `true`")?;
    says(&rt, owned(alloc, Lent::Unsigned(1)), "integer `1`")?;
    says(&rt, owned(alloc, Lent::Signed(-1)), "integer `-1`")?;
    says(&rt, owned(alloc, Lent::Char('x')), "character `x`")?;
    says(
        &rt,
        owned(alloc, Lent::Str("a \"b\"")),
        r#"string "a \"b\"""#,
    )?;
    says(&rt, owned(alloc, Lent::Bytes(b"x")), "byte array")?;
    says(&rt, owned(alloc, Lent::Unit), "unit value")?;
    says(&rt, owned(alloc, Lent::Other("i128")), "i128")
}

#[test]
fn texts_of_parts(rt: HostRuntime) -> Result<(), Fail> {
    let alloc = rt.alloc();
    says(&rt, owned(alloc, Lent::Option), "Option value")?;
    says(&rt, owned(alloc, Lent::NewtypeStruct), "newtype struct")?;
    says(&rt, owned(alloc, Lent::Seq), "sequence")?;
    says(&rt, owned(alloc, Lent::Map), "map")?;
    says(&rt, owned(alloc, Lent::Enum), "enum")
}

#[test]
fn texts_of_variants(rt: HostRuntime) -> Result<(), Fail> {
    let alloc = rt.alloc();
    says(&rt, owned(alloc, Lent::UnitVariant), "unit variant")?;
    says(&rt, owned(alloc, Lent::NewtypeVariant), "newtype variant")?;
    says(&rt, owned(alloc, Lent::TupleVariant), "tuple variant")?;
    says(&rt, owned(alloc, Lent::StructVariant), "struct variant")
}

#[test]
fn a_text_goes_there_and_back(rt: HostRuntime) -> Result<(), Fail> {
    let owned = Unexpected::from_core(rt.alloc(), Lent::Str("x"))?;
    assert!(rt; matches!(owned.to_unexpected(), Lent::Str("x")));
    Ok(())
}
