//! Shapes of older documents.

use crate::shapes::{field, one};
use data_core::Text;
use shape::{Shape, upgrade};
use std::test::Fail;

#[test]
fn tuples_are_prefixes(rt: HostRuntime) -> Result<(), Fail> {
    let tuple = Shape::Tuple(one(rt.alloc())?);
    assert!(rt; matches!(upgrade(tuple), Shape::Prefix(_)));
    let named = Shape::TupleStruct(Text::new(rt.alloc(), "P")?, one(rt.alloc())?);
    assert!(rt; matches!(upgrade(named), Shape::PrefixStruct(_, _)));
    Ok(())
}

#[test]
fn structs_are_loose(rt: HostRuntime) -> Result<(), Fail> {
    let fields = Shape::Struct(Text::new(rt.alloc(), "P")?, field(rt.alloc())?);
    assert!(rt; matches!(upgrade(fields), Shape::Loose(_, _)));
    let fields = Shape::Strict(Text::new(rt.alloc(), "P")?, field(rt.alloc())?);
    assert!(rt; matches!(upgrade(fields), Shape::Strict(_, _)));
    Ok(())
}
