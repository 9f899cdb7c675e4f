//! What shapes ask for, where it is a word of its own.

use data_core::Hint;
use shape::Shape;
use shape_read::hint;
use std::test::Fail;

#[test]
fn integers_ask_for_their_width(rt: HostRuntime) -> Result<(), Fail> {
    assert!(rt; matches!(hint(&Shape::U8), Hint::U8));
    assert!(rt; matches!(hint(&Shape::U16), Hint::U16));
    assert!(rt; matches!(hint(&Shape::U32), Hint::U32));
    assert!(rt; matches!(hint(&Shape::U64), Hint::U64));
    assert!(rt; matches!(hint(&Shape::I8), Hint::I8));
    assert!(rt; matches!(hint(&Shape::I16), Hint::I16));
    assert!(rt; matches!(hint(&Shape::I32), Hint::I32));
    assert!(rt; matches!(hint(&Shape::I64), Hint::I64));
    Ok(())
}

#[test]
fn scalars_ask_for_their_kind(rt: HostRuntime) -> Result<(), Fail> {
    assert!(rt; matches!(hint(&Shape::Bool), Hint::Bool));
    assert!(rt; matches!(hint(&Shape::Char), Hint::Char));
    assert!(rt; matches!(hint(&Shape::Text), Hint::String));
    assert!(rt; matches!(hint(&Shape::Bytes), Hint::ByteBuf));
    assert!(rt; matches!(hint(&Shape::Unit), Hint::Unit));
    Ok(())
}
