//! The fields of a struct.

use crate::shapes::field;
use data_core::Text;
use shape::{Fields, Shape};
use std::test::Fail;

#[test]
fn no_fields(rt: HostRuntime) {
    let none = Fields::new(rt.alloc());
    assert!(rt; none.is_empty());
    assert_eq!(rt; none.find("a"), None);
}

#[test]
fn fields_are_added_at_the_end(rt: HostRuntime) -> Result<(), Fail> {
    let mut fields = field(rt.alloc())?;
    let name = Text::new(rt.alloc(), "b")?;
    assert!(rt; fields.push(name, Shape::U16).is_ok());
    assert_eq!(rt; fields.len(), 2);
    assert_eq!(rt; fields.names().get(1), Some("b"));
    assert!(rt; matches!(fields.shapes(), [Shape::U8, Shape::U16]));
    assert!(rt; matches!(fields.shape(1), Some(Shape::U16)));
    assert_eq!(rt; fields.find("b"), Some(1));
    Ok(())
}
