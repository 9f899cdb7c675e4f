//! The variants of an enum.

use crate::shapes::{add, newtype_variant};
use shape::{VariantShape, Variants};
use std::alloc::{AllocError, Global};
use std::test::Fail;

#[test]
fn no_variants(rt: HostRuntime) {
    let none = Variants::new(rt.alloc());
    assert!(rt; none.is_empty());
    assert_eq!(rt; none.find("A"), None);
}

// A variant A of a number, one B, and another A, which is never meant.
fn three(alloc: Global) -> Result<Variants, AllocError> {
    let two = add(alloc, newtype_variant(alloc)?, "B", VariantShape::Unit)?;
    add(alloc, two, "A", VariantShape::Unit)
}

#[test]
fn variants_are_added_at_the_end(rt: HostRuntime) -> Result<(), Fail> {
    let variants = three(rt.alloc())?;
    assert_eq!(rt; variants.len(), 3);
    assert_eq!(rt; variants.names().get(1), Some("B"));
    assert!(rt;
        matches!(
            variants.shapes(),
            [
                VariantShape::Newtype(_),
                VariantShape::Unit,
                VariantShape::Unit
            ]
        )
    );
    assert!(rt; matches!(variants.shape(1), Some(VariantShape::Unit)));
    assert_eq!(rt; variants.find("A"), Some(0));
    assert_eq!(rt; variants.find("B"), Some(1));
    Ok(())
}
