//! Data in a box, and data in a list.

use shape::{Data, DataHeld, DataItems};
use std::test::Fail;

#[test]
fn held_data_comes_back(rt: HostRuntime) -> Result<(), Fail> {
    let held = DataHeld::from_box(Box::new(rt.alloc(), Data::Unsigned(7))?);
    assert!(rt; matches!(held.get(), Data::Unsigned(7)));
    let held = DataHeld::from_box(held.into_box());
    assert!(rt; matches!(held.into_inner(), Data::Unsigned(7)));
    Ok(())
}

#[test]
fn items_come_back(rt: HostRuntime) -> Result<(), Fail> {
    let items = DataItems::from_vec(vec![in rt.alloc(); Data::Unit]?);
    assert!(rt; items.len() == 1 && !items.is_empty());
    assert!(rt; matches!(items.as_slice(), [Data::Unit]));
    assert!(rt; matches!(items.into_vec().as_slice(), [Data::Unit]));
    Ok(())
}
