//! Data, their maps and payloads in order.

use crate::rising::{DATA, rising};
use std::alloc::{AllocError, Global};
use std::cmp::Ordering;
use std::test::Fail;

// How the data at two places compare.
fn compared(alloc: Global, first: usize, second: usize) -> Result<Ordering, AllocError> {
    match (rising(alloc, first), rising(alloc, second)) {
        (Ok(first), Ok(second)) => Ok(first.cmp(&second)),
        _ => Err(AllocError),
    }
}

#[test]
fn data_rise_by_variant_and_then_by_what_they_hold(rt: HostRuntime) -> Result<(), Fail> {
    for i in 0..DATA {
        for j in 0..DATA {
            assert_eq!(rt; compared(rt.alloc(), i, j)?, i.cmp(&j), "{i} and {j}");
        }
    }
    Ok(())
}
