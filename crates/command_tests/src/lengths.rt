//! The longest stream that is read, and one that is longer.

use crate::endings::reads;
use std::alloc::{AllocError, Global};
use std::test::Fail;

// Whether a stream of so many spaces ends the command so. Nothing is written.
fn spaces_end(alloc: Global, length: usize, status: u8) -> Result<bool, AllocError> {
    let spaces = vec![in alloc; b' '; length]?;
    reads(alloc, spaces.as_slice(), status, b"")
}

#[test]
fn refuses_a_stream_that_is_too_long(rt: HostRuntime) -> Result<(), Fail> {
    assert!(rt; spaces_end(rt.alloc(), 16_777_216, 3)?);
    assert!(rt; spaces_end(rt.alloc(), 16_777_217, 7)?);
    Ok(())
}
