//! Sources and sinks that fail.

use crate::endings::{ANSWER, NUMBER, ends};
use byte_streams::{MemorySink, MemorySource};
use std::alloc::{AllocError, Global};
use std::test::Fail;

// How a source that fails at its second call ends the command.
fn ends_by_its_source(alloc: Global, status: u8, written: &[u8]) -> Result<bool, AllocError> {
    let mut source = MemorySource::new(alloc, NUMBER, 4, &[2])?;
    let mut sink = MemorySink::new(alloc, 12, 5, &[])?;
    ends(alloc, "read", &mut source, &mut sink, (status, written))
}

// How a sink of this room that fails at these calls ends the command.
fn ends_by_its_sink(
    alloc: Global,
    room: usize,
    fails: &[u64],
    status: u8,
    written: &[u8],
) -> Result<bool, AllocError> {
    let mut source = MemorySource::new(alloc, NUMBER, 4, &[])?;
    let mut sink = MemorySink::new(alloc, room, 5, fails)?;
    ends(alloc, "read", &mut source, &mut sink, (status, written))
}

#[test]
fn tells_a_fault_of_the_source(rt: HostRuntime) -> Result<(), Fail> {
    assert!(rt; ends_by_its_source(rt.alloc(), 4, b"")?);
    Ok(())
}

#[test]
fn tells_a_fault_of_the_sink(rt: HostRuntime) -> Result<(), Fail> {
    assert!(rt; ends_by_its_sink(rt.alloc(), 12, &[2], 5, b"{\"val")?);
    Ok(())
}

#[test]
fn tells_a_sink_that_is_full(rt: HostRuntime) -> Result<(), Fail> {
    assert!(rt; ends_by_its_sink(rt.alloc(), 11, &[], 5, b"{\"value\":7}")?);
    assert!(rt; ends_by_its_sink(rt.alloc(), 12, &[], 0, ANSWER)?);
    Ok(())
}
