//! Words that are no command, and that hold what separates words in a row.

use crate::endings::{NUMBER, ends};
use byte_streams::{MemorySink, MemorySource};
use std::alloc::{AllocError, Global};
use std::test::Fail;

// Whether a word is no command.
fn is_no_command(alloc: Global, word: &str) -> Result<bool, AllocError> {
    let mut source = MemorySource::new(alloc, NUMBER, 1024, &[])?;
    let mut sink = MemorySink::new(alloc, 12, 12, &[])?;
    ends(alloc, word, &mut source, &mut sink, (2, b""))
}

#[test]
fn a_word_that_only_begins_or_ends_as_a_command_is_none(rt: HostRuntime) -> Result<(), Fail> {
    assert!(rt; is_no_command(rt.alloc(), "")?);
    assert!(rt; is_no_command(rt.alloc(), "read ")?);
    assert!(rt; is_no_command(rt.alloc(), " read")?);
    assert!(rt; is_no_command(rt.alloc(), "read\t")?);
    Ok(())
}
